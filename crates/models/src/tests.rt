ghost use Rattle.std.specs.Prelude.{◌≤◌, length};

use super::branch::{Branch, Model};
use super::check_model;
use labels::numbers::Numbers;
use records::refusal::Refusal;
use records::rows::{Fact, TermRow};
use records::tuple::Tuple;

// What is in the store at first.
const NO_TUPLE: Tuple = Tuple {
    a: 9,
    b: 9,
    c: 9,
    d: 9,
};

// The number of a refusal, and its detail: what a user sees is what is tested.
fn refusal(answer: Result<(), Refusal>) -> (u8, u64) {
    match answer {
        Ok(()) => (0, 0),
        Err(e) => (e.number(), e.detail()),
    }
}

// The fact that a name is in term 0, or is not.
fn in_first(positive: bool, name: u8) -> Fact {
    Fact {
        form: 1,
        positive,
        term: 0,
        a: name,
        b: 0,
        c: 0,
        d: 0,
    }
}

// A row without the last two operands.
fn row(op: u8, arity: u8, a: u8, b: u8) -> TermRow {
    TermRow {
        op,
        arity,
        a,
        b,
        c: 0,
        d: 0,
    }
}

// The refusal of a model of so many names, with these representatives, on a branch.
fn refused(branch: Branch, tuples: &mut [Tuple], count: u8, representatives: &[u8]) -> (u8, u64)
    requires { 4096 ≤ length tuples.old }
{
    let model = Model {
        count,
        representatives,
    };
    refusal(check_model(&Numbers, &branch, tuples, &model))
}

#[test]
fn representatives_come_first(rt: HostRuntime) {
    let mut tuples = [NO_TUPLE; 4096];
    let terms = [row(0, 1, 0, 0)];
    let facts = [in_first(true, 0), in_first(false, 0)];
    let branch = Branch {
        labels: &[7, 9],
        terms: &terms,
        facts: &facts,
        constraints: 2,
        names: 2,
    };
    let alike = Branch {
        labels: &[7, 7],
        terms: &terms,
        facts: &facts,
        constraints: 2,
        names: 2,
    };
    let one = Branch {
        labels: &[7, 9],
        terms: &terms,
        facts: &facts,
        constraints: 1,
        names: 2,
    };
    let t = &mut tuples;
    assert_eq!(rt; refused(branch, t, 1, &[0]), (17, 255));
    assert_eq!(rt; refused(branch, t, 2, &[1, 1]), (17, 0));
    assert_eq!(rt; refused(branch, t, 2, &[0, 0]), (17, 1));
    assert_eq!(rt; refused(alike, t, 2, &[0, 1]), (17, 1));
    assert_eq!(rt; refused(branch, t, 2, &[0, 1]), (19, 1));
    assert_eq!(rt; refused(one, t, 2, &[0, 1]), (0, 0));
}

#[test]
fn seven_names_fit_and_eight_do_not(rt: HostRuntime) {
    let mut tuples = [NO_TUPLE; 4096];
    let terms = [row(0, 1, 0, 0), row(7, 2, 0, 0), row(7, 4, 1, 1)];
    let facts = [
        in_first(true, 0),
        in_first(true, 1),
        in_first(true, 2),
        in_first(true, 3),
        in_first(true, 4),
        in_first(true, 5),
        in_first(true, 6),
        in_first(true, 7),
    ];
    let branch = Branch {
        labels: &[],
        terms: &terms,
        facts: &facts,
        constraints: 8,
        names: 8,
    };
    let t = &mut tuples;
    assert_eq!(rt; refused(branch, t, 8, &[0, 1, 2, 3, 4, 5, 6, 6]), (0, 0));
    assert_eq!(rt; refused(branch, t, 8, &[0, 1, 2, 3, 4, 5, 6, 7]), (18, 0));
}
