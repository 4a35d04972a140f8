ghost use Rattle.std.specs.Prelude.{◌≡◌, ◌&&◌, ◌==◌};
ghost use Rattle.records.specs.Kinds.{operation_number, form_number};
ghost use Rattle.records.specs.Reading.{fact_said};
ghost use Rattle.records.specs.Tuples.{names};

use super::kinds::{Form, Operation};
use super::tuple::Tuple;

// A header: the kind's letter, and how many labels, free names, terms and constraints the sheet has.
#[derive(Clone, Copy, Debug, Default, PartialEq, Eq)]
pub struct Header {
    pub letter: u8,
    pub labels: u8,
    pub free: u8,
    pub terms: u8,
    pub constraints: u8,
}

// A term: its operation, its arity, and its operands. The operation is a number, as in the lent stores that other hands
// may write; `is` asks by `Operation`.
#[derive(Clone, Copy, Debug, Default, PartialEq, Eq)]
pub struct TermRow {
    pub op: u8,
    pub arity: u8,
    pub a: u8,
    pub b: u8,
    pub c: u8,
    pub d: u8,
}

impl TermRow {
    // Whether the row has this operation.
    pub fn is(self, operation: Operation) -> bool
        ensures { result ≡ (self.op == operation_number operation) }
    {
        self.op == operation as u8
    }
}

// A constraint as its record has it, before any test: the form and the sign are bytes.
#[derive(Clone, Copy, Debug, Default, PartialEq, Eq)]
pub struct ConstraintRow {
    pub form: u8,
    pub sign: u8,
    pub term: u8,
    pub a: u8,
    pub b: u8,
    pub c: u8,
    pub d: u8,
}

// A fact, and so a constraint that was granted. Form 1: the names a, b, .. are in the term; form 2: a and b
// are equal; form 3: the term equals the term numbered a. The form is a number and the names are four fields, as in the
// lent stores; `is` asks by `Form`.
#[derive(Clone, Copy, Debug, Default, PartialEq, Eq)]
pub struct Fact {
    pub form: u8,
    pub positive: bool,
    pub term: u8,
    pub a: u8,
    pub b: u8,
    pub c: u8,
    pub d: u8,
}

impl Fact {
    // Whether the fact has this form.
    pub fn is(self, form: Form) -> bool
        ensures { result ≡ (self.form == form_number form) }
    {
        self.form == form as u8
    }

    // Whether the fact has this form and is positive.
    pub fn affirms(self, form: Form) -> bool
        ensures { result ≡ (self.form == form_number form && self.positive) }
    {
        self.is(form) && self.positive
    }
}

// The fact that a constraint row says, where its sign is 0 or 1.
impl From<ConstraintRow> for Fact {
    ghost from_gives = { λ row fact. fact ≡ fact_said row };

    fn from(row: ConstraintRow) -> Fact {
        Fact {
            form: row.form,
            positive: row.sign == 1,
            term: row.term,
            a: row.a,
            b: row.b,
            c: row.c,
            d: row.d,
        }
    }
}

// The names of a fact.
impl From<Fact> for Tuple {
    ghost from_gives = { λ fact tuple. tuple ≡ names fact.a fact.b fact.c fact.d };

    fn from(fact: Fact) -> Tuple {
        Tuple::new(fact.a, fact.b, fact.c, fact.d)
    }
}

// The names of a singleton's row.
impl From<TermRow> for Tuple {
    ghost from_gives = { λ row tuple. tuple ≡ names row.a row.b row.c row.d };

    fn from(row: TermRow) -> Tuple {
        Tuple::new(row.a, row.b, row.c, row.d)
    }
}

// The fields of a step: the rule's number, two facts, and two more that a rule may mention.
#[derive(Clone, Copy, Debug, Default, PartialEq, Eq)]
pub struct Step {
    pub rule: u8,
    pub p: u16,
    pub q: u16,
    pub t: u8,
    pub w: u8,
}
