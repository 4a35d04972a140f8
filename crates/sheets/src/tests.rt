use super::sheet::Sheet;
use labels::numbers::Numbers;
use records::refusal::Refusal;
use records::rows::{Fact, TermRow};
use records::rule::Rule;
use records::tuple::Tuple;
use rules::outcome::Fork;
use std::process::Abort;
use std::test::Fail;
use stores::lent::Stores;
use stores::trail::entry;

// A refusal's number and detail, as a user sees them; zeros where there is none.
fn shown(answer: Result<(), Refusal>) -> (u8, u64) {
    answer.err().map_or((0, 0), |e| (e.number(), e.detail()))
}

// Three rows, as far as they are granted.
fn rows(
    sheet: &mut Sheet,
    stores: &mut Stores,
    a: &[u8],
    b: &[u8],
    c: &[u8],
) -> Result<(), Refusal> {
    sheet.add(&Numbers, stores, a)?;
    sheet.add(&Numbers, stores, b)?;
    sheet.add(&Numbers, stores, c)
}

// The answer to a header, and then to a seal.
fn header(stores: &Stores, bytes: &[u8]) -> (u8, u64) {
    match Sheet::make(&Numbers, stores, bytes) {
        Ok(sheet) => match sheet.seal(stores) {
            Ok(sealed) => {
                sealed.sizes();
                (0, 0)
            }
            Err((sheet, e)) => {
                sheet.give_up();
                shown(Err(e))
            }
        },
        Err(e) => shown(Err(e)),
    }
}

// The answer to three rows after a header.
fn three(stores: &mut Stores, header: &[u8], a: &[u8], b: &[u8], c: &[u8]) -> (u8, u64) {
    match Sheet::make(&Numbers, stores, header) {
        Ok(mut sheet) => {
            let answer = rows(&mut sheet, stores, a, b, c);
            sheet.give_up();
            shown(answer)
        }
        Err(e) => shown(Err(e)),
    }
}

fn headers(rt: &impl Abort, stores: &Stores) {
    assert_eq!(rt; header(stores, b"SXN\x00\x00\x00\x00"), (2, 0));
    assert_eq!(rt; header(stores, b"SHT\x21\x00\x00\x00"), (3, 84));
    assert_eq!(rt; header(stores, b"SHN\x14\x0d\x00\x00"), (4, 0));
    assert_eq!(rt; header(stores, b"SHN\x14\x0c\x00\x00"), (9, 20));
    assert_eq!(rt; header(stores, b"SHN\x00\x00\x41\x00"), (4, 0));
    assert_eq!(rt; header(stores, b"SHN\x00\x00\x40\x00"), (9, 64));
    assert_eq!(rt; header(stores, b"SHN\x00\x00\x00\x81"), (4, 0));
    assert_eq!(rt; header(stores, b"SHN\x00\x00\x00\x80"), (9, 128));
    assert_eq!(rt; header(stores, b"SHN\x00\x20\x00\x00"), (0, 0));
}

// The answer to a third term, after one of arity 1 and one of arity 2.
fn third_term(stores: &mut Stores, row: &[u8]) -> (u8, u64) {
    let unary = b"TM\x00\x01\x00\x00\x00\x00";
    let binary = b"TM\x00\x02\x00\x00\x00\x00";
    three(stores, b"SHN\x00\x02\x03\x00", unary, binary, row)
}

// The answer to a second constraint, with two names and one term of arity 1.
fn constraint(stores: &mut Stores, row: &[u8]) -> (u8, u64) {
    let term = b"TM\x00\x01\x00\x00\x00\x00";
    let first = b"CN\x02\x01\x00\x00\x01\x00\x00";
    three(stores, b"SHN\x00\x02\x01\x02", term, first, row)
}

fn in_order(rt: &impl Abort, stores: &mut Stores) -> Result<(), Fail> {
    let one_each = b"SHN\x01\x01\x01\x01";
    let label = b"LB\x00\x00\x00\x07";
    let unknown = b"LB\x00\x0f\x42\x40";
    let term = b"TM\x00\x01\x00\x00\x00\x00";
    let not_in = b"CN\x01\x00\x00\x01\x00\x00\x00";
    assert_eq!(rt; three(stores, one_each, term, label, not_in), (5, 0));
    assert_eq!(rt; three(stores, one_each, label, label, term), (5, 0));
    assert_eq!(rt; three(stores, one_each, label, not_in, term), (5, 0));
    assert_eq!(rt; three(stores, one_each, b"LB", term, not_in), (5, 0));
    let answer = three(stores, one_each, unknown, term, not_in);
    assert_eq!(rt; answer, (6, 1_000_000));
    assert_eq!(rt; three(stores, one_each, label, term, not_in), (0, 0));
    assert_eq!(rt; entry(stores.labels, 1, 0), Some(7));
    let Some(fact) = entry(stores.facts, 1, 0) else {
        return Err(Fail::new("no fact"));
    };
    assert!(rt; fact.form == 1 && !fact.positive && fact.a == 1);
    Ok(())
}

fn terms(rt: &impl Abort, stores: &mut Stores) {
    // variables: a byte that is not zero, and an arity past 4
    assert_eq!(rt; third_term(stores, b"TM\x00\x01\x00\x00\x00\x01"), (7, 2));
    assert_eq!(rt; third_term(stores, b"TM\x00\x05\x00\x00\x00\x00"), (7, 2));
    // singletons of two names: there are two
    assert_eq!(rt; third_term(stores, b"TM\x02\x02\x00\x01\x00\x00"), (0, 0));
    assert_eq!(rt; third_term(stores, b"TM\x02\x02\x00\x02\x00\x00"), (7, 2));
    // products: of terms before it
    assert_eq!(rt; third_term(stores, b"TM\x07\x03\x00\x01\x00\x00"), (0, 0));
    assert_eq!(rt; third_term(stores, b"TM\x07\x03\x00\x02\x00\x00"), (7, 2));
    // joins: of two terms of arity 1, and of one with one of arity 2
    assert_eq!(rt; third_term(stores, b"TM\x08\x01\x00\x00\x00\x00"), (7, 2));
    assert_eq!(rt; third_term(stores, b"TM\x08\x01\x00\x01\x00\x00"), (0, 0));
    // closures, and no operation
    assert_eq!(rt; third_term(stores, b"TM\x09\x02\x01\x00\x00\x00"), (0, 0));
    assert_eq!(rt; third_term(stores, b"TM\x0a\x02\x01\x00\x00\x00"), (7, 2));
}

fn constraints(rt: &impl Abort, stores: &mut Stores) {
    // the sign, a name and the term out of range; no form; a term that is not equal to itself
    assert_eq!(rt;
        constraint(stores, b"CN\x02\x02\x00\x00\x01\x00\x00"),
        (8, 1)
    );
    assert_eq!(rt;
        constraint(stores, b"CN\x02\x01\x00\x00\x02\x00\x00"),
        (8, 1)
    );
    assert_eq!(rt;
        constraint(stores, b"CN\x01\x01\x01\x00\x00\x00\x00"),
        (8, 1)
    );
    assert_eq!(rt;
        constraint(stores, b"CN\x04\x01\x00\x00\x00\x00\x00"),
        (8, 1)
    );
    assert_eq!(rt;
        constraint(stores, b"CN\x03\x00\x00\x00\x00\x00\x00"),
        (0, 0)
    );
}

fn all(rt: &impl Abort, stores: &mut Stores) -> Result<(), Fail> {
    headers(rt, stores);
    in_order(rt, stores)?;
    terms(rt, stores);
    constraints(rt, stores);
    Ok(())
}

fn short(rt: &impl Abort, stores: &Stores) -> Result<(), Fail> {
    assert_eq!(rt; header(stores, b"SHN\x00\x20\x00\x00"), (1, 0));
    Ok(())
}

// The stores that a test lends, with these labels.
fn lend(rt: &impl Abort, labels: &mut [u32], full: bool) -> Result<(), Fail> {
    let fork = Fork {
        facts: 0,
        names: 0,
        rule: Rule::Sym,
        p: 0,
        t: 0,
        next: 0,
    };
    let tuple = Tuple {
        a: 0,
        b: 0,
        c: 0,
        d: 0,
    };
    let mut terms = [TermRow::default(); 64];
    let mut facts = [Fact::default(); 1024];
    let mut forks = [fork; 64];
    let mut tuples = [tuple; 4096];
    let mut representatives = [0u8; 64];
    let mut stores = Stores {
        labels,
        terms: &mut terms,
        facts: &mut facts,
        forks: &mut forks,
        tuples: &mut tuples,
        representatives: &mut representatives,
    };
    if full {
        all(rt, &mut stores)
    } else {
        short(rt, &stores)
    }
}

#[test]
fn short_stores_are_refused(rt: HostRuntime) -> Result<(), Fail> {
    lend(&rt, &mut [0u32; 31], false)
}

#[test]
fn rows_come_in_by_what_is_due(rt: HostRuntime) -> Result<(), Fail> {
    lend(&rt, &mut [0u32; 32], true)
}
