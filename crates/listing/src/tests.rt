use super::branch::Branch;
use super::line::Line;
use super::{list_line, list_open};
use records::refusal::Refusal;
use records::rows::{Fact, TermRow};

// The length that was written, or a million more than the length that is needed. (By casts: From does not go from usize
// to u64.)
fn length_of(answer: Result<usize, Refusal>) -> u64 {
    match answer {
        Ok(n) => n as u64,
        Err(Refusal::BufferShort(needed)) => 1_000_000 + (needed % 1_000_000) as u64,
        Err(_) => 0,
    }
}

fn fact(form: u8, positive: bool, term: u8, a: u8, b: u8) -> Fact {
    Fact {
        form,
        positive,
        term,
        a,
        b,
        c: 0,
        d: 0,
    }
}

fn row(op: u8, arity: u8) -> TermRow {
    TermRow {
        op,
        arity,
        a: 0,
        b: 0,
        c: 0,
        d: 0,
    }
}

// A refusal's line, and a buffer that is one byte too short for it.
#[test]
fn a_refusal_is_one_line(rt: HostRuntime) {
    let mut out = [7u8; 44];
    assert_eq!(rt;
        length_of(list_line(&mut out[0..14], Line::Refused(6, 3, 10))),
        1_000_015
    );
    assert!(rt; out == [7u8; 44]);
    assert_eq!(rt;
        length_of(list_line(
            &mut out,
            Line::Refused(255, 4_294_967_295, 18_446_744_073_709_551_615),
        )),
        44
    );
    assert!(rt; out == *b"REFUSED 255 4294967295 18446744073709551615\n");
}

// Names are listed by representative, an arity above 4 counts as 4, a name without representative is 0; facts
// that are negative, of another form, of another operation or of no term are not listed.
#[test]
fn a_model_lists_what_it_holds(rt: HostRuntime) {
    let mut out = [7u8; 54];
    let terms = [row(0, 2), row(3, 2), row(0, 9)];
    let facts = [
        fact(1, true, 0, 1, 0),
        fact(1, false, 0, 0, 0),
        fact(2, true, 0, 1, 0),
        fact(1, true, 1, 0, 0),
        fact(1, true, 3, 0, 0),
        fact(1, true, 2, 1, 200),
    ];
    assert_eq!(rt;
        length_of(list_open(
            &mut out,
            &Branch {
                granted: 12,
                representatives: &[0, 255],
                facts: &facts,
                terms: &terms,
            },
        )),
        54
    );
    assert!(rt; out == *b"OPEN 12\nname 0 0\nname 1 255\nin 0 255 0\nin 2 255 0 0 0\n");
}
