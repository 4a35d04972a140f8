//! The plain records that all layers share: what a byte record says, rows, facts, rules, verdicts, refusals.
#![tactic(auto)]

ghost use Rattle.std.specs.Prelude.{◌≡◌, ℕ};
ghost use Rattle.records.specs.Reading.{header_in, row_in, step_in, seen, code_from};
ghost use Rattle.records.specs.Refusals.{number_of, detail_of, room_number};
ghost use Rattle.records.specs.Verdicts.{reached_by};

pub mod kinds;
pub mod record;
pub mod refusal;
pub mod rows;
pub mod rule;
pub mod tuple;
pub mod verdict;

use record::{RowRecord, StepRecord};
use refusal::{Refusal, Room};
use rows::{ConstraintRow, Header, Step, TermRow};
use verdict::Verdict;

// The header that these bytes are, if they are one.
pub fn read_header(bytes: &[u8]) -> Option<Header>
    ensures { result ≡ header_in bytes.now }
{
    match bytes {
        [b'S', b'H', letter, labels, free, terms, constraints] => Some(Header {
            letter: *letter,
            labels: *labels,
            free: *free,
            terms: *terms,
            constraints: *constraints,
        }),
        _ => None,
    }
}

// The row that these bytes are, if they are one.
pub fn read_row(bytes: &[u8]) -> Option<RowRecord>
    ensures { result ≡ row_in bytes.now }
{
    match bytes {
        [b'L', b'B', a, b, c, d] => Some(RowRecord::Label(code_of(*a, *b, *c, *d))),
        [b'T', b'M', op, arity, a, b, c, d] => Some(RowRecord::Term(TermRow {
            op: *op,
            arity: *arity,
            a: *a,
            b: *b,
            c: *c,
            d: *d,
        })),
        [b'C', b'N', form, sign, term, a, b, c, d] => Some(RowRecord::Constraint(ConstraintRow {
            form: *form,
            sign: *sign,
            term: *term,
            a: *a,
            b: *b,
            c: *c,
            d: *d,
        })),
        _ => None,
    }
}

// The step that these bytes are, if they are one; a model's count is not yet held against its bytes.
pub fn read_step(bytes: &[u8]) -> Option<StepRecord<'_>>
    ensures { seen result ≡ step_in bytes.now }
{
    match bytes {
        [b'S', b'T', rule, p_high, p_low, q_high, q_low, t, w] => Some(StepRecord::Rule(Step {
            rule: *rule,
            p: u16::from_be_bytes([*p_high, *p_low]),
            q: u16::from_be_bytes([*q_high, *q_low]),
            t: *t,
            w: *w,
        })),
        [b'M', b'D', count, rest @ ..] => Some(StepRecord::Model(*count, rest)),
        _ => None,
    }
}

// A label code from its four bytes, highest first. (The library's conversion, under the name that clauses cite.)
pub fn code_of(a: u8, b: u8, c: u8, d: u8) -> u32
    ensures { result ≡ code_from a b c d }
{
    u32::from_be_bytes([a, b, c, d])
}

impl Room {
    // The detail of a refusal for want of it.
    fn detail(self) -> u8
        ensures { result ≡ room_number self }
    {
        self as u8
    }
}

impl Refusal {
    // The number that a user sees.
    pub fn number(self) -> u8
        ensures { result ≡ number_of self }
    {
        match self {
            Refusal::StoresShort => 1,
            Refusal::NotHeader => 2,
            Refusal::WrongLetter(_) => 3,
            Refusal::OverLimit => 4,
            Refusal::NotDue => 5,
            Refusal::UnknownLabel(_) => 6,
            Refusal::IllTerm(_) => 7,
            Refusal::IllConstraint(_) => 8,
            Refusal::RowsDue(_) => 9,
            Refusal::VerdictReached => 10,
            Refusal::NotStep => 11,
            Refusal::RecordsSpent => 12,
            Refusal::NoRule(_) => 13,
            Refusal::NotOnBranch(_) => 14,
            Refusal::NotMet => 15,
            Refusal::NoRoom(_) => 16,
            Refusal::Unlawful(_) => 17,
            Refusal::TuplesOver => 18,
            Refusal::ConstraintFalse(_) => 19,
            Refusal::NoVerdict => 20,
            Refusal::BufferShort(_) => 21,
            Refusal::PairsFull => 22,
            Refusal::OldHeld(_) => 23,
            Refusal::InputLong => 24,
            Refusal::RenamesIll => 25,
        }
    }

    // What the refusal names: 0 where it names nothing. (By name, as `number`: From for both would not tell them apart.)
    pub fn detail(self) -> u64
        ensures { result ≡ detail_of self }
    {
        match self {
            Refusal::WrongLetter(letter) => u64::from(letter),
            Refusal::UnknownLabel(code) => u64::from(code),
            Refusal::IllTerm(term) => u64::from(term),
            Refusal::IllConstraint(constraint) => u64::from(constraint),
            Refusal::RowsDue(rows) => u64::from(rows),
            Refusal::NoRule(rule) => u64::from(rule),
            Refusal::NotOnBranch(fact) => u64::from(fact),
            Refusal::NoRoom(room) => u64::from(room.detail()),
            Refusal::Unlawful(name) => u64::from(name),
            Refusal::ConstraintFalse(constraint) => u64::from(constraint),
            // by a cast: From does not go from usize to u64
            Refusal::BufferShort(needed) => needed as u64,
            Refusal::OldHeld(code) => u64::from(code),
            _ => 0,
        }
    }
}

impl Verdict {
    // Whether there is a verdict.
    pub fn reached(self) -> bool
        ensures { result ≡ reached_by self }
    {
        match self {
            Verdict::Undecided => false,
            Verdict::Closed | Verdict::Open => true,
        }
    }
}
