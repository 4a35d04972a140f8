ghost use Rattle.std.specs.Prelude.{◌≡◌, ℕ, List, Some, Option};
ghost use Rattle.records.specs.Refusals.{number_of, detail_of};
ghost use Rattle.judging.specs.Lines.{refused_line};

use records::refusal::Refusal;
use std::fmt;

// A refusal as it is printed: its number, the record that it came at, and its detail. (Printed by `Display`; the line of
// listing's is put into lent memory, where the proof by `write!` didn't close.)
#[derive(Clone, Copy)]
pub struct RefusedLine {
    pub number: u8,
    pub at: u32,
    pub detail: u64,
}

// A refusal by itself comes before any record is judged.
impl From<Refusal> for RefusedLine {
    ghost from_gives = { λ refusal line. line ≡ record { number = number_of refusal; at = 0; detail = detail_of refusal } };

    fn from(refusal: Refusal) -> RefusedLine {
        RefusedLine {
            number: refusal.number(),
            at: 0,
            detail: refusal.detail(),
        }
    }
}

impl fmt::Display for RefusedLine {
    ghost output = { λ x. Some (refused_line x.number x.at x.detail) };

    fn fmt<W: fmt::Write>(&self, f: &mut fmt::Formatter<W>) -> fmt::Result {
        let RefusedLine { number, at, detail } = *self;
        write!(f, "REFUSED {number} {at} {detail}")
    }
}
