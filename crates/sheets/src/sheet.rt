ghost use Rattle.std.specs.Prelude.{◌+◌, ◌≤◌};

pub mod sealing;
pub mod work;

use crate::sizes::Sizes;

// The numbers of a sheet: how many of each it is to have, and how many labels, terms and constraints are in.
// It is moved, never copied and never let go.
pub struct Sheet {
    sizes: Sizes,
    labels_in: u8,
    terms_in: u8,
    constraints_in: u8,
    ghost names_few: { sizes.labels + sizes.free ≤ 32 },
    ghost terms_few: { sizes.terms ≤ 64 },
    ghost constraints_few: { sizes.constraints ≤ 128 },
    ghost labels_whole: { labels_in ≤ sizes.labels },
    ghost terms_whole: { terms_in ≤ sizes.terms },
    ghost constraints_whole: { constraints_in ≤ sizes.constraints },
}
