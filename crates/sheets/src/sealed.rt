ghost use Rattle.std.specs.Prelude.{◌+◌, ◌≤◌};

use crate::sizes::Sizes;

// A full sheet, from which a trial begins. It is moved, never copied and never let go. (So it is more than its sizes,
// which anyone may copy.)
pub struct Sealed {
    pub(crate) sizes: Sizes,
    ghost names_few: { sizes.labels + sizes.free ≤ 32 },
    ghost terms_few: { sizes.terms ≤ 64 },
    ghost constraints_few: { sizes.constraints ≤ 128 },
}
