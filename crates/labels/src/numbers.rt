ghost use Rattle.std.specs.Prelude.{◌≡◌, ℕ};
ghost use Rattle.std.proofs.Math.Option.{Option};
ghost use Rattle.labels.specs.Kinds.{known_by, valued_by, sameness_by};
ghost use Rattle.labels.specs.Numbers.{number_value};

use super::kind::Kind;
use super::no_value::NoValue;

// The first code that is no number label.
const CODES: u32 = 1_000_000;

// The value of a code: the code itself.
fn value(code: u32) -> Result<u32, NoValue>
    ensures { result ≡ valued_by number_value code }
{
    if code < CODES {
        Ok(code)
    } else {
        Err(NoValue(code))
    }
}

// Numbers: the codes below a million, each its own value.
#[derive(Clone, Copy)]
pub struct Numbers;

// (The two answers are those of Tags, over another function: one body for both would need a trait of its own.)
impl Kind for Numbers {
    const LETTER: u8 = b'N';

    ghost LETTER = { 78 };

    ghost meaning = { λ _. number_value };

    fn known(&self, code: u32) -> bool {
        value(code).is_ok()
    }

    fn same(&self, a: u32, b: u32) -> Result<bool, NoValue> {
        Ok(value(a)? == value(b)?)
    }
}
