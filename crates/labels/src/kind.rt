ghost use Rattle.std.specs.Prelude.{◌≡◌, ℕ};
ghost use Rattle.std.proofs.Math.Option.{Option};
ghost use Rattle.labels.specs.Kinds.{known_by, sameness_by};

use super::no_value::NoValue;

// A kind of label: what codes mean, and a letter that a sheet names it by.
pub trait Kind {
    // The letter, one byte.
    const LETTER: u8;

    // The same letter, where a clause is to speak of it.
    ghost LETTER: { ℕ };

    // The kind's meaning: nothing or a whole number for each code.
    ghost meaning: { Self → ℕ → Option ℕ };

    // Whether the code has a value.
    fn known(&self, code: u32) -> bool
        ensures { result ≡ known_by (meaning self.now) code };

    // Whether two codes have the same value, or else the first that has none.
    fn same(&self, a: u32, b: u32) -> Result<bool, NoValue>
        ensures { result ≡ sameness_by (meaning self.now) a b };
}
