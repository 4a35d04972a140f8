// A code among the codes before it.
ghost use Rattle.std.specs.Prelude.{◌≡◌, ℕ};
ghost use Rattle.labels.specs.Among.{standing_of, is_same, first_same};
ghost use Rattle.labels.specs.Kinds.{sameness_by};

use super::kind::Kind;
use super::no_value::NoValue;

// Whether two codes are one label: both have values, and these are equal.
pub fn are_same<K: Kind>(kind: &K, a: u32, b: u32) -> bool
    ensures { result ≡ is_same (sameness_by (K.meaning kind.now) a b) }
{
    kind.same(a, b) == Ok(true)
}

// The first of these codes that is the same label.
fn first_same<K: Kind>(kind: &K, earlier: &[u32], code: u32) -> Option<usize>
    ensures { result ≡ first_same (K.meaning kind.now) earlier.now 0 code }
{
    earlier
        .iter()
        .position(|before| are_same(kind, *before, code))
}

// The first of the codes before it that is the same label, or the fault that it has no value.
pub fn standing<K: Kind>(kind: &K, earlier: &[u32], code: u32) -> Result<Option<usize>, NoValue>
    ensures { result ≡ standing_of (K.meaning kind.now) earlier.now code }
{
    if !kind.known(code) {
        return Err(NoValue(code));
    }
    Ok(first_same(kind, earlier, code))
}
