ghost use Rattle.std.specs.Prelude.{◌≤◌, length};

use super::pair::Pair;
use arrayvec::ArrayVec;

pub mod work;

// A layer over any kind: at most 16 old codes that mean what their new ones mean below.
#[derive(Drop)]
pub struct Renames<K> {
    below: K,
    pairs: ArrayVec<Pair, 16>,
    ghost few: { length pairs.items ≤ 16 },
}
