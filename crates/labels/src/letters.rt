// The letter of each kind: of the two concrete ones, and of a layer of renames over any kind.
ghost use Rattle.std.specs.Prelude.{◌≡◌};

use super::kind::Kind;
use super::numbers::Numbers;
use super::renames::Renames;
use super::tags::Tags;

// Numbers: N. (A function for each kind, whose clause pins its letter.)
pub fn numbers_letter() -> u8
    ensures { result ≡ 78 }
{
    <Numbers as Kind>::LETTER
}

// Tags: T.
pub fn tags_letter() -> u8
    ensures { result ≡ 84 }
{
    <Tags as Kind>::LETTER
}

// A layer takes over the letter of the kind below.
pub fn renamed_letter<K: Kind>() -> u8
    ensures { result ≡ K.LETTER }
{
    <Renames<K> as Kind>::LETTER
}
