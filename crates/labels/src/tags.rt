ghost use Rattle.std.specs.Prelude.{◌≡◌, ℕ};
ghost use Rattle.std.proofs.Math.Option.{Option};
ghost use Rattle.labels.specs.Kinds.{known_by, valued_by, sameness_by};
ghost use Rattle.labels.specs.Tags.{tag_character, is_tag, raised_code, tag_value};

use super::kind::Kind;
use super::no_value::NoValue;

// Tags: codes of four characters, of which the small letters count as capitals.
#[derive(Clone, Copy)]
pub struct Tags;

// A capital or small letter, a digit or a hyphen.
fn is_tag_character(byte: u8) -> bool
    ensures { result ≡ tag_character byte }
{
    byte.is_ascii_alphanumeric() || byte == b'-'
}

// Whether the four bytes of a code are characters of a tag.
fn is_tag(code: u32) -> bool
    ensures { result ≡ is_tag code }
{
    let [a, b, c, d] = code.to_be_bytes();
    is_tag_character(a) && is_tag_character(b) && is_tag_character(c) && is_tag_character(d)
}

// The code with its small letters raised.
fn raise_code(code: u32) -> u32
    ensures { result ≡ raised_code code }
{
    let mut bytes = code.to_be_bytes();
    bytes.make_ascii_uppercase();
    u32::from_be_bytes(bytes)
}

// The value of a code: the code of its characters as capitals.
fn value(code: u32) -> Result<u32, NoValue>
    ensures { result ≡ valued_by tag_value code }
{
    if is_tag(code) {
        Ok(raise_code(code))
    } else {
        Err(NoValue(code))
    }
}

impl Kind for Tags {
    const LETTER: u8 = b'T';

    ghost LETTER = { 84 };

    ghost meaning = { λ _. tag_value };

    fn known(&self, code: u32) -> bool {
        value(code).is_ok()
    }

    fn same(&self, a: u32, b: u32) -> Result<bool, NoValue> {
        Ok(value(a)? == value(b)?)
    }
}
