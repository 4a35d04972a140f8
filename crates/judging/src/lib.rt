//! What the program does before it judges: the length of the input, the letter, the file of renames.
#![tactic(auto)]

ghost use Rattle.std.specs.Prelude.{◌≡◌, IfOk};
ghost use Rattle.labels.specs.Renames.{kind_below};
ghost use Rattle.judging.specs.Input.{input_answer, for_tags, code_in, codes_held, pair_in};
ghost use Rattle.judging.specs.Input.{renames_read, pairs_told};

pub mod files;
pub mod line;
pub mod stop;

use labels::pair::Pair;
use labels::renames::Renames;
use records::refusal::Refusal;
use std::alloc::{AllocError, Global};

// The most bytes that are judged.
pub const MOST_INPUT: usize = 65_535;

// The most pairs of a file.
const MOST_PAIRS: usize = 16;

// Whether an input of this length is judged at all.
pub fn check_input(length: usize) -> Result<(), Refusal>
    ensures { result ≡ input_answer length }
{
    if length > MOST_INPUT {
        Err(Refusal::InputLong)
    } else {
        Ok(())
    }
}

// Whether the input's header has the letter of tags.
pub fn is_for_tags(input: &[u8]) -> bool
    ensures { result ≡ for_tags input.now }
{
    matches!(input, [_, _, b'T', ..])
}

// The code of four bytes, highest first.
fn code_in(bytes: &[u8; 4]) -> u32
    ensures { result ≡ code_in bytes.now }
{
    u32::from_be_bytes(*bytes)
}

// The codes that these bytes hold, as far as they are whole.
pub fn read_codes(heap: Global, bytes: &[u8]) -> Result<Vec<u32>, AllocError>
    ensures { IfOk result (λ codes. codes.items ≡ codes_held bytes.now) }
{
    let (codes, _) = bytes.as_chunks();
    codes.iter().map(code_in).collect(heap)
}

// The pair of eight bytes: its old code, then its new one.
fn pair_in(bytes: &[u8; 8]) -> Pair
    ensures { result ≡ pair_in bytes.now }
{
    let [a, b, c, d, e, f, g, h] = *bytes;
    Pair {
        old: u32::from_be_bytes([a, b, c, d]),
        new: u32::from_be_bytes([e, f, g, h]),
    }
}

// A layer over a kind with the pairs of a file, in the file's order.
pub fn read_renames<K: Drop>(below: K, bytes: &[u8]) -> Result<Renames<K>, Refusal>
    ensures pairs { pairs_told result ≡ renames_read bytes.now }
    ensures below { IfOk result (λ layer. kind_below layer ≡ below) }
{
    let (pairs, rest) = bytes.as_chunks();
    if !rest.is_empty() || pairs.len() > MOST_PAIRS {
        return Err(Refusal::RenamesIll);
    }
    let mut layer = Renames::over(below);
    for bytes in pairs {
        let pair = pair_in(bytes);
        layer.rename(pair.old, pair.new)?;
    }
    Ok(layer)
}
