//! The lines of a settled trial, and of a refusal, written at the front of a lent buffer. Where they do not fit,
//! nothing is written, and the refusal names the length that they need.
#![tactic(auto)]

ghost use Rattle.std.specs.Prelude.{◌≡◌, ◌≤◌, true, [], ◌∷◌, length, take, is_ok, IfOk, MatchResult};
ghost use Rattle.std.proofs.Math.Option.{some};
ghost use Rattle.meaning.specs.Text.{text};
ghost use Rattle.meaning.specs.Reading.{read_lines};
ghost use Rattle.calls.specs.Listing.{open_lines, written};
ghost use Rattle.listing.specs.Lines.{shown, most_of};

pub mod branch;
pub mod line;
mod page;
#[cfg(test)]
mod tests;

use branch::Branch;
use line::Line;
use page::fill;
use records::refusal::Refusal;

// The listing of a model after the granted records: the names with their representatives, then the tuples that
// facts put into variables. Its length, or the length that it needs: 24,323 bytes suffice for a million
// records, whatever the stores hold.
pub fn list_open(out: &mut [u8], branch: &Branch) -> Result<usize, Refusal>
    ensures lists { record { result = result; buffer = out.new } ≡ written out.old
        (text (open_lines branch.now.granted branch.now.representatives.now branch.now.terms.now
        branch.now.facts.now)) }
    ensures within { IfOk result (λ n. n ≤ length out.old) }
    ensures heard { MatchResult result
        (λ n. read_lines (take n out.new) ≡
        some (open_lines branch.now.granted branch.now.representatives.now branch.now.terms.now
        branch.now.facts.now))
        (λ e. Unit {0}) }
    ensures fits { branch.now.granted ≤ 1000000 → 24323 ≤ length out.old → is_ok result ≡ true }
{
    fill(out, branch)
}

// One line, as that of a closed trial or of a refusal: its length, or the length that it needs. 18 bytes
// suffice for the one, 44 for the other.
pub fn list_line(out: &mut [u8], line: Line) -> Result<usize, Refusal>
    ensures lists { record { result = result; buffer = out.new } ≡
        written out.old (text (shown line ∷ [])) }
    ensures within { IfOk result (λ n. n ≤ length out.old) }
    ensures heard { MatchResult result (λ n. read_lines (take n out.new) ≡ some (shown line ∷ []))
        (λ e. Unit {0}) }
    ensures fits { most_of line ≤ length out.old → is_ok result ≡ true }
{
    fill(out, &line)
}
