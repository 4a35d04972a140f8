// The listing of a settled trial.
ghost use Rattle.std.specs.Prelude.{◌≡◌, ◌≤◌, true, length, is_ok, IfOk};
ghost use Rattle.calls.specs.Stores.{Enough};
ghost use Rattle.calls.specs.Listing.{written, lines_by, lines_of, list_of};
ghost use Rattle.records.specs.declared.verdict.Verdict.TheVariants.{Open};
ghost use Rattle.meaning.specs.Text.{text};
ghost use Rattle.stores.specs.View.{held};
ghost use Rattle.trials.specs.View.{settled_counts};

use super::Settled;
use listing::branch::Branch;
use listing::line::Line;
use listing::{list_line, list_open};
use records::refusal::Refusal;
use records::verdict::Verdict;
use stores::large_enough;
use stores::lent::Stores;

impl Settled {
    // The listing of a model.
    fn list_model(&self, stores: &Stores, out: &mut [u8]) -> Result<usize, Refusal>
        ensures lists { record { result = result; buffer = out.new } ≡ written out.old
            (text (lines_by Open (settled_counts self.now) (held stores.now))) }
        ensures within { IfOk result (λ n. n ≤ length out.old) }
        ensures fits { 24323 ≤ length out.old → is_ok result ≡ true }
    {
        let branch = Branch {
            granted: self.progress.granted,
            representatives: self.progress.representatives(stores.representatives),
            facts: self.progress.branch(stores.facts),
            terms: self.progress.rows(stores.terms),
        };
        list_open(out, &branch)
    }

    // The listing by the verdict.
    fn list_from(&self, stores: &Stores, out: &mut [u8]) -> Result<usize, Refusal>
        ensures lists { record { result = result; buffer = out.new } ≡ written out.old
            (text (lines_of (settled_counts self.now) (held stores.now))) }
        ensures within { IfOk result (λ n. n ≤ length out.old) }
        ensures fits { 24323 ≤ length out.old → is_ok result ≡ true }
    {
        match self.progress.verdict {
            Verdict::Undecided => Ok(0),
            Verdict::Closed => list_line(out, Line::Closed(self.progress.granted)),
            Verdict::Open => self.list_model(stores, out),
        }
    }

    // Writes the listing at the front of the buffer and answers its length; a buffer that is too short is left
    // alone, and the length needed is named. 24,323 bytes are never too short.
    pub fn list(&self, stores: &Stores, out: &mut [u8]) -> Result<usize, Refusal>
        ensures lists { record { result = result; buffer = out.new }
            ≡ list_of (settled_counts self.now) (held stores.now) out.old }
        ensures within { IfOk result (λ n. n ≤ length out.old) }
        ensures fits { Enough (held stores.now) → 24323 ≤ length out.old → is_ok result ≡ true }
    {
        if !large_enough(stores) {
            return Err(Refusal::StoresShort);
        }
        self.list_from(stores, out)
    }

    // Ends a settled trial.
    pub fn end(self) -> Verdict
        ensures { result ≡ (settled_counts self).verdict }
    {
        let Settled { progress } = self;
        progress.verdict
    }
}
