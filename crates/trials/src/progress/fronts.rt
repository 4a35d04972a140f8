// What of the stores is in use, by the counts: the front of each.
ghost use Rattle.std.specs.Prelude.{◌≡◌, ◌-◌, take};
ghost use Rattle.std.specs.List.{slice_get};

use super::Progress;
use records::rows::{Fact, TermRow};
use rules::outcome::Fork;
use stores::trail::front;

impl Progress {
    // The label codes of the sheet.
    pub(crate) fn codes<'s>(&self, labels: &'s [u32]) -> &'s [u32]
        ensures { result.now ≡ take self.now.sizes.labels labels.now }
    {
        front(labels, usize::from(self.sizes.labels))
    }

    // The term rows of the sheet.
    pub(crate) fn rows<'s>(&self, terms: &'s [TermRow]) -> &'s [TermRow]
        ensures { result.now ≡ take self.now.sizes.terms terms.now }
    {
        front(terms, usize::from(self.sizes.terms))
    }

    // The facts of the branch, of which the sheet's constraints are the first.
    pub(crate) fn branch<'s>(&self, facts: &'s [Fact]) -> &'s [Fact]
        ensures { result.now ≡ take self.now.facts facts.now }
    {
        front(facts, usize::from(self.facts))
    }

    // The forks that are kept, the latest last.
    fn kept<'s>(&self, forks: &'s [Fork]) -> &'s [Fork]
        ensures { result.now ≡ take self.now.forks forks.now }
    {
        front(forks, usize::from(self.forks))
    }

    // The latest of them, if there is one.
    pub(crate) fn latest(&self, forks: &[Fork]) -> Option<Fork>
        ensures { result ≡ slice_get (take self.now.forks forks.now) (self.now.forks - 1) }
    {
        let last = usize::from(self.forks.saturating_sub(1));
        self.kept(forks).get(last).copied()
    }

    // The representatives of the branch's names, once there is a model.
    pub(crate) fn representatives<'s>(&self, representatives: &'s [u8]) -> &'s [u8]
        ensures { result.now ≡ take self.now.names representatives.now }
    {
        front(representatives, usize::from(self.names))
    }
}
