// What a step leaves: the outcome is taken up in the trial's counts and in the stores, or the step is denied.
ghost use Rattle.std.specs.Prelude.{◌≡◌, ◌<◌, ◌≤◌, IfOk};
ghost use Rattle.calls.specs.Stores.{Enough};
ghost use Rattle.calls.specs.RuleSteps.{counted, denied_once};
ghost use Rattle.stores.specs.View.{held, tuples_of, Same};
ghost use Rattle.trials.specs.View.{counts_of};
ghost use Rattle.trials.specs.Steps.{Ready, acted_at};

use crate::progress::Progress;
use crate::writes::{put_all, put_at};
use records::refusal::Refusal;
use records::verdict::Verdict;
use rules::outcome::Outcome;
use stores::lent::Stores;

impl Progress {
    // Counts a denied step, up to the most that the count holds.
    pub(crate) fn deny(&mut self)
        ensures { counts_of self.new ≡ denied_once (counts_of self.old) }
    {
        self.denied = self.denied.saturating_add(1);
    }

    // Counts a granted record, with the verdict and the counts of facts, names and forks then.
    pub(crate) fn grant(&mut self, verdict: Verdict, facts: u16, names: u8, forks: u8)
        requires { (self.old.granted < 1000000) × ((facts ≤ 1024) × ((names ≤ 64) × (forks ≤ 64))) }
        ensures { counts_of self.new
            ≡ counted (counts_of self.old) verdict facts names forks }
    {
        self.verdict = verdict;
        self.facts = facts;
        self.names = names;
        self.forks = forks;
        self.granted += 1;
    }

    // Takes up what a step came to, or counts its refusal; once there is a verdict, every step is denied.
    pub(crate) fn act(
        &mut self,
        stores: &mut Stores,
        outcome: Result<Outcome, Refusal>,
    ) -> Result<(), Refusal>
        requires { (Enough (held stores.old)) × (IfOk outcome (λ o. Ready (counts_of self.old) o)) }
        ensures all { record {
          result = result;
          trial = counts_of self.new;
          stores = held stores.new;
        }
            ≡ acted_at self.old.verdict (counts_of self.old) (held stores.old)
            outcome }
        ensures same { Same stores.old stores.new }
        ensures tuples { tuples_of stores.new ≡ tuples_of stores.old }
    {
        match (self.verdict, self.forks, outcome) {
            (Verdict::Undecided, forks, Ok(Outcome::Adds(grown))) => {
                put_all(stores.facts, self.facts, grown);
                self.grant(Verdict::Undecided, grown.facts, grown.names, forks);
                Ok(())
            }
            (Verdict::Undecided, forks, Ok(Outcome::Forks(grown, fork, left))) => {
                let end = usize::from(forks);
                put_at(stores.forks, end, end, fork);
                put_all(stores.facts, self.facts, grown);
                self.grant(Verdict::Undecided, grown.facts, grown.names, left);
                Ok(())
            }
            (Verdict::Undecided, forks, Ok(Outcome::Resumes(grown, fork, left))) => {
                let end = usize::from(forks);
                put_at(stores.forks, end, end - 1, fork);
                put_all(stores.facts, self.facts, grown);
                self.grant(Verdict::Undecided, grown.facts, grown.names, left);
                Ok(())
            }
            (Verdict::Undecided, forks, Ok(Outcome::Closes)) => {
                self.grant(Verdict::Closed, self.facts, self.names, forks);
                Ok(())
            }
            (Verdict::Undecided, _, Err(refusal)) => {
                self.deny();
                Err(refusal)
            }
            (Verdict::Closed, _, _) | (Verdict::Open, _, _) => {
                self.deny();
                Err(Refusal::VerdictReached)
            }
        }
    }
}
