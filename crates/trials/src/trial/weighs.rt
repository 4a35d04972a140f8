// A step by a model: it is weighed by reading and by the tuple store alone, and then acted on.
ghost use Rattle.std.specs.Prelude.{◌≡◌, ◌<◌, ◌≤◌, length, MatchResult};
ghost use Rattle.records.specs.Reading as reading;
ghost use Rattle.models.specs.Checks.{Answers};
ghost use Rattle.calls.specs.Stores.{Enough};
ghost use Rattle.calls.specs.RuleSteps.{at_most, codes_of, rows_of, branch_facts};
ghost use Rattle.calls.specs.Trials.{stepped_at};
ghost use Rattle.calls.specs.Views.{Whole};
ghost use Rattle.stores.specs.View.{held, Same};
ghost use Rattle.trials.specs.View.{counts_of};
ghost use Rattle.trials.specs.Steps.{weighed_at, answered};

use crate::progress::Progress;
use labels::kind::Kind;
use models::branch::{Branch, Model};
use models::check_model;
use records::refusal::Refusal;
use records::tuple::Tuple;
use stores::lent::Stores;

impl Progress {
    // A model checked against the fronts of the stores, with the tuple store lent apart.
    fn check<K: Kind>(
        &self,
        kind: &K,
        stores: &Stores,
        tuples: &mut [Tuple],
        model: &Model,
    ) -> Result<(), Refusal>
        requires room { 4096 ≤ length tuples.old }
        requires facts { 1024 ≤ length stores.now.facts.now }
        ensures { Answers (K.Kind.meaning kind.now)
            (codes_of (counts_of self.now) (held stores.now))
            (rows_of (counts_of self.now) (held stores.now))
            (branch_facts (counts_of self.now) (held stores.now))
            (at_most self.now.facts self.now.sizes.constraints) self.now.names
            model.now.count model.now.representatives.now result }
    {
        let constraints = self.facts.min(u16::from(self.sizes.constraints));
        let branch = Branch {
            labels: self.codes(stores.labels),
            terms: self.rows(stores.terms),
            facts: self.branch(stores.facts),
            constraints: usize::from(constraints),
            names: self.names,
        };
        check_model(kind, &branch, tuples, model)
    }

    // The answer to a model, on stores that are large enough; of these only the tuples are written.
    fn weigh<K: Kind>(&self, kind: &K, stores: &mut Stores, model: &Model) -> Result<(), Refusal>
        requires { Enough (held stores.old) }
        ensures answer { Whole (counts_of self.now) (held stores.old) → result ≡
            weighed_at self.now.verdict (K.Kind.meaning kind.now)
            (counts_of self.now) (held stores.old) model.now.count
            model.now.representatives.now }
        ensures few { MatchResult result
            (λ _. (length model.now.representatives.now ≤ 64) × (self.now.granted < 1000000))
            (λ _. Unit {0}) }
        ensures held { held stores.new ≡ held stores.old }
        ensures same { Same stores.old stores.new }
    {
        if self.verdict.reached() {
            return Err(Refusal::VerdictReached);
        }
        if model.representatives.len() != usize::from(model.count) {
            return Err(Refusal::NotStep);
        }
        if self.granted >= 1_000_000 {
            return Err(Refusal::RecordsSpent);
        }
        if model.count != self.names {
            return Err(Refusal::Unlawful(255));
        }
        // Tried without: no loan of the tuples is covered beside loans of other fields behind one `&mut`.
        let tuples = std::mem::replace(&mut stores.tuples, &mut []);
        let answer = self.check(kind, stores, tuples, model);
        stores.tuples = tuples;
        answer
    }

    // One step by a model, on stores that are large enough. A granted one brings the verdict OPEN; a refusal
    // leaves all as it was but for the count of denied steps and the tuples.
    pub(crate) fn step_model<K: Kind>(
        &mut self,
        kind: &K,
        stores: &mut Stores,
        model: &Model,
    ) -> Result<(), Refusal>
        requires { Enough (held stores.old) }
        ensures all { (Whole (counts_of self.old) (held stores.old) → record {
          result = result;
          trial = counts_of self.new;
          stores = held stores.new;
        }
            ≡ stepped_at self.old.verdict (K.Kind.meaning kind.now)
            (counts_of self.old) (held stores.old)
            (reading.model model.now.count model.now.representatives.now)) }
        ensures same { Same stores.old stores.new }
    {
        let answer = self.weigh(kind, stores, model);
        self.take_answer(stores, model, answer)
    }

    // Takes up a granted model, or counts its refusal.
    fn take_answer(
        &mut self,
        stores: &mut Stores,
        model: &Model,
        answer: Result<(), Refusal>,
    ) -> Result<(), Refusal>
        requires { (Enough (held stores.old)) × (MatchResult answer
            (λ _. (length model.now.representatives.now ≤ 64) × (self.old.granted < 1000000)) (λ _. Unit {0})) }
        ensures all { record {
          result = result;
          trial = counts_of self.new;
          stores = held stores.new;
        }
            ≡ answered (counts_of self.old) (held stores.old)
            model.now.representatives.now answer }
        ensures same { Same stores.old stores.new }
    {
        match answer {
            Ok(()) => {
                self.open(stores, model.representatives);
                Ok(())
            }
            Err(refusal) => {
                self.deny();
                Err(refusal)
            }
        }
    }
}
