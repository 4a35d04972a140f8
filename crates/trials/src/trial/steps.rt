// A step by a rule: it is decided by reading alone, and then acted on.
ghost use Rattle.std.specs.Prelude.{◌≡◌, IfOk};
ghost use Rattle.records.specs.Reading.{rule};
ghost use Rattle.calls.specs.Stores.{Enough};
ghost use Rattle.calls.specs.Trials.{stepped_at};
ghost use Rattle.stores.specs.View.{held, tuples_of, Same};
ghost use Rattle.trials.specs.View.{counts_of};
ghost use Rattle.trials.specs.Steps.{Ready, decided};

use crate::progress::Progress;
use labels::kind::Kind;
use records::refusal::Refusal;
use records::rows::Step;
use rules::outcome::Outcome;
use stores::lent::Stores;

impl Progress {
    // What the step comes to, unless a million records are granted.
    fn decide<K: Kind>(&self, kind: &K, stores: &Stores, x: Step) -> Result<Outcome, Refusal>
        ensures is { result ≡ decided (K.Kind.meaning kind.now) (counts_of self.now)
            (held stores.now) x }
        ensures ready { IfOk result (λ o. Ready (counts_of self.now) o) }
    {
        if self.granted >= 1_000_000 {
            return Err(Refusal::RecordsSpent);
        }
        self.outcome(kind, stores, x)
    }

    // One step by a rule, on stores that are large enough. A refusal leaves all as it was but for the count
    // of denied steps.
    pub(crate) fn step_rule<K: Kind>(
        &mut self,
        kind: &K,
        stores: &mut Stores,
        x: Step,
    ) -> Result<(), Refusal>
        requires { Enough (held stores.old) }
        ensures all { record {
          result = result;
          trial = counts_of self.new;
          stores = held stores.new;
        }
            ≡ stepped_at self.old.verdict (K.Kind.meaning kind.now)
            (counts_of self.old) (held stores.old) (rule x) }
        ensures same { Same stores.old stores.new }
        ensures tuples { tuples_of stores.new ≡ tuples_of stores.old }
    {
        let outcome = self.decide(kind, stores, x);
        self.act(stores, outcome)
    }
}
