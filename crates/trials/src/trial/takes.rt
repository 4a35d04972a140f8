// The call step: a record of any bytes, on stores of any content.
ghost use Rattle.std.specs.Prelude.{◌≡◌, Err};
ghost use Rattle.calls.specs.RuleSteps.{denied_once};
ghost use Rattle.calls.specs.Standing.{StepsGrantedExactly};
ghost use Rattle.calls.specs.Trials.{step_of};
ghost use Rattle.calls.specs.Views.{Whole};
ghost use Rattle.stores.specs.View.{held, Same};
ghost use Rattle.trials.specs.View.{counts};
ghost use Rattle.trials.specs.Steps.{other_answer};

use super::Trial;
use labels::kind::Kind;
use models::branch::Model;
use records::read_step;
use records::record::StepRecord;
use records::refusal::Refusal;
use records::verdict::Verdict;
use stores::large_enough;
use stores::lent::Stores;

impl Trial {
    // Denies a record that is no step.
    fn deny_other(&mut self) -> Result<(), Refusal>
        ensures answer { result ≡ Err (other_answer self.old.progress.verdict) }
        ensures trial { counts self.new ≡ denied_once (counts self.old) }
    {
        let verdict = self.progress.verdict;
        self.progress.deny();
        match verdict {
            Verdict::Undecided => Err(Refusal::NotStep),
            Verdict::Closed | Verdict::Open => Err(Refusal::VerdictReached),
        }
    }

    // One step of the trial: a record of any bytes. Where the stores hold what the trial says, the answer, the
    // trial and the stores afterwards are those of the call's definition; a refused step is counted. Steps are
    // granted exactly where the rules and models of the subject grant them.
    pub fn step<K: Kind>(
        &mut self,
        kind: &K,
        stores: &mut Stores,
        bytes: &[u8],
    ) -> Result<(), Refusal>
        ensures all { (Whole (counts self.old) (held stores.old) → record {
          result = result;
          trial = counts self.new;
          stores = held stores.new;
        }
            ≡ step_of (K.Kind.meaning kind.now) (counts self.old)
            (held stores.old) bytes.now) }
        ensures same { Same stores.old stores.new }
        ensures exact { StepsGrantedExactly }
    {
        if !large_enough(stores) {
            self.progress.deny();
            return Err(Refusal::StoresShort);
        }
        match read_step(bytes) {
            Some(StepRecord::Rule(x)) => self.progress.step_rule(kind, stores, x),
            Some(StepRecord::Model(count, representatives)) => {
                let model = Model {
                    count,
                    representatives,
                };
                self.progress.step_model(kind, stores, &model)
            }
            None => self.deny_other(),
        }
    }
}
