// The end of a trial that has its verdict.
ghost use Rattle.std.specs.Prelude.{◌≡◌, Ok, Err, MatchResult};
ghost use Rattle.calls.specs.Standing.{CallsStand};
ghost use Rattle.calls.specs.Trials.{settle_of};
ghost use Rattle.trials.specs.View.{counts, settled_counts};

use super::Trial;
use crate::settled::Settled;
use records::refusal::Refusal;

impl Trial {
    // The settled trial, with the same numbers; a trial without a verdict comes back as it is. The law of
    // verdicts stands here, entire: whatever calls led to this trial, CLOSED says that no interpretation
    // satisfies the sheet, OPEN that every interpretation which the listing tells does, and the functions that
    // the contracts of make, add, seal, step, settle and list cite run exactly as the law's relation of calls.
    pub fn settle(self) -> Result<Settled, (Trial, Refusal)>
        ensures answer { MatchResult result
            (λ s. (settle_of (counts self) ≡ Ok tt) × (settled_counts s ≡ counts self))
            (λ e. (settle_of (counts self) ≡ Err e.1) × (e.0 ≡ self)) }
        ensures law { CallsStand }
    {
        if !self.progress.verdict.reached() {
            return Err((self, Refusal::NoVerdict));
        }
        let Trial { progress } = self;
        Ok(Settled { progress })
    }

    // Ends a trial that is not to be settled, and says how many records were granted.
    pub fn give_up(self) -> u32
        ensures { result ≡ (counts self).granted }
    {
        let Trial { progress } = self;
        progress.granted
    }
}
