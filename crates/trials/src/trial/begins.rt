// The start of a trial.
ghost use Rattle.std.specs.Prelude.{◌≡◌};
ghost use Rattle.sheets.specs.Seals.{begun, Few};
ghost use Rattle.trials.specs.View.{counts};

use super::Trial;
use crate::progress::Progress;
use records::verdict::Verdict;
use sheets::sizes::Sizes;

impl Trial {
    // The trial of a full sheet, before its first step: the sheet's names are the branch's, and its
    // constraints are the first facts.
    pub(crate) fn begin(sizes: Sizes) -> Trial
        requires { Few sizes }
        ensures { counts result ≡ begun sizes }
    {
        Trial {
            progress: Progress {
                sizes,
                verdict: Verdict::Undecided,
                names: sizes.labels + sizes.free,
                facts: u16::from(sizes.constraints),
                forks: 0,
                granted: 0,
                denied: 0,
            },
        }
    }
}
