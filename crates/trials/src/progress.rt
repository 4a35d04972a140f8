ghost use Rattle.std.specs.Prelude.{◌+◌, ◌≤◌};

mod fronts;

use records::verdict::Verdict;
use sheets::sizes::Sizes;

// How far a trial is: the sizes of its sheet; the verdict; the names, facts and forks of the branch that is at
// hand; and how many records were granted and steps denied.
#[derive(Clone, Copy)]
pub(crate) struct Progress {
    pub(crate) sizes: Sizes,
    pub(crate) verdict: Verdict,
    pub(crate) names: u8,
    pub(crate) facts: u16,
    pub(crate) forks: u8,
    pub(crate) granted: u32,
    pub(crate) denied: u16,
    ghost names_few: { sizes.labels + sizes.free ≤ 32 },
    ghost terms_few: { sizes.terms ≤ 64 },
    ghost constraints_few: { sizes.constraints ≤ 128 },
    ghost few_names: { names ≤ 64 },
    ghost few_facts: { facts ≤ 1024 },
    ghost few_forks: { forks ≤ 64 },
    ghost few_granted: { granted ≤ 1000000 },
}
