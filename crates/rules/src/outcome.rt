use super::cited::Grown;
use records::rule::Rule;

// A fork: the counts of facts and names where it stands, the step that made it (no rule with alternatives
// mentions q or w), and the alternative that comes next.
#[derive(Clone, Copy)]
pub struct Fork {
    pub facts: u16,
    pub names: u8,
    pub rule: Rule,
    pub p: u16,
    pub t: u8,
    pub next: u8,
}

// What a step by a rule comes to.
#[derive(Clone, Copy)]
pub enum Outcome {
    // One alternative is appended.
    Adds(Grown),
    // The first of several is appended, and a fork is kept, with the count of forks then.
    Forks(Grown, Fork, u8),
    // The last branch closes.
    Closes,
    // The branch closes, and the latest fork's next alternative is appended; the fork as it goes on, and the
    // count of forks then.
    Resumes(Grown, Fork, u8),
}
