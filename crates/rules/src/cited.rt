use records::rows::{Fact, TermRow};
use records::rule::Rule;

// Which fields of a step a rule mentions.
#[derive(Clone, Copy, Debug, Default, PartialEq, Eq)]
pub struct Uses {
    pub p: bool,
    pub q: bool,
    pub t: bool,
    pub w: bool,
}

// All that a rule's line asks of a step: whether p and q are one number, the facts that they number, the
// fields t and w, the rows of p's term and of term t, the arity of the first operand of p's term, and whether
// the two labels in question are the same (nothing where a label or its value is missing, or the rule asks
// for none).
#[derive(Clone, Copy)]
pub struct Cited {
    pub one: bool,
    pub p: Fact,
    pub q: Fact,
    pub t: u8,
    pub w: u8,
    pub of_p: TermRow,
    pub of_t: TermRow,
    pub left: u8,
    pub labels: Option<bool>,
}

// A rule whose line is met, with what it cites.
#[derive(Clone, Copy)]
pub struct Plan {
    pub rule: Rule,
    pub cited: Cited,
}

// The facts of an alternative, in their order: none to four of them. (An enum, since outcomes are copied as they are
// matched, and there is no heap: the kit's list of fixed room is not Copy.)
#[derive(Clone, Copy, Debug, PartialEq, Eq)]
pub enum Facts {
    Empty,
    One(Fact),
    Two(Fact, Fact),
    Three(Fact, Fact, Fact),
    Four(Fact, Fact, Fact, Fact),
}

// One alternative: how many fresh names it brings, and the facts that it appends.
#[derive(Clone, Copy, Debug, PartialEq, Eq)]
pub struct Alt {
    pub fresh: u8,
    pub facts: Facts,
}

// An alternative to append from a count of facts on, with the counts of facts and names after it.
#[derive(Clone, Copy)]
pub struct Grown {
    pub at: u16,
    pub alt: Alt,
    pub facts: u16,
    pub names: u8,
}
