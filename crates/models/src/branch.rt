// What a model is checked on, and what it brings along.
ghost use Rattle.std.specs.Prelude.{◌≤◌, length};

use records::rows::{Fact, TermRow};

// A branch of a sheet: the codes of its labels, its terms, its facts, of which the first `constraints` are the
// sheet's constraints (one slice, as they lie in one store), and how many names it has.
#[derive(Clone, Copy)]
pub struct Branch<'a> {
    pub labels: &'a [u32],
    pub terms: &'a [TermRow],
    pub facts: &'a [Fact],
    pub constraints: usize,
    pub names: u8,
    pub ghost few_terms: { length terms.now ≤ 64 },
    pub ghost there: { constraints ≤ length facts.now },
    pub ghost few: { constraints ≤ 256 },
}

// A model: how many names it says it speaks of, and the representatives that it brings, which may be more or fewer.
#[derive(Clone, Copy)]
pub struct Model<'a> {
    pub count: u8,
    pub representatives: &'a [u8],
}
