use records::rows::{Fact, TermRow};
use records::tuple::Tuple;
use rules::outcome::Fork;

// The six stores, lent anew to every call. The tuple store has a lifetime of its own, so that it can be lent apart from
// the others.
#[derive(Drop)]
pub struct Stores<'a, 'b> {
    pub labels: &'a mut [u32],
    pub terms: &'a mut [TermRow],
    pub facts: &'a mut [Fact],
    pub forks: &'a mut [Fork],
    pub tuples: &'b mut [Tuple],
    pub representatives: &'a mut [u8],
}
