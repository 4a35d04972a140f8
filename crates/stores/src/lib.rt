//! The stores that a caller lends: whether they are large enough, writers for one place, and the trail.
#![tactic(auto)]

ghost use Rattle.std.specs.Prelude.{◌≡◌, ◌<◌, T, length, slice_set};
ghost use Rattle.calls.specs.Stores.{Enough, enough, with_labels, with_terms, with_facts, with_forks};
ghost use Rattle.stores.specs.View.{held, tuples_of, Same};

pub mod lent;
pub mod trail;

use lent::Stores;
use records::rows::{Fact, TermRow};
use rules::outcome::Fork;
use trail::push_at;

// Whether each store has the places that the limits ask for.
// No type carries that they have: it would wrap the lent struct at every call, and be no plainer.
pub fn large_enough(stores: &Stores) -> bool
    ensures is { result ≡ enough (held stores.now) }
    ensures so { T result → Enough (held stores.now) }
{
    stores.labels.len() >= 32
        && stores.terms.len() >= 64
        && stores.facts.len() >= 1024
        && stores.forks.len() >= 64
        && stores.tuples.len() >= 4096
        && stores.representatives.len() >= 64
}

impl Stores<'_, '_> {
    // Writes the code of label n. (A writer for each store: each has its own elements, so that one for all would be
    // no plainer.)
    pub fn put_label(&mut self, n: usize, code: u32)
        requires { n < length self.old.labels.now }
        ensures held { held self.new
            ≡ with_labels (held self.old) (slice_set self.old.labels.now n code) }
        ensures same { Same self.old self.new }
        ensures tuples { tuples_of self.new ≡ tuples_of self.old }
    {
        self.labels[n] = code;
    }

    // Writes the row of term n.
    pub fn put_term(&mut self, n: usize, row: TermRow)
        requires { n < length self.old.terms.now }
        ensures held { held self.new
            ≡ with_terms (held self.old) (slice_set self.old.terms.now n row) }
        ensures same { Same self.old self.new }
        ensures tuples { tuples_of self.new ≡ tuples_of self.old }
    {
        self.terms[n] = row;
    }

    // Writes the fact that comes after the first n.
    pub fn put_fact(&mut self, n: usize, fact: Fact)
        requires { n < length self.old.facts.now }
        ensures held { held self.new
            ≡ with_facts (held self.old) (slice_set self.old.facts.now n fact) }
        ensures same { Same self.old self.new }
        ensures tuples { tuples_of self.new ≡ tuples_of self.old }
    {
        push_at(self.facts, n, fact)
    }

    // Writes the fork that comes after the first n.
    pub fn put_fork(&mut self, n: usize, fork: Fork)
        requires { n < length self.old.forks.now }
        ensures held { held self.new
            ≡ with_forks (held self.old) (slice_set self.old.forks.now n fork) }
        ensures same { Same self.old self.new }
        ensures tuples { tuples_of self.new ≡ tuples_of self.old }
    {
        push_at(self.forks, n, fork)
    }
}
