// The lines of a branch: its names with their representatives, and the tuples that facts put into variables.
ghost use Rattle.std.specs.Prelude.{◌≡◌, ◌≤◌, length};
ghost use Rattle.calls.specs.Listing.{fact_lines, open_lines};
ghost use Rattle.listing.specs.Lines.{entry_lines, open_most};

use super::line::{Entry, Line};
use super::page::{Listing, Page};
use calls::represented;
use records::kinds::{Form, Operation};
use records::rows::{Fact, TermRow};
use records::tuple::Tuple;

// What the listing of a model tells: how many records were granted, the representative of each name, the facts
// and the terms.
#[derive(Clone, Copy)]
pub struct Branch<'a> {
    pub granted: u32,
    pub representatives: &'a [u8],
    pub facts: &'a [Fact],
    pub terms: &'a [TermRow],
    pub ghost few_names: { length representatives.now ≤ 64 },
    pub ghost few_facts: { length facts.now ≤ 1024 },
}

impl Branch<'_> {
    // What a fact puts into a variable, names by representative: nothing, unless it is a positive member of a
    // term that there is and that is a variable.
    fn entry(&self, fact: Fact) -> Option<Entry>
        ensures { fact_lines self.now.representatives.now self.now.terms.now fact ≡ entry_lines result }
    {
        let row = self.terms.get(usize::from(fact.term))?;
        if !fact.affirms(Form::Member) || !row.is(Operation::Variable) {
            return None;
        }
        Some(Entry {
            term: fact.term,
            arity: row.arity,
            tuple: represented(self.representatives, Tuple::from(fact)),
        })
    }
}

impl Listing for Branch<'_> {
    ghost lines = { λ b. open_lines b.granted b.representatives.now b.terms.now b.facts.now };

    ghost most = { λ b. open_most b.granted };

    fn put(&self, page: &mut Page) {
        Line::Opened(self.granted).put(page);
        for (name, representative) in self.representatives.iter().enumerate() {
            // there are at most 64 names
            Line::Name(name as u8, *representative).put(page);
        }
        for fact in self.facts {
            if let Some(entry) = self.entry(*fact) {
                Line::In(entry).put(page);
            }
        }
    }

    fn at_most(&self) -> usize {
        if self.granted > 1_000_000 {
            24326
        } else {
            24323
        }
    }
}
