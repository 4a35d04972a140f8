// A line of a listing, or of a refusal, and how it is put on a page.
ghost use Rattle.std.specs.Prelude.{◌≡◌, ◌≤◌, [], ◌∷◌, take};
ghost use Rattle.listing.specs.Lines.{shown, most_of};

use super::page::{Listing, Page};
use records::tuple::Tuple;

// The first `arity` names of a tuple, in the variable `term`.
#[derive(Clone, Copy)]
pub struct Entry {
    pub term: u8,
    pub arity: u8,
    pub tuple: Tuple,
}

// A line of a listing, or of a refusal.
#[derive(Clone, Copy)]
pub enum Line {
    // CLOSED, with the number of records granted
    Closed(u32),
    // OPEN, with the number of records granted
    Opened(u32),
    // a name, with its representative
    Name(u8, u8),
    // a tuple in a variable
    In(Entry),
    // REFUSED, with the refusal's number, the record and the detail
    Refused(u8, u32, u64),
}

impl Entry {
    // The numbers of its line: the term, and the names.
    fn numbers(self) -> [u64; 5]
        ensures { result ≡
            self.term ∷ self.tuple.a ∷ self.tuple.b ∷ self.tuple.c ∷ self.tuple.d ∷ [] }
    {
        let Tuple { a, b, c, d } = self.tuple;
        [self.term, a, b, c, d].map(u64::from)
    }

    // How many of them are shown. An arity above 4 counts as 4.
    fn places(self) -> usize
        ensures most { result ≤ 5 }
        ensures those { take result (self.term ∷ self.tuple.a ∷ self.tuple.b ∷ self.tuple.c ∷ self.tuple.d ∷ []) ≡
            self.term ∷ take self.arity (self.tuple.a ∷ self.tuple.b ∷ self.tuple.c ∷ self.tuple.d ∷ []) }
    {
        1 + usize::from(self.arity.min(4))
    }
}

impl Listing for Line {
    ghost lines = { λ line. shown line ∷ [] };

    ghost most = { most_of };

    fn put(&self, page: &mut Page) {
        let line = *self;
        match line {
            Line::Closed(granted) => page.put_row(b"CLOSED", &[u64::from(granted)]),
            Line::Opened(granted) => page.put_row(b"OPEN", &[u64::from(granted)]),
            Line::Name(name, representative) => {
                page.put_row(b"name", &[u64::from(name), u64::from(representative)])
            }
            Line::In(entry) => page.put_row(b"in", &entry.numbers()[..entry.places()]),
            Line::Refused(number, record, detail) => page.put_row(
                b"REFUSED",
                &[u64::from(number), u64::from(record), detail],
            ),
        }
    }

    fn at_most(&self) -> usize {
        match self {
            Line::Closed(_) => 18,
            Line::Opened(_) => 16,
            Line::Name(_, _) => 13,
            Line::In(_) => 23,
            Line::Refused(_, _, _) => 44,
        }
    }
}
