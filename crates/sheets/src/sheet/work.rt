ghost use Rattle.std.specs.Prelude.{◌≡◌, if◌then◌else◌, Ok, Err};
ghost use Rattle.records.specs.declared.refusal.Refusal.TheVariants.{OverLimit};
ghost use Rattle.stores.specs.View.{held, tuples_of, Same};
ghost use Rattle.calls.specs.Stores.{Enough};
ghost use Rattle.calls.specs.Sheets.{make_of, within, empty_sheet, add_of};
ghost use Rattle.sheets.specs.Rows.{names_of, terms_of, term_passes, constraint_passes};
ghost use Rattle.sheets.specs.Rows.{label_row, term_row, constraint_row};
ghost use Rattle.sheets.specs.View.{filling_of, made};

use super::Sheet;
use crate::checks::{fact_ok, row_ok};
use crate::sizes::Sizes;
use labels::kind::Kind;
use records::record::RowRecord;
use records::refusal::Refusal;
use records::rows::{ConstraintRow, Fact, Header, TermRow};
use records::{read_header, read_row};
use rules::row_at;
use stores::large_enough;
use stores::lent::Stores;
use stores::trail::front;

impl Sheet {
    // A sheet without rows, from a header with the kind's letter that is within the limits. Of the stores
    // only the lengths count, and nothing is written.
    pub fn make<K: Kind>(kind: &K, stores: &Stores, bytes: &[u8]) -> Result<Sheet, Refusal>
        ensures { made result
            ≡ make_of K.LETTER (held stores.now) bytes.now }
    {
        if !large_enough(stores) {
            return Err(Refusal::StoresShort);
        }
        let Some(header) = read_header(bytes) else {
            return Err(Refusal::NotHeader);
        };
        if header.letter != K::LETTER {
            return Err(Refusal::WrongLetter(header.letter));
        }
        Sheet::of_header(header)
    }

    // The sheet that a header asks for, if it asks for no more than a sheet holds.
    fn of_header(header: Header) -> Result<Sheet, Refusal>
        ensures { made result ≡ (if within header then Ok (empty_sheet header) else Err OverLimit) }
    {
        let names = u16::from(header.labels) + u16::from(header.free);
        if names > 32 || header.terms > 64 || header.constraints > 128 {
            return Err(Refusal::OverLimit);
        }
        let sizes = Sizes {
            labels: header.labels,
            free: header.free,
            terms: header.terms,
            constraints: header.constraints,
        };
        Ok(Sheet {
            sizes,
            labels_in: 0,
            terms_in: 0,
            constraints_in: 0,
        })
    }

    // One row more, where it is the one that is due and is well formed; a refused row changes nothing.
    pub fn add<K: Kind>(
        &mut self,
        kind: &K,
        stores: &mut Stores,
        bytes: &[u8],
    ) -> Result<(), Refusal>
        ensures all { record {
          result = result;
          sheet = filling_of self.new;
          stores = held stores.new;
        }
            ≡ add_of (K.Kind.meaning kind.now) (filling_of self.old)
            (held stores.old) bytes.now }
        ensures same { Same stores.old stores.new }
        ensures tuples { tuples_of stores.new ≡ tuples_of stores.old }
    {
        if !large_enough(stores) {
            return Err(Refusal::StoresShort);
        }
        match read_row(bytes) {
            Some(RowRecord::Label(code)) => self.add_label(kind, stores, code),
            Some(RowRecord::Term(row)) => self.add_term(stores, row),
            Some(RowRecord::Constraint(row)) => self.add_constraint(stores, row),
            None => Err(Refusal::NotDue),
        }
    }

    // How many names the sheet has: its labels and the free ones.
    fn names(&self) -> u8
        ensures { result ≡ names_of (filling_of self.now) }
    {
        self.sizes.labels + self.sizes.free
    }

    // The term rows that are in.
    fn rows<'s>(&self, stores: &'s Stores) -> &'s [TermRow]
        ensures { result.now ≡ terms_of (filling_of self.now) (held stores.now) }
    {
        front(stores.terms, usize::from(self.terms_in))
    }

    // A label's row: its code must have a value.
    fn add_label<K: Kind>(
        &mut self,
        kind: &K,
        stores: &mut Stores,
        code: u32,
    ) -> Result<(), Refusal>
        requires { Enough (held stores.old) }
        ensures all { record {
          result = result;
          sheet = filling_of self.new;
          stores = held stores.new;
        }
            ≡ label_row (K.Kind.meaning kind.now) (filling_of self.old)
            (held stores.old) code }
        ensures same { Same stores.old stores.new }
        ensures tuples { tuples_of stores.new ≡ tuples_of stores.old }
    {
        if self.labels_in >= self.sizes.labels {
            return Err(Refusal::NotDue);
        }
        if !kind.known(code) {
            return Err(Refusal::UnknownLabel(code));
        }
        stores.put_label(usize::from(self.labels_in), code);
        self.labels_in += 1;
        Ok(())
    }

    // Whether a term's row passes over the rows before it.
    fn term_passes(&self, stores: &Stores, row: TermRow) -> bool
        ensures { result ≡ term_passes (filling_of self.now) (held stores.now) row }
    {
        let rows = self.rows(stores);
        let x = row_at(rows, row.a).arity;
        let y = row_at(rows, row.b).arity;
        row_ok(self.names(), self.terms_in, x, y, row)
    }

    // A term's row, once all labels are in.
    fn add_term(&mut self, stores: &mut Stores, row: TermRow) -> Result<(), Refusal>
        requires { Enough (held stores.old) }
        ensures all { record {
          result = result;
          sheet = filling_of self.new;
          stores = held stores.new;
        }
            ≡ term_row (filling_of self.old) (held stores.old) row }
        ensures same { Same stores.old stores.new }
        ensures tuples { tuples_of stores.new ≡ tuples_of stores.old }
    {
        if self.labels_in < self.sizes.labels || self.terms_in >= self.sizes.terms {
            return Err(Refusal::NotDue);
        }
        if !self.term_passes(stores, row) {
            return Err(Refusal::IllTerm(self.terms_in));
        }
        stores.put_term(usize::from(self.terms_in), row);
        self.terms_in += 1;
        Ok(())
    }

    // Whether a constraint's row has a sign of 0 or 1 and its fact passes over the rows.
    fn constraint_passes(&self, stores: &Stores, row: ConstraintRow) -> bool
        requires { Enough (held stores.now) }
        ensures { result
            ≡ constraint_passes (filling_of self.now) (held stores.now) row }
    {
        let fact = Fact::from(row);
        let rows = self.rows(stores);
        let k = row_at(rows, fact.term).arity;
        let l = row_at(rows, fact.a).arity;
        row.sign <= 1 && fact_ok(self.terms_in, self.names(), k, l, fact)
    }

    // A constraint's row, once all terms are in: it is kept as a fact.
    fn add_constraint(&mut self, stores: &mut Stores, row: ConstraintRow) -> Result<(), Refusal>
        requires { Enough (held stores.old) }
        ensures all { record {
          result = result;
          sheet = filling_of self.new;
          stores = held stores.new;
        }
            ≡ constraint_row (filling_of self.old) (held stores.old) row }
        ensures same { Same stores.old stores.new }
        ensures tuples { tuples_of stores.new ≡ tuples_of stores.old }
    {
        if self.labels_in < self.sizes.labels
            || self.terms_in < self.sizes.terms
            || self.constraints_in >= self.sizes.constraints
        {
            return Err(Refusal::NotDue);
        }
        if !self.constraint_passes(stores, row) {
            return Err(Refusal::IllConstraint(self.constraints_in));
        }
        stores.put_fact(usize::from(self.constraints_in), Fact::from(row));
        self.constraints_in += 1;
        Ok(())
    }
}
