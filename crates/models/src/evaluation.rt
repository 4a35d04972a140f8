// The values of all terms: each row is evaluated from the values before it, in the slots behind them.
ghost use Rattle.std.specs.Prelude.{◌≡◌, ◌<◌, ◌≤◌, length, map};
ghost use Rattle.rules.specs.Looked.{row_at};
ghost use Rattle.values.specs.Sets.{In};
ghost use Rattle.values.specs.Held.{Gathered, StandsIn};
ghost use Rattle.models.specs.Tuples.{by_names};
ghost use Rattle.models.specs.Rows.{operation_of, offered, RowHolds, value_of, Evaluated};

use super::branch::Branch;
use calls::represented;
use records::kinds::{Form, Operation};
use records::rows::{Fact, TermRow};
use records::tuple::Tuple;
use rules::row_at;
use values::value::Value;

// What terms are evaluated by: the representatives of the names, and the values of the terms before.
#[derive(Clone, Copy)]
pub(crate) struct Values<'a> {
    pub representatives: &'a [u8],
    pub terms: &'a [&'a [Tuple]],
}

impl<'a> Values<'a> {
    // The value of term j: empty if there is none.
    pub(crate) fn of(self, j: u8) -> &'a [Tuple]
        ensures { result.now ≡ value_of (map (λ v. v.now) self.entry.terms.now) j }
    {
        match self.terms.get(usize::from(j)) {
            Some(value) => value,
            None => &[],
        }
    }

    // The tuple of the representatives of these names. (A line, so that the others need not name the field.)
    pub(crate) fn represented(self, names: Tuple) -> Tuple
        ensures { result ≡ by_names self.entry.representatives.now names.a names.b names.c names.d }
    {
        represented(self.representatives, names)
    }

    // The tuple that a fact puts into variable k, if it puts one in.
    fn offered(self, k: usize, f: Fact) -> Option<Tuple>
        ensures { result ≡ offered self.entry.representatives.now k f }
    {
        if f.affirms(Form::Member) && usize::from(f.term) == k {
            Some(self.represented(Tuple::from(f)))
        } else {
            None
        }
    }

    // The value of the row behind these values, by its operation, in the slots.
    fn value_by<'s>(
        self,
        operation: Operation,
        slots: &'s mut [Tuple],
        branch: &Branch,
        row: TermRow,
    ) -> Option<Value<'s>>
        ensures gathered { Gathered
            (RowHolds operation self.entry.representatives.now branch.now.facts.now
            row (length self.entry.terms.now) (row_at branch.now.terms.now row.a).arity
            (In (value_of (map (λ v. v.now) self.entry.terms.now) row.a))
            (In (value_of (map (λ v. v.now) self.entry.terms.now) row.b)))
            (length slots.old) result }
        ensures same { StandsIn slots.entry result }
    {
        let p = row_at(branch.terms, row.a).arity;
        let s = self.of(row.a);
        let r = self.of(row.b);
        let k = self.terms.len();
        match operation {
            Operation::Variable => Value::made(slots, branch.facts, |f| self.offered(k, f)),
            Operation::Empty => Some(Value::new(slots)),
            Operation::Single => {
                let mut value = Value::new(slots);
                value.offer(Some(self.represented(Tuple::from(row))))?;
                Some(value)
            }
            Operation::Union => Value::union(slots, s, r),
            Operation::Intersection => Value::intersection(slots, s, r),
            Operation::Difference => Value::difference(slots, s, r),
            Operation::Transpose => Value::transpose(slots, s, row.arity),
            Operation::Product => Value::product(slots, s, p, r),
            Operation::Join => Value::join(slots, s, p, r),
            Operation::Closure => Value::closure(slots, s),
        }
    }

    // The value of the row behind these values, in the slots.
    fn next<'s>(self, slots: &'s mut [Tuple], branch: &Branch, row: TermRow) -> Option<Value<'s>>
        ensures gathered { Gathered
            (RowHolds (operation_of row.op) self.entry.representatives.now branch.now.facts.now
            row (length self.entry.terms.now) (row_at branch.now.terms.now row.a).arity
            (In (value_of (map (λ v. v.now) self.entry.terms.now) row.a))
            (In (value_of (map (λ v. v.now) self.entry.terms.now) row.b)))
            (length slots.old) result }
        ensures same { StandsIn slots.entry result }
    {
        // a row that was granted has one of the ten operations; any other number is taken as the last
        let operation = Operation::try_from(row.op).unwrap_or(Operation::Closure);
        self.value_by(operation, slots, branch, row)
    }
}

// Evaluates all rows in the store, one behind the other, and puts their values into `values`; nothing where there
// is no room for all.
pub(crate) fn evaluate<'a>(
    store: &'a mut [Tuple],
    values: &mut [&'a [Tuple]],
    representatives: &[u8],
    branch: &Branch,
) -> Option<()>
    requires long { length branch.now.terms.now ≤ length values.old }
    ensures { Evaluated representatives.now branch.now.facts.now branch.now.terms.now
        (length store.old) (map (λ v. v.now) values.new) result }
{
    let mut room = store;
    for (k, &row) in branch.terms.iter().enumerate() {
        let before = Values {
            representatives,
            terms: &values[..k],
        };
        let value = before.next(room, branch, row)?;
        let (tuples, rest) = value.split();
        values[k] = tuples;
        room = rest;
    }
    Some(())
}
