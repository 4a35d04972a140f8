// The tests of a term row and of a constraint's fact on plain numbers, and the arities that they ask for.
ghost use Rattle.std.specs.Prelude.{◌≡◌};
ghost use Rattle.records.specs.Kinds.{operation_number};
ghost use Rattle.rules.specs.Rules.{all_of};
ghost use Rattle.calls.specs.Tests.{row_tests, row_tested, fact_tested, place_ok, places};

use records::kinds::{Form, Operation};
use records::rows::{Fact, TermRow};
use records::tuple::Tuple;

// Place i of a tuple of arity k holds a name below n, or zero past the arity.
fn place(n: u8, k: u8, i: u8, e: u8) -> bool
    ensures { result ≡ place_ok n k i e }
{
    if i < k { e < n } else { e == 0 }
}

// All four places of a tuple do.
fn places(n: u8, k: u8, u: Tuple) -> bool
    ensures { result ≡ all_of (places n k u) }
{
    place(n, k, 0, u.a) && place(n, k, 1, u.b) && place(n, k, 2, u.c) && place(n, k, 3, u.d)
}

// Whether the operands of row t pass where there are n names; x and y are the arities of its first two.
fn operands_ok(n: u8, t: u8, x: u8, y: u8, row: TermRow, operation: Operation) -> bool
    ensures { result ≡ all_of (row_tests n t x y row (operation_number operation)) }
{
    match operation {
        Operation::Variable | Operation::Empty => {
            row.a == 0 && row.b == 0 && row.c == 0 && row.d == 0
        }
        Operation::Single => { places(n, row.arity, Tuple::from(row)) }
        Operation::Union | Operation::Intersection | Operation::Difference => {
            row.a < t && x == row.arity && row.b < t && y == row.arity && row.c == 0 && row.d == 0
        }
        Operation::Transpose => {
            row.a < t && x == row.arity && row.b == 0 && row.c == 0 && row.d == 0
        }
        Operation::Product => {
            row.a < t
                && row.b < t
                && u16::from(row.arity) == u16::from(x) + u16::from(y)
                && row.c == 0
                && row.d == 0
        }
        Operation::Join => {
            row.a < t
                && row.b < t
                && 0 < x
                && 0 < y
                && u16::from(row.arity) + 2 == u16::from(x) + u16::from(y)
                && row.c == 0
                && row.d == 0
        }
        Operation::Closure => {
            row.a < t && x == 2 && row.arity == 2 && row.b == 0 && row.c == 0 && row.d == 0
        }
    }
}

// Whether row t passes where there are n names; x and y are the arities of its first two operands.
pub(crate) fn row_ok(n: u8, t: u8, x: u8, y: u8, row: TermRow) -> bool
    ensures { result ≡ row_tested n t x y row }
{
    let Ok(operation) = Operation::try_from(row.op) else {
        return false;
    };
    matches!(row.arity, 1..=4) && operands_ok(n, t, x, y, row, operation)
}

// Whether a fact passes where there are m terms and n names; k and l are the arities of the terms numbered by
// its term and by its first name.
pub(crate) fn fact_ok(m: u8, n: u8, k: u8, l: u8, f: Fact) -> bool
    ensures { result ≡ fact_tested m n k l f }
{
    match Form::try_from(f.form) {
        Ok(Form::Member) => { f.term < m && places(n, k, Tuple::from(f)) }
        Ok(Form::EqualNames) => f.term == 0 && f.a < n && f.b < n && f.c == 0 && f.d == 0,
        Ok(Form::EqualTerms) => {
            f.term < m && f.a < m && k == l && f.b == 0 && f.c == 0 && f.d == 0
        }
        Err(_) => false,
    }
}
