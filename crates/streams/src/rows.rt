// The rows of a stream, added one after another.
ghost use Rattle.std.specs.Prelude.{◌≡◌, ◌≤◌, MatchResult};
ghost use Rattle.calls.specs.Sheets.{rows_due};
ghost use Rattle.calls.specs.Views.{Orderly};
ghost use Rattle.sheets.specs.View.{filling_of};
ghost use Rattle.stores.specs.View.{held, Same};
ghost use Rattle.streams.specs.Cutting.{records_of};
ghost use Rattle.streams.specs.Judging.{rows_from};
ghost use Rattle.streams.specs.View.{filled};

use super::cutting::{Left, cut_off};
use super::stop::Stop;
use labels::kind::Kind;
use sheets::sheet::Sheet;
use stores::lent::Stores;

// As many rows as are due, of which the first is record 2.
pub(crate) fn add_rows<'a, K: Kind>(
    sheet: &mut Sheet,
    kind: &K,
    stores: &mut Stores,
    stream: &'a [u8],
) -> Result<Left<'a>, Stop>
    requires { Orderly (filling_of sheet.old) (held stores.old) }
    ensures course { rows_from (K.Kind.meaning kind.now)
        (rows_due (filling_of sheet.old)) (filling_of sheet.old)
        (held stores.old) 2 (records_of stream.now)
        ≡ filled (K.Kind.meaning kind.now) result (filling_of sheet.new)
        (held stores.new) }
    ensures orderly { MatchResult result
        (λ x. Orderly (filling_of sheet.new) (held stores.new) × (x.record ≤ 226))
        (λ _. Unit {0}) }
    ensures same { Same stores.old stores.new }
{
    let due = sheet.due();
    let mut rest = stream;
    // A count of rows, and not of places: a row is due also where the stream has ended.
    for i in 0..due {
        let (row, after) = cut_off(rest);
        if let Err(refusal) = sheet.add(kind, stores, row) {
            return Err(Stop {
                refusal,
                record: 2 + u32::from(i),
            });
        }
        rest = after;
    }
    Ok(Left {
        rest,
        record: 2 + u32::from(due),
    })
}
