// The course of a stream: its rows are added, the sheet is sealed, its steps are made, the trial is settled.
ghost use Rattle.std.specs.Prelude.{◌≡◌, ◌+◌, ◌≤◌};
ghost use Rattle.calls.specs.Sheets.{rows_due};
ghost use Rattle.calls.specs.Stores.{Held, Enough};
ghost use Rattle.calls.specs.Trials.{settle_of};
ghost use Rattle.calls.specs.Views.{Orderly, Whole};
ghost use Rattle.sheets.specs.View.{filling_of};
ghost use Rattle.stores.specs.View.{held, Same};
ghost use Rattle.trials.specs.View.{counts};
ghost use Rattle.streams.specs.Cutting.{records_of};
ghost use Rattle.streams.specs.Judging.{or_stopped, settled, steps_from, rows_from, course};
ghost use Rattle.streams.specs.View.{ended};

use super::cutting::{Left, cut_off};
use super::rows::add_rows;
use super::steps::take_steps;
use super::stop::Stop;
use labels::kind::Kind;
use sheets::sheet::Sheet;
use stores::lent::Stores;
use trials::settled::Settled;
use trials::trial::Trial;

// Settles a trial whose steps are made; a refusal counts as one past the last record.
fn settle(trial: Trial, last: u32) -> Result<Settled, Stop>
    ensures { (h : Held) → or_stopped (settle_of (counts trial)) (settled (counts trial) h) last h
        ≡ ended result h }
{
    match trial.settle() {
        Ok(settled) => Ok(settled),
        Err((trial, refusal)) => {
            trial.give_up();
            Err(Stop {
                refusal,
                record: last,
            })
        }
    }
}

// Takes a trial through the steps that are left.
fn try_steps<K: Kind>(
    mut trial: Trial,
    kind: &K,
    stores: &mut Stores,
    left: Left,
) -> Result<Settled, Stop>
    requires whole { Whole (counts trial) (held stores.old) }
    requires few { left.record ≤ 226 }
    ensures course { steps_from (K.Kind.meaning kind.now) (counts trial)
        (held stores.old) left.entry.record (records_of left.entry.rest.now)
        ≡ ended result (held stores.new) }
    ensures same { Same stores.old stores.new }
{
    match take_steps(&mut trial, kind, stores, left) {
        Ok(record) => settle(trial, record),
        Err(stop) => {
            trial.give_up();
            Err(stop)
        }
    }
}

// Seals a sheet whose rows are in, and takes its trial through the steps.
fn try_sheet<K: Kind>(
    sheet: Sheet,
    kind: &K,
    stores: &mut Stores,
    left: Left,
) -> Result<Settled, Stop>
    requires orderly { Orderly (filling_of sheet) (held stores.old) }
    requires few { left.record ≤ 226 }
    ensures course { rows_from (K.Kind.meaning kind.now) 0 (filling_of sheet)
        (held stores.old) left.entry.record (records_of left.entry.rest.now)
        ≡ ended result (held stores.new) }
    ensures same { Same stores.old stores.new }
{
    match Trial::seal(sheet, stores) {
        Ok(trial) => try_steps(trial, kind, stores, left),
        Err((sheet, refusal)) => {
            sheet.give_up();
            Err(Stop {
                refusal,
                record: left.record,
            })
        }
    }
}

// Fills a sheet with the rows that come first, and goes on.
fn fill<K: Kind>(
    mut sheet: Sheet,
    kind: &K,
    stores: &mut Stores,
    stream: &[u8],
) -> Result<Settled, Stop>
    requires { Orderly (filling_of sheet) (held stores.old) }
    ensures course { rows_from (K.Kind.meaning kind.now) (rows_due (filling_of sheet))
        (filling_of sheet) (held stores.old) 2 (records_of stream.now)
        ≡ ended result (held stores.new) }
    ensures same { Same stores.old stores.new }
{
    match add_rows(&mut sheet, kind, stores, stream) {
        Ok(left) => try_sheet(sheet, kind, stores, left),
        Err(stop) => {
            sheet.give_up();
            Err(stop)
        }
    }
}

// The whole course: the settled trial, or the first refusal.
pub(crate) fn run<K: Kind>(kind: &K, stores: &mut Stores, stream: &[u8]) -> Result<Settled, Stop>
    requires { Enough (held stores.old) }
    ensures course { course K.LETTER (K.Kind.meaning kind.now)
        (held stores.old) stream.now ≡ ended result (held stores.new) }
    ensures same { Same stores.old stores.new }
{
    let (header, rest) = cut_off(stream);
    match Sheet::make(kind, stores, header) {
        Ok(sheet) => fill(sheet, kind, stores, rest),
        Err(refusal) => Err(Stop { refusal, record: 1 }),
    }
}
