// The steps of a stream, made one after another, and the settling after them.
ghost use Rattle.std.specs.Prelude.{◌≡◌, ◌+◌, ◌≤◌};
ghost use Rattle.calls.specs.Views.{Whole};
ghost use Rattle.stores.specs.View.{held, Same};
ghost use Rattle.trials.specs.View.{counts};
ghost use Rattle.streams.specs.Cutting.{records_of};
ghost use Rattle.streams.specs.Judging.{steps_from};
ghost use Rattle.streams.specs.View.{stepped};

use super::cutting::{Left, cut_off};
use super::stop::Stop;
use labels::kind::Kind;
use stores::lent::Stores;
use trials::trial::Trial;

// A step for each record that is left; the number of the record after the last.
pub(crate) fn take_steps<K: Kind>(
    trial: &mut Trial,
    kind: &K,
    stores: &mut Stores,
    left: Left,
) -> Result<u32, Stop>
    requires whole { Whole (counts trial.old) (held stores.old) }
    requires few { left.record ≤ 226 + (counts trial.old).granted }
    ensures course { steps_from (K.Kind.meaning kind.now) (counts trial.old)
        (held stores.old) left.entry.record (records_of left.entry.rest.now)
        ≡ stepped (K.Kind.meaning kind.now) result (counts trial.new)
        (held stores.new) }
    ensures same { Same stores.old stores.new }
{
    let mut rest = left.rest;
    let mut record = left.record;
    // By the same `cut_off` as the rows, for which no iterator serves: a row is due also where the stream has ended.
    while !rest.is_empty() {
        let (step, after) = cut_off(rest);
        if let Err(refusal) = trial.step(kind, stores, step) {
            return Err(Stop { refusal, record });
        }
        rest = after;
        record += 1;
    }
    Ok(record)
}
