//! The check of a model: whether its representatives are lawful, whether the values of all terms fit, and
//! which constraint is the first false one.
#![tactic(auto)]

ghost use Rattle.std.specs.Prelude.{◌<◌, ◌≤◌, length};
ghost use Rattle.models.specs.Checks.{Judged, Answers, Satisfying};

pub mod branch;
mod constraints;
mod evaluation;
mod lawful;
#[cfg(test)]
mod tests;

use branch::{Branch, Model};
use evaluation::{Values, evaluate};
use labels::kind::Kind;
use lawful::Bearers;
use records::refusal::Refusal;
use records::tuple::Tuple;

// What stands for the values of terms that are not evaluated yet: an array, since there is no heap.
fn no_values<'a>() -> [&'a [Tuple]; 64] {
    [&[]; 64]
}

// The answer for lawful representatives: the terms are evaluated, and then the constraints taken in turn.
fn judge_values(store: &mut [Tuple], representatives: &[u8], branch: &Branch) -> Result<(), Refusal>
    ensures { Judged representatives.now branch.now.facts.now
        branch.now.terms.now branch.now.constraints (length store.old) result }
{
    let mut terms = no_values();
    evaluate(store, &mut terms, representatives, branch).ok_or(Refusal::TuplesOver)?;
    let values = Values {
        representatives,
        terms: &terms[..branch.terms.len()],
    };
    match values.first_false(branch) {
        Some(i) => Err(Refusal::ConstraintFalse(i)),
        None => Ok(()),
    }
}

// The answer to a model on a branch, in this order: a wrong count or the first unlawful name (17), more tuples
// than 4,096 in the terms' values (18), the first false constraint (19); and where the model is granted, that
// the interpretation which it lists satisfies the sheet. Of the lent tuple store 4,096 places are used, and
// nothing else is written.
pub fn check_model<K: Kind>(
    kind: &K,
    branch: &Branch,
    tuples: &mut [Tuple],
    model: &Model,
) -> Result<(), Refusal>
    requires room { 4096 ≤ length tuples.old }
    ensures answers { Answers (K.Kind.meaning kind.now) branch.now.labels.now
        branch.now.terms.now branch.now.facts.now branch.now.constraints
        branch.now.names model.now.count model.now.representatives.now result }
    ensures satisfying { Satisfying (K.Kind.meaning kind.now) branch.now.labels.now
        branch.now.terms.now branch.now.facts.now branch.now.constraints
        branch.now.names model.now.count model.now.representatives.now result }
{
    if model.count != branch.names {
        return Err(Refusal::Unlawful(255));
    }
    let bearers = Bearers {
        kind,
        labels: branch.labels,
        representatives: model.representatives,
    };
    if let Some(e) = bearers.first_unlawful(branch.names) {
        return Err(Refusal::Unlawful(e));
    }
    judge_values(&mut tuples[0..4096], model.representatives, branch)
}
