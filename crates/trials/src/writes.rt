// Writes at the end of what a trail keeps: facts and forks go by the same rule.
ghost use Rattle.std.specs.Prelude.{◌≡◌, ◌+◌, ◌<◌, ◌≤◌, ◌++◌, length, drop, slice_set};
ghost use Rattle.rules.specs.Rules.{size_of};
ghost use Rattle.calls.specs.RuleSteps.{put_alt};
ghost use Rattle.trials.specs.Steps.{Fitting};

use records::rows::Fact;
use rules::cited::{Alt, Facts, Grown};
use stores::trail::Trail;

// One entry more, where there is a place for it.
fn add<T: Copy>(trail: &mut Trail<T>, x: T)
    requires { trail.old.count < length trail.old.slots.now }
    ensures count { trail.new.count ≡ trail.old.count + 1 }
    ensures slots { trail.new.slots.now
        ≡ slice_set trail.old.slots.now trail.old.count x }
    ensures same { trail.new.slots.ghost_name ≡ trail.old.slots.ghost_name }
{
    let _ = trail.push(x);
}

// The facts of an alternative, one after the other.
fn add_all(trail: &mut Trail<Fact>, alt: Alt)
    requires { trail.old.count + size_of alt ≤ length trail.old.slots.now }
    ensures slots { trail.new.slots.now
        ≡ put_alt trail.old.slots.now trail.old.count alt }
    ensures same { trail.new.slots.ghost_name ≡ trail.old.slots.ghost_name }
{
    match alt.facts {
        Facts::Empty => {}
        Facts::One(f) => add(trail, f),
        Facts::Two(f, g) => {
            add(trail, f);
            add(trail, g);
        }
        Facts::Three(f, g, h) => {
            add(trail, f);
            add(trail, g);
            add(trail, h);
        }
        Facts::Four(f, g, h, i) => {
            add(trail, f);
            add(trail, g);
            add(trail, h);
            add(trail, i);
        }
    }
}

// Cuts the first `count` entries back to `at`, and adds one. (A slice and its count, as everywhere where slots are lent;
// and cut first, by the one rule for whatever is kept.)
pub(crate) fn put_at<T: Copy>(slots: &mut [T], count: usize, at: usize, x: T)
    requires { (at ≤ count) × (at < length slots.old) }
    ensures { slots.new ≡ slice_set slots.old at x }
{
    let mut trail = Trail { slots, count };
    trail.cut(at);
    add(&mut trail, x);
}

// Cuts the first `count` facts back to where the alternative stands, and adds its facts.
pub(crate) fn put_all(facts: &mut [Fact], count: u16, grown: Grown)
    requires { (1024 ≤ length facts.old) × (Fitting count grown) }
    ensures { facts.new ≡ put_alt facts.old grown.at grown.alt }
{
    let mut trail = Trail {
        slots: facts,
        count: usize::from(count),
    };
    trail.cut(usize::from(grown.at));
    add_all(&mut trail, grown.alt);
}

// Writes the bytes at the front of the slots.
pub(crate) fn put_front(slots: &mut [u8], bytes: &[u8])
    requires { length bytes.now ≤ length slots.old }
    ensures { slots.new
        ≡ bytes.now ++ drop (length bytes.now) slots.old }
{
    slots[..bytes.len()].copy_from_slice(bytes);
}
