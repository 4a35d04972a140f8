// What an alternative comes to on counts of facts and names, and whether it fits.
ghost use Rattle.std.specs.Prelude.{◌≡◌, ◌+◌, ◌≤◌, nat_lt};
ghost use Rattle.rules.specs.Rules.{size_of};
ghost use Rattle.rules.specs.Room.{names_over, facts_over, grown};
ghost use Rattle.calls.specs.RuleSteps.{onward, forks_left};
ghost use Rattle.trials.specs.Steps.{Fitting};

use rules::cited::{Alt, Facts, Grown, Plan};
use rules::outcome::Fork;
use rules::{alternative, alternatives};

// How many facts the alternative has.
fn size(alt: Alt) -> u16
    ensures is { result ≡ size_of alt }
    ensures few { result ≤ 4 }
{
    match alt.facts {
        Facts::Empty => 0,
        Facts::One(_) => 1,
        Facts::Two(_, _) => 2,
        Facts::Three(_, _, _) => 3,
        Facts::Four(_, _, _, _) => 4,
    }
}

// The alternative on m facts and n names, with the counts after it.
pub(crate) fn grow_by(m: u16, n: u8, alt: Alt) -> Grown
    requires { (n + alt.fresh ≤ 64) × (m + size_of alt ≤ 1024) }
    ensures is { result ≡ grown m n alt }
    ensures fits { Fitting m result }
{
    Grown {
        at: m,
        alt,
        facts: m + size(alt),
        names: n + alt.fresh,
    }
}

// More than 64 names on n names and the alternative's fresh ones. (It and `many_facts` add up other things: one
// function for both would be no plainer.)
pub(crate) fn many_names(n: u8, alt: Alt) -> bool
    requires { n ≤ 64 }
    ensures { result ≡ nat_lt 64 (n + alt.fresh) }
{
    u16::from(n) + u16::from(alt.fresh) > 64
}

// More than 1,024 facts on m facts and the alternative's.
pub(crate) fn many_facts(m: u16, alt: Alt) -> bool
    requires { m ≤ 1024 }
    ensures { result ≡ nat_lt 1024 (m + size_of alt) }
{
    m + size(alt) > 1024
}

// Some alternative would have more than 64 names; a rule with fewer than three repeats its last one. (One line each
// in `names_over` and `facts_over`: a limit and a count handed on would be no plainer.)
pub(crate) fn names_over(plan: Plan, n: u8) -> bool
    requires { n ≤ 64 }
    ensures { result ≡ names_over plan.rule plan.cited n }
{
    (0..3).any(|k| many_names(n, alternative(plan.rule, plan.cited, n, k)))
}

// Some alternative would have more than 1,024 facts.
pub(crate) fn facts_over(plan: Plan, n: u8, m: u16) -> bool
    requires { (n ≤ 64) × (m ≤ 1024) }
    ensures { result ≡ facts_over plan.rule plan.cited n m }
{
    (0..3).any(|k| many_facts(m, alternative(plan.rule, plan.cited, n, k)))
}

// The fork with its next alternative one further.
pub(crate) fn move_on(fork: Fork) -> Fork
    ensures { result ≡ onward fork }
{
    Fork {
        next: fork.next.min(2) + 1,
        ..fork
    }
}

// How many forks are left where the latest is resumed: it counts until its last alternative is taken up.
pub(crate) fn forks_left(forks: u8, fork: Fork) -> u8
    requires { 1 ≤ forks }
    ensures is { result ≡ forks_left forks fork }
    ensures less { result ≤ forks }
{
    if move_on(fork).next < alternatives(fork.rule) {
        forks
    } else {
        forks - 1
    }
}
