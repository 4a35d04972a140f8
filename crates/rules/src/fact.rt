// Facts made by their form, and the alternatives that one or more of them are.
ghost use Rattle.std.specs.Prelude.{◌≡◌};
ghost use Rattle.rules.specs.Facts.{in_fact, eq_fact, same_fact};
ghost use Rattle.rules.specs.Facts.{equal_facts, no_alt, one_of, two_of, equalities_of};

use super::cited::{Alt, Facts};
use records::kinds::Form;
use records::rows::Fact;
use records::tuple::Tuple;

// The fact that the tuple u is in term t, or is not.
pub(crate) fn in_fact(positive: bool, u: Tuple, t: u8) -> Fact
    ensures { result ≡ in_fact positive u t }
{
    Fact {
        form: Form::Member as u8,
        positive,
        term: t,
        a: u.a,
        b: u.b,
        c: u.c,
        d: u.d,
    }
}

// The fact that the names a and b are equal, or are not.
pub(crate) fn eq_fact(positive: bool, a: u8, b: u8) -> Fact
    ensures { result ≡ eq_fact positive a b }
{
    Fact {
        form: Form::EqualNames as u8,
        positive,
        a,
        b,
        ..Fact::default()
    }
}

// The fact that the terms s and r are equal, or are not.
pub(crate) fn same_fact(positive: bool, s: u8, r: u8) -> Fact
    ensures { result ≡ same_fact positive s r }
{
    Fact {
        form: Form::EqualTerms as u8,
        positive,
        term: s,
        a: r,
        ..Fact::default()
    }
}

// The same form of the same parts, whatever the signs: `==` compares the signs too, and to make them equal first is no
// plainer.
pub(crate) fn equal_facts(f: Fact, g: Fact) -> bool
    ensures { result ≡ equal_facts f g }
{
    f.form == g.form && f.term == g.term && Tuple::from(f) == Tuple::from(g)
}

// The alternative without facts.
pub(crate) fn no_alt() -> Alt
    ensures { result ≡ no_alt }
{
    Alt {
        fresh: 0,
        facts: Facts::Empty,
    }
}

// The alternative of one fact, without fresh names.
pub(crate) fn one_of(f: Fact) -> Alt
    ensures { result ≡ one_of f }
{
    Alt {
        fresh: 0,
        facts: Facts::One(f),
    }
}

// The alternative of two facts.
pub(crate) fn two_of(fresh: u8, f: Fact, g: Fact) -> Alt
    ensures { result ≡ two_of fresh f g }
{
    Alt {
        fresh,
        facts: Facts::Two(f, g),
    }
}

// One equality for each of k places.
pub(crate) fn equalities_of(k: u8, u: Tuple, v: Tuple) -> Alt
    ensures { result ≡ equalities_of k u v }
{
    let a = eq_fact(true, u.a, v.a);
    let b = eq_fact(true, u.b, v.b);
    let c = eq_fact(true, u.c, v.c);
    let d = eq_fact(true, u.d, v.d);
    let facts = match k {
        1 => Facts::One(a),
        2 => Facts::Two(a, b),
        3 => Facts::Three(a, b, c),
        _ => Facts::Four(a, b, c, d),
    };
    Alt { fresh: 0, facts }
}
