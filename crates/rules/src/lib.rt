//! The rules of the calculus on plain records: which rule a number names, which fields it mentions, whether
//! its line is met, and its alternatives. Nothing here sees a store or a kind of label.
#![tactic(auto)]

ghost use Rattle.std.specs.Prelude.{◌≡◌, ◌≤◌};
ghost use Rattle.rules.specs.Rules.{line_met, self_unequal, negated_by, has_place, has_side};
ghost use Rattle.rules.specs.Rules.{alternative_of, alternatives_of};
ghost use Rattle.rules.specs.Looked.{uses, untouched, zeros_kept, row_at};

pub mod cited;
mod fact;
pub mod outcome;

use cited::{Alt, Cited, Facts, Uses};
use fact::{eq_fact, equal_facts, equalities_of, in_fact, no_alt, one_of, same_fact, two_of};
use records::kinds::{Form, Operation};
use records::rows::{Fact, Step, TermRow};
use records::rule::Rule;
use records::tuple::Tuple;

// ── rules and their fields ──

// The fields that the rule mentions.
pub fn uses(rule: Rule) -> Uses
    ensures { result ≡ uses rule }
{
    let fact = Uses {
        p: true,
        ..Uses::default()
    };
    let term = Uses {
        t: true,
        ..Uses::default()
    };
    match rule {
        Rule::InterUp | Rule::JoinUp | Rule::ProdUp => Uses {
            q: true,
            t: true,
            ..fact
        },
        Rule::EqUnsat | Rule::ClosUpTwo => Uses { q: true, ..fact },
        Rule::UnionUp | Rule::DiffUp | Rule::TranspUp | Rule::ClosUpOne => Uses { t: true, ..fact },
        Rule::SwapName | Rule::SwapTerm => Uses {
            q: true,
            w: true,
            ..fact
        },
        Rule::SingleUp => term,
        Rule::LabelSame => Uses { w: true, ..term },
        _ => fact,
    }
}

// The row of term t, or no row past the last term.
pub fn row_at(rows: &[TermRow], t: u8) -> TermRow
    ensures { result ≡ row_at rows.now t }
{
    rows.get(usize::from(t)).copied().unwrap_or_default()
}

// A field that its rule does not mention is zero. (A flag: an Option of the field would be made here from `Uses` and the step, and be no plainer.)
fn field(used: bool, x: u16) -> bool
    ensures { result ≡ untouched used x }
{
    used || x == 0
}

// The fields that the rule does not mention are zero.
pub fn zeros(rule: Rule, x: Step) -> bool
    ensures { result ≡ zeros_kept rule x }
{
    let uses = uses(rule);
    field(uses.p, x.p)
        && field(uses.q, x.q)
        && field(uses.t, u16::from(x.t))
        && field(uses.w, u16::from(x.w))
}

// ── lines ──

// The fact says that a name, or a term, is not equal to itself.
fn is_self_unequal(f: Fact) -> bool
    ensures { result ≡ self_unequal f }
{
    !f.positive && f.is(Form::EqualNames) && f.a == f.b
        || !f.positive && f.is(Form::EqualTerms) && f.term == f.a
}

// The fact f is positive, and g is its exact negation.
fn is_negated_by(f: Fact, g: Fact) -> bool
    ensures { result ≡ negated_by f g }
{
    f.positive && !g.positive && equal_facts(f, g)
}

// w is a place of the fact: of its tuple, with the arity k, or of its two names.
fn has_place(w: u8, k: u8, f: Fact) -> bool
    ensures { result ≡ has_place w k f }
{
    f.is(Form::Member) && w < k || f.is(Form::EqualNames) && w < 2
}

// Term s stands in the fact at side w: 0 is its term, 1 the second of two terms.
fn has_side(w: u8, s: u8, f: Fact) -> bool
    ensures { result ≡ has_side w s f }
{
    w == 0 && (f.is(Form::Member) || f.is(Form::EqualTerms)) && f.term == s
        || w == 1 && f.is(Form::EqualTerms) && f.a == s
}

// Whether the rule's line is met.
pub fn met(rule: Rule, c: Cited) -> bool
    ensures { result ≡ line_met rule c }
{
    match rule {
        Rule::InterUp => c.p.affirms(Form::Member)
            && c.q.affirms(Form::Member)
            && Tuple::from(c.p) == Tuple::from(c.q)
            && c.of_t.is(Operation::Intersection)
            && c.of_t.a == c.p.term
            && c.of_t.b == c.q.term,
        Rule::InterDown => c.p.affirms(Form::Member) && c.of_p.is(Operation::Intersection),
        Rule::UnionUp => c.p.affirms(Form::Member)
            && c.of_t.is(Operation::Union)
            && (c.of_t.a == c.p.term || c.of_t.b == c.p.term),
        Rule::UnionDown => c.p.affirms(Form::Member) && c.of_p.is(Operation::Union),
        Rule::DiffUp => c.p.affirms(Form::Member)
            && c.of_t.is(Operation::Difference)
            && c.of_t.a == c.p.term,
        Rule::DiffDown => c.p.affirms(Form::Member) && c.of_p.is(Operation::Difference),
        Rule::SingleUp => c.of_t.is(Operation::Single),
        Rule::SingleDown => c.p.affirms(Form::Member) && c.of_p.is(Operation::Single),
        Rule::EmptyUnsat => c.p.affirms(Form::Member) && c.of_p.is(Operation::Empty),
        Rule::SetDiseq => c.p.is(Form::EqualTerms) && !c.p.positive,
        Rule::EqUnsat => c.one && is_self_unequal(c.p) || is_negated_by(c.p, c.q),
        Rule::TranspUp => c.p.affirms(Form::Member)
            && c.of_t.is(Operation::Transpose)
            && c.of_t.a == c.p.term,
        Rule::TranspDown => c.p.affirms(Form::Member) && c.of_p.is(Operation::Transpose),
        Rule::JoinUp => c.p.affirms(Form::Member)
            && c.q.affirms(Form::Member)
            && c.of_t.is(Operation::Join)
            && c.of_t.a == c.p.term
            && c.of_t.b == c.q.term
            && c.of_p.arity >= 1
            && Tuple::from(c.p).at(c.of_p.arity - 1) == c.q.a,
        Rule::JoinDown => c.p.affirms(Form::Member) && c.of_p.is(Operation::Join) && c.left >= 1,
        Rule::ProdUp => c.p.affirms(Form::Member)
            && c.q.affirms(Form::Member)
            && c.of_t.is(Operation::Product)
            && c.of_t.a == c.p.term
            && c.of_t.b == c.q.term,
        Rule::ProdDown => c.p.affirms(Form::Member) && c.of_p.is(Operation::Product),
        Rule::ClosUpOne => c.p.affirms(Form::Member)
            && c.of_t.is(Operation::Closure)
            && c.of_t.a == c.p.term,
        Rule::ClosUpTwo => c.p.affirms(Form::Member)
            && c.q.affirms(Form::Member)
            && c.p.term == c.q.term
            && c.of_p.is(Operation::Closure)
            && c.p.b == c.q.a,
        Rule::ClosDown => c.p.affirms(Form::Member) && c.of_p.is(Operation::Closure),
        Rule::Sym => c.p.is(Form::EqualNames) || c.p.is(Form::EqualTerms),
        Rule::SwapName => c.q.affirms(Form::EqualNames)
            && has_place(c.w, c.of_p.arity, c.p)
            && Tuple::from(c.p).at(c.w) == c.q.a,
        Rule::SwapTerm => c.q.affirms(Form::EqualTerms) && has_side(c.w, c.q.term, c.p),
        Rule::LabelUnsat => c.p.affirms(Form::EqualNames) && c.labels == Some(false),
        Rule::LabelSame => c.labels == Some(true),
    }
}

// ── alternatives ──

// How many alternatives a rule has: none closes the branch.
pub fn alternatives(rule: Rule) -> u8
    ensures { result ≡ alternatives_of rule }
{
    match rule {
        Rule::EmptyUnsat | Rule::EqUnsat | Rule::LabelUnsat => 0,
        Rule::UnionDown | Rule::DiffUp | Rule::SetDiseq => 2,
        Rule::ClosDown => 3,
        _ => 1,
    }
}

// Alternative k of a rule on a branch with n names; past the last one it is the last again. (That n is at most 64
// stands in some contracts here and above: a type for it would be taken apart at each sum.)
pub fn alternative(rule: Rule, c: Cited, n: u8, k: u8) -> Alt
    requires { n ≤ 64 }
    ensures { result ≡ alternative_of rule c n k }
{
    let u = Tuple::from(c.p);
    match rule {
        Rule::InterUp | Rule::UnionUp | Rule::ClosUpOne => one_of(in_fact(true, u, c.t)),
        Rule::InterDown => two_of(0, in_fact(true, u, c.of_p.a), in_fact(true, u, c.of_p.b)),
        Rule::UnionDown => {
            if k == 0 {
                one_of(in_fact(true, u, c.of_p.a))
            } else {
                one_of(in_fact(true, u, c.of_p.b))
            }
        }
        Rule::DiffUp => {
            if k == 0 {
                one_of(in_fact(true, u, c.of_t.b))
            } else {
                one_of(in_fact(true, u, c.t))
            }
        }
        Rule::DiffDown => two_of(0, in_fact(true, u, c.of_p.a), in_fact(false, u, c.of_p.b)),
        Rule::SingleUp => one_of(in_fact(true, Tuple::from(c.of_t), c.t)),
        Rule::SingleDown => equalities_of(c.of_p.arity, u, Tuple::from(c.of_p)),
        Rule::EmptyUnsat | Rule::EqUnsat | Rule::LabelUnsat => no_alt(),
        Rule::SetDiseq => {
            let z = Tuple::fresh(c.of_p.arity, n);
            if k == 0 {
                two_of(
                    c.of_p.arity,
                    in_fact(true, z, c.p.term),
                    in_fact(false, z, c.p.a),
                )
            } else {
                two_of(
                    c.of_p.arity,
                    in_fact(false, z, c.p.term),
                    in_fact(true, z, c.p.a),
                )
            }
        }
        Rule::TranspUp => one_of(in_fact(true, u.reversed(c.of_p.arity), c.t)),
        Rule::TranspDown => one_of(in_fact(true, u.reversed(c.of_p.arity), c.of_p.a)),
        Rule::JoinUp => {
            let i = c.of_p.arity.saturating_sub(1);
            one_of(in_fact(true, u.joined(i, Tuple::from(c.q).rest_from(1)), c.t))
        }
        Rule::JoinDown => {
            let i = c.left.saturating_sub(1);
            two_of(
                1,
                in_fact(true, u.joined(i, Tuple::pair(n, 0)), c.of_p.a),
                in_fact(true, u.rest_from(i).after(n), c.of_p.b),
            )
        }
        Rule::ProdUp => one_of(in_fact(true, u.joined(c.of_p.arity, Tuple::from(c.q)), c.t)),
        Rule::ProdDown => two_of(
            0,
            in_fact(true, u.joined(c.left, Tuple::default()), c.of_p.a),
            in_fact(true, u.rest_from(c.left), c.of_p.b),
        ),
        Rule::ClosUpTwo => one_of(in_fact(true, Tuple::pair(c.p.a, c.q.b), c.p.term)),
        Rule::ClosDown => {
            if k == 0 {
                one_of(in_fact(true, u, c.of_p.a))
            } else if k == 1 {
                two_of(
                    1,
                    in_fact(true, Tuple::pair(c.p.a, n), c.of_p.a),
                    in_fact(true, Tuple::pair(n, c.p.b), c.of_p.a),
                )
            } else {
                Alt {
                    fresh: 2,
                    facts: Facts::Four(
                        in_fact(true, Tuple::pair(c.p.a, n), c.of_p.a),
                        in_fact(true, Tuple::pair(n, n + 1), c.p.term),
                        in_fact(true, Tuple::pair(n + 1, c.p.b), c.of_p.a),
                        eq_fact(false, n, n + 1),
                    ),
                }
            }
        }
        Rule::Sym => {
            if c.p.is(Form::EqualNames) {
                one_of(eq_fact(c.p.positive, c.p.b, c.p.a))
            } else {
                one_of(same_fact(c.p.positive, c.p.a, c.p.term))
            }
        }
        Rule::SwapName => {
            let v = u.with(c.w, c.q.b);
            if c.p.is(Form::Member) {
                one_of(in_fact(c.p.positive, v, c.p.term))
            } else {
                one_of(eq_fact(c.p.positive, v.a, v.b))
            }
        }
        Rule::SwapTerm => {
            if c.p.is(Form::Member) {
                one_of(in_fact(c.p.positive, u, c.q.a))
            } else if c.w == 0 {
                one_of(same_fact(c.p.positive, c.q.a, c.p.a))
            } else {
                one_of(same_fact(c.p.positive, c.p.term, c.q.a))
            }
        }
        Rule::LabelSame => one_of(eq_fact(true, c.t, c.w)),
    }
}
