// Whether constraints hold over the values of the terms, and the first that does not.
ghost use Rattle.std.specs.Prelude.{◌≡◌, ◌<◌, ◌≤◌, length, map, Decides};
ghost use Rattle.std.specs.List.{list_all};
ghost use Rattle.records.specs.Tuples.{equal_names};
ghost use Rattle.values.specs.Sets.{has};
ghost use Rattle.models.specs.Rows.{value_of};
ghost use Rattle.models.specs.Constraints.{FormSays, Satisfied, IsHeld, IsFirstFalse};

use super::branch::Branch;
use super::evaluation::Values;
use calls::representative;
use records::kinds::Form;
use records::rows::Fact;
use records::tuple::Tuple;
use values::value::contains;

// Whether each tuple of s is in r.
fn within(s: &[Tuple], r: &[Tuple]) -> bool
    ensures { result ≡ list_all (has equal_names r.now) s.now }
{
    s.iter().all(|t| contains(r, *t))
}

impl Values<'_> {
    // Whether what a constraint of this form says holds, its sign apart.
    fn says(self, form: Form, f: Fact) -> bool
        ensures { Decides result (FormSays form self.entry.representatives.now f
            (IsHeld (map (λ v. v.now) self.entry.terms.now) f.term)
            (IsHeld (map (λ v. v.now) self.entry.terms.now) f.a)) }
    {
        let s = self.of(f.term);
        match form {
            Form::Member => contains(s, self.represented(Tuple::from(f))),
            Form::EqualNames => representative(self.representatives, f.a)
                == representative(self.representatives, f.b),
            Form::EqualTerms => {
                let r = self.of(f.a);
                within(s, r) && within(r, s)
            }
        }
    }

    // Whether a constraint holds.
    fn holds(self, f: Fact) -> bool
        ensures { Decides result (Satisfied self.entry.representatives.now
            (IsHeld (map (λ v. v.now) self.entry.terms.now)) f) }
    {
        // a constraint that was granted has one of the three forms; any other number is taken as the last
        let form = Form::try_from(f.form).unwrap_or(Form::EqualTerms);
        self.says(form, f) == f.positive
    }

    // The first constraint of a branch that does not hold.
    pub(crate) fn first_false(self, branch: &Branch) -> Option<u8>
        ensures { IsFirstFalse self.entry.representatives.now
            (IsHeld (map (λ v. v.now) self.entry.terms.now)) branch.now.facts.now
            branch.now.constraints result }
    {
        let Branch {
            facts,
            constraints,
            ..
        } = *branch;
        // an index over the constraint rows, the first false one answered: the form that is kept on purpose
        for i in 0..constraints {
            if !self.holds(facts[i]) {
                // there are at most 256 constraints
                return Some(i as u8);
            }
        }
        None
    }
}
