ghost use Rattle.std.specs.Prelude.{◌≡◌, ◌==◌, ℕ, []};
ghost use Rattle.std.proofs.Math.Option.{Option};
ghost use Rattle.labels.specs.Kinds.{known_by, sameness_by};
ghost use Rattle.labels.specs.Renames.{target, held_old, held_pairs, kind_below, rename_answer, rename_pairs};

use super::Renames;
use crate::kind::Kind;
use crate::no_value::NoValue;
use crate::pair::Pair;
use arrayvec::ArrayVec;
use records::refusal::Refusal;

impl<K> Renames<K> {
    // A layer without pairs: every code means what it means below.
    pub fn over(below: K) -> Self
        ensures pairs { held_pairs result ≡ [] }
        ensures below { kind_below result ≡ below }
    {
        Renames {
            below,
            pairs: ArrayVec::new(),
        }
    }

    // What the pairs make of a code: the new code of the pair that has it as its old one, or the code itself.
    // (A loop: by the library's `find`, in two forms, a search over many codes took twice as long.)
    fn target(&self, code: u32) -> u32
        ensures { result ≡ target (held_pairs self.now) code }
    {
        let pairs = self.pairs.as_slice();
        for pair in pairs {
            if pair.old == code {
                return pair.new;
            }
        }
        code
    }

    // Whether a pair has this old code.
    fn holds_old(&self, code: u32) -> bool
        ensures { result ≡ held_old (held_pairs self.now) code }
    {
        self.pairs.iter().any(|pair| pair.old == code)
    }

    // One pair more: refused where 16 are held, and then where the old code has a pair already.
    pub fn rename(&mut self, old: u32, new: u32) -> Result<(), Refusal>
        ensures answer { result ≡ rename_answer (held_pairs self.old) old }
        ensures pairs { held_pairs self.new ≡ rename_pairs (held_pairs self.old) old new }
        ensures below { kind_below self.new ≡ kind_below self.old }
    {
        if self.pairs.is_full() {
            return Err(Refusal::PairsFull);
        }
        if self.holds_old(old) {
            return Err(Refusal::OldHeld(old));
        }
        self.pairs.push(Pair { old, new });
        Ok(())
    }
}

impl<K: Kind> Kind for Renames<K> {
    const LETTER: u8 = K::LETTER;

    ghost LETTER = { K.Kind.LETTER };

    ghost meaning = { λ layer code. K.Kind.meaning (kind_below layer) (target (held_pairs layer) code) };

    fn known(&self, code: u32) -> bool {
        self.below.known(self.target(code))
    }

    fn same(&self, a: u32, b: u32) -> Result<bool, NoValue> {
        // Without pairs nothing is looked up: in a search over many codes that shows.
        if self.pairs.is_empty() {
            return self.below.same(a, b);
        }
        let x = self.target(a);
        let y = self.target(b);
        if !self.below.known(x) {
            return Err(NoValue(a));
        }
        self.below.same(x, y).map_err(|_| NoValue(b))
    }
}
