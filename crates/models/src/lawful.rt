// Whether representatives are lawful, and the first name whose representative is not.
ghost use Rattle.std.specs.Prelude.{◌≡◌};
ghost use Rattle.std.proofs.Math.ListN.{get_elem?};
ghost use Rattle.meaning.specs.Model.{rep};
ghost use Rattle.calls.specs.Models.{same_value, same_label, none_lower, label_lawful};
ghost use Rattle.calls.specs.Models.{name_lawful, first_bad};
ghost use Rattle.models.specs.Lawfulness.{labelled_by, taken_by, answered};

use calls::representative;
use labels::among::are_same;
use labels::kind::Kind;

// What lawfulness is judged by: the kind, the codes of the labelled names, and each name's representative.
#[derive(Drop)]
pub(crate) struct Bearers<'a, K> {
    pub(crate) kind: &'a K,
    pub(crate) labels: &'a [u32],
    pub(crate) representatives: &'a [u8],
}

// (Three methods of a line each name what the others ask of the fields.)
impl<K: Kind> Bearers<'_, K> {
    // The representative of name e; 0 if it has none.
    fn representative(&self, e: u8) -> u8
        ensures { result ≡ rep self.now.representatives.now e }
    {
        representative(self.representatives, e)
    }

    // Whether two codes have the same value.
    fn same_codes(&self, x: u32, y: u32) -> bool
        ensures { result ≡ same_value (K.meaning self.now.kind.now x) (K.meaning self.now.kind.now y) }
    {
        are_same(self.kind, x, y)
    }

    // The code of the label that name e bears, if it bears one.
    fn label(&self, e: u8) -> Option<u32>
        ensures { answered result ≡ get_elem? self.now.labels.now e }
    {
        self.labels.get(usize::from(e)).copied()
    }

    // Whether names d and e bear the same label.
    fn same_label(&self, d: u8, e: u8) -> bool
        ensures { result ≡ same_label (K.meaning self.now.kind.now) (labelled_by self.now.labels.now) d e }
    {
        match (self.label(d), self.label(e)) {
            (Some(x), Some(y)) => self.same_codes(x, y),
            _ => false,
        }
    }

    // Whether name d represents itself and bears the label of e.
    fn takes(&self, d: u8, e: u8) -> bool
        ensures { result ≡ taken_by (K.meaning self.now.kind.now) self.now.labels.now
            self.now.representatives.now d e }
    {
        self.representative(d) == d && self.same_label(d, e)
    }

    // Whether no name below e that represents itself bears the label of e.
    fn none_lower(&self, e: u8) -> bool
        ensures { result ≡ none_lower (K.meaning self.now.kind.now) (labelled_by self.now.labels.now)
            self.now.representatives.now e e }
    {
        !(0..e).any(|d| self.takes(d, e))
    }

    // Whether a labelled name has the label of its representative, and where it represents itself, no lower
    // such name has it.
    fn label_lawful(&self, e: u8) -> bool
        ensures { result ≡ label_lawful (K.meaning self.now.kind.now) (labelled_by self.now.labels.now)
            self.now.representatives.now e }
    {
        let r = self.representative(e);
        self.same_label(e, r) && (r != e || self.none_lower(e))
    }

    // Whether the representative of name e is lawful: no higher than e, its own representative, and for a
    // labelled name as the labels ask.
    fn name_lawful(&self, e: u8) -> bool
        ensures { result ≡ name_lawful (K.meaning self.now.kind.now) (labelled_by self.now.labels.now)
            self.now.representatives.now e }
    {
        let r = self.representative(e);
        r <= e
            && self.representative(r) == r
            && (self.labels.len() <= usize::from(e) || self.label_lawful(e))
    }

    // The first name below `names` whose representative is not lawful.
    pub(crate) fn first_unlawful(&self, names: u8) -> Option<u8>
        ensures { first_bad (name_lawful (K.meaning self.now.kind.now)
            (labelled_by self.now.labels.now) self.now.representatives.now) names ≡ answered result }
    {
        (0..names).find(|e| !self.name_lawful(*e))
    }
}
