// Look-ups of what a step cites: facts and labels, each in the front of its store.
ghost use Rattle.std.specs.Prelude.{◌≡◌};
ghost use Rattle.std.specs.List.{slice_get};
ghost use Rattle.rules.specs.Looked.{looked, label_at, compared, labels_for};
ghost use Rattle.calls.specs.RuleSteps.{or_none};

use labels::kind::Kind;
use records::rows::Fact;
use records::rule::Rule;

// Fact number p, where the rule mentions it. (`used` is the rule's flag for the field: an Option made from both would be no plainer.)
pub(crate) fn look(used: bool, branch: &[Fact], p: u16) -> Option<Fact>
    ensures { result ≡ looked used branch.now p }
{
    if used {
        branch.get(usize::from(p)).copied()
    } else {
        Some(Fact::default())
    }
}

// Fact number p, or no fact past the last one.
pub(crate) fn fact_or_none(branch: &[Fact], p: u16) -> Fact
    ensures { result ≡ or_none (slice_get branch.now p) }
{
    branch.get(usize::from(p)).copied().unwrap_or_default()
}

// The code of the label of a name, if it has one. (A line, as its twin in models, which speaks by the other Option.)
fn label_code(codes: &[u32], name: u8) -> Option<u32>
    ensures { result ≡ slice_get codes.now name }
{
    codes.get(usize::from(name)).copied()
}

// Whether the labels of the names x and y are the same by the kind, where both have a value.
fn compare<K: Kind>(kind: &K, codes: &[u32], x: u8, y: u8) -> Option<bool>
    ensures { result ≡ compared
        (label_at (K.Kind.meaning kind.now) codes.now x)
        (label_at (K.Kind.meaning kind.now) codes.now y) }
{
    let first = label_code(codes, x)?;
    let second = label_code(codes, y)?;
    kind.same(first, second).ok()
}

// The labels in question: those of a fact's two names, or those of the names t and w.
pub(crate) fn label_pair<K: Kind>(
    kind: &K,
    codes: &[u32],
    rule: Rule,
    f: Fact,
    t: u8,
    w: u8,
) -> Option<bool>
    ensures { result ≡ labels_for (K.Kind.meaning kind.now) codes.now rule f t w }
{
    match rule {
        Rule::LabelUnsat => compare(kind, codes, f.a, f.b),
        Rule::LabelSame => compare(kind, codes, t, w),
        _ => None,
    }
}
