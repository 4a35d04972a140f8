// The plan of a step: its rule with what it cites, or why there is none.
ghost use Rattle.std.specs.Prelude.{◌≡◌};
ghost use Rattle.rules.specs.Looked.{cited_by, planned};
ghost use Rattle.calls.specs.RuleSteps.{codes_of, rows_of, branch_facts};
ghost use Rattle.stores.specs.View.{held};
ghost use Rattle.trials.specs.View.{counts_of};

use crate::looks::{label_pair, look};
use crate::progress::Progress;
use labels::kind::Kind;
use records::refusal::Refusal;
use records::rows::{Fact, Step};
use records::rule::Rule;
use rules::cited::{Cited, Plan};
use rules::{met, row_at, uses, zeros};
use stores::lent::Stores;

// (The kind and the stores go together through the functions of a step: both are lent to the call, and the stores
// differently to those that read and those that write, so a struct of both would be made anew at each.)
impl Progress {
    // What the step cites, where its fields p and q number the facts f and g.
    fn cite<K: Kind>(
        &self,
        kind: &K,
        stores: &Stores,
        rule: Rule,
        x: Step,
        f: Fact,
        g: Fact,
    ) -> Cited
        ensures { result ≡ cited_by (K.Kind.meaning kind.now)
            (codes_of (counts_of self.now) (held stores.now))
            (rows_of (counts_of self.now) (held stores.now)) rule x f g }
    {
        let rows = self.rows(stores.terms);
        let of_p = row_at(rows, f.term);
        let of_t = row_at(rows, x.t);
        let left = row_at(rows, of_p.a).arity;
        let labels = label_pair(kind, self.codes(stores.labels), rule, f, x.t, x.w);
        Cited {
            one: x.p == x.q,
            p: f,
            q: g,
            t: x.t,
            w: x.w,
            of_p,
            of_t,
            left,
            labels,
        }
    }

    // The step's rule with what it cites, where its line is met.
    pub(crate) fn plan<K: Kind>(&self, kind: &K, stores: &Stores, x: Step) -> Result<Plan, Refusal>
        ensures { result ≡ planned (K.Kind.meaning kind.now)
            (codes_of (counts_of self.now) (held stores.now))
            (rows_of (counts_of self.now) (held stores.now))
            (branch_facts (counts_of self.now) (held stores.now)) x }
    {
        let rule = Rule::try_from(x.rule)?;
        let uses = uses(rule);
        let branch = self.branch(stores.facts);
        let Some(f) = look(uses.p, branch, x.p) else {
            return Err(Refusal::NotOnBranch(x.p));
        };
        let Some(g) = look(uses.q, branch, x.q) else {
            return Err(Refusal::NotOnBranch(x.q));
        };
        let cited = self.cite(kind, stores, rule, x, f, g);
        if zeros(rule, x) && met(rule, cited) {
            Ok(Plan { rule, cited })
        } else {
            Err(Refusal::NotMet)
        }
    }
}
