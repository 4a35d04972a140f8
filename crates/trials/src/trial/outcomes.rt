// What a step comes to: an alternative appended, a fork made or resumed, a branch closed, or a refusal.
// Nothing is written here; all counts are made here, and within their limits.
ghost use Rattle.std.specs.Prelude.{◌≡◌, ◌-◌, ◌≤◌, IfOk};
ghost use Rattle.std.specs.List.{slice_get};
ghost use Rattle.calls.specs.RuleSteps.{cited_again, resumed_with, resumed, closing, growing, come_to};
ghost use Rattle.calls.specs.RuleSteps.{forked, rows_of, branch_facts, forks_of};
ghost use Rattle.stores.specs.View.{held};
ghost use Rattle.trials.specs.View.{counts_of};
ghost use Rattle.trials.specs.Steps.{Roomy};

use crate::looks::fact_or_none;
use crate::progress::Progress;
use crate::room::{facts_over, forks_left, grow_by, many_facts, many_names, move_on, names_over};
use labels::kind::Kind;
use records::refusal::{Refusal, Room};
use records::rows::{Fact, Step};
use records::rule::Rule;
use rules::cited::{Alt, Cited, Plan};
use rules::outcome::{Fork, Outcome};
use rules::{alternative, alternatives, row_at};
use stores::lent::Stores;

// (Each outcome fits, by the clause `room`; it speaks of the counts beside the outcome, so no type of outcomes carries
// it. And a fork that is resumed is there, by a plain number as all counts.)
impl Progress {
    // A rule with alternatives: the first is appended, and a fork is kept where there are more. Names, facts
    // and forks are tested in this order, names and facts over all alternatives.
    fn grow(&self, x: Step, plan: Plan) -> Result<Outcome, Refusal>
        ensures is { result ≡ growing (counts_of self.now) x plan.rule plan.cited }
        ensures room { IfOk result (λ o. Roomy (counts_of self.now) o) }
    {
        if names_over(plan, self.names) {
            return Err(Refusal::NoRoom(Room::Names));
        }
        if facts_over(plan, self.names, self.facts) {
            return Err(Refusal::NoRoom(Room::Facts));
        }
        let grown = grow_by(
            self.facts,
            self.names,
            alternative(plan.rule, plan.cited, self.names, 0),
        );
        if alternatives(plan.rule) == 1 {
            return Ok(Outcome::Adds(grown));
        }
        if self.forks < 64 {
            Ok(Outcome::Forks(grown, self.fork(plan.rule, x), self.forks + 1))
        } else {
            Err(Refusal::NoRoom(Room::Forks))
        }
    }

    // The fork that a step leaves: its first alternative is taken up with it.
    fn fork(&self, rule: Rule, x: Step) -> Fork
        ensures { result ≡ forked (counts_of self.now) rule x }
    {
        Fork {
            facts: self.facts,
            names: self.names,
            rule,
            p: x.p,
            t: x.t,
            next: 1,
        }
    }

    // What a fork's step cites, again: the same rows as `cite` looks up, with the rest known. (Four lines in each; one
    // function for both would take eight parameters.)
    fn cite_again(&self, stores: &Stores, f: Fact, t: u8) -> Cited
        ensures { result
            ≡ cited_again (rows_of (counts_of self.now) (held stores.now)) f t }
    {
        let rows = self.rows(stores.terms);
        let of_p = row_at(rows, f.term);
        let of_t = row_at(rows, t);
        let left = row_at(rows, of_p.a).arity;
        Cited {
            one: false,
            p: f,
            q: Fact::default(),
            t,
            w: 0,
            of_p,
            of_t,
            left,
            labels: None,
        }
    }

    // The alternative of the latest fork, on the m facts and n names where the fork stands; the fork goes
    // with its last one.
    fn resume_with(&self, fork: Fork, m: u16, n: u8, alt: Alt) -> Result<Outcome, Refusal>
        requires { (1 ≤ self.now.forks) × ((m ≤ self.now.facts) × (n ≤ 64)) }
        ensures is { result ≡ resumed_with self.now.forks fork m n alt }
        ensures room { IfOk result (λ o. Roomy (counts_of self.now) o) }
    {
        if many_names(n, alt) {
            return Err(Refusal::NoRoom(Room::Names));
        }
        if many_facts(m, alt) {
            return Err(Refusal::NoRoom(Room::Facts));
        }
        let grown = grow_by(m, n, alt);
        Ok(Outcome::Resumes(grown, move_on(fork), forks_left(self.forks, fork)))
    }

    // The latest fork's next alternative, from the counts of facts and names where the fork stands.
    fn resume(&self, stores: &Stores, fork: Fork) -> Result<Outcome, Refusal>
        requires { 1 ≤ self.now.forks }
        ensures is { result ≡ resumed (counts_of self.now)
            (rows_of (counts_of self.now) (held stores.now))
            (branch_facts (counts_of self.now) (held stores.now)) fork }
        ensures room { IfOk result (λ o. Roomy (counts_of self.now) o) }
    {
        let m = fork.facts.min(self.facts);
        let n = fork.names.min(64);
        let f = fact_or_none(self.branch(stores.facts), fork.p);
        let cited = self.cite_again(stores, f, fork.t);
        let alt = alternative(fork.rule, cited, n, fork.next);
        self.resume_with(fork, m, n, alt)
    }

    // A rule without alternatives: the branch closes, and the latest fork is resumed, if there is one.
    fn close(&self, stores: &Stores) -> Result<Outcome, Refusal>
        ensures is { result ≡ closing (counts_of self.now)
            (rows_of (counts_of self.now) (held stores.now))
            (branch_facts (counts_of self.now) (held stores.now))
            (slice_get (forks_of (counts_of self.now) (held stores.now))
            (self.now.forks - 1)) }
        ensures room { IfOk result (λ o. Roomy (counts_of self.now) o) }
    {
        match self.latest(stores.forks) {
            None => Ok(Outcome::Closes),
            Some(fork) => self.resume(stores, fork),
        }
    }

    // What the step comes to.
    pub(crate) fn outcome<K: Kind>(
        &self,
        kind: &K,
        stores: &Stores,
        x: Step,
    ) -> Result<Outcome, Refusal>
        ensures is { result ≡ come_to (K.Kind.meaning kind.now) (counts_of self.now)
            (held stores.now) x }
        ensures room { IfOk result (λ o. Roomy (counts_of self.now) o) }
    {
        let plan = self.plan(kind, stores, x)?;
        if alternatives(plan.rule) == 0 {
            self.close(stores)
        } else {
            self.grow(x, plan)
        }
    }
}
