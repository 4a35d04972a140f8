// What a granted model leaves.
ghost use Rattle.std.specs.Prelude.{◌≡◌, ◌<◌, ◌≤◌, length};
ghost use Rattle.calls.specs.Stores.{Enough};
ghost use Rattle.calls.specs.Trials.{opened};
ghost use Rattle.stores.specs.View.{held, tuples_of, Same};
ghost use Rattle.trials.specs.View.{counts_of};

use crate::progress::Progress;
use crate::writes::put_front;
use records::verdict::Verdict;
use stores::lent::Stores;

impl Progress {
    // (What `few` says of a granted model in this file's and the next's contracts no type carries: it would be made and
    // taken apart at once.)
    // Takes up a granted model: its representatives are put into their store, and the verdict is OPEN.
    pub(crate) fn open(&mut self, stores: &mut Stores, representatives: &[u8])
        requires { (Enough (held stores.old)) × ((length representatives.now ≤ 64) × (self.old.granted < 1000000)) }
        ensures trial { counts_of self.new
            ≡ (opened (counts_of self.old) (held stores.old)
            representatives.now).trial }
        ensures stores { held stores.new
            ≡ (opened (counts_of self.old) (held stores.old)
            representatives.now).stores }
        ensures same { Same stores.old stores.new }
        ensures tuples { tuples_of stores.new ≡ tuples_of stores.old }
    {
        put_front(stores.representatives, representatives);
        self.grant(Verdict::Open, self.facts, self.names, self.forks);
    }
}
