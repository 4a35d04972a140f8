ghost use Rattle.std.specs.Prelude.{◌≡◌, IfErr};
ghost use Rattle.stores.specs.View.{held};
ghost use Rattle.calls.specs.Sheets.{rows_due, seal_of};
ghost use Rattle.sheets.specs.View.{filling_of};
ghost use Rattle.sheets.specs.Seals.{sealed, sizes_of, Few};

use super::Sheet;
use crate::sealed::Sealed;
use crate::sizes::Sizes;
use records::refusal::Refusal;
use stores::large_enough;
use stores::lent::Stores;

impl Sheet {
    // How many rows are still due.
    pub fn due(&self) -> u8
        ensures { result ≡ rows_due (filling_of self.now) }
    {
        (self.sizes.labels - self.labels_in)
            + ((self.sizes.terms - self.terms_in) + (self.sizes.constraints - self.constraints_in))
    }

    // The full sheet, sealed; one with rows still due is handed back as it was.
    pub fn seal(self, stores: &Stores) -> Result<Sealed, (Sheet, Refusal)>
        ensures answer { sealed result ≡ seal_of (filling_of self) (held stores.now) }
        ensures back { IfErr result (λ e. filling_of e.0 ≡ filling_of self) }
    {
        if !large_enough(stores) {
            return Err((self, Refusal::StoresShort));
        }
        let due = self.due();
        if due > 0 {
            return Err((self, Refusal::RowsDue(due)));
        }
        let Sheet {
            sizes,
            labels_in: _,
            terms_in: _,
            constraints_in: _,
        } = self;
        Ok(Sealed { sizes })
    }

    // Ends a sheet that is not to be sealed, and says how many rows were still due.
    pub fn give_up(self) -> u8
        ensures { result ≡ rows_due (filling_of self) }
    {
        let left = self.due();
        let Sheet {
            sizes: _,
            labels_in: _,
            terms_in: _,
            constraints_in: _,
        } = self;
        left
    }
}

impl Sealed {
    // Its numbers, which are within the limits.
    pub fn sizes(self) -> Sizes
        ensures is { result ≡ sizes_of self }
        ensures few { Few result }
    {
        let Sealed { sizes } = self;
        sizes
    }
}
