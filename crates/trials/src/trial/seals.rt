// The way from a full sheet to its trial.
ghost use Rattle.std.specs.Prelude.{◌≡◌, IfErr};
ghost use Rattle.calls.specs.Sheets.{seal_of};
ghost use Rattle.sheets.specs.View.{filling_of};
ghost use Rattle.stores.specs.View.{held};
ghost use Rattle.trials.specs.View.{trial_told};

use super::Trial;
use records::refusal::Refusal;
use sheets::sheet::Sheet;
use stores::lent::Stores;

impl Trial {
    // The trial of a full sheet; a sheet with rows still due is handed back as it was, and no store is touched.
    pub fn seal(sheet: Sheet, stores: &Stores) -> Result<Trial, (Sheet, Refusal)>
        ensures answer { trial_told result ≡ seal_of (filling_of sheet) (held stores.now) }
        ensures back { IfErr result (λ e. filling_of e.0 ≡ filling_of sheet) }
    {
        let full = sheet.seal(stores)?;
        Ok(Trial::begin(full.sizes()))
    }
}
