//! A store loaded.
ghost use Rattle.std.specs.Prelude.{◌≡◌, false, IfOk, IfErr};
ghost use Rattle.road_base.specs.Profiles.{IsProfile};
ghost use Rattle.road_io.specs.Told.{Told};
ghost use Rattle.sequence_journal.specs.Journal.{CountsFaults};
ghost use Rattle.store_switch.specs.StoreLoading.{LoadsStore, IsLoadError};

use crate::live::{find_live, settle_both};
use road_io::Site;
use sequence_journal::{JournalError, Loaded, mend};
use std::alloc::Global;

/// Syncs both files, finds the live one, reads it and repairs its end. NoStore exactly where no file has an open base;
/// TooLarge exactly where the live file has more than 2^40 bytes; then Damaged exactly where an open part of the live
/// file is at fault, with the offset of its gate. The other file isn't written, nor is the live one where there is
/// nothing to repair. A SiteFault may have repaired; every other refusal changes nothing that is read.
pub fn load_store<W: Site>(alloc: Global, site: &mut W) -> Result<Loaded, JournalError>
    ensures told { Told (LoadsStore result) (W.outside site.old) (W.outside site.new) }
    ensures not_closed { IfOk result (λ loaded. loaded.journal.closed ≡ false) }
    ensures known { IfOk result (λ loaded. IsProfile loaded.journal.profile) }
    ensures named { IfErr result IsLoadError }
    ensures counts { CountsFaults (W.faults site.old) (W.faults site.new) result }
{
    settle_both(site)?;
    let Some(live) = find_live(site)? else {
        return Err(JournalError::NoStore);
    };
    mend(alloc, site, live)
}
