//! A store made where there is none.
ghost use Rattle.std.specs.Prelude.{◌≡◌, IfOk, IfErr};
ghost use Rattle.road_io.specs.Told.{Told};
ghost use Rattle.sequence_journal.specs.Journal.{CountsFaults};
ghost use Rattle.sequence_journal.specs.Basing.{journal_of_base};
ghost use Rattle.store_switch.specs.StoreCreating.{CreatesStore, IsCreateError};

use crate::live::{find_live, settle_both};
use road_base::{Event, Sequence};
use road_io::{Site, Which};
use sequence_journal::{Journal, JournalError, write_base};
use std::alloc::Global;

/// The profile of a store that is made: `checkpoint` raises it.
const FIRST_PROFILE: u32 = 1;

/// Makes a store of a base: its number, that before the first change's, and the events that come before all changes.
/// It syncs both files, and writes file A, of generation 1 and profile 1: the journal is that of the base there,
/// whatever the site tells. StoreExists exactly where some file has an open base. All memory is taken before it writes;
/// file B is never written. After a SiteFault create the store again, or load it.
pub fn create_store<W: Site>(
    alloc: Global,
    site: &mut W,
    base: Sequence,
    events: &[Event],
) -> Result<Journal, JournalError>
    ensures told { Told (CreatesStore base.0 events.now result) (W.outside site.old) (W.outside site.new) }
    ensures journal { IfOk result (λ j. j ≡ journal_of_base Which.A 1 base 1 events.now) }
    ensures named { IfErr result IsCreateError }
    ensures counts { CountsFaults (W.faults site.old) (W.faults site.new) result }
{
    settle_both(site)?;
    if find_live(site)?.is_some() {
        return Err(JournalError::StoreExists);
    }
    write_base(alloc, site, Which::A, 1, base, FIRST_PROFILE, events)
}
