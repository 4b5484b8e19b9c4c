//! A file synced, read, and its end repaired.
ghost use Rattle.std.specs.Prelude.{◌≡◌, false, IfOk, IfSome, IfErr};
ghost use Rattle.road_base.specs.Profiles.{IsProfile};
ghost use Rattle.road_io.specs.Told.{Told, Counts};
ghost use Rattle.road_io.specs.Disk.{IsDurable};
ghost use Rattle.road_io.specs.Outside.{disk};
ghost use Rattle.sequence_journal.specs.Journal.{CountsFaults};
ghost use Rattle.sequence_journal.specs.Reading.{IsReadError};
ghost use Rattle.sequence_journal.specs.Loading.{Settles, Mends, Loads};

use crate::ends::repair_end;
use crate::error::JournalError;
use crate::journal::Journal;
use crate::laws::one_history;
use crate::parts::ends_there;
use crate::whole_file::{ReadHistory, judge};
use road_base::{Event, MOST_STORE, Sequence};
use road_io::{Failed, Site, Which};
use std::alloc::Global;

/// A journal on a file, and the events of the file's history in order, those of the base first.
#[derive(Drop)]
pub struct Loaded {
    pub journal: Journal,
    pub events: Vec<Event>,
}

impl Journal {
    /// Syncs a file, reads it and repairs its end. NoStore exactly where the file has no open base; TooLarge exactly
    /// where it has one and more than 2^40 bytes; then Damaged exactly where an open part is at fault, with the offset
    /// of its gate. Nothing is repaired where the next gate stands there, closed, as the file's last byte, nor where it
    /// would stand at 2^40. A SiteFault may have repaired.
    pub fn load<W: Site>(alloc: Global, site: &mut W, file: Which) -> Result<Loaded, JournalError>
        ensures told { Told (Loads file result) (W.outside site.old) (W.outside site.new) }
        ensures on { IfOk result (λ loaded. loaded.journal.file ≡ file) }
        ensures not_closed { IfOk result (λ loaded. loaded.journal.closed ≡ false) }
        ensures known { IfOk result (λ loaded. IsProfile loaded.journal.profile) }
        ensures named { IfErr result (IsReadError file) }
        ensures counts { CountsFaults (W.faults site.old) (W.faults site.new) result }
    {
        settle(site, file)?;
        mend(alloc, site, file)
    }
}

/// Syncs a file, after which nothing is pending on it, and a stop leaves nothing new.
pub fn settle<W: Site>(site: &mut W, file: Which) -> Result<(), Failed>
    ensures told { Told (Settles file result) (W.outside site.old) (W.outside site.new) }
    ensures counts { Counts (W.faults site.old) (W.faults site.new) result }
{
    site.sync(file)
}

/// Reads a file on which nothing is pending, and repairs its end; refuses as `Journal::load` does.
pub fn mend<W: Site>(alloc: Global, site: &mut W, file: Which) -> Result<Loaded, JournalError>
    requires { IfSome (W.outside site.old) (λ w. IsDurable (disk w file)) }
    ensures told { Told (Mends file result) (W.outside site.old) (W.outside site.new) }
    ensures on { IfOk result (λ loaded. loaded.journal.file ≡ file) }
    ensures not_closed { IfOk result (λ loaded. loaded.journal.closed ≡ false) }
    ensures known { IfOk result (λ loaded. IsProfile loaded.journal.profile) }
    ensures named { IfErr result (IsReadError file) }
    ensures counts { CountsFaults (W.faults site.old) (W.faults site.new) result }
{
    one_history();
    let history = judge(alloc, site, file)?;
    let whole = ends_there(site, file, history.len, history.gate)?;
    let ReadHistory {
        len: _,
        generation,
        profile,
        kept,
        gate,
        events,
    } = history;
    let journal = Journal {
        file,
        generation,
        profile,
        gate,
        kept: Sequence(kept),
        closed: false,
    };
    if whole {
        return Ok(Loaded { journal, events });
    }
    if gate == MOST_STORE {
        return Ok(Loaded { journal, events });
    }
    repair_end(site, file, gate)?;
    Ok(Loaded { journal, events })
}
