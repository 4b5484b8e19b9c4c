//! A store where there is none.
ghost use Rattle.std.specs.Prelude.{◌≡◌, Some};
ghost use Rattle.osmroad.specs.declared.command.Command.TheVariants.{Create as CreateCommand};
ghost use Rattle.osmroad.specs.Replies.{Prepares, CountsReads, CountsCalls};

use crate::store_refusals::refuse_store;
use crate::texts::created_text;
use bounded_input::read_events;
use last_words::{Failure, LastWords, Status, refuse_input};
use opl_lexer::Mode;
use road_base::Sequence;
use road_io::{Site, Source};
use sequence_journal::JournalError;
use std::alloc::Global;
use store_switch::laws::journal_on_store;
use store_switch::{create_store, find_live};

/// Makes a store of the extract on the source, under the base's number. Both files are looked at before the source is
/// read.
pub fn create<S: Source, W: Site>(
    alloc: Global,
    number: Sequence,
    source: &mut S,
    site: &mut W,
) -> Result<LastWords, Failure>
    ensures prepares { Prepares (Some (CreateCommand number)) result
        (S.bytes_left source.old) (S.bytes_left source.new) (W.outside site.old) (W.outside site.new) }
    ensures reads { CountsReads (S.faults source.old) (S.faults source.new) result }
    ensures calls { CountsCalls (W.faults site.old) (W.faults site.new) result }
{
    journal_on_store();
    match find_live(site) {
        Ok(None) => {}
        Ok(Some(_)) => return refuse_store(alloc, JournalError::StoreExists),
        Err(error) => return refuse_store(alloc, error),
    }
    let events = match read_events(alloc, Mode::Extract, source) {
        Ok(events) => events,
        Err(error) => return refuse_input(alloc, error),
    };
    let line = created_text(alloc, number)?;
    match create_store(alloc, site, number, &events) {
        Ok(_) => Ok(LastWords::new(Status::Done, line)),
        Err(error) => refuse_store(alloc, error),
    }
}
