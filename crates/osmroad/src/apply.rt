//! One more change of a store.
ghost use Rattle.std.specs.Prelude.{◌≡◌, Some};
ghost use Rattle.osmroad.specs.declared.command.Command.TheVariants.{Apply as ApplyCommand};
ghost use Rattle.opl_objects.specs.declared.fault.Fault.{Fault};
ghost use Rattle.bounded_input.specs.declared.input.InputError.{InputError};
ghost use Rattle.last_words.specs.Replies.{RefusesInput};
ghost use Rattle.osmroad.specs.Replies.{Prepares, RefusesChange, CountsReads, CountsCalls};

use crate::laws::store_laws;
use crate::store_refusals::{refuse_change, refuse_store};
use crate::texts::applied_text;
use bounded_input::{InputError, read_events};
use last_words::{Failure, LastWords, Status, refuse_input};
use opl_lexer::Mode;
use road_base::Sequence;
use road_io::{Site, Source};
use sequence_journal::{Journal, Loaded};
use std::alloc::Global;
use std::mem::forget;
use store_switch::load_store;

/// Adds the change on the source to the store, under its number. It builds no graph.
pub fn apply<S: Source, W: Site>(
    alloc: Global,
    number: Sequence,
    source: &mut S,
    site: &mut W,
) -> Result<LastWords, Failure>
    ensures prepares { Prepares (Some (ApplyCommand number)) result
        (S.bytes_left source.old) (S.bytes_left source.new) (W.outside site.old) (W.outside site.new) }
    ensures reads { CountsReads (S.faults source.old) (S.faults source.new) result }
    ensures calls { CountsCalls (W.faults site.old) (W.faults site.new) result }
{
    store_laws();
    let Loaded {
        mut journal,
        events,
    } = match load_store(alloc, site) {
        Ok(loaded) => loaded,
        Err(error) => return refuse_store(alloc, error),
    };
    forget(events);
    let change = match read_events(alloc, Mode::Change, source) {
        Ok(change) => change,
        Err(error) => return refuse_unread(alloc, &journal, number, error),
    };
    let line = applied_text(alloc, number)?;
    match journal.append(alloc, site, number, &change) {
        Ok(()) => Ok(LastWords::new(Status::Done, line)),
        Err(error) => refuse_store(alloc, error),
    }
}

/// What a change that isn't read is refused with: where it is in fault, its number is looked at first.
fn refuse_unread(
    alloc: Global,
    journal: &Journal,
    number: Sequence,
    error: InputError,
) -> Result<LastWords, Failure>
    ensures fault { (fault : Fault) → error ≡ InputError.Refused fault
        → RefusesChange journal.now number fault result }
    ensures other { ((fault : Fault) → error ≡ InputError.Refused fault → ⊥) → RefusesInput error result }
{
    match error {
        InputError::Refused(fault) => refuse_change(alloc, journal, number, &fault),
        _ => refuse_input(alloc, error),
    }
}
