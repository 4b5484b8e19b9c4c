//! What a store and a change are refused with.
ghost use Rattle.std.specs.Prelude.{◌≡◌};
ghost use Rattle.sequence_journal.specs.declared.journal.Journal.{Journal};
ghost use Rattle.osmroad.specs.Replies.{RefusesStore, RefusesChange};

use crate::texts::{damaged_text, sequence_text};
use last_words::{Failure, LastWords, Status};
use opl_objects::Fault;
use road_base::Sequence;
use sequence_journal::{Journal, JournalError};
use std::alloc::Global;

/// What a store is refused with.
pub fn refuse_store(alloc: Global, error: JournalError) -> Result<LastWords, Failure>
    ensures { RefusesStore error result }
{
    match error {
        JournalError::OutOfSequence { kept, got } => {
            let line = sequence_text(alloc, got, kept)?;
            Ok(LastWords::new(Status::OutOfSequence, line))
        }
        JournalError::SiteFault => Err(Failure::SiteFault),
        JournalError::Damaged { file, offset } => {
            let line = damaged_text(alloc, file, offset)?;
            Ok(LastWords::new(Status::Damaged, line))
        }
        JournalError::NoStore => Ok(LastWords::fixed(alloc, Status::NoStore, b"no store\n")?),
        JournalError::StoreExists => {
            Ok(LastWords::fixed(alloc, Status::StoreExists, b"store exists\n")?)
        }
        JournalError::TooLarge => Ok(LastWords::fixed(alloc, Status::Limit, b"limit\n")?),
        JournalError::NoMemory => Err(Failure::NoMemory),
    }
}

/// What a change in fault is refused with: its number is looked at first.
pub fn refuse_change(
    alloc: Global,
    journal: &Journal,
    number: Sequence,
    fault: &Fault,
) -> Result<LastWords, Failure>
    ensures { RefusesChange journal.now number fault.now result }
{
    match journal.check(number) {
        Ok(()) => Ok(LastWords::refused(alloc, fault)?),
        Err(error) => refuse_store(alloc, error),
    }
}
