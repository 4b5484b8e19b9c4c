//! Why a call on a store is refused.
ghost use Rattle.std.specs.Prelude.{◌≡◌};
ghost use Rattle.sequence_journal.specs.declared.error.JournalError.TheVariants.{SiteFault, NoMemory as NoMemoryError};

use road_base::{NoMemory, Sequence};
use road_io::{Failed, Which};
use std::alloc::AllocError;

/// Why a call on a store is refused.
#[derive(Clone, Copy, Debug, PartialEq, Eq)]
pub enum JournalError {
    /// The change's number isn't the kept one plus 1.
    OutOfSequence { kept: Sequence, got: Sequence },
    /// A call on the site failed, or the journal is closed.
    SiteFault,
    /// An open part of the file, whose gate stands at this byte, says what no store says: the base has no known
    /// profile, bytes spell no list of events, or a record hasn't the next number. It is the first such part.
    Damaged { file: Which, offset: u64 },
    /// There is no open base.
    NoStore,
    /// There is an open base already.
    StoreExists,
    /// The file has, or would have, more than 2^40 bytes, or the generation is the last one.
    TooLarge,
    NoMemory,
}

impl From<Failed> for JournalError {
    ghost from_gives = { λ _ e. e ≡ SiteFault };

    fn from(_error: Failed) -> JournalError {
        JournalError::SiteFault
    }
}

impl From<NoMemory> for JournalError {
    ghost from_gives = { λ _ e. e ≡ NoMemoryError };

    fn from(_error: NoMemory) -> JournalError {
        JournalError::NoMemory
    }
}

impl From<AllocError> for JournalError {
    ghost from_gives = { λ _ e. e ≡ NoMemoryError };

    fn from(_error: AllocError) -> JournalError {
        JournalError::NoMemory
    }
}
