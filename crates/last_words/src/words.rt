//! What is last put, and the status that it stands for.
ghost use Rattle.std.specs.Prelude.{◌≡◌, IfOk, string_bytes};
ghost use Rattle.opl_objects.specs.StreamLines.{fault_at};
ghost use Rattle.road_io.specs.Told.{Told};
ghost use Rattle.last_words.specs.declared.words.Failure.TheVariants.{NoMemory as NoMemoryFailure};
ghost use Rattle.last_words.specs.Texts.{refused_line};
ghost use Rattle.last_words.specs.Puts.{EndsPut, PutsSome};
ghost use Rattle.last_words.specs.Replies.{Says, RefusesInput, failure_status};

use crate::status::Status;
use crate::texts::refused_text;
use bounded_input::InputError;
use opl_objects::Fault;
use road_base::NoMemory;
use road_io::Site;
use std::alloc::{AllocError, Global};

/// What is last put, and the status that it stands for.
#[derive(Drop)]
pub struct LastWords {
    pub status: Status,
    pub out: Vec<u8>,
}

/// Why nothing is put.
#[derive(Clone, Copy, PartialEq, Eq, Debug)]
pub enum Failure {
    ReadFault,
    SiteFault,
    NoMemory,
}

impl From<NoMemory> for Failure {
    ghost from_gives = { λ _ e. e ≡ NoMemoryFailure };

    fn from(_error: NoMemory) -> Failure {
        Failure::NoMemory
    }
}

impl From<AllocError> for Failure {
    ghost from_gives = { λ _ e. e ≡ NoMemoryFailure };

    fn from(_error: AllocError) -> Failure {
        Failure::NoMemory
    }
}

impl Failure {
    pub fn status(self) -> Status
        ensures { result ≡ failure_status self }
    {
        match self {
            Failure::ReadFault => Status::ReadFault,
            Failure::SiteFault => Status::SiteFault,
            Failure::NoMemory => Status::NoMemory,
        }
    }
}

impl LastWords {
    /// A status and its line.
    pub fn new(status: Status, line: String) -> LastWords
        ensures { Says status (string_bytes line) result }
    {
        LastWords {
            status,
            out: line.into_bytes(),
        }
    }

    /// A status and a copy of its line.
    pub fn fixed(alloc: Global, status: Status, line: &[u8]) -> Result<LastWords, AllocError>
        ensures { IfOk result (Says status line.now) }
    {
        Ok(LastWords {
            status,
            out: line.to_vec(alloc)?,
        })
    }

    /// The first fault of an input.
    pub fn refused(alloc: Global, fault: &Fault) -> Result<LastWords, AllocError>
        ensures { IfOk result (Says Status.Refused (refused_line (fault_at fault.now))) }
    {
        Ok(LastWords::new(Status::Refused, refused_text(alloc, fault)?))
    }
}

/// What an input is refused with.
pub fn refuse_input(alloc: Global, error: InputError) -> Result<LastWords, Failure>
    ensures { RefusesInput error result }
{
    match error {
        InputError::Failed => Err(Failure::ReadFault),
        InputError::TooLong => Ok(LastWords::fixed(alloc, Status::Limit, b"limit\n")?),
        InputError::Refused(fault) => Ok(LastWords::refused(alloc, &fault)?),
        InputError::NoMemory => Err(Failure::NoMemory),
    }
}

/// Puts what is last put, and answers the status that it stands for.
pub fn put_last<W: Site>(site: &mut W, chunk: &[u8], status: Status) -> Status
    ensures ends { EndsPut chunk.now status result (W.outside site.old) (W.outside site.new)
        (W.faults site.old) (W.faults site.new) }
    ensures files { Told (PutsSome chunk.now) (W.outside site.old) (W.outside site.new) }
{
    match site.put(chunk) {
        Ok(()) => status,
        Err(_) => Status::SiteFault,
    }
}
