//! Where an input is in fault.
ghost use Rattle.std.specs.Prelude.{◌≡◌};
ghost use Rattle.opl_objects.specs.declared.fault.ReadError.TheVariants.{NoMemory};

use opl_lexer::FaultKind;
use std::alloc::{AllocError, AllocFailed};

/// Where a fault stands, and what it is. Lines are counted from 1, all of them. The object's own field is 1, and
/// field 0 stands for the whole line.
#[derive(Clone, Copy, PartialEq, Eq, Debug)]
pub struct Fault {
    pub line: u64,
    pub field: u32,
    pub kind: FaultKind,
}

/// Why an input isn't read.
#[derive(Clone, Copy, PartialEq, Eq, Debug)]
pub enum ReadError {
    /// The first fault of the input.
    Fault(Fault),
    /// No memory was found.
    NoMemory,
}

impl From<AllocError> for ReadError {
    ghost from_gives = { λ _ e. e ≡ NoMemory };

    fn from(_error: AllocError) -> ReadError {
        ReadError::NoMemory
    }
}

impl<T: Drop> From<AllocFailed<T>> for ReadError {
    ghost from_gives = { λ _ e. e ≡ NoMemory };

    fn from(_error: AllocFailed<T>) -> ReadError {
        ReadError::NoMemory
    }
}
