//! What can be wrong in a line of OPL.
ghost use Rattle.std.specs.Prelude.{◌≡◌};
ghost use Rattle.opl_lexer.specs.declared.fault.LexError.TheVariants.{NoMemory};

use std::alloc::{AllocError, AllocFailed};

/// The kinds of faults of a line.
#[derive(Clone, Copy, PartialEq, Eq, Debug)]
pub enum FaultKind {
    /// The line isn't UTF-8.
    NotUtf8,
    /// The first field begins with a character other than `n`, `w`, `r`, `c` and `#`.
    UnknownLine,
    /// The field's letter isn't one of its object's.
    UnknownField,
    /// The field's letter stood before in the line.
    Repeated,
    /// An object's number or a version isn't in form or range.
    BadNumber,
    /// An escape isn't in form.
    BadEscape,
    /// A tag has no `=`, or a second one.
    BadTag,
    /// A member's letter, number or `@` isn't in form.
    BadMember,
    /// A reference isn't in form.
    BadRef,
    /// A coordinate isn't in form or range.
    BadCoordinate,
    /// The visible flag is neither `V` nor `D` alone.
    BadFlag,
    /// A change's line has no version.
    NoVersion,
    /// A list has more than 65,535 items.
    TooMany,
}

/// Why a value isn't read.
#[derive(Clone, Copy, PartialEq, Eq, Debug)]
pub enum LexError {
    /// The text is in fault.
    Kind(FaultKind),
    /// No memory was found.
    NoMemory,
}

impl From<road_base::NoMemory> for LexError {
    ghost from_gives = { λ _ e. e ≡ NoMemory };

    fn from(_error: road_base::NoMemory) -> LexError {
        LexError::NoMemory
    }
}

impl From<AllocError> for LexError {
    ghost from_gives = { λ _ e. e ≡ NoMemory };

    fn from(_error: AllocError) -> LexError {
        LexError::NoMemory
    }
}

impl<T: Drop> From<AllocFailed<T>> for LexError {
    ghost from_gives = { λ _ e. e ≡ NoMemory };

    fn from(_error: AllocFailed<T>) -> LexError {
        LexError::NoMemory
    }
}
