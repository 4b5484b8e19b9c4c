//! Why nothing was read.
ghost use Rattle.std.specs.Prelude.{◌≡◌};
ghost use Rattle.spelled_bytes.specs.declared.unread.Unread.TheVariants.{Memory};

use road_base::NoMemory;
use std::alloc::{AllocError, AllocFailed};

/// Why nothing was read.
#[derive(Drop)]
pub enum Unread {
    /// The bytes begin with no spelling.
    Malformed,
    /// No memory was found.
    Memory,
}

impl From<NoMemory> for Unread {
    ghost from_gives = { λ _ e. e ≡ Memory };

    fn from(_error: NoMemory) -> Unread {
        Unread::Memory
    }
}

impl From<AllocError> for Unread {
    ghost from_gives = { λ _ e. e ≡ Memory };

    fn from(_error: AllocError) -> Unread {
        Unread::Memory
    }
}

impl<T: Drop> From<AllocFailed<T>> for Unread {
    ghost from_gives = { λ _ e. e ≡ Memory };

    fn from(_error: AllocFailed<T>) -> Unread {
        Unread::Memory
    }
}
