//! Values that know the key at which they are kept.
ghost use Rattle.std.specs.Prelude.{◌≡◌, IfOk};

use crate::kind_ranges::Kinded;
use std::alloc::AllocError;

/// A value with a key of its own, at which a map keeps it.
pub trait Keyed<K>: Kinded + Drop + Sized {
    ghost key: { Self → K };

    /// The key.
    fn key(&self) -> K
        ensures { result ≡ key self.now };

    /// An equal value. Takes the time and the memory of a copy.
    fn duplicate(&self) -> Result<Self, AllocError>
        ensures { IfOk result (λ v. v ≡ self.now) };
}
