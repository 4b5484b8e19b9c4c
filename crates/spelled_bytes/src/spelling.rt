//! What has a spelling, and pairs of it.
ghost use Rattle.std.specs.Prelude.{◌≡◌, ℕ, List, ◌++◌, IfOk, IfErr};
ghost use Rattle.spelled_bytes.specs.Spelling.{pair_bytes, PairFits};
ghost use Rattle.spelled_bytes.specs.Reading.{Begins, NoneBegins, IfMalformed, IsOneSpelling};
ghost use Rattle.spelled_bytes.specs.OneSpelling.{pair_one};

use crate::unread::Unread;
use std::alloc::Global;

/// What has a spelling in bytes of the kind `F`, and is read by it. A crate that reads bytes has a type of its own for
/// their kind, and spells in it the types of other crates too.
pub trait Spell<F> {
    ghost spelling: { Self → List ℕ };

    /// The values that are read.
    ghost fits: { Self → Type 0 };

    /// Reads what the bytes begin with, and lends the bytes behind it. `Malformed` only where they begin with no
    /// spelling.
    fn read(alloc: Global, bytes: &[u8]) -> Result<(Self, &[u8]), Unread>
        ensures found { IfOk result (λ x. Begins spelling fits bytes.now x.0 x.1.now) }
        ensures malformed { IfErr result (λ e. IfMalformed e (NoneBegins spelling fits bytes.now)) };

    /// No spelling begins another one, and each is that of one value.
    ghost one: { IsOneSpelling spelling fits };
}

/// The first, and then the second.
impl<F, A: Spell<F> + Drop, B: Spell<F> + Drop> Spell<F> for (A, B) {
    ghost spelling = { pair_bytes A.spelling B.spelling };

    ghost fits = { PairFits A.fits B.fits };

    ghost one = { pair_one A.spelling A.fits B.spelling B.fits A.one B.one };

    fn read(alloc: Global, bytes: &[u8]) -> Result<((A, B), &[u8]), Unread> {
        let (first, rest) = A::read(alloc, bytes)?;
        let (second, rest) = B::read(alloc, rest)?;
        Ok(((first, second), rest))
    }
}
