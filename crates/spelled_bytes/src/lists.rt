//! So many values of a type, one behind the other.
ghost use Rattle.std.specs.Prelude.{◌≡◌, ◌++◌, length, IfOk, IfErr};
ghost use Rattle.std.specs.List.{AllByRecursion};
ghost use Rattle.road_base.specs.Bytes.{joined};
ghost use Rattle.spelled_bytes.specs.Spelling.{AreSoMany};
ghost use Rattle.spelled_bytes.specs.Reading.{Begins, NoneBegins, IfMalformed};

use crate::spelling::Spell;
use crate::unread::Unread;
use std::alloc::Global;

/// Reads so many, and lends the bytes behind them. `Malformed` only where the bytes don't begin with so many. Takes
/// memory for those alone that it has read.
pub fn read_all<F, T: Spell<F> + Drop>(
    alloc: Global,
    count: u64,
    bytes: &[u8],
) -> Result<(Vec<T>, &[u8]), Unread>
    ensures found { IfOk result (λ x. Begins (joined T.spelling) (AreSoMany T.fits count) bytes.now x.0.items x.1.now) }
    ensures malformed { IfErr result (λ e. IfMalformed e
        (NoneBegins (joined T.spelling) (AreSoMany T.fits count) bytes.now)) }
{
    let mut items = Vec::new(alloc);
    let mut rest = bytes;
    for _ in 0..count {
        let (item, after) = T::read(alloc, rest)?;
        items.push(item)?;
        rest = after;
    }
    Ok((items, rest))
}
