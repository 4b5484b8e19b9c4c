//! Lists, each with how many there are in front.
ghost use Rattle.std.specs.Prelude.{◌≡◌, ◌++◌, IfOk, IfErr};
ghost use Rattle.spelled_bytes.specs.Reading.{Begins, NoneBegins, IfMalformed};
ghost use Rattle.graph_file.specs.GraphReading.{list_bytes, ListFits};

use crate::grammar::GraphFile;
use spelled_bytes::{Spell, Unread, read_all};
use std::alloc::Global;

/// Reads how many there are, and these.
pub fn read_list<G, T: Spell<GraphFile<G>> + Drop>(
    alloc: Global,
    bytes: &[u8],
) -> Result<(Vec<T>, &[u8]), Unread>
    ensures found { IfOk result (λ x. Begins (list_bytes T.spelling) (ListFits T.fits) bytes.now x.0.items x.1.now) }
    ensures malformed { IfErr result (λ e. IfMalformed e
        (NoneBegins (list_bytes T.spelling) (ListFits T.fits) bytes.now)) }
{
    let (count, rest) = <u64 as Spell<GraphFile<G>>>::read(alloc, bytes)?;
    read_all::<GraphFile<G>, T>(alloc, count, rest)
}
