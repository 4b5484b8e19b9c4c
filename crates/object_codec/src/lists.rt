//! Lists, each with how many there are in front.
ghost use Rattle.std.specs.Prelude.{◌≡◌, ◌++◌, ◌≤◌, length, OnOk, OnErr, IfOk, IfErr};
ghost use Rattle.road_base.specs.Bytes.{Keeps};
ghost use Rattle.object_codec.specs.Spelling.{list_bytes, ListFits};
ghost use Rattle.spelled_bytes.specs.Reading.{Begins, NoneBegins, IfMalformed};

use crate::spelling::{EventFormat, Put};
use road_base::{MOST_ITEMS, NoMemory, put_all};
use spelled_bytes::{Spell, Unread, read_all};
use std::alloc::Global;

/// Appends how many there are, and the spelling of each.
pub fn put_list<T: Put>(items: &[T], out: &mut Vec<u8>) -> Result<(), NoMemory>
    requires { length items.now ≤ 65535 }
    ensures ok { OnOk result (out.new.items ≡ out.old.items ++ list_bytes T.spelling items.now) }
    ensures fit { OnOk result (ListFits T.fits items.now) }
    ensures err { OnErr result (Keeps out.old.items out.new.items) }
{
    (items.len() as u32).put(out)?;
    put_all::<EventFormat, T>(items, out)
}

/// Reads how many there are, at most 65,535, and then these.
pub fn read_list<T: Spell<EventFormat> + Drop>(
    alloc: Global,
    bytes: &[u8],
) -> Result<(Vec<T>, &[u8]), Unread>
    ensures found { IfOk result (λ x. Begins (list_bytes T.spelling) (ListFits T.fits) bytes.now x.0.items x.1.now) }
    ensures malformed { IfErr result (λ e. IfMalformed e
        (NoneBegins (list_bytes T.spelling) (ListFits T.fits) bytes.now)) }
{
    let (count, rest) = <u32 as Spell<EventFormat>>::read(alloc, bytes)?;
    if count as usize > MOST_ITEMS {
        return Err(Unread::Malformed);
    }
    let (items, rest) = read_all::<EventFormat, T>(alloc, u64::from(count), rest)?;
    Ok((items, rest))
}
