//! The bytes that spell a list of events.
//!
//! `encode` goes once over the events and `decode` once over the bytes, so each costs as many steps as there are
//! bytes. `encode` takes no memory beside what it appends, and `decode` none beside the events that it has read so
//! far: a count that the bytes announce takes none.
#![tactic(auto)]

ghost use Rattle.std.specs.Prelude.{◌≡◌, List, ◌++◌, OnOk, OnErr, IfOk, IfErr, IfSome, IfNone};
ghost use Rattle.road_base.specs.Bytes.{Keeps};
ghost use Rattle.road_base.specs.declared.event.Event.{Event};
ghost use Rattle.object_codec.specs.Spelling.{events_bytes, AreEvents};
ghost use Rattle.spelled_bytes.specs.Reading.{Begins, NoneBegins, IfMalformed};

mod events;
pub mod laws;
mod lists;
mod numbers;
mod objects;
mod spelling;
mod texts;

use road_base::{Event, NoMemory, put_all};
use spelled_bytes::{Spell, Unread, read_all};
use spelling::{EventFormat, Put};
use std::alloc::Global;

/// Appends the spelling of the events: how many there are, and each one's key, version and body. Where no memory is
/// found nothing is appended.
pub fn encode(events: &[Event], out: &mut Vec<u8>) -> Result<(), NoMemory>
    ensures bytes { OnOk result (out.new.items ≡ out.old.items ++ events_bytes events.now) }
    ensures grammar { OnOk result (AreEvents events.now) }
    ensures err { OnErr result (out.new.items ≡ out.old.items) }
{
    let before = out.len();
    let written = put_events(events, out);
    if written.is_err() {
        out.truncate(before);
    }
    written
}

/// The events that the bytes spell, None exactly where no list of events has that spelling: where a count or a length
/// isn't that of what follows, bytes stand behind the last event, a kind, a state or a flag is unknown, a text isn't
/// UTF-8, the keys of tags don't strictly ascend, a list has more than 65,535 items or a location is out of range.
pub fn decode(alloc: Global, bytes: &[u8]) -> Result<Option<Vec<Event>>, NoMemory>
    ensures found { IfOk result (λ r. IfSome r (λ events. AreEvents events.items)) }
    ensures spelled { IfOk result (λ r. IfSome r (λ events. events_bytes events.items ≡ bytes.now)) }
    ensures only { IfOk result (λ r. (events : List Event) → AreEvents events → events_bytes events ≡ bytes.now
        → IfSome r (λ read. read.items ≡ events)) }
    ensures none { IfOk result (λ r. IfNone r
        ((events : List Event) → AreEvents events → events_bytes events ≡ bytes.now → ⊥)) }
{
    match read_events(alloc, bytes) {
        Ok((events, [])) => Ok(Some(events)),
        Ok(_) => Ok(None),
        Err(Unread::Malformed) => Ok(None),
        Err(Unread::Memory) => Err(NoMemory),
    }
}

/// Appends how many events there are, and each. Where no memory is found, a part of it may stand there.
#[tactic(auto, unfolding(crate::specs::Spelling::events_bytes, crate::specs::Spelling::AreEvents))]
fn put_events(events: &[Event], out: &mut Vec<u8>) -> Result<(), NoMemory>
    ensures ok { OnOk result (out.new.items ≡ out.old.items ++ events_bytes events.now) }
    ensures fit { OnOk result (AreEvents events.now) }
    ensures err { OnErr result (Keeps out.old.items out.new.items) }
{
    (events.len() as u64).put(out)?;
    put_all::<EventFormat, Event>(events, out)
}

/// Reads how many events there are, and these, and lends the bytes behind the last.
#[tactic(auto, unfolding(crate::specs::Spelling::events_bytes, crate::specs::Spelling::AreEvents))]
fn read_events(alloc: Global, bytes: &[u8]) -> Result<(Vec<Event>, &[u8]), Unread>
    ensures found { IfOk result (λ x. Begins events_bytes AreEvents bytes.now x.0.items x.1.now) }
    ensures malformed { IfErr result (λ e. IfMalformed e (NoneBegins events_bytes AreEvents bytes.now)) }
{
    let (count, rest) = <u64 as Spell<EventFormat>>::read(alloc, bytes)?;
    let (events, rest) = read_all::<EventFormat, Event>(alloc, count, rest)?;
    Ok((events, rest))
}
