//! The bytes of a record and of a base, each as one chunk behind its gate.
ghost use Rattle.std.specs.Prelude.{◌≡◌, ◌+◌, ◌<◌, ◌≤◌, ◌^◌, ◌++◌, ◌∷◌, [], IfOk, OnOk, length, take, drop};
ghost use Rattle.road_base.specs.Bytes.{u64_bytes};
ghost use Rattle.object_codec.specs.Spelling.{events_bytes};
ghost use Rattle.sequence_journal.specs.Layout.{fields, base_bytes};
ghost use Rattle.sequence_journal.specs.Standing.{EventsFit, record_of, base_of};

use crate::ends::CLOSED;
use object_codec::encode;
use road_base::{Event, LittleEndian, NoMemory, Sequence};
use std::alloc::Global;

/// How many bytes spell an event, as a guess.
const EVENT_BYTES: usize = 128;

/// What stands behind the gate of a change's record: its fields and bytes, and the next gate, closed.
pub fn record_chunk(alloc: Global, seq: Sequence, events: &[Event]) -> Result<Vec<u8>, NoMemory>
    ensures bytes { IfOk result (λ chunk. chunk.items ≡ fields (record_of seq.0 events.now) ++ 0 ∷ []) }
    ensures fit { IfOk result (λ chunk. EventsFit events.now) }
    ensures number_fits { IfOk result (λ chunk. seq.0 < 2 ^ 64) }
{
    let mut chunk = Vec::with_capacity(alloc, events.len().saturating_mul(EVENT_BYTES))?;
    seq.0.put(&mut chunk)?;
    put_events(events, &mut chunk)?;
    Ok(chunk)
}

/// What stands behind the gate of a base: the magic, its fields and bytes, and the next gate, closed.
pub fn base_chunk(
    alloc: Global,
    profile: u32,
    generation: u64,
    number: Sequence,
    events: &[Event],
) -> Result<Vec<u8>, NoMemory>
    ensures bytes { IfOk result
        (λ chunk. 1 ∷ chunk.items ≡ base_bytes (base_of profile generation number.0 events.now) ++ 0 ∷ []) }
    ensures fit { IfOk result (λ chunk. EventsFit events.now) }
    ensures generation_fits { IfOk result (λ chunk. generation < 2 ^ 64) }
    ensures number_fits { IfOk result (λ chunk. number.0 < 2 ^ 64) }
{
    let mut chunk = Vec::new(alloc);
    chunk.extend_from_slice(b"OSMJRNL1".as_slice())?;
    profile.put(&mut chunk)?;
    generation.put(&mut chunk)?;
    number.0.put(&mut chunk)?;
    put_events(events, &mut chunk)?;
    Ok(chunk)
}

/// Appends how many bytes spell the events, these bytes and a closed gate. Where no memory is found, a part of it may
/// stand there.
fn put_events(events: &[Event], chunk: &mut Vec<u8>) -> Result<(), NoMemory>
    ensures ok { OnOk result (chunk.new.items
        ≡ chunk.old.items ++ u64_bytes (length (events_bytes events.now)) ++ events_bytes events.now ++ 0 ∷ []) }
    ensures fit { OnOk result (EventsFit events.now) }
{
    let place = chunk.len();
    0u64.put(chunk)?;
    let from = chunk.len();
    encode(events, chunk)?;
    let size = (chunk.len() - from) as u64;
    set_number(chunk, place, size);
    chunk.push(CLOSED)?;
    Ok(())
}

/// Puts a number in the place of eight bytes.
fn set_number(bytes: &mut [u8], place: usize, number: u64)
    requires { place + 8 ≤ length bytes.old }
    ensures { bytes.new ≡ take place bytes.old ++ u64_bytes number ++ drop (place + 8) bytes.old }
{
    bytes[place..place + 8].copy_from_slice(&number.to_le_bytes());
}
