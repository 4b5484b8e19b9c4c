//! The lines of replies to messages about pins.
ghost use Rattle.std.specs.Prelude.{◌≡◌, Some, IfOk};
ghost use Rattle.pinned_readers.specs.PinnedRuns.{PinAnswer};
ghost use Rattle.pinned_readers.specs.Followers.{pin_answer, release_answer};
ghost use Rattle.session_replies.specs.PinTexts.{pin_line, pinned_line, busy_line, full_line};
ghost use Rattle.session_replies.specs.PinTexts.{release_line, released_line, no_pin_line};

use pinned_readers::{NoPin, PinError};
use road_base::{NoMemory, Sequence};
use std::alloc::Global;

/// What a pin answered. Nothing is told where no memory was found for it.
pub fn pin_text(
    alloc: Global,
    reader: u32,
    answer: &Result<Sequence, PinError>,
) -> Result<Vec<u8>, NoMemory>
    ensures { IfOk result (λ line. (told : PinAnswer)
        × (pin_answer answer.now ≡ Some told)
        × (line.items ≡ pin_line reader told)) }
{
    match answer {
        Ok(number) => pinned(alloc, reader, *number),
        Err(PinError::Busy) => busy(alloc, reader),
        Err(PinError::Full) => full(alloc),
        Err(PinError::NoMemory) => Err(NoMemory),
    }
}

/// What a release answered.
pub fn release_text(
    alloc: Global,
    reader: u32,
    answer: &Result<Sequence, NoPin>,
) -> Result<Vec<u8>, NoMemory>
    ensures { IfOk result (λ line. line.items ≡ release_line reader (release_answer answer.now)) }
{
    match answer {
        Ok(_) => released(alloc, reader),
        Err(_) => no_pin(alloc, reader),
    }
}

/// `pinned K sequence N`: reader K keeps the state behind change N.
fn pinned(alloc: Global, reader: u32, number: Sequence) -> Result<Vec<u8>, NoMemory>
    ensures { IfOk result (λ line. line.items ≡ pinned_line reader number.0) }
{
    let number = number.0;
    Ok(format!(in alloc; "pinned {reader} sequence {number}\n")?.into_bytes())
}

/// `pin K busy`: reader K keeps a state already.
fn busy(alloc: Global, reader: u32) -> Result<Vec<u8>, NoMemory>
    ensures { IfOk result (λ line. line.items ≡ busy_line reader) }
{
    Ok(format!(in alloc; "pin {reader} busy\n")?.into_bytes())
}

/// `pins full`: as many readers keep a state as may.
fn full(alloc: Global) -> Result<Vec<u8>, NoMemory>
    ensures { IfOk result (λ line. line.items ≡ full_line) }
{
    Ok(b"pins full\n".to_vec(alloc)?)
}

/// `released K`: reader K keeps no state any more.
fn released(alloc: Global, reader: u32) -> Result<Vec<u8>, NoMemory>
    ensures { IfOk result (λ line. line.items ≡ released_line reader) }
{
    Ok(format!(in alloc; "released {reader}\n")?.into_bytes())
}

/// `no pin K`: reader K keeps no state.
pub fn no_pin(alloc: Global, reader: u32) -> Result<Vec<u8>, NoMemory>
    ensures { IfOk result (λ line. line.items ≡ no_pin_line reader) }
{
    Ok(format!(in alloc; "no pin {reader}\n")?.into_bytes())
}
