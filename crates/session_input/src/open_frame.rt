//! A frame that hasn't ended.
ghost use Rattle.std.specs.Prelude.{◌≡◌, ◌≤◌, ◌<◌, ◌+◌, ◌++◌, ◌^◌, [], ℕ, List, length, IfOk, IfErr, OnOk};
ghost use Rattle.opl_objects.specs.Feeding.{counted};

use crate::received::{Change, InputStop};
use opl_objects::{Mode, ReadError, Reader};
use road_base::Sequence;
use std::alloc::Global;

/// The lines of a frame, as far as they came.
#[derive(Drop)]
pub struct OpenFrame {
    number: Sequence,
    reader: Reader,
    /// How many bytes the lines have.
    size: usize,
    ghost room: { counted reader ≤ size },
}

impl OpenFrame {
    ghost use Rattle.session_input.specs.Holding.{HasLines};
    ghost use Rattle.session_input.specs.Reading.{IsChange};

    /// A frame with this number, of which no line came behind the first one. Takes no memory.
    pub fn new(alloc: Global, number: Sequence) -> OpenFrame
        ensures number { result.number ≡ number }
        ensures empty { HasLines [] result }
        ensures size { result.size ≡ 0 }
    {
        OpenFrame {
            number,
            reader: Reader::new(alloc, Mode::Change),
            size: 0,
        }
    }

    /// The frame's number.
    pub fn number(&self) -> Sequence
        ensures { result ≡ self.now.number }
    {
        self.number
    }

    /// How many bytes came behind the first line.
    pub fn size(&self) -> usize
        ensures { result ≡ self.now.size }
    {
        self.size
    }

    /// Takes more bytes of the lines. A fault in them is told by `change`.
    pub fn feed(&mut self, bytes: &[u8]) -> Result<(), InputStop>
        requires { self.old.size + length bytes.now < 2 ^ 64 }
        ensures number { OnOk result (self.new.number ≡ self.old.number) }
        ensures more { OnOk result ((body : List ℕ)
            → HasLines body self.old
            → HasLines (body ++ bytes.now) self.new) }
        ensures size { OnOk result (self.new.size ≡ self.old.size + length bytes.now) }
        ensures stopped { IfErr result (λ e. e ≡ InputStop.NoMemory) }
    {
        let fed = self.reader.feed(bytes);
        self.size += bytes.len();
        match fed {
            Ok(()) | Err(ReadError::Fault(_)) => Ok(()),
            Err(ReadError::NoMemory) => Err(InputStop::NoMemory),
        }
    }

    /// The lines as a change.
    pub fn change(self) -> Result<Change, InputStop>
        ensures ok { IfOk result (λ change. (body : List ℕ) → HasLines body self → IsChange body change) }
        ensures stopped { IfErr result (λ e. e ≡ InputStop.NoMemory) }
    {
        match self.reader.finish() {
            Ok(events) => Ok(Change::Events(events)),
            Err(ReadError::Fault(fault)) => Ok(Change::Faulty(fault)),
            Err(ReadError::NoMemory) => Err(InputStop::NoMemory),
        }
    }
}
