//! The events of an input.
ghost use Rattle.std.specs.Prelude.{◌≡◌, ◌≤◌, ◌<◌, ℕ, List, length, [], ◌++◌, ◌+◌, ◌^◌};
ghost use Rattle.std.specs.Prelude.{Err, IfOk, IfErr, OnOk};
ghost use Rattle.opl_lexer.specs.declared.mode.Mode.{Mode as ReadMode};
ghost use Rattle.opl_lexer.specs.Reading.{ReadAll};
ghost use Rattle.opl_objects.specs.Feeding.{counted};
ghost use Rattle.bounded_input.specs.Input.{ReadWhole, Stopped, IsRefusal};

use crate::limits::Measure;
use opl_lexer::Mode;
use opl_objects::{Fault, ReadError, Reader};
use road_base::{Event, MOST_BYTES};
use road_io::{Source, front};
use std::alloc::Global;

/// How many bytes are read at once.
pub const BUFFER: usize = 1 << 16;

/// Why an input isn't read.
#[derive(Clone, Copy, PartialEq, Eq, Debug)]
pub enum InputError {
    /// The source failed.
    Failed,
    /// The input passes a limit. It is said as soon as one byte too many was read.
    TooLong,
    /// The first fault of an input that passes no limit.
    Refused(Fault),
    NoMemory,
}

/// An input, as far as it was read.
#[derive(Drop)]
struct ReadInput {
    measure: Measure,
    reader: Reader,
    ghost limit: { measure.most ≡ 2 ^ 30 },
    ghost counts: { counted reader ≤ measure.total },
}

impl ReadInput {
    ghost use Rattle.bounded_input.specs.Reading.{Holds, Stops};

    /// Nothing was read.
    fn new(alloc: Global, mode: Mode) -> ReadInput
        ensures holds { Holds mode [] result }
    {
        ReadInput {
            measure: Measure::new(MOST_BYTES),
            reader: Reader::new(alloc, mode),
        }
    }

    /// Takes the next part. It is refused where a limit is passed, or where memory ends.
    fn take(&mut self, part: &[u8]) -> Result<(), InputError>
        requires { length part.now ≤ 2 ^ 16 }
        ensures ok { OnOk result ((mode : ReadMode) (read : List ℕ) → Holds mode read self.old
            → Holds mode (read ++ part.now) self.new) }
        ensures total { OnOk result (self.new.measure.total ≡ self.old.measure.total + length part.now) }
        ensures err { IfErr result (λ e. (mode : ReadMode) (read : List ℕ) → Holds mode read self.old
            → Stops e (read ++ part.now)) }
    {
        let Some(measure) = self.measure.with(part) else {
            return Err(InputError::TooLong);
        };
        self.measure = measure;
        match self.reader.feed(part) {
            Err(ReadError::NoMemory) => Err(InputError::NoMemory),
            _ => Ok(()),
        }
    }

    /// The events of all that was read, or its first fault.
    fn finish(self) -> Result<Vec<Event>, InputError>
        ensures ok { IfOk result (λ events. (mode : ReadMode) (read : List ℕ) → Holds mode read self
            → ReadAll mode read events.items) }
        ensures err { IfErr result (λ e. (mode : ReadMode) (read : List ℕ) → Holds mode read self
            → IsRefusal mode read e) }
    {
        match self.reader.finish() {
            Ok(events) => Ok(events),
            Err(ReadError::Fault(fault)) => Err(InputError::Refused(fault)),
            Err(ReadError::NoMemory) => Err(InputError::NoMemory),
        }
    }
}

/// The events of the input on the source, which is read to its end, or until a read fails or it passes a limit. A read
/// that failed is not tried again.
pub fn read_events<S: Source>(
    alloc: Global,
    mode: Mode,
    source: &mut S,
) -> Result<Vec<Event>, InputError>
    ensures ok { IfOk result (λ events. ReadWhole mode events.items
        (S.bytes_left source.old) (S.bytes_left source.new)) }
    ensures err { IfErr result (λ e. Stopped mode e (S.bytes_left source.old) (S.bytes_left source.new)
        (S.faults source.old) (S.faults source.new)) }
    ensures each_fault { S.faults source.old < S.faults source.new → result ≡ Err InputError.Failed }
{
    let Ok(mut buffer) = vec![in alloc; 0u8; BUFFER] else {
        return Err(InputError::NoMemory);
    };
    let mut input = ReadInput::new(alloc, mode);
    loop {
        let Ok(n) = source.read(&mut buffer) else {
            return Err(InputError::Failed);
        };
        if n == 0 {
            return input.finish();
        }
        match input.take(front(&buffer, n)) {
            Ok(()) => {}
            Err(error) => return Err(error),
        }
    }
}
