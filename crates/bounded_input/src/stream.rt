//! The events of an input that is read part by part and not kept.
ghost use Rattle.std.specs.Prelude.{◌≡◌, ◌≤◌, ◌<◌, ◌+◌, ◌^◌, ◌++◌, [], ◌∷◌, ℕ, List, length, vec_len};
ghost use Rattle.std.specs.Prelude.{Err, IfOk, IfErr, IfSome, IfNone, OnOk};
ghost use Rattle.road_base.specs.declared.event.Event.{Event as EventValue};
ghost use Rattle.opl_lexer.specs.Letters.{newline};
ghost use Rattle.opl_lexer.specs.Parts.{Lacks};
ghost use Rattle.opl_lexer.specs.Lines.{whole_lines};
ghost use Rattle.opl_lexer.specs.declared.mode.Mode.{Mode as ReadMode};
ghost use Rattle.opl_lexer.specs.Reading.{ReadAll};
ghost use Rattle.opl_objects.specs.StreamLines.{fault_at};
ghost use Rattle.bounded_input.specs.StreamFaults.{IsLastCut, IsFaultBehind, behind_lines, EndsIn, StreamStops};
ghost use Rattle.bounded_input.specs.Input.{IsRefusal};
ghost use Rattle.bounded_input.specs.Streaming.{TakesMore, IsStreamed, StreamStopped};

use crate::input::{BUFFER, InputError};
use crate::limits::{MOST_STREAM, Measure};
use memchr::memrchr;
use opl_lexer::Mode;
use opl_objects::{Fault, ReadError, Reader};
use road_base::{Event, NoMemory};
use road_io::{Source, front};
use std::alloc::Global;

/// What takes the events of an input, some at a time.
pub trait TakesEvents {
    /// These events were taken, in order.
    ghost has_taken: { Self → List EventValue → Type 0 };

    /// Takes the next events. Refuses for want of memory alone.
    fn take_all(&mut self, events: Vec<Event>) -> Result<(), NoMemory>
        ensures { OnOk result (TakesMore (has_taken self.old) (has_taken self.new) events.items) };
}

/// A stream, as far as it was read: the events of the lines that have ended were taken.
#[derive(Drop)]
struct OpenStream {
    alloc: Global,
    mode: Mode,
    measure: Measure,
    /// How many lines have ended.
    lines: u64,
    /// The line that hasn't ended yet.
    held: Vec<u8>,
    ghost limit: { measure.most ≡ 2 ^ 62 },
    ghost counts: { lines + vec_len held ≤ measure.total },
}

/// The bytes up to the last newline, with it, and those behind it.
fn cut_last(bytes: &[u8]) -> Option<(&[u8], &[u8])>
    ensures some { IfSome result (λ cut. IsLastCut bytes.now cut.0.now cut.1.now) }
    ensures none { IfNone result (Lacks newline bytes.now) }
{
    let Some(at) = memrchr(b'\n', bytes) else {
        return None;
    };
    Some(bytes.split_at(at + 1))
}

/// How many lines end among these bytes.
fn newlines(bytes: &[u8]) -> u64
    ensures count { result ≡ length (whole_lines bytes.now) }
    ensures few { result ≤ length bytes.now }
{
    let mut count: u64 = 0;
    for byte in bytes {
        if *byte == b'\n' {
            count += 1;
        }
    }
    count
}

/// The fault, where so many lines stand before those that it counts.
fn behind(lines: u64, fault: Fault) -> Fault
    requires { lines + fault.line < 2 ^ 64 }
    ensures { fault_at result ≡ behind_lines lines (fault_at fault) }
{
    Fault {
        line: lines + fault.line,
        field: fault.field,
        kind: fault.kind,
    }
}

/// The events of these bytes, or their first fault, where so many lines stand before them.
fn read_lines(alloc: Global, mode: Mode, lines: u64, bytes: &[u8]) -> Result<Vec<Event>, InputError>
    requires { lines + length bytes.now < 2 ^ 63 }
    ensures ok { IfOk result (λ events. ReadAll mode bytes.now events.items) }
    ensures err { IfErr result (IsFaultBehind lines mode bytes.now) }
{
    let mut reader = Reader::new(alloc, mode);
    // A fault that is found here is answered at the end, too.
    let _ = reader.feed(bytes);
    match reader.finish() {
        Ok(events) => Ok(events),
        Err(ReadError::Fault(fault)) => Err(InputError::Refused(behind(lines, fault))),
        Err(ReadError::NoMemory) => Err(InputError::NoMemory),
    }
}

/// Hands on the events of these bytes, or answers their first fault, where so many lines stand before them.
fn hand_on<T: TakesEvents>(
    alloc: Global,
    mode: Mode,
    lines: u64,
    bytes: &[u8],
    taker: &mut T,
) -> Result<(), InputError>
    requires { lines + length bytes.now < 2 ^ 63 }
    ensures ok { OnOk result ((more : List EventValue)
        × ReadAll mode bytes.now more
        × TakesMore (T.has_taken taker.old) (T.has_taken taker.new) more) }
    ensures err { IfErr result (IsFaultBehind lines mode bytes.now) }
{
    match read_lines(alloc, mode, lines, bytes) {
        Ok(events) => match taker.take_all(events) {
            Ok(()) => Ok(()),
            Err(NoMemory) => Err(InputError::NoMemory),
        },
        Err(error) => Err(error),
    }
}

impl OpenStream {
    ghost use Rattle.bounded_input.specs.OpenStreams.{IsOpenAt, KeepsLines};

    /// Nothing was read.
    fn new(alloc: Global, mode: Mode) -> OpenStream
        ensures open { IsOpenAt mode [] [] result }
        ensures total { result.measure.total ≡ 0 }
    {
        OpenStream {
            alloc,
            mode,
            measure: Measure::new(MOST_STREAM),
            lines: 0,
            held: Vec::new(alloc),
        }
    }

    /// Reads the next part, and hands on the events of the lines that it ends.
    fn take<T: TakesEvents>(&mut self, part: &[u8], taker: &mut T) -> Result<(), InputError>
        requires { length part.now ≤ 2 ^ 16 }
        ensures ok { OnOk result ((more : List EventValue)
            × ((mode : ReadMode) (read : List ℕ) (events : List EventValue)
            → IsOpenAt mode read events self.old
            → IsOpenAt mode (read ++ part.now) (events ++ more) self.new)
            × TakesMore (T.has_taken taker.old) (T.has_taken taker.new) more) }
        ensures total { OnOk result (self.new.measure.total ≡ self.old.measure.total + length part.now) }
        ensures err { IfErr result (λ e. (mode : ReadMode) (read : List ℕ) (events : List EventValue)
            → IsOpenAt mode read events self.old
            → StreamStops mode (read ++ part.now) e) }
    {
        let Some(measure) = self.measure.with(part) else {
            return Err(InputError::TooLong);
        };
        self.measure = measure;
        let Some((ended, rest)) = cut_last(part) else {
            return self.hold(part);
        };
        match self.end_lines(ended, taker) {
            Ok(()) => self.hold(rest),
            Err(error) => Err(error),
        }
    }

    /// Takes bytes that end with a newline, and hands on the events of the lines that they end.
    fn end_lines<T: TakesEvents>(&mut self, ended: &[u8], taker: &mut T) -> Result<(), InputError>
        requires newline { (front : List ℕ) × (ended.now ≡ front ++ newline ∷ []) }
        requires room { self.old.lines + vec_len self.old.held + length ended.now ≤ self.old.measure.total }
        ensures ok { OnOk result ((more : List EventValue)
            × ((mode : ReadMode) (read : List ℕ) (events : List EventValue)
            → KeepsLines mode read events self.old
            → KeepsLines mode (read ++ ended.now) (events ++ more) self.new)
            × TakesMore (T.has_taken taker.old) (T.has_taken taker.new) more) }
        ensures err { IfErr result (λ e. (mode : ReadMode) (read : List ℕ) (events : List EventValue)
            → KeepsLines mode read events self.old
            → EndsIn mode (read ++ ended.now) e) }
        ensures kept { self.new.measure ≡ self.old.measure }
        ensures counted { OnOk result (self.new.lines + vec_len self.new.held
            ≤ self.old.lines + vec_len self.old.held + length ended.now) }
    {
        match self.held.extend_from_slice(ended) {
            Ok(()) => {}
            Err(_) => return Err(InputError::NoMemory),
        }
        let bytes = self.held.as_slice();
        let taken = hand_on(self.alloc, self.mode, self.lines, bytes, taker);
        let lines = self.lines + newlines(bytes);
        self.held.clear();
        self.lines = lines;
        taken
    }

    /// Holds more bytes of the line that hasn't ended.
    fn hold(&mut self, bytes: &[u8]) -> Result<(), InputError>
        requires open_line { Lacks newline bytes.now }
        requires room { self.old.lines + vec_len self.old.held + length bytes.now ≤ self.old.measure.total }
        ensures ok { OnOk result ((mode : ReadMode) (read : List ℕ) (events : List EventValue)
            → KeepsLines mode read events self.old
            → KeepsLines mode (read ++ bytes.now) events self.new) }
        ensures err { IfErr result (λ e. e ≡ InputError.NoMemory) }
        ensures kept { self.new.measure ≡ self.old.measure }
    {
        match self.held.extend_from_slice(bytes) {
            Ok(()) => Ok(()),
            Err(_) => Err(InputError::NoMemory),
        }
    }

    /// Hands on what the last line says, which has no newline.
    fn finish<T: TakesEvents>(self, taker: &mut T) -> Result<(), InputError>
        ensures ok { OnOk result ((more : List EventValue)
            × ((mode : ReadMode) (read : List ℕ) (events : List EventValue)
            → IsOpenAt mode read events self
            → ReadAll mode read (events ++ more))
            × TakesMore (T.has_taken taker.old) (T.has_taken taker.new) more) }
        ensures err { IfErr result (λ e. (mode : ReadMode) (read : List ℕ) (events : List EventValue)
            → IsOpenAt mode read events self
            → IsRefusal mode read e) }
    {
        hand_on(
            self.alloc,
            self.mode,
            self.lines,
            self.held.as_slice(),
            taker,
        )
    }
}

/// Reads the input on the source to its end, and hands on the events of each part as soon as it was read. It keeps a
/// part and a line, whatever the input's length; only above 2^62 bytes, where its lines couldn't be counted, it is too
/// long. A fault is answered with the part that ends its line: the first one of all bytes that were read. A read that
/// failed is not tried again.
pub fn stream_events<S: Source, T: TakesEvents>(
    alloc: Global,
    mode: Mode,
    source: &mut S,
    taker: &mut T,
) -> Result<(), InputError>
    ensures ok { OnOk result (IsStreamed mode (TakesMore (T.has_taken taker.old) (T.has_taken taker.new))
        (S.bytes_left source.old) (S.bytes_left source.new)) }
    ensures err { IfErr result (λ e. StreamStopped mode e (S.bytes_left source.old) (S.bytes_left source.new)
        (S.faults source.old) (S.faults source.new)) }
    ensures each_fault { S.faults source.old < S.faults source.new → result ≡ Err InputError.Failed }
{
    let Ok(mut buffer) = vec![in alloc; 0u8; BUFFER] else {
        return Err(InputError::NoMemory);
    };
    let mut stream = OpenStream::new(alloc, mode);
    loop {
        let Ok(n) = source.read(&mut buffer) else {
            return Err(InputError::Failed);
        };
        if n == 0 {
            return stream.finish(taker);
        }
        match stream.take(front(&buffer, n), taker) {
            Ok(()) => {}
            Err(error) => return Err(error),
        }
    }
}
