//! The lines of a part of the input.
ghost use Rattle.std.specs.Prelude.{◌≡◌, ◌≤◌, ◌+◌, ◌++◌, [], length, vec_len, IfSome, IfNone, IfErr, OnOk};
ghost use Rattle.opl_lexer.specs.Letters.{newline};
ghost use Rattle.opl_lexer.specs.Parts.{Lacks, IsCutAt};
ghost use Rattle.opl_objects.specs.StreamLines.{Adds, IsFaultOf};

use crate::fault::{Fault, ReadError};
use crate::line::{LineError, read_line};
use memchr::memchr;
use opl_lexer::{Mode, without_return};
use road_base::Event;

/// The bytes before the first newline, and those behind it.
#[inline]
pub fn first_line(bytes: &[u8]) -> Option<(&[u8], &[u8])>
    ensures some { IfSome result (λ parts. IsCutAt newline bytes.now parts.0.now parts.1.now) }
    ensures none { IfNone result (Lacks newline bytes.now) }
{
    let Some(at) = memchr(b'\n', bytes) else {
        return None;
    };
    let (line, rest) = bytes.split_at(at);
    let (_, behind) = rest.split_at(1);
    Some((line, behind))
}

/// Reads the line with this number, and adds what it says to the events.
pub fn take_line(
    mode: Mode,
    number: u64,
    line: &[u8],
    events: &mut Vec<Event>,
) -> Result<(), ReadError>
    ensures ok { OnOk result (Adds mode line.now events.old.items events.new.items) }
    ensures err { IfErr result (λ e. IsFaultOf e mode number line.now) }
{
    match read_line(*events.allocator(), mode, without_return(line)) {
        Ok(Some(event)) => {
            events.push(event)?;
            Ok(())
        }
        Ok(None) => Ok(()),
        Err(LineError::Fault { field, kind }) => Err(ReadError::Fault(Fault {
            line: number,
            field,
            kind,
        })),
        Err(LineError::NoMemory) => Err(ReadError::NoMemory),
    }
}

/// Reads the line with this number, of which a part may be held already. A line of which nothing is held isn't copied.
pub fn finish_line(
    mode: Mode,
    number: u64,
    held: &mut Vec<u8>,
    line: &[u8],
    events: &mut Vec<Event>,
) -> Result<(), ReadError>
    ensures ok { OnOk result (Adds mode (held.old.items ++ line.now) events.old.items events.new.items) }
    ensures err { IfErr result (λ e. IsFaultOf e mode number (held.old.items ++ line.now)) }
    ensures emptied { OnOk result (held.new.items ≡ []) }
    ensures len { vec_len held.new ≤ vec_len held.old + length line.now }
{
    if held.is_empty() {
        return take_line(mode, number, line, events);
    }
    held.extend_from_slice(line)?;
    let taken = take_line(mode, number, held.as_slice(), events);
    held.clear();
    taken
}
