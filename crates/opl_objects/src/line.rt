//! One line.
ghost use Rattle.std.specs.Prelude.{◌≡◌, ◌==◌, ◌||◌, None, Some, IfOk, IfErr, codes};
ghost use Rattle.std.specs.List.{list_any};
ghost use Rattle.opl_lexer.specs.Letters.{hash_sign, letter_c};
ghost use Rattle.opl_lexer.specs.Contents.{key_of};
ghost use Rattle.opl_lexer.specs.Faults.{fault_behind};
ghost use Rattle.opl_lexer.specs.Left.{fields_left};
ghost use Rattle.opl_objects.specs.Outcomes.{Says, Refuses};
ghost use Rattle.opl_objects.specs.LineParts.{IsFaultAt, IsEvent};

use crate::contents::key;
use crate::parts::{Parts, first_byte};
use opl_lexer::{FaultKind, FieldIter, Mode, fields};
use road_base::Event;
use std::alloc::Global;

/// Why a line isn't read.
#[derive(Clone, Copy, PartialEq, Eq, Debug)]
pub enum LineError {
    /// The first field in fault, and how.
    Fault { field: u32, kind: FaultKind },
    /// No memory was found.
    NoMemory,
}

const NOT_UTF8: LineError = LineError::Fault {
    field: 0,
    kind: FaultKind::NotUtf8,
};

const UNKNOWN_LINE: LineError = LineError::Fault {
    field: 1,
    kind: FaultKind::UnknownLine,
};

const BAD_NUMBER: LineError = LineError::Fault {
    field: 1,
    kind: FaultKind::BadNumber,
};

const NO_VERSION: LineError = LineError::Fault {
    field: 0,
    kind: FaultKind::NoVersion,
};

/// The event of an object, by its own field and the others.
fn read_object(
    alloc: Global,
    mode: Mode,
    object: &str,
    others: FieldIter<'_>,
) -> Result<Event, LineError>
    ensures key { IfOk result (λ event. key_of object.now ≡ Some event.key) }
    ensures good { IfOk result (λ event.
        fault_behind mode (Some event.key) (fields_left others.entry) ≡ None) }
    ensures event { IfOk result (λ event. IsEvent (fields_left others.entry) event.key event) }
    ensures err { IfErr result (IsFaultAt
        (fault_behind mode (key_of object.now) (fields_left others.entry))) }
{
    let Some(key) = key(object) else {
        return Err(BAD_NUMBER);
    };
    let mut parts = Parts::new();
    parts.read(alloc, key, others)?;
    if mode == Mode::Change && !parts.has_version() {
        return Err(NO_VERSION);
    }
    Ok(parts.event(key))
}

/// Whether a line that begins so is a note or a changeset.
#[inline]
fn is_passed(byte: u8) -> bool
    ensures { result ≡ ((byte == hash_sign) || (byte == letter_c)) }
{
    byte == b'#' || byte == b'c'
}

/// Whether a line that begins so is an object's.
#[inline]
fn is_object(byte: u8) -> bool
    ensures { result ≡ list_any (λ b. b == byte) (codes "nwr") }
{
    byte == b'n' || byte == b'w' || byte == b'r'
}

/// The event of a line of text, or None where the line is passed over.
fn read_text(alloc: Global, mode: Mode, line: &str) -> Result<Option<Event>, LineError>
    ensures ok { IfOk result (Says mode line.now) }
    ensures err { IfErr result (Refuses mode line.now) }
{
    let mut others = fields(line);
    let Some(object) = others.next() else {
        return Ok(None);
    };
    let first = first_byte(object);
    if is_passed(first) {
        return Ok(None);
    }
    if !is_object(first) {
        return Err(UNKNOWN_LINE);
    }
    Ok(Some(read_object(alloc, mode, object, others)?))
}

/// The event of a line without its newline and carriage return, or None where the line is passed over.
pub fn read_line(alloc: Global, mode: Mode, line: &[u8]) -> Result<Option<Event>, LineError>
    ensures ok { IfOk result (Says mode line.now) }
    ensures err { IfErr result (Refuses mode line.now) }
{
    match std::str::from_utf8(line) {
        Ok(text) => read_text(alloc, mode, text),
        Err(_) => Err(NOT_UTF8),
    }
}
