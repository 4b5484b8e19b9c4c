//! What is received of a session.
use crate::line::Line;
use opl_objects::Fault;
use road_base::{Event, NoMemory, Sequence};
use std::alloc::AllocError;

/// The lines of a frame, read as a change.
#[derive(Drop)]
pub enum Change {
    /// The events of all its lines.
    Events(Vec<Event>),
    /// Its first fault. Lines are counted from 1 behind the line that begins the frame.
    Faulty(Fault),
}

/// A message.
#[derive(Drop)]
pub enum Received<'a> {
    /// A line outside a frame. It begins no frame.
    Line(Line<'a>),
    /// A frame, with its number.
    Frame(Sequence, Change),
}

/// Where the input ends.
#[derive(Drop)]
pub enum InputEnd {
    /// Behind a whole message.
    Done,
    /// Behind one more message, whose last line has no newline.
    Last(Received<'static>),
    /// Inside a frame with this number.
    Unfinished(Sequence),
}

/// Why nothing more is received.
#[derive(Clone, Copy, PartialEq, Eq, Debug)]
pub enum InputStop {
    /// A limit is passed.
    TooLong,
    NoMemory,
}

impl From<NoMemory> for InputStop {
    ghost use Rattle.std.specs.Prelude.{◌≡◌};
    ghost use Rattle.session_input.specs.declared.received.InputStop.TheVariants.{NoMemory as NoMemoryStop};

    ghost from_gives = { λ _ e. e ≡ NoMemoryStop };

    fn from(_error: NoMemory) -> InputStop {
        InputStop::NoMemory
    }
}

impl From<AllocError> for InputStop {
    ghost use Rattle.std.specs.Prelude.{◌≡◌};
    ghost use Rattle.session_input.specs.declared.received.InputStop.TheVariants.{NoMemory as NoMemoryStop};

    ghost from_gives = { λ _ e. e ≡ NoMemoryStop };

    fn from(_error: AllocError) -> InputStop {
        InputStop::NoMemory
    }
}
