//! The messages of a session, from its bytes in whatever parts they come.
//!
//! `Input::take` takes the next line, and answers the message that it ends: a line outside a frame with its text, of
//! which nothing more is known here, or a frame with its number and the events of its change, or the change's first
//! fault. Each byte is looked at a few times. A line is copied only where it comes in several parts; held are the line
//! that hasn't ended and the events of the frame that hasn't ended. A limit is said as soon as one byte too many came:
//! 2^24 bytes in a line, 2^30 in a frame behind its first line, 2^40 in all.
#![tactic(auto)]

mod input;
mod line;
mod lines;
mod next;
mod open_frame;
mod received;

pub use input::{Input, Taken};
pub use line::Line;
pub use received::{Change, InputEnd, InputStop, Received};
