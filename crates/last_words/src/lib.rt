//! How a run of a program ends: its status, what it puts last, and why it puts nothing.
//!
//! A command prepares its last words, which are then put at once, in one call. Each call costs the bytes of its line.
#![tactic(auto)]

mod status;
mod texts;
mod words;

pub use status::Status;
pub use words::{Failure, LastWords, put_last, refuse_input};
