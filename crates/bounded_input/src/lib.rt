//! An input, read part by part within limits: its events, its first fault, or its bytes as they are.
//!
//! A line has at most 2^24 bytes and an input at most 2^30. That one is passed is said as soon as one byte too many was
//! read. Reading costs the bytes that are read, and what `opl_objects` takes for them. Beside what it answers it keeps
//! a buffer of 64 KiB and one unfinished line.
//!
//! `stream_events` keeps no more than that, however long the input is: it hands the events of each part on to what
//! takes them. There is then no limit on the input's length but 2^62 bytes.
#![tactic(auto)]

mod gathering;
mod input;
mod limits;
mod stream;

pub use gathering::gather;
pub use input::{InputError, read_events};
pub use stream::{TakesEvents, stream_events};
