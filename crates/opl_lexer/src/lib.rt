//! The fields of a line of OPL, and the numbers, coordinates and texts that fields hold.
//!
//! The format is the one that osmium's OPL File Format Manual describes. Every call takes time linear in its text,
//! and only `unescape` takes memory, for what it appends. What a line and a whole input say, and how they are in
//! fault, is defined in `specs/` (Spelling, Faults, Reading), over whole lines and without any of these calls;
//! `opl_objects` is proved against that.
#![tactic(auto)]

mod escapes;
mod fault;
mod field_iter;
pub mod laws;
mod lines;
mod mode;
mod numbers;

pub use escapes::unescape;
pub use fault::{FaultKind, LexError};
pub use field_iter::{FieldIter, fields};
pub use lines::without_return;
pub use mode::Mode;
pub use numbers::{coordinate, front_number, long_number, version, whole};
