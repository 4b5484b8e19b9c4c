//! The journal of a store on one file: read and repaired, a base written, changes added.
//!
//! Each call says what a stop at any moment in it leaves of its file: `specs/Loading.antt`, `specs/Adding.antt` and
//! `specs/Basing.antt`. A load costs the bytes of its file, in two reads for each record; beside the events it holds
//! one part of the file in memory, the base or a record. An addition and a base cost the bytes that they write, which
//! they hold once. Everything else costs a constant.
#![tactic(auto)]

mod append;
mod base;
mod chunks;
mod ends;
mod error;
mod heads;
mod journal;
pub mod laws;
mod layout;
mod load;
mod parts;
mod records;
mod whole_file;
mod window;

pub use append::SpelledChange;
pub use base::{write_base, write_base_within};
pub use error::JournalError;
pub use heads::{BaseHead, head};
pub use journal::Journal;
pub use load::{Loaded, mend, settle};
