//! A session over a store that is loaded: its messages are read, answered in turn, and its changes are kept.
//!
//! `converse` reads the source in parts of 64 KiB and answers each message as soon as its last byte came: nothing that
//! could be answered is kept back for the next read. Lines are answered by an `Answerer` (`session_answers`), which
//! follows each change before it is added to the journal; only then it is told to be applied. So whoever has read
//! `applied N` finds change N in the store after any stop. A message costs what its answer, or its change, costs
//! whoever answers, and its bytes (`session_input`); an added change costs its bytes in the journal. Held are what
//! answers, the frame or the line that hasn't ended, and one reply.
#![tactic(auto)]

mod answering;
mod closing;
mod conversing;
mod end;
mod following;
pub mod laws;
mod putting;
mod stop;
mod stores;
mod talk;

pub use conversing::converse;
pub use end::End;
