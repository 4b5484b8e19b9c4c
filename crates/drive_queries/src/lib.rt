//! What a session is asked beside its changes: what a line means, whether a drive is legal and which rule it breaks
//! first, how to drive from one node to another, and how large a graph is.
//!
//! `message` and `asked_of` take time linear in what they read, and `counts` goes over all contexts once. Judging
//! stands in `drive_judging` and the search in `context_search`; their calls are this crate's too.
#![tactic(auto)]

mod messages;
mod step_words;
mod totals;

pub use context_search::{Found, laws, reach};
pub use drive_judging::{Rule, Verdict, WordTable, judge};
pub use messages::{Asked, asked_drive, asked_of, asked_reach, message};
pub use totals::{Totals, counts};
