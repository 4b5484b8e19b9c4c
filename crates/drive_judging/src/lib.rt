//! Whether a drive is legal, and which rule it breaks first.
//!
//! `WordTable::of` goes once over the references of each way of the drive, judges each restriction that names one of
//! them once, keeps the words that begin on the drive's steps, sorts them, and makes an automaton of them
//! (`turn_automata`): with n words it compares two of them n log n times. `judge` then takes for each step a few
//! look-ups, each at the logarithm of what there is, with one step of the automaton: what leaves the nodes at which the
//! drive goes back to where a step began stands in the table, which goes for it once over the references of each way at
//! these nodes, with one look-up each (`dead_ends`, `turning`). Only the step that words stop is compared with them,
//! once: each No word with the end of the steps, and where none ends there, for each number of last steps up to that of
//! the longest end that begins a word, at most 1,025, a binary search finds the words that begin with them, and these
//! are looked at twice.
#![tactic(auto)]

mod dead_ends;
mod drive_lines;
mod judging;
mod step_rules;
mod turning;
mod verdict;
mod word_rules;
mod word_table;

pub use judging::judge;
pub use verdict::{Rule, Verdict};
pub use word_table::WordTable;
