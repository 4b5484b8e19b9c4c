//! Graph files one behind another made one, and one cut by way numbers.
//!
//! `merge` reads each graph once, sorts the blocks of all of them by way, and puts them; `range` reads one graph and
//! puts the blocks whose ways lie in a range. Both cost n log n in the bytes, however many graphs or blocks these are.
//! They hold the bytes and all blocks that were read of them, and then, when the bytes are let go, these blocks and
//! what is put, which is never longer than the bytes were.
#![tactic(auto)]

mod collecting;
mod cutting;
mod faults;
pub mod laws;
mod merging;
mod putting;

pub use cutting::range;
pub use faults::{MergeError, MergeFault};
pub use merging::merge;
