//! From events to the bytes of their graph, or from some ways of a world to a graph file with their blocks alone.
//!
//! The block of each way is built, written if it has pieces, and let go, one after another. Time grows as n log n with
//! the events, the blocks, and the words that are looked at for each way (`expanded_graph`); memory stays a small
//! multiple of the objects and the words, and holds the file's bytes once.
#![tactic(auto)]

mod blocks;
mod graph;
mod profiles;

pub use graph::{graph_of, part_of};
pub use profiles::profile_of;
