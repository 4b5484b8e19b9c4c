//! Junctions: the positions of a road's line at which something may branch off, begin or end. All others are plain.
//!
//! `is_plain` takes the time of the way's references and of the ways at the node, and no memory. `junctions_along`
//! goes along a line whose nodes were looked up before, and for each node goes through the ways there until one is
//! another road: with n nodes and w ways at them that takes time of the order of n log n + w, and memory of the order
//! of n. For whether a node stands on the line again, a line of up to 128 nodes is searched, and a longer one has a
//! map. `junctions_of` looks up each node of a way's line once, and then does the same.
#![tactic(auto)]

mod junction_list;
mod plain;
mod repeats;

pub use junction_list::{junctions_along, junctions_of};
pub use plain::is_plain;
