//! Automata that watch for the words of restrictions while a drive grows step by step: whether the next step ends a
//! No word, or an Only word demands another one, is told by the state alone.
//!
//! This is the automaton of Aho and Corasick (Efficient string matching, 1975). The states are the proper prefixes of
//! the words, in a tree, and each has a failure link to the longest shorter one that ends it. With n steps in all
//! words together, `of` takes time of the order of n log n on average and memory of the order of n. The edges of the
//! tree stand in a hash set, in the order of their coming, which numbers the states: to find the state that an edge
//! leads to takes constant time on average. The turns behind states stand in ordered sets: with s states, to look for
//! one takes time of the order of log s. `start` looks for one edge, and `go` for one edge and three turns at each
//! state on its failure links, at most as many as the state has steps. Neither takes memory.
#![tactic(auto)]

mod automaton;
mod edges;
mod failure_links;
pub mod laws;
mod tree;
mod turns;
mod visits;

pub use automaton::{Automaton, State};
