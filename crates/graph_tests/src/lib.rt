//! Tests of the graph file at bytes from outside, and of the turn automaton.
#![tactic(auto)]

#[cfg(test)]
mod graph_file_tests;
#[cfg(test)]
mod turn_automata_tests;
