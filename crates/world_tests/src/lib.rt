//! Tests of the libraries that look at a world, and of the objects that it is made of: each public call that takes
//! memory once on its happy path, with ample memory. `worlds` makes worlds for them, in the time of what is made.
#![tactic(auto)]

#[cfg(test)]
mod back_references_tests;
#[cfg(test)]
mod object_store_tests;
#[cfg(test)]
mod piece_tests;
#[cfg(test)]
mod touched_ways_tests;
#[cfg(test)]
mod way_lines_tests;
pub mod worlds;
