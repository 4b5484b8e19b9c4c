//! Tests of `road_io`: the source and the site in memory against tables, and those of the system over readers, writers,
//! files and folders.
//!
//! A crate is proved once more with its tests, and much stands on `road_io`, so they stand here, over what it makes
//! public. How many calls of an object failed is what its contracts say. A test costs its table; those over the system
//! work in a folder of their own below the one for temporary files.
#![tactic(auto)]

#[cfg(test)]
mod folder_tests;
#[cfg(test)]
mod folders;
#[cfg(test)]
mod memory_site_tests;
#[cfg(test)]
mod memory_source_tests;
#[cfg(test)]
mod real_file_tests;
#[cfg(test)]
mod real_stream_tests;
pub mod steps;
