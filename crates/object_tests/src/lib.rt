//! Tests of the libraries that hold, read and spell objects: tables and vectors from outside, and each public call that
//! takes memory once on its happy path, with ample memory.
//!
//! A crate is proved once more with its tests, and these are proved anew whenever what they look at changes. So those
//! of the libraries stand in crates of their own, one for what belongs together: here, in `profile_tests`,
//! `journal_tests`, `conversation_tests`, `graph_tests`, `world_tests`, `change_tests` and `query_tests`, and those of
//! `road_io` in `road_io_tests`. Whole runs are tried in `osmroad`. `makers` makes texts, tags and events for all of
//! them, in the time of what is made.
#![tactic(auto)]

#[cfg(test)]
mod layered_maps_tests;
pub mod makers;
#[cfg(test)]
mod object_codec_tests;
#[cfg(test)]
mod opl_fault_tests;
#[cfg(test)]
mod opl_lexer_tests;
#[cfg(test)]
mod opl_objects_tests;
#[cfg(test)]
mod road_base_tests;
#[cfg(test)]
mod road_model_tests;
#[cfg(test)]
mod sample_town_tests;
