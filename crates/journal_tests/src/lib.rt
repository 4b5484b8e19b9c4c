//! Tests of the journal and of the switch of a store's files: each public call on a disk in memory, with ample memory
//! and room, at faults, and at bytes that no call wrote.
#![tactic(auto)]

#[cfg(test)]
mod checkpoint_tests;
#[cfg(test)]
mod sequence_journal_tests;
#[cfg(test)]
mod store_switch_tests;
