//! Tests of the engine that follows changes: small maps whose blocks, after each change, are those of their objects,
//! and copies of an engine.
#![tactic(auto)]

#[cfg(test)]
mod change_apply_tests;
#[cfg(test)]
mod engine_copy_tests;
