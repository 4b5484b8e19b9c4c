//! Small maps, worked out by hand: what the definitions of the road network say of them.
//!
//! Its proofs hold the examples. Nothing stands on this crate, and it has nothing to run.
#![tactic(auto)]
