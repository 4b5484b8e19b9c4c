//! Drives that go through no zone: roads that are open to destinations alone (OSM wiki, Key:access, destination) may
//! begin and end a drive, and carry none through.
//!
//! How far a drive is between the zone where it begins and the one where it ends is told by three phases, which `start`
//! and `go` give for each piece or step by whether it is marked. `through` goes over the steps of a drive once, with a
//! look-up of its way for each, and stops at the first one that leads out of a zone which the drive was driven into; it
//! takes no memory. `zone_reach` is the search of `context_search` over contexts in phases: each context is visited at
//! most once in each of the three, so that a search takes at most three times what `reach` may take.
//!
//! `laws::zone_walk_law` says that walks over contexts and phases spell, each once, exactly the legal drives from
//! junction to junction that go through no zone; and `laws::no_zones` that these are all legal drives where a profile
//! has no zones.
#![tactic(auto)]

pub mod laws;
mod phases;
mod reaching;
mod zones;

pub use phases::{Phase, go, start};
pub use reaching::zone_reach;
pub use zones::through;
