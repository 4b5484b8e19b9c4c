//! Readers who pin the newest state of a world and ask it while changes go on.
//!
//! The rule by which they pin, ask and are released is `specs/PinnedRuns.antt`, and what is held for them
//! `specs/Followers.antt`: one follower (`road_model::Follower`) of the newest state and one of each older state that
//! is pinned, however many readers are pinned there, so 65 at most.
//!
//! A pin costs the logarithm of the number of pins, and a release no more than a scan of the at most 64 pins. A
//! question costs what its follower takes, and so does a change; the first one behind a pin costs a `copy` besides.
#![tactic(auto)]

mod errors;
mod older;
mod pins;
mod readers;
#[cfg(test)]
mod tests;

pub use errors::{AskError, NoPin, PinError};
pub use readers::Readers;
