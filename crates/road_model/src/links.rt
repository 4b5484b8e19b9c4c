//! How far a change may alter blocks.

/// How many links lead from a changed key to a way at most, if the change may alter the way's block.
pub const LINK_RADIUS: u32 = 8;
