//! The numbers of profiles that stores have.

/// The number of a motorcar's first profile: that of a sample, and of a store when it is made.
pub const FIRST_PROFILE: u32 = 1;

/// The number of the profile to which a store is raised.
pub const RAISED_PROFILE: u32 = 2;
