//! The road network answers a session: what it replies to a line over the objects and the blocks that it has come to.
//!
//! A reply takes the time of its query (`drive_queries`, `least_cost`, `destination_drives`), and of its bytes;
//! `drive-at` also that of reading the conditional values on its ways (`moment_rules`), and `zone-drive` that of
//! `drive` with one pass more over its steps. A change takes the time of following it (`change_apply`), and a pin or a
//! release that of `pinned_readers`. Nothing is put here.
#![tactic(auto)]

mod answerer;
mod cost_texts;
mod follower;
mod further_messages;
pub mod laws;
mod pin_messages;
mod pin_replies;
mod pin_texts;
mod queries;
mod texts;
mod zone_verdicts;

pub use answerer::RoadAnswerer;
pub use follower::RoadFollower;
