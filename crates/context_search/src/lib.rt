//! How to drive from one node to another, over the contexts of the graph's blocks.
//!
//! `reach_in_phases` begins on the pieces that leave the one node and stops at those that come to the other (`ends`).
//! It goes along pieces in phases, which say by a piece's mark whether one goes on by it (`phases`). Of the contexts
//! that it has come to it goes on from the one at which the least drive over it is to be expected (`marks`,
//! `frontier`), what was driven and twice the straight line to the goal, and visits each once in a phase
//! (`following`). The context to which an arc leads is found in the blocks by its names (`look_ups`), and what is
//! visited is known by a set of names with their phases. So a search takes for each context and arc that it comes to,
//! in each phase in which it does, the time of some searches by names, memory in proportion to the contexts that it
//! comes to, and nothing for the rest of the graph. Where nothing is left to go on from there is no drive, after one
//! pass in each phase over what can be come to. The drive that was found is put together in the time of its steps
//! (`routes`). `reach` is the search in one phase, in which one goes on by every piece.
//!
//! Other searches over contexts and arcs stand on the same parts: where a drive may begin and end (`ends_of`,
//! `inside_one`), a context by its names (`spot_at`, `put_names`), the drive of what was found (`within`, `along`),
//! the laws of the drives over walks (`laws::searched_drives`, `laws::drives_over`), and the one that the blocks list
//! all contexts (`laws::listed_contexts`). What goes over all contexts takes them as a list in their order
//! (`spots_in_order`, `find_spot`).
#![tactic(auto)]

mod ends;
mod following;
mod found;
mod frontier;
pub mod laws;
mod look_ups;
mod marks;
mod phases;
mod reaching;
mod routes;
mod spots;

pub use ends::{Begin, DriveEnds, Goal, ends_of, goal_at};
pub use following::Meeting;
pub use found::Found;
pub use look_ups::spot_at;
pub use marks::{Origin, TreeVisit};
pub use phases::{OnePhase, Phases};
pub use reaching::{inside_one, reach, reach_in_phases, spots_in_order};
pub use routes::{along, within};
pub use spots::{Spot, find_spot, put_names, spots_of};
