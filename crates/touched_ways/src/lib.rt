//! The ways that a change touches: those within the link radius, eight links, of what changed.
//!
//! A search over links goes round by round, over what the last round found. What a round finds is listed by kind,
//! without a look-up, in lists whose memory is guessed from the nodes and ways that are followed, and taken at once.
//! Ways and restrictions are then sorted and gone along beside those seen before, so that the links of each are
//! followed once. Nodes are followed as often as such a way or restriction names them, but one with more than eight
//! links once a round. The last round looks for ways alone, and only those that it finds are sorted. Where n links are
//! followed that takes time of the order of n log n, and memory for the ways and restrictions seen and for what a round
//! finds, and nothing of the size of the map.
//!
//! `near_change` finds the ways within two links of a change, and `surroundings` all that it touches, each in one such
//! search: the links of the changed keys are followed in the world before the change and in the one behind it, and all
//! others in the latter alone, since there they are the same. `merge` goes along both lists once. `with_beside` follows
//! the links of the restrictions that name one of its ways. `meeting` follows the links of the ways to be met, finds
//! the ways at these nodes as the last round does, and those that restrictions name beside them. `apart_from` goes
//! along its ways once, with one search at most for each. Who follows a change needs no more than what is near it, and
//! what meets ways whose pieces it altered: that these are touched, and that there is a list of all touched ways, is
//! what the laws say.
#![tactic(auto)]

mod altering;
mod found;
mod found_ways;
mod hubs;
pub mod laws;
mod links;
mod lists;
mod merging;
mod rounds;
mod search;
mod seen;

pub use altering::{apart_from, is_among, meeting, ways_met, with_beside};
pub use merging::merge;
pub use rounds::{near_change, reached, surroundings};
