//! Lists in order: what ascends strictly and has exactly what is asked for, groups of items in one list, hints where a
//! number stands, and what keys and the values kept at them have to tell. Nothing here knows of roads.
//!
//! `specs/Orders.antt` says what a list is that rises, and one that lists exactly what a fact holds of; `proofs/` has
//! what follows of members, parts, sorts and unions of lists, for the crates above. `leave_once` costs a sort; a group
//! is found in a constant time; where a number stands is told in about the time of a search among two items, if the
//! numbers are spread evenly.
#![tactic(auto)]

mod each_once;
mod groups;
mod keyed;
mod kind_ranges;
mod number_ranges;
mod slotted;

pub use each_once::leave_once;
pub use groups::Groups;
pub use keyed::Keyed;
pub use kind_ranges::{KindRanges, Kinded};
pub use number_ranges::{Numbered, Ranges};
pub use slotted::Slotted;
