//! What the road network means: where a car may drive, what may follow what, which turns restrictions forbid and
//! demand, and the turn-expanded graph of that.
//!
//! `specs/` has the definitions, over any object map and any profile. They know no index, automaton or search: they
//! judge whole lists of steps against tags and members. The types here are what a profile answers and what a graph is
//! made of. A graph's blocks lie in one list in the order of their ways: to find one is a binary search, or a look at
//! two places where the caller knows where it may stand. One behind all others is put at the cost of a push; to put any
//! other whose way is new, and to take one out, moves the blocks behind it. A piece with one context, from which three
//! arcs or fewer lead and which has three sources of one piece each or fewer, as most pieces have, takes the memory of
//! one list beside its own place: that of its nodes. A copy costs the size of what is copied, and everything else a
//! constant.
#![tactic(auto)]

mod access_keys;
mod answers;
mod block_search;
mod blocks;
mod follower;
pub mod laws;
mod links;
mod lists;
mod network;
mod profile;
mod tag_rules;
mod world;

pub use answers::{Access, AccessKey, ClosedBy, RuleKind, Unusable};
pub use blocks::{Block, Blocks};
pub use follower::{Follower, Question};
pub use links::LINK_RADIUS;
pub use lists::{
    Arcs, Context, Contexts, Names, Piece, PieceName, Pieces, Place, Places, Sources, TurnArc,
};
pub use network::Network;
pub use profile::Profile;
pub use tag_rules::{has_highway, is_restriction};
pub use world::World;
