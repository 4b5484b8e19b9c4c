//! A world and its graph, kept while changes come.
//!
//! `Engine::load` costs what a compilation costs: it holds the objects, their references, and the block of each way
//! with pieces. `Engine::follow` finds the ways near a change, and over the world that the change would leave builds
//! their blocks and those of ways that a restriction names beside one, then of those that meet a way whose pieces it
//! altered, or are named beside one that does, and then of those by whose pieces another arc leads than before, which
//! changes the sources of their contexts; all that beside what stands. The pieces of the ways that these meet it takes
//! from the blocks that stand. Other arcs it finds in one run over the blocks that were built and those that stood at
//! their ways. It finds what changes of the blocks: one that is equal to the one that stands is dropped, so that what
//! stands stays where it lies in memory; one without pieces leaves its way without a block. Only then, and without
//! taking memory, it exchanges the worlds and the blocks; where no memory is found nothing changes. So a change costs
//! the look-ups of the ways near it, the blocks that are built, and for each that a way gets or loses in the long run
//! the logarithm of their number; nothing of the size of the world, and no more than what it touches. `Engine::apply`
//! does the same, and counts the ways that are touched beside. The blocks are `graph_blocks::RoadBlocks`; they are
//! asked by `&self`. `Engine::copy` shares all that stands: it takes a few reference counts, whatever the size of the
//! world, and what changes alter behind it stands twice.
#![tactic(auto)]

mod altering;
mod building;
mod changes;
mod engine;
mod joining;
mod known;
mod sameness;
mod sources;
mod touching;

pub use engine::{Engine, Report};
