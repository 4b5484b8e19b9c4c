//! The blocks of a graph, however they are kept: as a list that is made once, or as what follows changes.
//!
//! `RoadBlocks` is a layered map: what changes a few blocks shares all others with what was before. What only reads
//! blocks takes either by `LendsBlocks`, which lends a view of them: a look-up and a walk over all in order. Lending
//! takes no memory and a constant time.
#![tactic(auto)]

pub mod laws;
mod lending;
mod making;
mod walking;

use layered_maps::LayeredMap;
pub use lending::LendsBlocks;
pub use making::road_blocks;
use road_base::WayId;
use road_model::Block;
pub use walking::{block_at, walk};

/// Blocks that changes come to, each at its way. Contracts see the pairs of ways and blocks, ascending by way.
pub type RoadBlocks = LayeredMap<WayId, Block>;
