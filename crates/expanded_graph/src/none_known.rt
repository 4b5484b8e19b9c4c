//! No known blocks.
ghost use Rattle.std.specs.Prelude.{◌≡◌, None};

use road_base::WayId;
use road_model::Block;
use way_pieces::KnownBlocks;

/// Knows the block of no way.
#[derive(Clone, Copy, Debug)]
pub struct NoneKnown;

impl KnownBlocks for NoneKnown {
    ghost blocks = { λ k w. None };

    fn known(&self, way: WayId) -> Option<&Block> {
        None
    }
}
