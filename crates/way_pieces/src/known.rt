//! Blocks that are known before others are built.
ghost use Rattle.std.specs.Prelude.{◌≡◌, Option, option_copied};
ghost use Rattle.road_base.specs.declared.ids.WayId.{WayId};
ghost use Rattle.road_model.specs.declared.blocks.Block.{Block};

use road_base::WayId;
use road_model::Block;

/// What knows the blocks of some ways.
pub trait KnownBlocks {
    /// The blocks that it knows, by their ways.
    ghost blocks: { Self → WayId → Option Block };

    /// The block of the way, if it is known. Takes no memory.
    fn known(&self, way: WayId) -> Option<&Block>
        ensures { option_copied result ≡ blocks self.now way };
}
