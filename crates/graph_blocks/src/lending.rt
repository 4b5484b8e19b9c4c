//! Blocks that are lent.
ghost use Rattle.std.specs.Prelude.{◌≡◌};
ghost use Rattle.graph_blocks.specs.Lent.{map_of};

use crate::RoadBlocks;
use layered_maps::View;
use road_base::WayId;
use road_model::laws::name_order;
use road_model::{Block, Blocks};

/// What keeps blocks, each at its way. Contracts see a finite map from ways to blocks.
pub trait LendsBlocks {
    ghost use Rattle.std.specs.FinMap.{FinMap};
    ghost use Rattle.road_model.specs.declared.blocks.Block.{Block};
    ghost use Rattle.road_model.specs.Orders.{way_cmp};

    ghost map: { Self → FinMap way_cmp Block };

    /// The blocks, lent. Takes no memory and a constant time.
    fn lend(&self) -> View<'_, WayId, Block>
        ensures { map_of result ≡ map self.now };
}

impl LendsBlocks for Blocks {
    ghost map = { λ b. b.map };

    fn lend(&self) -> View<'_, WayId, Block> {
        name_order();
        View::of_list(self.items())
    }
}

impl LendsBlocks for RoadBlocks {
    ghost map = { map_of };

    fn lend(&self) -> View<'_, WayId, Block> {
        self.view()
    }
}
