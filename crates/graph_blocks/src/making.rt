//! Blocks of a list, as changes come to them.
ghost use Rattle.std.specs.Prelude.{◌≡◌, IfOk};
ghost use Rattle.graph_blocks.specs.Lent.{map_of};

use crate::RoadBlocks;
use road_base::NoMemory;
use road_model::Blocks;
use road_model::laws::name_order;

/// The same blocks, to which changes may come. They are moved, not copied. Takes about two bytes a block, and the time
/// of a run over them.
pub fn road_blocks(blocks: Blocks) -> Result<RoadBlocks, NoMemory>
    ensures { IfOk result (λ b. map_of b ≡ blocks.map) }
{
    name_order();
    Ok(RoadBlocks::of(blocks.into_list())?)
}
