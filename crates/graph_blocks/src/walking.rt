//! Going over blocks that are lent, and looking one up.
ghost use Rattle.std.specs.Prelude.{◌≡◌, ◌↔◌, Contains, IsTrue, Some, map, option_copied};
ghost use Rattle.std.specs.FinMap.{get, values};
ghost use Rattle.ordered_lists.specs.Orders.{rises};
ghost use Rattle.road_model.specs.Orders.{way_cmp};
ghost use Rattle.road_model.specs.declared.blocks.Block.{Block as BlockValue};
ghost use Rattle.graph_blocks.specs.Lent.{map_of};

use layered_maps::{View, Walk};
use road_base::WayId;
use road_model::Block;
use road_model::laws::name_order;

/// The way's block, and None exactly where the way has none. Takes no memory.
pub fn block_at<'a>(blocks: &View<'a, WayId, Block>, way: WayId) -> Option<&'a Block>
    ensures { option_copied result ≡ get (map_of blocks.now) way }
{
    name_order();
    blocks.get(way)
}

/// All blocks, ascending by way. Takes no memory, and for each block one comparison where nothing has changed.
pub fn walk<'a>(blocks: &View<'a, WayId, Block>) -> Walk<'a, WayId, Block>
    ensures blocks { result ≡ values (map_of blocks.now) }
    ensures ascending { IsTrue (rises way_cmp (map (λ b. b.way) result)) }
    ensures each { (b : BlockValue) → Contains result b ↔ (get (map_of blocks.now) b.way ≡ Some b) }
{
    name_order();
    blocks.walk()
}
