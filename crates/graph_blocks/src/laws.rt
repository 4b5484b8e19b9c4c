//! What is said of blocks that stand at their ways.
ghost use Rattle.std.specs.Prelude.{◌≡◌, ◌↔◌, Contains, IsTrue, Some, map};
ghost use Rattle.std.specs.FinMap.{FinMap, get, values};
ghost use Rattle.ordered_lists.specs.Orders.{rises};
ghost use Rattle.road_model.specs.Orders.{way_cmp};
ghost use Rattle.road_model.specs.declared.blocks.Block.{Block};
ghost use Rattle.graph_blocks.specs.Lent.{AreAtTheirWays};

use road_model::laws::name_order;

/// The values of a map of blocks, each at its way, ascend by way, and are the blocks that stand.
pub fn values_in_order()
    ensures ascending { (m : FinMap way_cmp Block)
        → AreAtTheirWays m
        → IsTrue (rises way_cmp (map (λ b. b.way) (values m))) }
    ensures each { (m : FinMap way_cmp Block)
        → AreAtTheirWays m
        → (b : Block)
        → Contains (values m) b ↔ (get m b.way ≡ Some b) }
{
    name_order();
}
