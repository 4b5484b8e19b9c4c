//! Where the block of a way stands in a list of blocks that ascends by way.
ghost use Rattle.std.specs.Prelude.{◌≡◌, length, map, IfOk, IfErr, IsTrue};
ghost use Rattle.std.specs.List.{HoldsAt, AllWithin};
ghost use Rattle.std.specs.List.Sorted.{IsSearchInRange};
ghost use Rattle.std.specs.declared.cmp.Ordering.TheVariants.{Less, Greater};
ghost use Rattle.ordered_lists.specs.Orders.{rises};
ghost use Rattle.road_model.specs.Orders.{way_cmp};

use crate::Block;
use road_base::WayId;

/// Where the way's block stands in the list, or else where it would stand: behind all blocks of lower ways. Behind all
/// others is looked at first.
pub fn find_way(list: &[Block], way: WayId) -> Result<usize, usize>
    requires { IsTrue (rises way_cmp (map (λ b. b.way) list.now)) }
    ensures within { IsSearchInRange result (length list.now) }
    ensures found { IfOk result (HoldsAt (λ b. b.way ≡ way) list.now) }
    ensures below { IfErr result (AllWithin (λ b. way_cmp b.way way ≡ Less) list.now 0) }
    ensures behind { IfErr result (λ at. AllWithin (λ b. way_cmp b.way way ≡ Greater) list.now at (length list.now)) }
{
    match list.last() {
        Some(last) if last.way >= way => list.binary_search_by_key(&way, |block| block.way),
        _ => Err(list.len()),
    }
}
