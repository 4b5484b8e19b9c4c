//! Which ways have other pieces than before, and which meet these.
ghost use Rattle.std.specs.Prelude.{◌≡◌, Contains, IfOk, IsTrue};
ghost use Rattle.ordered_lists.specs.Orders.{rises};
ghost use Rattle.road_base.specs.declared.ids.WayId.{WayId as WayNumber};
ghost use Rattle.road_model.specs.Orders.{way_cmp};
ghost use Rattle.graph_blocks.specs.Lent.{map_of};
ghost use Rattle.change_apply.specs.Rebuilding.{AreMet, listed, pieces_at};
ghost use Rattle.change_apply.specs.Standing.{built_in};

use crate::known::Standing;
use crate::sameness::same_spans;
use road_base::{NoMemory, WayId, Ways};
use road_model::World;
use std::alloc::Global;
use touched_ways::{apart_from, meeting};

/// The ways that share a node with one of the close ways whose pieces are others after than before, and those that a
/// restriction names beside a way that does, but the near ones, ascending. Takes two look-ups and the time of its
/// pieces for each close way, and that of the ways at the nodes of those whose pieces are others.
pub fn met_by<M: World>(
    alloc: Global,
    next: &M,
    before: &Standing<'_>,
    after: &Standing<'_>,
    close: &Ways,
    near: &Ways,
) -> Result<Ways, NoMemory>
    requires { IsTrue (rises way_cmp near.now) }
    ensures { IfOk result (AreMet (M.objects next.now) (pieces_at (built_in before.now) (map_of before.now.blocks.now))
        (pieces_at (built_in after.now) (map_of after.now.blocks.now)) close.now near.now) }
{
    let altered = altered(alloc, before, after, close.items())?;
    let meeting = meeting(alloc, next, altered.as_slice())?;
    apart_from(alloc, &meeting, near)
}

/// Those of the ways that list other pieces, by names and ends, in the blocks that stand after than in those before, in
/// their order. Takes two look-ups a way, and the time of their pieces.
fn altered(
    alloc: Global,
    before: &Standing<'_>,
    after: &Standing<'_>,
    ways: &[WayId],
) -> Result<Vec<WayId>, NoMemory>
    ensures only { IfOk result (λ altered. (w : WayNumber) → Contains altered.items w → Contains ways.now w) }
    ensures same { IfOk result (λ altered. (w : WayNumber)
        → Contains ways.now w
        → (Contains altered.items w → ⊥)
        → listed (pieces_at (built_in before.now) (map_of before.now.blocks.now) w)
        ≡ listed (pieces_at (built_in after.now) (map_of after.now.blocks.now) w)) }
{
    let mut altered = Vec::new(alloc);
    for way in ways {
        let was = before.pieces(*way);
        let is = after.pieces(*way);
        if !same_spans(was, is) {
            altered.push(*way)?;
        }
    }
    Ok(altered)
}
