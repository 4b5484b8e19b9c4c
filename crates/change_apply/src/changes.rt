//! What changes of the blocks that stand, where others were built.
ghost use Rattle.std.specs.Prelude.{◌≡◌, [], List, IfOk, IfSome, IfNone, map};
ghost use Rattle.std.specs.FinMap.{find};
ghost use Rattle.road_base.specs.declared.ids.WayId.{WayId as WayNumber};
ghost use Rattle.road_model.specs.declared.blocks.Block.{Block as BlockValue};
ghost use Rattle.road_model.specs.Orders.{way_cmp};
ghost use Rattle.layered_maps.specs.Layers.{Rise};
ghost use Rattle.layered_maps.specs.Maps.{change_pair, changed_by};
ghost use Rattle.graph_blocks.specs.Lent.{map_of};
ghost use Rattle.change_apply.specs.Rebuilding.{block_at, over, way_of, with_fresh, with_pieces};
ghost use Rattle.change_apply.specs.Standing.{built_in};

use crate::building::Rebuilt;
use crate::known::Standing;
use crate::sameness::same_block;
use graph_blocks::RoadBlocks;
use layered_maps::Change;
use road_base::{NoMemory, WayId};
use road_model::laws::name_order;
use road_model::{Block, Blocks};
use std::alloc::Global;

/// The changes of blocks that a change of the world makes, in two lists, in each of which the ways rise.
#[derive(Drop)]
pub struct BlockChanges {
    /// At the ways near it.
    pub near: Vec<Change<WayId, Block>>,
    /// At the ways that meet those with other pieces, and at those to which other arcs lead. They come behind the
    /// others.
    pub later: Vec<Change<WayId, Block>>,
}

/// What changes of the blocks, so that these stand. Takes a look-up for each and, where one stands, the time of one run
/// over both.
pub fn changes_of(
    alloc: Global,
    blocks: &RoadBlocks,
    rebuilt: Rebuilt,
) -> Result<BlockChanges, NoMemory>
    ensures near { IfOk result (λ c. Rise way_cmp (map (change_pair way_of) c.near.items)) }
    ensures later { IfOk result (λ c. Rise way_cmp (map (change_pair way_of) c.later.items)) }
    ensures leaves { IfOk result (λ c. (w : WayNumber)
        → find way_cmp w (changed_by way_of way_cmp c.later.items (changed_by way_of way_cmp c.near.items blocks.now))
        ≡ block_at (over rebuilt.later.map (over rebuilt.near.map [])) (map_of blocks.now) w) }
{
    name_order();
    let none = Blocks::new(alloc);
    let Rebuilt { near, later, .. } = rebuilt;
    let behind_near = Standing {
        blocks,
        fresh: &near,
    };
    let later = changes_over(alloc, &behind_near, later)?;
    let before = Standing {
        blocks,
        fresh: &none,
    };
    let near = changes_over(alloc, &before, near)?;
    Ok(BlockChanges { near, later })
}

/// What changes of the blocks that stand, so that the fresh ones do.
fn changes_over(
    alloc: Global,
    standing: &Standing<'_>,
    fresh: Blocks,
) -> Result<Vec<Change<WayId, Block>>, NoMemory>
    ensures rising { IfOk result (λ c. Rise way_cmp (map (change_pair way_of) c.items)) }
    ensures leaves { IfOk result (λ c. (before : List (WayNumber × BlockValue))
        → ((w : WayNumber) → find way_cmp w before
        ≡ block_at (built_in standing.now) (map_of standing.now.blocks.now) w)
        → (w : WayNumber)
        → find way_cmp w (changed_by way_of way_cmp c.items before)
        ≡ with_fresh fresh.map (λ v. find way_cmp v before) w) }
{
    name_order();
    let list = fresh.into_list();
    let mut changes = Vec::with_capacity(alloc, list.len())?;
    for block in list {
        if let Some(change) = change_to(standing, block) {
            changes.push(change)?;
        }
    }
    Ok(changes)
}

/// What changes where the block stands in the place of its way's; None only where that is equal, or where neither has
/// pieces.
fn change_to(standing: &Standing<'_>, block: Block) -> Option<Change<WayId, Block>>
    ensures some { IfSome result (λ c. change_pair way_of c ≡ (block.way, with_pieces block)) }
    ensures none { IfNone result (block_at (built_in standing.now) (map_of standing.now.blocks.now) block.way
        ≡ with_pieces block) }
{
    let stands = standing.newest(block.way);
    if block.pieces.items().is_empty() {
        return match stands {
            Some(_) => Some(Change::Gone(block.way)),
            None => None,
        };
    }
    match stands {
        Some(other) if same_block(other, &block) => None,
        _ => Some(Change::Put(block)),
    }
}
