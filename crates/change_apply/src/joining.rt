//! Blocks of two lists in one.
ghost use Rattle.std.specs.Prelude.{◌≡◌, ◌⊎◌, IfOk, Some, None, Contains};
ghost use Rattle.std.specs.FinMap.{get};
ghost use Rattle.road_base.specs.declared.ids.WayId.{WayId as WayNumber};
ghost use Rattle.road_model.specs.declared.blocks.Block.{Block as BlockValue};

use road_base::NoMemory;
use road_model::laws::name_order;
use road_model::{Block, Blocks};
use std::alloc::Global;

/// The blocks of both; of a way of which both have one, one of the two. Takes the time of one run over both, and where
/// the second has none nothing.
pub fn joined(alloc: Global, first: Blocks, second: Blocks) -> Result<Blocks, NoMemory>
    ensures sound { IfOk result (λ j. (w : WayNumber) (b : BlockValue) → get j.map w ≡ Some b
        → (get first.map w ≡ Some b) ⊎ (get second.map w ≡ Some b)) }
    ensures complete { IfOk result (λ j. (w : WayNumber) → get j.map w ≡ None
        → (get first.map w ≡ None) × (get second.map w ≡ None)) }
{
    name_order();
    if second.items().is_empty() {
        return Ok(first);
    }
    let mut list = first.into_list();
    let mut more = second.into_list();
    list.append(&mut more)?;
    list.sort_by_key(|block| block.way)?;
    blocks_of(alloc, list)
}

/// The blocks of the list; of a way of which it has several, one of them. Where the list ascends by way each goes
/// behind the others.
fn blocks_of(alloc: Global, list: Vec<Block>) -> Result<Blocks, NoMemory>
    ensures sound { IfOk result (λ j. (w : WayNumber) (b : BlockValue) → get j.map w ≡ Some b
        → Contains list.items b × (b.way ≡ w)) }
    ensures complete { IfOk result (λ j. (b : BlockValue) → Contains list.items b → get j.map b.way ≡ None → ⊥) }
{
    name_order();
    let mut blocks = Blocks::new(alloc);
    blocks.reserve(list.len())?;
    for block in list {
        blocks.insert(block)?;
    }
    Ok(blocks)
}
