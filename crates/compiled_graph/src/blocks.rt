//! A graph file, from the blocks of ways.
ghost use Rattle.std.specs.Prelude.{◌≡◌, ◌+◌, ◌≤◌, ◌++◌, ◌∷◌, [], List, length, IfOk, OnOk, IsTrue};
ghost use Rattle.road_base.specs.Profiles.{IsProfile};
ghost use Rattle.road_base.specs.declared.ids.WayId.{WayId};
ghost use Rattle.ordered_lists.specs.Orders.{rises};
ghost use Rattle.road_model.specs.Orders.{way_cmp};
ghost use Rattle.compiled_graph.specs.Building.{HasBlocksOf, HasBlocksAmong};

use back_references::Indexed;
use expanded_graph::GraphBuilder;
use graph_file::{GraphWriter, VERSION};
use road_base::{NoMemory, Steps, WayId};
use road_model::Profile;
use road_model::laws::{name_order, one_block};
use std::alloc::Global;
use std::sync::ledger::Ledger;

/// About what the block of a way with one piece in each direction takes.
const ROOM_A_WAY: usize = 256;

/// The bytes of a graph file of version 2 with the blocks of those of the ways that have pieces; the ways ascend. Each
/// block is built, written and let go, one after another.
pub fn write_blocks<P: Profile, L: Ledger>(
    alloc: Global,
    builder: &GraphBuilder<'_, Indexed, P>,
    ways: &[WayId],
    steps: &mut Steps<L>,
) -> Result<Vec<u8>, NoMemory>
    requires known { IsProfile (P.rules builder.now.profile).number }
    requires ascending { IsTrue (rises way_cmp ways.now) }
    ensures part { IfOk result (λ out. HasBlocksAmong builder.now.world (P.rules builder.now.profile) ways.now
        out.items) }
    ensures built { steps.new ≤ steps.old + length ways.now }
{
    let profile = builder.profile();
    let room = ways.len().saturating_mul(ROOM_A_WAY);
    let mut writer = GraphWriter::new(alloc, VERSION, profile.number(), room)?;
    for way in ways {
        write_block(builder, *way, &mut writer, steps)?;
    }
    Ok(writer.finish())
}

/// Builds the block of the way, and writes it behind those of the ways below it, if it has pieces.
fn write_block<P: Profile, L: Ledger>(
    builder: &GraphBuilder<'_, Indexed, P>,
    way: WayId,
    writer: &mut GraphWriter,
    steps: &mut Steps<L>,
) -> Result<(), NoMemory>
    requires { (ways : List WayId)
        × HasBlocksOf builder.now.world (P.rules builder.now.profile) ways writer.old }
    ensures written { OnOk result ((ways : List WayId)
        → IsTrue (rises way_cmp (ways ++ way ∷ []))
        → HasBlocksOf builder.now.world (P.rules builder.now.profile) ways writer.old
        → HasBlocksOf builder.now.world (P.rules builder.now.profile) (ways ++ way ∷ []) writer.new) }
    ensures built { steps.new ≡ steps.old + 1 }
{
    one_block(&builder.profile());
    name_order();
    let block = builder.block(way, steps)?;
    if block.pieces.items().is_empty() {
        return Ok(());
    }
    writer.put(&block)
}
