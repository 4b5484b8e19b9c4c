//! The blocks of a world.
ghost use Rattle.std.specs.Prelude.{◌≡◌, ◌+◌, ◌≤◌, ◌++◌, ◌∷◌, [], List, length, IfOk, OnOk};
ghost use Rattle.std.specs.FinMap.{get};
ghost use Rattle.road_base.specs.declared.ids.WayId.{WayId};
ghost use Rattle.road_model.specs.Highways.{AreRoadWays, highways};
ghost use Rattle.way_pieces.specs.Known.{AreKnown};
ghost use Rattle.road_model.specs.Naming.{OneBlock};
ghost use Rattle.road_model.specs.Links.{AreTouched};
ghost use Rattle.road_model.specs.Orders.{way_cmp};
ghost use Rattle.ordered_lists.specs.Orders.{Lists};
ghost use Rattle.change_apply.specs.Engines.{AreBlocksAmong, AreInForm, AreKept};
ghost use Rattle.road_model.specs.declared.blocks.Block.{Block as BlockValue};
ghost use Rattle.graph_blocks.specs.Lent.{map_of};
ghost use Rattle.change_apply.specs.Rebuilding.{AreRebuilt, IsRebuiltWith, block_at, over};
ghost use Rattle.touched_ways.specs.Altering.{IsNearChange};

use crate::altering::met_by;
use crate::joining::joined;
use crate::known::{Standing, StandingBut};
use crate::sources::led_to;
use back_references::Indexed;
use expanded_graph::GraphBuilder;
use graph_blocks::{RoadBlocks, road_blocks};
use road_base::{NoMemory, Steps, WayId, Ways};
use road_model::laws::{has_block, name_order, one_block, roads_refer};
use road_model::{Blocks, Network, Profile, World};
use std::alloc::Global;
use std::sync::ledger::Ledger;
use touched_ways::laws::{
    block_lists_pieces, far_blocks_list_pieces, far_pieces_stay, led_blocks_stay,
    led_ways_are_touched, listed_pieces_stay, near_ways_are_touched, unaltered_blocks_stay,
};
use touched_ways::with_beside;
use way_pieces::KnownBlocks;

/// The blocks of all ways with pieces: one is built for each visible way with the key `highway`.
pub fn build<P: Profile, L: Ledger>(
    alloc: Global,
    world: &Indexed,
    profile: P,
    steps: &mut Steps<L>,
) -> Result<RoadBlocks, NoMemory>
    ensures blocks { IfOk result (λ b. AreKept world.now (P.rules profile) (get (map_of b))) }
    ensures few { steps.new ≤ steps.old + length (highways world.now) }
{
    roads_refer(&profile);
    let ways = world.highways()?;
    let blocks = blocks_of(alloc, world, profile, ways.as_slice(), steps)?;
    road_blocks(blocks)
}

/// The blocks of all ways with pieces, where these are they, ascending, and maybe others: one is built for each.
fn blocks_of<P: Profile, L: Ledger>(
    alloc: Global,
    world: &Indexed,
    profile: P,
    ways: &[WayId],
    steps: &mut Steps<L>,
) -> Result<Blocks, NoMemory>
    requires { AreRoadWays world.now (P.rules profile) ways.now }
    ensures blocks { IfOk result (λ blocks. AreKept world.now (P.rules profile) (get blocks.map)) }
    ensures few { steps.new ≤ steps.old + length ways.now }
{
    one_block(&profile);
    let builder = GraphBuilder::of_all(alloc, world, profile, ways)?;
    build_each(alloc, &builder, ways, steps)
}

/// The same, by what builds the blocks of these ways.
fn build_each<P: Profile, L: Ledger>(
    alloc: Global,
    builder: &GraphBuilder<'_, Indexed, P>,
    ways: &[WayId],
    steps: &mut Steps<L>,
) -> Result<Blocks, NoMemory>
    requires { AreRoadWays builder.now.world (P.rules builder.now.profile) ways.now }
    ensures blocks { IfOk result (λ blocks. OneBlock builder.now.world (P.rules builder.now.profile)
        → AreKept builder.now.world (P.rules builder.now.profile) (get blocks.map)) }
    ensures few { steps.new ≤ steps.old + length ways.now }
{
    let mut blocks = Blocks::new(alloc);
    blocks.reserve(ways.len())?;
    for way in ways {
        add_block(builder, *way, &mut blocks, steps)?;
    }
    Ok(blocks)
}

/// Builds the block of the way, and puts it among those of other ways, if it has pieces.
fn add_block<P: Profile, L: Ledger>(
    builder: &GraphBuilder<'_, Indexed, P>,
    way: WayId,
    blocks: &mut Blocks,
    steps: &mut Steps<L>,
) -> Result<(), NoMemory>
    ensures added { OnOk result ((ways : List WayId)
        → OneBlock builder.now.world (P.rules builder.now.profile)
        → AreBlocksAmong builder.now.world (P.rules builder.now.profile) ways blocks.old.map
        → AreBlocksAmong builder.now.world (P.rules builder.now.profile) (ways ++ way ∷ []) blocks.new.map) }
    ensures forms { OnOk result (AreInForm (get blocks.old.map) → AreInForm (get blocks.new.map)) }
    ensures built { steps.new ≡ steps.old + 1 }
{
    name_order();
    let block = builder.block(way, steps)?;
    if block.pieces.items().is_empty() {
        return Ok(());
    }
    blocks.insert(block)
}

/// The blocks of these ways, ascending: one is built for each, also where a way has no pieces. Of ways that meet them
/// the pieces are taken from the known blocks.
pub fn rebuild<M: World, P: Profile, K: KnownBlocks, L: Ledger>(
    alloc: Global,
    world: &M,
    profile: P,
    ways: &[WayId],
    known: &K,
    steps: &mut Steps<L>,
) -> Result<Blocks, NoMemory>
    requires { AreKnown (M.objects world.now) (P.rules profile) (K.blocks known.now) }
    ensures rebuilt { IfOk result (λ r. (before : List (WayId × BlockValue))
        → AreRebuilt (M.objects world.now) (P.rules profile) ways.now before (over r.map before)) }
    ensures each { OnOk result (steps.new ≡ steps.old + length ways.now) }
    ensures few { steps.new ≤ steps.old + length ways.now }
{
    let builder = GraphBuilder::of(alloc, world, profile, ways, known)?;
    rebuild_each(alloc, &builder, ways, steps)
}

/// The same, by what builds the blocks of these ways.
fn rebuild_each<M: World, P: Profile, L: Ledger>(
    alloc: Global,
    builder: &GraphBuilder<'_, M, P>,
    ways: &[WayId],
    steps: &mut Steps<L>,
) -> Result<Blocks, NoMemory>
    ensures rebuilt { IfOk result (λ r. (before : List (WayId × BlockValue))
        → AreRebuilt (M.objects builder.now.world) (P.rules builder.now.profile) ways.now before (over r.map before)) }
    ensures each { OnOk result (steps.new ≡ steps.old + length ways.now) }
    ensures few { steps.new ≤ steps.old + length ways.now }
{
    name_order();
    let mut blocks = Blocks::new(alloc);
    blocks.reserve(ways.len())?;
    for way in ways {
        rebuild_one(builder, *way, &mut blocks, steps)?;
    }
    Ok(blocks)
}

/// Builds the block of the way, and puts it at its way.
fn rebuild_one<M: World, P: Profile, L: Ledger>(
    builder: &GraphBuilder<'_, M, P>,
    way: WayId,
    blocks: &mut Blocks,
    steps: &mut Steps<L>,
) -> Result<(), NoMemory>
    ensures rebuilt { OnOk result ((before : List (WayId × BlockValue))
        → IsRebuiltWith (M.objects builder.now.world) (P.rules builder.now.profile) way
        (over blocks.old.map before) (over blocks.new.map before)) }
    ensures built { steps.new ≡ steps.old + 1 }
{
    name_order();
    let block = builder.block(way, steps)?;
    blocks.insert(block)
}

/// The blocks that a change altered, and how many were built.
#[derive(Drop)]
pub struct Rebuilt {
    /// Those of ways near the change, or named beside one near.
    pub near: Blocks,
    /// Those of ways that meet one near the change with other pieces than before, or are named beside one that does,
    /// and those of ways by whose pieces another arc leads than before.
    pub later: Blocks,
    pub count: u64,
}

/// Builds over the world that a change leaves, `next`, the blocks of the ways within two links of the change, `close`,
/// and of those that a restriction names beside one of them, then those of other ways that meet one of these close ways
/// whose pieces are others than before, or that a restriction names beside a way that does, and then those of the rest
/// by whose pieces an arc leads that is in one alone of the two blocks, before and after, of a way that was built:
/// where no such arc is, the sources are the same. With them, what stands at every way is its block, as it was in the
/// world before, the network's. The pieces of the ways that they meet are taken from the blocks that stand: before the
/// first step from those of ways that aren't close, since the pieces of these are the same, and after it from all.
pub fn rebuild_around<'b, M: World, P: Profile, L: Ledger>(
    alloc: Global,
    network: &Network<'_, Indexed, P>,
    next: &M,
    close: &'b Ways,
    blocks: &'b RoadBlocks,
    steps: &mut Steps<L>,
) -> Result<Rebuilt, NoMemory>
    requires close { Lists (λ w. w) way_cmp (IsNearChange network.now.world.now (M.objects next.now)) close.now }
    requires kept { AreKept network.now.world.now (P.rules network.now.profile) (get (map_of blocks.now)) }
    ensures kept { IfOk result (λ r. AreKept (M.objects next.now) (P.rules network.now.profile)
        (block_at (over r.later.map (over r.near.map [])) (map_of blocks.now))) }
    ensures count { IfOk result (λ r. steps.new ≡ steps.old + r.count) }
    ensures few { (ways : List WayId) → AreTouched network.now.world.now (M.objects next.now) ways
        → steps.new ≤ steps.old + length ways }
{
    let profile = network.profile;
    name_order();
    one_block(&profile);
    has_block(&profile);
    near_ways_are_touched();
    led_ways_are_touched(&profile);
    unaltered_blocks_stay(&profile);
    led_blocks_stay(&profile);
    far_pieces_stay(&profile);
    listed_pieces_stay(&profile);
    block_lists_pieces(&profile);
    far_blocks_list_pieces(&profile);
    let none = Blocks::new(alloc);
    let before = Standing {
        blocks,
        fresh: &none,
    };
    let near_ways = with_beside(alloc, next, close)?;
    let known = StandingBut {
        standing: before,
        but: close,
    };
    let near_list = near_ways.items();
    let near = rebuild(alloc, next, profile, near_list, &known, steps)?;
    let after = Standing {
        blocks,
        fresh: &near,
    };
    let met_ways = met_by(alloc, next, &before, &after, close, &near_ways)?;
    let no_ways = Ways::from_list(Vec::new(alloc));
    let known = StandingBut {
        standing: after,
        but: &no_ways,
    };
    let met_list = met_ways.items();
    let met = rebuild(alloc, next, profile, met_list, &known, steps)?;
    let behind_met = Standing {
        blocks,
        fresh: &met,
    };
    let led_ways = led_to(alloc, &before, &near_ways, &after, &met_ways, &behind_met)?;
    let led_list = led_ways.items();
    let led = rebuild(alloc, next, profile, led_list, &known, steps)?;
    let count = near_list.len() as u64 + met_list.len() as u64 + led_list.len() as u64;
    let later = joined(alloc, met, led)?;
    Ok(Rebuilt { near, later, count })
}
