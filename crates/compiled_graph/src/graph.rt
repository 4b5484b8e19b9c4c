//! From events to the bytes of their graph, and the blocks of some ways of a world.
ghost use Rattle.std.specs.Prelude.{◌+◌, ◌≤◌, length, IfOk, IsTrue};
ghost use Rattle.std.specs.FinMap.{empty};
ghost use Rattle.road_base.specs.Objects.{Objects};
ghost use Rattle.road_base.specs.Applying.{IsApplied};
ghost use Rattle.road_base.specs.Profiles.{IsProfile};
ghost use Rattle.road_model.specs.Format.{IsGraph};
ghost use Rattle.road_model.specs.Highways.{highways};
ghost use Rattle.ordered_lists.specs.Orders.{rises};
ghost use Rattle.road_model.specs.Orders.{way_cmp};
ghost use Rattle.graph_file.specs.WalkedFiles.{IsWalkedFile};
ghost use Rattle.zone_files.specs.ZoneFileWalks.{IsZoneFile};
ghost use Rattle.compiled_graph.specs.Building.{HasBlocksAmong};
ghost use Rattle.compiled_graph.specs.Compiled.{IsGraphOf};

use crate::blocks::write_blocks;
use back_references::Indexed;
use expanded_graph::GraphBuilder;
use graph_file::laws::walked_file;
use road_base::laws::one_map;
use road_base::{Event, NoMemory, Steps, WayId};
use road_model::Profile;
use road_model::laws::{roads_refer, walk_law};
use std::alloc::Global;
use std::mem::forget;
use std::sync::ledger::Ledger;
use zone_files::laws::zone_file;

/// The bytes of the profile's graph of what the events leave, of each object the first one of the greatest version.
/// What the graph was made from is not given back to the allocator, since the process ends soon.
pub fn graph_of<P: Profile, L: Ledger>(
    alloc: Global,
    profile: P,
    events: Vec<Event>,
    steps: &mut Steps<L>,
) -> Result<Vec<u8>, NoMemory>
    requires known { IsProfile (P.rules profile).number }
    ensures graph { IfOk result (λ out. IsGraphOf (P.rules profile) events.items out.items) }
    ensures built { (objects : Objects)
        → IsApplied empty events.items objects
        → steps.new ≤ steps.old + length (highways objects) }
{
    walk_law(&profile);
    one_map();
    let world = Indexed::of(alloc, events)?;
    let graph = graph_over(alloc, &world, profile, steps);
    forget(world);
    graph
}

/// The blocks of these ways, ascending, as a graph file of version 2: of each way that has pieces the block is the one
/// that the objects of the world have, whatever else they hold. Costs what all roads of the world cost to be cut into
/// pieces, and then what these ways' blocks cost. What they were made from is not given back to the allocator.
pub fn part_of<P: Profile, L: Ledger>(
    alloc: Global,
    world: &Indexed,
    profile: P,
    ways: &[WayId],
    steps: &mut Steps<L>,
) -> Result<Vec<u8>, NoMemory>
    requires known { IsProfile (P.rules profile).number }
    requires ascending { IsTrue (rises way_cmp ways.now) }
    ensures part { IfOk result (λ out. HasBlocksAmong world.now (P.rules profile) ways.now out.items) }
    ensures built { steps.new ≤ steps.old + length ways.now }
{
    let roads = world.highways()?;
    blocks_among(alloc, world, profile, roads.as_slice(), ways, steps)
}

/// The bytes of the graph of these objects.
fn graph_over<P: Profile, L: Ledger>(
    alloc: Global,
    world: &Indexed,
    profile: P,
    steps: &mut Steps<L>,
) -> Result<Vec<u8>, NoMemory>
    requires known { IsProfile (P.rules profile).number }
    ensures graph { IfOk result (λ out. IsGraph world.now (P.rules profile) out.items) }
    ensures file { IfOk result (λ out. IsWalkedFile world.now (P.rules profile) out.items) }
    ensures zones { IfOk result (λ out. IsZoneFile world.now (P.rules profile) out.items) }
    ensures built { steps.new ≤ steps.old + length (highways world.now) }
{
    roads_refer(&profile);
    walked_file(&profile);
    zone_file(&profile);
    let ways = world.highways()?;
    let roads = ways.as_slice();
    blocks_among(alloc, world, profile, roads, roads, steps)
}

/// The blocks of these ways, where the roads are the ways with pieces, ascending, and maybe others: of any other way
/// the block is built as well, but at a higher cost.
fn blocks_among<P: Profile, L: Ledger>(
    alloc: Global,
    world: &Indexed,
    profile: P,
    roads: &[WayId],
    ways: &[WayId],
    steps: &mut Steps<L>,
) -> Result<Vec<u8>, NoMemory>
    requires known { IsProfile (P.rules profile).number }
    requires ascending { IsTrue (rises way_cmp ways.now) }
    ensures part { IfOk result (λ out. HasBlocksAmong world.now (P.rules profile) ways.now out.items) }
    ensures built { steps.new ≤ steps.old + length ways.now }
{
    let builder = GraphBuilder::of_all(alloc, world, profile, roads)?;
    let graph = write_blocks(alloc, &builder, ways, steps);
    forget(builder);
    graph
}
