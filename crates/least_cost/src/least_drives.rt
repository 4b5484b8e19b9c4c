//! Drives of least cost.
ghost use Rattle.std.specs.Prelude.{◌≡◌, ◌≤◌, ◌<◌, ℕ, IfOk, IfSome, IfNone, Some, IsTrue, IsFalse, slice_get, length};
ghost use Rattle.road_model.specs.BlockMap.{AreBlocksOf};
ghost use Rattle.road_model.specs.Driving.{located};
ghost use Rattle.road_model.specs.Networks.{on, map_of};
ghost use Rattle.graph_blocks.specs.Lent.{map_of as block_map};
ghost use Rattle.context_search.specs.Listed.{contexts_in};
ghost use Rattle.context_search.specs.Sought.{AreEnds};
ghost use Rattle.least_cost.specs.Cheapest.{IsCheapest, IsShortest};
ghost use Rattle.least_cost.specs.Costs.{location_of};
ghost use Rattle.least_cost.specs.CostVisits.{IsExhausted, HaveOrigins, IsFoundBy};
ghost use Rattle.least_cost.specs.Trails.{IsDriveOf, Descend, Ascend};

use crate::answers::{Cheapest, Shortest};
use crate::beginning::{begin, least_within};
use crate::candidates::{Candidate, FoundEnd, cost_in};
use crate::laws::certified_is_least;
use crate::numbers::numbers;
use crate::potentials::Potentials;
use crate::searching::run;
use crate::trails::along;
use crate::visiting::{CostSearch, CostVisit};
use context_search::laws::{listed_contexts, searched_drives};
use context_search::{DriveEnds, ends_of, spots_in_order, within};
use graph_blocks::LendsBlocks;
use layered_maps::View;
use road_base::{Drive, Location, NoMemory, NodeId, WayId};
use road_model::laws::one_name;
use road_model::{Block, Network, Profile, World};
use std::alloc::Global;
use way_lines::is_located;

/// A legal drive of least cost from node a to node b, also where they are the same, or why there is none, and the
/// numbers that show it. The blocks are those of the world under the profile.
///
/// Takes what `shortest` takes, and one pass over all contexts for their numbers.
pub fn least<M: World, P: Profile, B: LendsBlocks>(
    alloc: Global,
    world: &M,
    profile: &P,
    blocks: &B,
    a: NodeId,
    b: NodeId,
) -> Result<Cheapest, NoMemory>
    requires { AreBlocksOf (M.objects world.now) (P.rules profile.now) (B.map blocks.now) }
    ensures { IfOk result (IsCheapest (M.objects world.now) (P.rules profile.now) a b) }
{
    if !is_located(world, a) {
        return Ok(Cheapest::NoNode(a));
    }
    let Some(to) = place_of(world, b) else {
        return Ok(Cheapest::NoNode(b));
    };
    let network = Network::new(world, *profile);
    least_to(alloc, &network, &blocks.lend(), a, b, to)
}

/// A legal drive of least cost from node a to node b, also where they are the same, or why there is none. The blocks
/// are those of the world under the profile.
///
/// Of n contexts and arcs that the search comes to, each takes the logarithm of n at most, and each context a look-up
/// in the blocks. The rest of the map takes nothing.
pub fn shortest<M: World, P: Profile, B: LendsBlocks>(
    alloc: Global,
    world: &M,
    profile: &P,
    blocks: &B,
    a: NodeId,
    b: NodeId,
) -> Result<Shortest, NoMemory>
    requires { AreBlocksOf (M.objects world.now) (P.rules profile.now) (B.map blocks.now) }
    ensures { IfOk result (IsShortest (M.objects world.now) (P.rules profile.now) a b) }
{
    if !is_located(world, a) {
        return Ok(Shortest::NoNode(a));
    }
    let Some(to) = place_of(world, b) else {
        return Ok(Shortest::NoNode(b));
    };
    let network = Network::new(world, *profile);
    shortest_to(alloc, &network, &blocks.lend(), a, b, to)
}

/// Where the node lies, if it is visible with a location.
fn place_of<M: World>(world: &M, node: NodeId) -> Option<Location>
    ensures located { IfSome result (λ at. IsTrue (located (M.objects world.now) (Some node))) }
    ensures at { IfSome result (λ at. location_of (M.objects world.now) (Some node) ≡ Some at) }
    ensures none { IfNone result (IsFalse (located (M.objects world.now) (Some node))) }
{
    match world.node(node) {
        Some(body) => body.location,
        None => None,
    }
}

/// A drive of least cost from node a to node b, which lies there, or that there is none.
fn shortest_to<M: World, P: Profile>(
    alloc: Global,
    network: &Network<'_, M, P>,
    blocks: &View<'_, WayId, Block>,
    a: NodeId,
    b: NodeId,
    to: Location,
) -> Result<Shortest, NoMemory>
    requires blocks { on network.now AreBlocksOf (block_map blocks.now) }
    requires from { IsTrue (located (map_of network.now) (Some a)) }
    requires to { IsTrue (located (map_of network.now) (Some b)) }
    requires at { location_of (map_of network.now) (Some b) ≡ Some to }
    ensures { IfOk result (on network.now IsShortest a b) }
{
    let ends = ends_of(alloc, network, blocks, a, b)?;
    shortest_between(alloc, network, blocks, &ends, to)
}

/// A drive of least cost between these ends, of which the last one lies there, or that there is none.
fn shortest_between<'a, M: World, P: Profile>(
    alloc: Global,
    network: &Network<'_, M, P>,
    blocks: &View<'a, WayId, Block>,
    ends: &DriveEnds<'a>,
    to: Location,
) -> Result<Shortest, NoMemory>
    requires blocks { on network.now AreBlocksOf (block_map blocks.now) }
    requires ends { on network.now AreEnds ends.now }
    requires at { location_of (map_of network.now) (Some ends.now.b) ≡ Some to }
    ensures { IfOk result (on network.now IsShortest ends.now.a ends.now.b) }
{
    let profile = &network.profile;
    one_name(profile);
    listed_contexts(profile);
    searched_drives(profile);
    let (search, best) = searched(alloc, network, blocks, ends, to)?;
    certified_is_least(profile, ends.a, ends.b, cost_in(&best));
    let Some(found) = best else {
        return Ok(Shortest::Nowhere);
    };
    let drive = drive_of(alloc, network, ends, search.visits(), &found)?;
    let cost = found.cost;
    Ok(Shortest::Route { cost, drive })
}

/// A drive of least cost from node a to node b, which lies there, or that there is none, and the numbers that show it.
fn least_to<M: World, P: Profile>(
    alloc: Global,
    network: &Network<'_, M, P>,
    blocks: &View<'_, WayId, Block>,
    a: NodeId,
    b: NodeId,
    to: Location,
) -> Result<Cheapest, NoMemory>
    requires blocks { on network.now AreBlocksOf (block_map blocks.now) }
    requires from { IsTrue (located (map_of network.now) (Some a)) }
    requires to { IsTrue (located (map_of network.now) (Some b)) }
    requires at { location_of (map_of network.now) (Some b) ≡ Some to }
    ensures { IfOk result (on network.now IsCheapest a b) }
{
    let ends = ends_of(alloc, network, blocks, a, b)?;
    least_between(alloc, network, blocks, &ends, to)
}

/// A drive of least cost between these ends, of which the last one lies there, or that there is none, and the numbers
/// that show it.
fn least_between<'a, M: World, P: Profile>(
    alloc: Global,
    network: &Network<'_, M, P>,
    blocks: &View<'a, WayId, Block>,
    ends: &DriveEnds<'a>,
    to: Location,
) -> Result<Cheapest, NoMemory>
    requires blocks { on network.now AreBlocksOf (block_map blocks.now) }
    requires ends { on network.now AreEnds ends.now }
    requires at { location_of (map_of network.now) (Some ends.now.b) ≡ Some to }
    ensures { IfOk result (on network.now IsCheapest ends.now.a ends.now.b) }
{
    let profile = &network.profile;
    one_name(profile);
    listed_contexts(profile);
    searched_drives(profile);
    let (search, best) = searched(alloc, network, blocks, ends, to)?;
    certified_is_least(profile, ends.a, ends.b, cost_in(&best));
    let spots = spots_in_order(alloc, network, blocks)?;
    let list = numbers(alloc, &spots, search.visits(), cost_in(&best), to)?;
    let potentials = Potentials::from_list(list);
    let Some(found) = best else {
        return Ok(Cheapest::Nowhere { potentials });
    };
    let drive = drive_of(alloc, network, ends, search.visits(), &found)?;
    let cost = found.cost;
    Ok(Cheapest::Route {
        cost,
        drive,
        potentials,
    })
}

/// What a search finds that goes on until nothing is left over which a drive might cost less.
fn searched<'a, M: World, P: Profile>(
    alloc: Global,
    network: &Network<'_, M, P>,
    blocks: &View<'a, WayId, Block>,
    ends: &DriveEnds<'a>,
    to: Location,
) -> Result<(CostSearch<'a>, Option<Candidate<'a>>), NoMemory>
    requires blocks { on network.now AreBlocksOf (block_map blocks.now) }
    requires ends { on network.now AreEnds ends.now }
    ensures { IfOk result (λ r. IsExhausted (contexts_in (block_map blocks.now)) ends.now to r.0.visits r.1) }
{
    listed_contexts(&network.profile);
    let mut search = CostSearch::new(alloc, to);
    begin(&mut search, blocks, &ends.starts)?;
    let best = least_within(&ends.starts, &ends.goals);
    let found = run(alloc, &mut search, blocks, &ends.goals, to, best)?;
    Ok((search, found))
}

/// The steps of what was found.
fn drive_of<'a, M: World, P: Profile>(
    alloc: Global,
    network: &Network<'_, M, P>,
    ends: &DriveEnds<'a>,
    visits: &[CostVisit<'a>],
    found: &Candidate<'a>,
) -> Result<Drive, NoMemory>
    requires ends { on network.now AreEnds ends.now }
    requires descend { Descend visits.now }
    requires ascend { Ascend visits.now }
    requires found { IsFoundBy ends.now.starts.items ends.now.goals visits.now (Some found.now) }
    ensures { IfOk result (IsDriveOf visits.now found.now.end) }
{
    one_name(&network.profile);
    match found.end {
        FoundEnd::Within(start, goal) => within(alloc, &start, &goal),
        FoundEnd::Over(place, goal) => along(alloc, visits, place, &goal),
    }
}
