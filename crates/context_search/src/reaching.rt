//! Whether one may drive from one node to another.
ghost use Rattle.std.specs.Prelude.{◌≡◌, ◌≤◌, map, IfOk, IfSome, IfNone, Some, IsTrue, IsFalse, Contains};
ghost use Rattle.road_model.specs.BlockMap.{AreBlocksOf};
ghost use Rattle.road_model.specs.Driving.{located};
ghost use Rattle.road_model.specs.Networks.{on, map_of};
ghost use Rattle.graph_blocks.specs.Lent.{map_of as block_map};
ghost use Rattle.context_search.specs.declared.ends.Begin.{Begin};
ghost use Rattle.context_search.specs.declared.ends.Goal.{Goal};
ghost use Rattle.context_search.specs.Marks.{at_of};
ghost use Rattle.context_search.specs.Visits.{goal_in};
ghost use Rattle.context_search.specs.PhaseWalks.{IsFoundIn};
ghost use Rattle.context_search.specs.Reaching.{IsFound};
ghost use Rattle.context_search.specs.Sought.{AreEnds, AreSpots};

use crate::ends::{Begin, DriveEnds, Goal, ends_of, goal_at};
use crate::following::{begin, run};
use crate::found::Found;
use crate::laws::{drives_over, listed_contexts, searched_drives};
use crate::marks::Search;
use crate::phases::{OnePhase, Phases};
use crate::routes::{along, within};
use crate::spots::{Spot, spots_of};
use graph_blocks::{LendsBlocks, walk};
use layered_maps::View;
use road_base::{Location, NoMemory, NodeId, WayId};
use road_model::laws::{has_block, name_order, one_block, one_name};
use road_model::{Block, Network, PieceName, Profile, World};
use std::alloc::Global;
use std::collections::BTreeMap;
use way_lines::is_located;

/// A legal drive from node a to node b, also where they are the same, or why there is none. The blocks are those of
/// the world under the profile.
///
/// Takes for each context and arc that the search comes to the time of some searches by names, and memory in proportion
/// to the contexts that it comes to: nothing for the rest of the graph.
pub fn reach<M: World, P: Profile, B: LendsBlocks>(
    alloc: Global,
    world: &M,
    profile: &P,
    blocks: &B,
    a: NodeId,
    b: NodeId,
) -> Result<Found, NoMemory>
    requires { AreBlocksOf (M.objects world.now) (P.rules profile.now) (B.map blocks.now) }
    ensures { IfOk result (IsFound (M.objects world.now) (P.rules profile.now) a b) }
{
    searched_drives(profile);
    drives_over(profile);
    reach_in_phases(alloc, world, profile, blocks, &OnePhase, a, b)
}

/// A drive from node a to node b, also where they are the same, by a walk in these phases, or why there is none. Such a
/// drive stays on one piece, of which nothing is asked, or begins on a piece in the phase that starts with it, and goes
/// on by each further piece, the last one too, from the phase that it is in. The blocks are those of the world under
/// the profile.
///
/// Takes what `reach` takes, once for each phase in which the search comes to a context.
pub fn reach_in_phases<M: World, P: Profile, B: LendsBlocks, F: Phases>(
    alloc: Global,
    world: &M,
    profile: &P,
    blocks: &B,
    phases: &F,
    a: NodeId,
    b: NodeId,
) -> Result<Found, NoMemory>
    requires { AreBlocksOf (M.objects world.now) (P.rules profile.now) (B.map blocks.now) }
    ensures { IfOk result (IsFoundIn (M.objects world.now) (P.rules profile.now) (F.rules phases.now) a b) }
{
    if !is_located(world, a) {
        return Ok(Found::NoNode(a));
    }
    let Some(to) = location_of(world, b) else {
        return Ok(Found::NoNode(b));
    };
    drive_to(
        alloc,
        &Network::new(world, *profile),
        &blocks.lend(),
        phases,
        a,
        b,
        to,
    )
}

/// Where the node lies, if it is visible with a location.
fn location_of<M: World>(world: &M, node: NodeId) -> Option<Location>
    ensures some { IfSome result (λ at. IsTrue (located (M.objects world.now) (Some node))) }
    ensures none { IfNone result (IsFalse (located (M.objects world.now) (Some node))) }
{
    match world.node(node) {
        Some(body) => body.location,
        None => None,
    }
}

/// A drive from node a to node b, which lies there, or that there is none.
fn drive_to<M: World, P: Profile, F: Phases>(
    alloc: Global,
    network: &Network<'_, M, P>,
    blocks: &View<'_, WayId, Block>,
    phases: &F,
    a: NodeId,
    b: NodeId,
    to: Location,
) -> Result<Found, NoMemory>
    requires blocks { on network.now AreBlocksOf (block_map blocks.now) }
    requires from { IsTrue (located (map_of network.now) (Some a)) }
    requires to { IsTrue (located (map_of network.now) (Some b)) }
    ensures { IfOk result (on network.now IsFoundIn (F.rules phases.now) a b) }
{
    let ends = ends_of(alloc, network, blocks, a, b)?;
    drive_between(alloc, network, blocks, phases, &ends, to)
}

/// A drive between these ends, of which the last one lies there, or that there is none.
fn drive_between<M: World, P: Profile, F: Phases>(
    alloc: Global,
    network: &Network<'_, M, P>,
    blocks: &View<'_, WayId, Block>,
    phases: &F,
    ends: &DriveEnds<'_>,
    to: Location,
) -> Result<Found, NoMemory>
    requires blocks { on network.now AreBlocksOf (block_map blocks.now) }
    requires ends { on network.now AreEnds ends.now }
    ensures { IfOk result (on network.now IsFoundIn (F.rules phases.now) ends.now.a ends.now.b) }
{
    one_name(&network.profile);
    if let Some((start, goal)) = inside_one(&ends.starts, &ends.goals) {
        return Ok(Found::Drive(within(alloc, &start, &goal)?));
    }
    drive_over(alloc, network, blocks, phases, ends, to)
}

/// A drive over several pieces, where none begins and ends on one piece.
fn drive_over<M: World, P: Profile, F: Phases>(
    alloc: Global,
    network: &Network<'_, M, P>,
    blocks: &View<'_, WayId, Block>,
    phases: &F,
    ends: &DriveEnds<'_>,
    to: Location,
) -> Result<Found, NoMemory>
    requires graph { on network.now AreBlocksOf (block_map blocks.now) }
    requires ends { on network.now AreEnds ends.now }
    requires apart { (s : Begin) (g : Goal) → Contains ends.now.starts.items s
        → goal_in ends.now.goals s.piece.now.name ≡ Some g
        → s.first ≤ g.last
        → ⊥ }
    ensures { IfOk result (on network.now IsFoundIn (F.rules phases.now) ends.now.a ends.now.b) }
{
    listed_contexts(&network.profile);
    one_name(&network.profile);
    let mut search = Search::new(alloc, to);
    begin(&mut search, blocks, phases, &ends.starts)?;
    match run(alloc, &mut search, blocks, phases, &ends.goals)? {
        Some(meeting) => Ok(Found::Drive(along(alloc, search.visits(), &meeting)?)),
        None => Ok(Found::Nowhere),
    }
}

/// A piece on which a drive may begin and then end: the first of the starts for which there is one. Takes for each
/// start the time of a look-up among the goals.
pub fn inside_one<'a>(
    starts: &[Begin<'a>],
    goals: &BTreeMap<PieceName, Goal<'a>>,
) -> Option<(Begin<'a>, Goal<'a>)>
    ensures has { IfSome result (λ r. Contains starts.now r.0) }
    ensures meets { IfSome result (λ r. goal_in goals.now r.0.piece.now.name ≡ Some r.1) }
    ensures rises { IfSome result (λ r. r.0.first ≤ r.1.last) }
    ensures none { IfNone result ((s : Begin) (g : Goal) → Contains starts.now s
        → goal_in goals.now s.piece.now.name ≡ Some g
        → s.first ≤ g.last
        → ⊥) }
{
    for start in starts {
        if let Some(goal) = goal_at(goals, start.piece.name) {
            if start.first <= goal.last {
                return Some((*start, goal));
            }
        }
    }
    None
}

/// All contexts, in the order of their names. Takes one pass over them.
pub fn spots_in_order<'a, M: World, P: Profile>(
    alloc: Global,
    network: &Network<'_, M, P>,
    blocks: &View<'a, WayId, Block>,
) -> Result<Vec<Spot<'a>>, NoMemory>
    requires { on network.now AreBlocksOf (block_map blocks.now) }
    ensures { IfOk result (λ v. on network.now AreSpots (map at_of v.items)) }
{
    name_order();
    has_block(&network.profile);
    one_block(&network.profile);
    one_name(&network.profile);
    spots_of(alloc, walk(blocks))
}
