//! Which drivable steps leave the nodes at which a drive goes back, so that no reversal goes over the ways there.
ghost use Rattle.std.specs.Prelude.{◌≡◌, ◌↔◌, ◌+◌, ◌&&◌, ◌∷◌, ◌++◌, [], List, Some, IfOk, OnOk};
ghost use Rattle.road_base.specs.declared.ids.WayId.{WayId};
ghost use Rattle.road_base.specs.declared.ids.Step.{Step};
ghost use Rattle.road_model.specs.Lines.{node_at};
ghost use Rattle.road_model.specs.Networks.{map_of, on};
ghost use Rattle.road_model.specs.Driving.{located};
ghost use Rattle.drive_judging.specs.declared.dead_ends.Leaving.TheVariants.{One};
ghost use Rattle.way_lines.specs.RoadLines.{IsRoad};
ghost use Rattle.drive_judging.specs.DeadEnds.{Adds, AreLeaving, AreNoted, AreUnknown, HasWaysAt, IsWith};
ghost use Rattle.drive_judging.specs.DeadEnds.{StepsBelow, StepsOf, leaving_in};

use crate::drive_lines::{DriveLine, ends_in};
use ordered_lists::leave_once;
use road_base::{Dir, NoMemory, NodeId, Step, WayId};
use road_model::laws::{name_order, number_order, roads_refer};
use road_model::{Network, Profile, World};
use std::alloc::Global;
use std::collections::BTreeMap;
use way_lines::{Road, is_located, line};

/// Which drivable steps leave a node: none, this one alone, or more.
#[derive(Clone, Copy)]
pub enum Leaving {
    Nothing,
    One(Step),
    More,
}

impl Leaving {
    /// With a step more, which may be the one.
    fn with(self, step: Step) -> Leaving
        ensures { IsWith self step result }
    {
        match self {
            Leaving::Nothing => Leaving::One(step),
            Leaving::One(other) => with_one(other, step),
            Leaving::More => Leaving::More,
        }
    }
}

/// The one step alone, or more than one.
fn with_one(one: Step, step: Step) -> Leaving
    ensures { IsWith (One one) step result }
{
    if one == step {
        Leaving::One(one)
    } else {
        Leaving::More
    }
}

/// Which drivable steps leave the nodes at which the drive goes back to where a step began. Goes once over the
/// references of each way at these nodes.
pub fn leaving_at_reversals<M: World, P: Profile>(
    alloc: Global,
    network: &Network<'_, M, P>,
    lines: &BTreeMap<WayId, DriveLine>,
    drive: &[Step],
) -> Result<BTreeMap<NodeId, Leaving>, NoMemory>
    ensures { IfOk result (λ known. AreLeaving (M.objects network.now.world.now) (P.rules network.now.profile) known) }
{
    let nodes = reversals(alloc, lines, drive)?;
    let ways = ways_at(alloc, network.world, nodes.as_slice())?;
    leaving_over(alloc, network, nodes.as_slice(), ways.as_slice())
}

/// The nodes at which a step of the drive goes back to where the step before it began, each once. Of a node that
/// isn't among them nothing is known later, and its ways are then gone over again.
fn reversals(
    alloc: Global,
    lines: &BTreeMap<WayId, DriveLine>,
    drive: &[Step],
) -> Result<Vec<NodeId>, NoMemory> {
    number_order();
    let mut nodes = Vec::new(alloc);
    for at in 1..drive.len() {
        if let Some(node) = reversal(lines, drive[at - 1], drive[at]) {
            nodes.push(node)?;
        }
    }
    leave_once(&mut nodes);
    Ok(nodes)
}

/// The node between the steps, where the second goes back to where the first began.
fn reversal(lines: &BTreeMap<WayId, DriveLine>, last: Step, step: Step) -> Option<NodeId> {
    let (from, at) = ends_in(lines, last)?;
    let (node, to) = ends_in(lines, step)?;
    if node == at && to == from {
        Some(node)
    } else {
        None
    }
}

/// The ways at the nodes, each once.
fn ways_at<M: World>(alloc: Global, world: &M, nodes: &[NodeId]) -> Result<Vec<WayId>, NoMemory>
    ensures { IfOk result (λ v. HasWaysAt nodes.now v.items (M.objects world.now)) }
{
    name_order();
    let mut ways = Vec::new(alloc);
    for node in nodes {
        ways.extend_from_slice(world.ways_at(*node))?;
    }
    leave_once(&mut ways);
    Ok(ways)
}

/// Which drivable steps leave the nodes, where all ways that refer to one of them are among these.
fn leaving_over<M: World, P: Profile>(
    alloc: Global,
    network: &Network<'_, M, P>,
    nodes: &[NodeId],
    ways: &[WayId],
) -> Result<BTreeMap<NodeId, Leaving>, NoMemory>
    requires { HasWaysAt nodes.now ways.now (map_of network.now) }
    ensures { IfOk result (λ known. AreLeaving (M.objects network.now.world.now) (P.rules network.now.profile) known) }
{
    roads_refer(&network.profile);
    let mut known = unknown(alloc, nodes)?;
    for way in ways {
        add_way(&mut known, network, *way)?;
    }
    Ok(known)
}

/// Of these nodes nothing is known.
fn unknown(alloc: Global, nodes: &[NodeId]) -> Result<BTreeMap<NodeId, Leaving>, NoMemory>
    ensures { IfOk result (AreUnknown nodes.now) }
{
    number_order();
    let mut known = BTreeMap::new(alloc);
    for node in nodes {
        known.insert(*node, Leaving::Nothing)?;
    }
    Ok(known)
}

/// Adds the drivable steps of the way. A way that is no road isn't gone over.
fn add_way<M: World, P: Profile>(
    known: &mut BTreeMap<NodeId, Leaving>,
    network: &Network<'_, M, P>,
    way: WayId,
) -> Result<(), NoMemory>
    ensures { OnOk result ((ways done : List WayId)
        → on network.now (AreNoted ways (StepsOf done) known.old)
        → on network.now (AreNoted ways (StepsOf (done ++ way ∷ [])) known.new)) }
{
    let road = Road::of(network, way);
    if !road.is_open() {
        return Ok(());
    }
    let Some(body) = network.world.way(way) else {
        return Ok(());
    };
    let mut nodes = line(body);
    let Some(mut first) = nodes.next() else {
        return Ok(());
    };
    let mut index = 0;
    while let Some(second) = nodes.next() {
        add_pair(known, network, road, index, first, second)?;
        first = second;
        index += 1;
    }
    Ok(())
}

/// Adds the drivable ones of the two steps between these neighbouring nodes of the road.
fn add_pair<M: World, P: Profile>(
    known: &mut BTreeMap<NodeId, Leaving>,
    network: &Network<'_, M, P>,
    road: Road,
    index: u32,
    first: NodeId,
    second: NodeId,
) -> Result<(), NoMemory>
    requires road { on network.now IsRoad road }
    requires first { node_at (map_of network.now) road.way index ≡ Some first }
    requires second { node_at (map_of network.now) road.way (index + 1) ≡ Some second }
    ensures { OnOk result ((ways done : List WayId)
        → on network.now (AreNoted ways (StepsBelow done road.way index) known.old)
        → on network.now (AreNoted ways (StepsBelow done road.way (index + 1)) known.new)) }
{
    let along = Step {
        way: road.way,
        index,
        dir: Dir::Forward,
    };
    let against = Step {
        way: road.way,
        index,
        dir: Dir::Backward,
    };
    let forward = is_drivable(network, road.forward, first, second);
    let backward = is_drivable(network, road.backward, first, second);
    add_step(known, forward, along, first)?;
    add_step(known, backward, against, second)?;
    Ok(())
}

/// Whether one may drive between the nodes on a way that is open or not.
fn is_drivable<M: World, P: Profile>(
    network: &Network<'_, M, P>,
    opens: bool,
    first: NodeId,
    second: NodeId,
) -> bool
    ensures { result ≡ (opens && (located (map_of network.now) (Some first)
        && located (map_of network.now) (Some second))) }
{
    opens && is_located(network.world, first) && is_located(network.world, second)
}

/// Adds the step, if it is drivable, to what is known of the node where it begins, if that is one of the nodes.
fn add_step(
    known: &mut BTreeMap<NodeId, Leaving>,
    opens: bool,
    step: Step,
    tail: NodeId,
) -> Result<(), NoMemory>
    ensures { OnOk result (Adds opens step tail known.old known.new) }
{
    number_order();
    if !opens {
        return Ok(());
    }
    let Some(before) = leaving_at(known, tail) else {
        return Ok(());
    };
    known.insert(tail, before.with(step))?;
    Ok(())
}

/// What is known of the node.
pub fn leaving_at(known: &BTreeMap<NodeId, Leaving>, node: NodeId) -> Option<Leaving>
    ensures { result ≡ leaving_in known.now node }
{
    known.get(&node).copied()
}
