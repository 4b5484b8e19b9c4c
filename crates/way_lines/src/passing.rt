//! Which step may follow which.
ghost use Rattle.std.specs.Prelude.{◌≡◌, ◌≢◌, ◌+◌, ◌↔◌, Some, IsTrue, IsFalse};
ghost use Rattle.road_base.specs.declared.ids.Step.{Step};
ghost use Rattle.road_model.specs.Lines.{node_at};
ghost use Rattle.road_model.specs.Networks.{map_of, on};
ghost use Rattle.road_model.specs.Driving.{Leaves, MayTurn, Passes, drivable};

use crate::line_nodes::line;
use crate::node_rules::NodeRules;
use crate::steps::{drivable, ends, is_drivable_between};
use road_base::{Dir, NodeId, Step, WayId};
use road_model::laws::roads_refer;
use road_model::{Network, Profile, World};

/// Whether step t may follow step s: it begins where s ends, and where it leads back to where s began one may turn
/// round there by t, and elsewhere that node isn't shut. A step that names no pair of a visible way's line follows
/// none and is followed by none.
pub fn pass<M: World, P: Profile>(world: &M, profile: &P, s: Step, t: Step) -> bool
    ensures { IsTrue result ↔ Passes (M.objects world.now) (P.rules profile.now) s t }
{
    passes(&Network::new(world, *profile), s, t)
}

/// Whether step t may follow step s.
#[tactic(auto, using(crate::proofs::NamedPairs::no_end))]
fn passes<M: World, P: Profile>(network: &Network<'_, M, P>, s: Step, t: Step) -> bool
    ensures { IsTrue result ↔ on network.now Passes s t }
{
    let Some((from, at)) = ends(network.world, s) else {
        return false;
    };
    let Some((next, to)) = ends(network.world, t) else {
        return false;
    };
    if next != at {
        return false;
    }
    if to == from {
        may_turn(network, at, t)
    } else {
        !NodeRules::of(network, at).is_shut
    }
}

/// Whether one may turn round at the node by the step. The ways there are gone over only where its tags leave it open.
fn may_turn<M: World, P: Profile>(network: &Network<'_, M, P>, node: NodeId, step: Step) -> bool
    ensures { IsTrue result ↔ on network.now MayTurn node step }
{
    let rules = NodeRules::of(network, node);
    rules.may_turn(false) || rules.may_turn(is_only_leaving(network, node, step))
}

/// Whether the step is the only drivable one that leaves the node.
fn is_only_leaving<M: World, P: Profile>(
    network: &Network<'_, M, P>,
    node: NodeId,
    step: Step,
) -> bool
    ensures { IsTrue result
        ↔ (on network.now Leaves node step
        × ((u : Step) → on network.now Leaves node u → u ≡ step)) }
{
    roads_refer(&network.profile);
    if !leaves(network, node, step) {
        return false;
    }
    for way in network.world.ways_at(node) {
        if !none_but(network, node, step, *way) {
            return false;
        }
    }
    true
}

/// Whether the step may be driven and leaves the node.
fn leaves<M: World, P: Profile>(network: &Network<'_, M, P>, node: NodeId, step: Step) -> bool
    ensures { IsTrue result ↔ on network.now Leaves node step }
{
    match ends(network.world, step) {
        Some((tail, _)) => tail == node && drivable(network.world, &network.profile, step),
        None => false,
    }
}

/// Whether no other step of the way than this one leaves the node.
fn none_but<M: World, P: Profile>(
    network: &Network<'_, M, P>,
    node: NodeId,
    step: Step,
    way: WayId,
) -> bool
    ensures { IsTrue result
        ↔ ((u : Step)
        → u.way ≡ way
        → on network.now Leaves node u
        → u ≡ step) }
{
    let Some(body) = network.world.way(way) else {
        return true;
    };
    let mut nodes = line(body);
    let Some(mut first) = nodes.next() else {
        return true;
    };
    let mut index = 0;
    while let Some(second) = nodes.next() {
        let pair = Step {
            way,
            index,
            dir: Dir::Forward,
        };
        if other_leaves(network, node, step, pair, first, second) {
            return false;
        }
        first = second;
        index += 1;
    }
    true
}

/// Whether one of the two steps between these neighbouring nodes leaves the node and is another than the given one.
fn other_leaves<M: World, P: Profile>(
    network: &Network<'_, M, P>,
    node: NodeId,
    step: Step,
    pair: Step,
    first: NodeId,
    second: NodeId,
) -> bool
    requires first { node_at (map_of network.now) pair.way pair.index ≡ Some first }
    requires second { node_at (map_of network.now) pair.way (pair.index + 1) ≡ Some second }
    ensures { IsFalse result
        ↔ ((u : Step)
        → u.way ≡ pair.way
        → u.index ≡ pair.index
        → on network.now Leaves node u
        → u ≡ step) }
{
    let along = Step {
        dir: Dir::Forward,
        ..pair
    };
    let against = Step {
        dir: Dir::Backward,
        ..pair
    };
    (along != step && leaves_between(network, node, along, first, second))
        || (against != step && leaves_between(network, node, against, first, second))
}

/// Whether the step, whose nodes are known, may be driven and leaves the node.
fn leaves_between<M: World, P: Profile>(
    network: &Network<'_, M, P>,
    node: NodeId,
    step: Step,
    first: NodeId,
    second: NodeId,
) -> bool
    requires first { node_at (map_of network.now) step.way step.index ≡ Some first }
    requires second { node_at (map_of network.now) step.way (step.index + 1) ≡ Some second }
    ensures { IsTrue result ↔ on network.now Leaves node step }
{
    let tail = match step.dir {
        Dir::Forward => first,
        Dir::Backward => second,
    };
    tail == node && is_drivable_between(network.world, &network.profile, step, first, second)
}
