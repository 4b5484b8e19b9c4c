//! Steps along ways: where they begin and end, and whether they may be driven.
ghost use Rattle.std.specs.Prelude.{◌≡◌, ◌≤◌, ◌+◌, Some, None, slice_get, length, is_some, IfSome, nat_lt};
ghost use Rattle.road_model.specs.Lines.{changes, head_of, names_pair, node_at, tail_of};
ghost use Rattle.road_model.specs.Driving.{drivable, is_open, is_road, located};

use crate::line_nodes::line_at;
use crate::roads::{Road, is_free};
use road_base::{Dir, NodeId, Step, Way, WayId};
use road_model::{Network, Profile, World};

/// Whether the way is visible and open in the direction.
#[tactic(auto, unfolding(road_model::specs::Driving::is_open))]
pub fn is_open<M: World, P: Profile>(world: &M, profile: &P, way: WayId, dir: Dir) -> bool
    ensures { result ≡ is_open (M.objects world.now) (P.rules profile.now) way dir }
{
    match world.way(way) {
        Some(way) => is_free(profile.direction(&way.tags, dir)),
        None => false,
    }
}

/// Whether the way is a road: visible, and open in some direction.
pub fn is_road<M: World, P: Profile>(world: &M, profile: &P, way: WayId) -> bool
    ensures { result ≡ is_road (M.objects world.now) (P.rules profile.now) way }
{
    Road::of(&Network::new(world, *profile), way).is_open()
}

/// Whether the node is visible with a location.
pub fn is_located<M: World>(world: &M, node: NodeId) -> bool
    ensures { result ≡ located (M.objects world.now) (Some node) }
{
    match world.node(node) {
        Some(node) => node.location.is_some(),
        None => false,
    }
}

/// Whether the step may be driven: its way is visible and open in its direction, and both its nodes are visible with
/// locations.
#[tactic(auto, using(crate::proofs::NamedPairs::undrivable))]
pub fn drivable<M: World, P: Profile>(world: &M, profile: &P, step: Step) -> bool
    ensures { result ≡ drivable (M.objects world.now) (P.rules profile.now) step }
{
    let Some((first, second)) = pair(world, step) else {
        return false;
    };
    is_drivable_between(world, profile, step, first, second)
}

/// Whether the step, whose nodes are known, may be driven.
#[tactic(auto, unfolding(road_model::specs::Driving::drivable))]
pub fn is_drivable_between<M: World, P: Profile>(
    world: &M,
    profile: &P,
    step: Step,
    first: NodeId,
    second: NodeId,
) -> bool
    requires first { node_at (M.objects world.now) step.way step.index ≡ Some first }
    requires second { node_at (M.objects world.now) step.way (step.index + 1) ≡ Some second }
    ensures { result ≡ drivable (M.objects world.now) (P.rules profile.now) step }
{
    is_open(world, profile, step.way, step.dir)
        && is_located(world, first)
        && is_located(world, second)
}

/// The node where the step begins, None exactly where the step names no pair of a visible way's line.
#[tactic(auto, using(crate::proofs::NamedPairs::no_end))]
pub fn tail<M: World>(world: &M, step: Step) -> Option<NodeId>
    ensures { result ≡ tail_of (M.objects world.now) step }
{
    match ends(world, step) {
        Some((tail, _)) => Some(tail),
        None => None,
    }
}

/// The node where the step ends, None exactly where the step names no pair of a visible way's line.
#[tactic(auto, using(crate::proofs::NamedPairs::no_end))]
pub fn head<M: World>(world: &M, step: Step) -> Option<NodeId>
    ensures { result ≡ head_of (M.objects world.now) step }
{
    match ends(world, step) {
        Some((_, head)) => Some(head),
        None => None,
    }
}

/// Where the step begins and ends, None exactly where the step names no pair of a visible way's line.
pub fn ends<M: World>(world: &M, step: Step) -> Option<(NodeId, NodeId)>
    ensures some { IfSome result (λ p. (tail_of (M.objects world.now) step ≡ Some p.0)
        × (head_of (M.objects world.now) step ≡ Some p.1)) }
    ensures named { is_some result ≡ names_pair (M.objects world.now) step }
{
    let Some((first, second)) = pair(world, step) else {
        return None;
    };
    match step.dir {
        Dir::Forward => Some((first, second)),
        Dir::Backward => Some((second, first)),
    }
}

/// The nodes at the step's positions, in the order of the line.
#[tactic(auto, unfolding(road_model::specs::Lines::node_at, road_model::specs::Lines::line_of, road_model::specs::Lines::names_pair))]
fn pair<M: World>(world: &M, step: Step) -> Option<(NodeId, NodeId)>
    ensures some { IfSome result (λ p. (node_at (M.objects world.now) step.way step.index ≡ Some p.0)
        × (node_at (M.objects world.now) step.way (step.index + 1) ≡ Some p.1)) }
    ensures named { is_some result ≡ names_pair (M.objects world.now) step }
{
    let Some(way) = world.way(step.way) else {
        return None;
    };
    pair_at(way, step.index)
}

/// The nodes at a position of the way's line and the next one.
fn pair_at(way: &Way, index: u32) -> Option<(NodeId, NodeId)>
    ensures some { IfSome result (λ p. (slice_get (changes way.now.refs) index ≡ Some p.0)
        × (slice_get (changes way.now.refs) (index + 1) ≡ Some p.1)) }
    ensures named { is_some result ≡ nat_lt (index + 1) (length (changes way.now.refs)) }
{
    let position = index as usize;
    let Some(first) = line_at(way, position) else {
        return None;
    };
    let Some(second) = line_at(way, position + 1) else {
        return None;
    };
    Some((first, second))
}
