//! Whether a position of a road's line is plain.
ghost use Rattle.std.specs.Prelude.{◌≡◌, ◌≤◌, ◌<◌, ◌+◌, ◌↔◌, IsTrue, IsFalse, IfSome, IfNone, length, map};
ghost use Rattle.road_model.specs.Lines.{changes};
ghost use Rattle.road_model.specs.Driving.{is_road};
ghost use Rattle.road_model.specs.Networks.{made_on, on};
ghost use Rattle.road_model.specs.Pieces.{IsPlain};
ghost use Rattle.way_lines.specs.RoadLines.{AreRoads, IsRoad, line_node};
ghost use Rattle.junctions.specs.PlainPositions.{AreNeighbours, IsOnNoOther, IsPassed, MayPass};

use crate::repeats::stands_again;
use road_base::{NodeId, Way, WayId};
use road_model::laws::roads_refer;
use road_model::{Network, Profile, World};
use way_lines::{LineNode, Road, Roads, line_at, line_len};

/// The nodes before, at and behind a position inside a line.
#[derive(Clone, Copy, Debug)]
pub struct Neighbours {
    pub before: LineNode,
    pub here: LineNode,
    pub behind: LineNode,
}

/// Whether the position of the road's line is plain: it is neither the first nor the last, the nodes before, at and
/// behind it are visible with locations, those before and behind differ, and the one there stands at no other position
/// of any road's line, isn't shut and is no turning place. A way that is no road has no plain positions.
pub fn is_plain<M: World, P: Profile>(world: &M, profile: &P, way: WayId, position: usize) -> bool
    ensures { IsTrue result ↔ IsPlain (M.objects world.now) (P.rules profile.now) way position }
{
    is_plain_on(&Network::new(world, *profile), way, position)
}

/// Whether the position of the road's line is plain.
fn is_plain_on<M: World, P: Profile>(
    network: &Network<'_, M, P>,
    way: WayId,
    position: usize,
) -> bool
    ensures { IsTrue result ↔ on network.now IsPlain way position }
{
    if !Road::of(network, way).is_open() {
        return false;
    }
    let Some(body) = network.world.way(way) else {
        return false;
    };
    let Some(nodes) = neighbours_of(network, body, position) else {
        return false;
    };
    if stands_again(body, nodes.here.node) {
        return false;
    }
    is_passed(network, None, way, nodes)
}

/// The nodes about a position, None exactly where it doesn't lie inside the way's line.
fn neighbours_of<M: World, P: Profile>(
    network: &Network<'_, M, P>,
    way: &Way,
    position: usize,
) -> Option<Neighbours>
    ensures some { IfSome result (AreNeighbours (map (made_on network.now line_node) (changes way.now.refs)) position) }
    ensures none { IfNone result (0 < position → length (changes way.now.refs) ≤ position + 1) }
{
    if position == 0 || position >= line_len(way) {
        return None;
    }
    let Some(before) = line_at(way, position - 1) else {
        return None;
    };
    let Some(here) = line_at(way, position) else {
        return None;
    };
    let Some(behind) = line_at(way, position + 1) else {
        return None;
    };
    Some(Neighbours {
        before: LineNode::of(network, before),
        here: LineNode::of(network, here),
        behind: LineNode::of(network, behind),
    })
}

/// The nodes about a position, None exactly where it doesn't lie inside the line.
pub fn neighbours_at(line: &[LineNode], at: usize) -> Option<Neighbours>
    ensures some { IfSome result (AreNeighbours line.now at) }
    ensures none { IfNone result (0 < at → length line.now ≤ at + 1) }
{
    if at == 0 || at >= line.len() {
        return None;
    }
    if at + 1 == line.len() {
        return None;
    }
    Some(Neighbours {
        before: line[at - 1],
        here: line[at],
        behind: line[at + 1],
    })
}

/// Whether one drives on at the node between its neighbours, where the way stands there but once.
pub fn is_passed<M: World, P: Profile>(
    network: &Network<'_, M, P>,
    roads: Option<&Roads>,
    way: WayId,
    nodes: Neighbours,
) -> bool
    requires { IfSome roads (λ r. on network.now AreRoads r.now) }
    ensures { IsTrue result ↔ on network.now IsPassed way nodes }
{
    may_pass(nodes.before, nodes.here, nodes.behind)
        && !is_on_other(network, roads, way, nodes.here.node)
}

/// Whether the node here goes through, and its neighbours lie somewhere and are two.
fn may_pass(before: LineNode, here: LineNode, behind: LineNode) -> bool
    ensures { IsTrue result ↔ MayPass before here behind }
{
    here.goes_through
        && before.location.is_some()
        && behind.location.is_some()
        && before.node != behind.node
}

/// Whether a road other than the way passes the node.
fn is_on_other<M: World, P: Profile>(
    network: &Network<'_, M, P>,
    roads: Option<&Roads>,
    way: WayId,
    node: NodeId,
) -> bool
    requires { IfSome roads (λ r. on network.now AreRoads r.now) }
    ensures { IsFalse result ↔ on network.now IsOnNoOther way node }
{
    roads_refer(&network.profile);
    for other in network.world.ways_at(node) {
        if is_other_road(network, roads, way, *other) {
            return true;
        }
    }
    false
}

/// Whether the other is a road, and not the way.
fn is_other_road<M: World, P: Profile>(
    network: &Network<'_, M, P>,
    roads: Option<&Roads>,
    way: WayId,
    other: WayId,
) -> bool
    requires { IfSome roads (λ r. on network.now AreRoads r.now) }
    ensures { IsFalse result ↔ (IsTrue (made_on network.now is_road other) → other ≡ way) }
{
    other != way && road_of(network, roads, other).is_open()
}

/// The directions of the way, looked for among those that were asked before, if there are such.
fn road_of<M: World, P: Profile>(
    network: &Network<'_, M, P>,
    roads: Option<&Roads>,
    way: WayId,
) -> Road
    requires { IfSome roads (λ r. on network.now AreRoads r.now) }
    ensures way { result.way ≡ way }
    ensures directions { on network.now IsRoad result }
{
    match roads {
        Some(roads) => roads.road(network, way),
        None => Road::of(network, way),
    }
}
