//! Lines, with repeats and returns, and steps over them.
use crate::worlds::world_of;
use access_profile::Motorcar;
use back_references::Indexed;
use road_base::{Dir, NoMemory, NodeId, Refs, Step, Tags, Way, WayId};
use road_model::Network;
use std::alloc::Global;
use std::process::Abort;
use std::test::Fail;
use way_lines::{
    NodeRules, Road, RoadLine, Roads, add_steps, drivable, head, line, line_at, line_len, pass,
    tail,
};

fn way(alloc: Global, refs: &[i64]) -> Result<Way, Fail> {
    let mut list = Vec::new(alloc);
    for id in refs {
        list.push(NodeId(*id))?;
    }
    if list.len() > 65_535 {
        return Err(Fail::from("too many references"));
    }
    Ok(Way {
        tags: Tags::new(),
        refs: Refs::from_list(list)?,
    })
}

/// References, and the line without consecutive repeats.
const LINES: [(&[i64], &[i64]); 5] = [
    (&[1, 1, 2, 1], &[1, 2, 1]),
    (&[1, 2, 3, 1], &[1, 2, 3, 1]),
    (&[5, 5, 5], &[5]),
    (&[-7, -7, 7, 7, -7], &[-7, 7, -7]),
    (&[], &[]),
];

/// The line as it is walked.
fn walked(alloc: Global, way: &Way) -> Result<Vec<i64>, NoMemory> {
    let mut list = Vec::new(alloc);
    for node in line(way) {
        list.push(node.0)?;
    }
    Ok(list)
}

/// Whether the line has these nodes at their places, and no other.
fn has_at_places(way: &Way, want: &[i64]) -> bool {
    for (at, id) in want.iter().enumerate() {
        if line_at(way, at) != Some(NodeId(*id)) {
            return false;
        }
    }
    line_len(way) == want.len() && line_at(way, want.len()).is_none()
}

#[test]
fn lines_drop_consecutive_repeats(rt: HostRuntime) -> Result<(), Fail> {
    for (refs, want) in LINES {
        let way = way(rt.alloc(), refs)?;
        assert!(rt; has_at_places(&way, want), "at {refs:?}");
        assert_eq!(rt; walked(rt.alloc(), &way)?.as_slice(), want, "at {refs:?}");
    }
    Ok(())
}

/// Way 10 over the nodes 1, 2 and 3, with a repeat; way 11 from node 3 on to 4, which may be driven in that direction
/// alone; and way 12 from node 4 to one that isn't there.
const ROADS: &[u8] = b"n1 x0 y0\nn2 x1 y0\nn3 x2 y0\nn4 x3 y0\n\
    w10 Thighway=road Nn1,n1,n2,n3\nw11 Thighway=road,oneway=yes Nn3,n4\nw12 Thighway=road Nn4,n9\n";

fn step(way: i64, index: u32, dir: Dir) -> Step {
    Step {
        way: WayId(way),
        index,
        dir,
    }
}

/// The nodes at both ends, and whether it may be driven.
type Ends = (Option<NodeId>, Option<NodeId>, bool);

fn ends(world: &Indexed, step: Step) -> Ends {
    (
        tail(world, step),
        head(world, step),
        drivable(world, &Motorcar, step),
    )
}

const NO_ENDS: Ends = (None, None, false);

const ENDS: [(i64, u32, Dir, Ends); 10] = [
    (
        10,
        0,
        Dir::Forward,
        (Some(NodeId(1)), Some(NodeId(2)), true),
    ),
    (
        10,
        0,
        Dir::Backward,
        (Some(NodeId(2)), Some(NodeId(1)), true),
    ),
    (
        10,
        1,
        Dir::Forward,
        (Some(NodeId(2)), Some(NodeId(3)), true),
    ),
    (10, 2, Dir::Forward, NO_ENDS),
    (10, 2, Dir::Backward, NO_ENDS),
    (
        11,
        0,
        Dir::Forward,
        (Some(NodeId(3)), Some(NodeId(4)), true),
    ),
    (
        11,
        0,
        Dir::Backward,
        (Some(NodeId(4)), Some(NodeId(3)), false),
    ),
    (
        12,
        0,
        Dir::Forward,
        (Some(NodeId(4)), Some(NodeId(9)), false),
    ),
    (13, 0, Dir::Forward, NO_ENDS),
    (10, u32::MAX, Dir::Forward, NO_ENDS),
];

#[test]
fn steps_have_ends(rt: HostRuntime) -> Result<(), Fail> {
    let world = world_of(rt.alloc(), ROADS)?;
    for (way, index, dir, wanted) in ENDS {
        let step = step(way, index, dir);
        assert_eq!(rt; ends(&world, step), wanted, "{step:?}");
    }
    Ok(())
}

/// The steps of two parts of ways, in order of travel.
const ADDED: [(i64, u32, Dir); 4] = [
    (7, 3, Dir::Forward),
    (7, 4, Dir::Forward),
    (8, 1, Dir::Backward),
    (8, 0, Dir::Backward),
];

fn added(alloc: Global) -> Result<Vec<Step>, NoMemory> {
    let mut steps = Vec::new(alloc);
    add_steps(&mut steps, WayId(7), 3, 2, Dir::Forward)?;
    add_steps(&mut steps, WayId(8), 0, 2, Dir::Backward)?;
    Ok(steps)
}

#[test]
fn steps_are_added_in_order_of_travel(rt: HostRuntime) -> Result<(), Fail> {
    let steps = added(rt.alloc())?;
    assert_eq!(rt; steps.len(), ADDED.len());
    for (found, (way, index, dir)) in steps.iter().zip(ADDED) {
        assert_eq!(rt; *found, step(way, index, dir));
    }
    Ok(())
}

/// Two steps, and whether one may pass from the first to the second.
const PASSES: [((i64, u32, Dir), (i64, u32, Dir), bool); 7] = [
    ((10, 0, Dir::Forward), (10, 1, Dir::Forward), true),
    ((10, 1, Dir::Forward), (11, 0, Dir::Forward), true),
    ((10, 0, Dir::Forward), (11, 0, Dir::Forward), false),
    // Node 1 is a dead end, and node 2 isn't.
    ((10, 0, Dir::Backward), (10, 0, Dir::Forward), true),
    ((10, 0, Dir::Forward), (10, 0, Dir::Backward), false),
    // No step leaves node 4.
    ((11, 0, Dir::Forward), (11, 0, Dir::Backward), false),
    ((10, 1, Dir::Forward), (10, 2, Dir::Forward), false),
];

#[test]
fn steps_follow_where_one_may_pass(rt: HostRuntime) -> Result<(), Fail> {
    let world = world_of(rt.alloc(), ROADS)?;
    for (first, second, may) in PASSES {
        let from = step(first.0, first.1, first.2);
        let to = step(second.0, second.1, second.2);
        assert_eq!(rt; pass(&world, &Motorcar, from, to), may, "{from:?} {to:?}");
    }
    Ok(())
}

/// Ways, and whether they may be driven along and against.
const OPEN: [(WayId, bool, bool); 3] = [
    (WayId(10), true, true),
    (WayId(11), true, false),
    (WayId(13), false, false),
];

const ASKED: [WayId; 3] = [WayId(10), WayId(11), WayId(13)];

fn are_open(roads: &[Road]) -> bool {
    for (road, wanted) in roads.iter().zip(OPEN) {
        if (road.way, road.forward, road.backward) != wanted {
            return false;
        }
    }
    roads.len() == OPEN.len()
}

/// What is known of the ways that are asked for, and that it is found of another one.
fn check_asked(rt: &impl Abort, alloc: Global, world: &Indexed) -> Result<(), Fail> {
    let network = Network::new(world, Motorcar);
    let roads = Roads::of(alloc, &network, ASKED.as_slice())?;
    assert!(rt; are_open(roads.items()));
    assert_eq!(rt; roads.position_of(WayId(12)), None);
    assert!(rt; roads.road(&network, WayId(12)).is_open());
    Ok(())
}

#[test]
fn directions_of_ways_are_asked_once(rt: HostRuntime) -> Result<(), Fail> {
    let world = world_of(rt.alloc(), ROADS)?;
    check_asked(&rt, rt.alloc(), &world)
}

/// Way 12 leads to a node that isn't there, and there is no way 13. Of each node the number, whether it has a place,
/// and whether the way goes through.
const NODES: [(i64, &[(i64, bool, bool)]); 3] = [
    (11, &[(3, true, true), (4, true, true)]),
    (12, &[(4, true, true), (9, false, false)]),
    (13, &[]),
];

fn has_nodes(line: &RoadLine, nodes: &[(i64, bool, bool)]) -> bool {
    for (at, wanted) in line.nodes.iter().zip(nodes) {
        if (at.node.0, at.location.is_some(), at.goes_through) != *wanted {
            return false;
        }
    }
    line.nodes.len() == nodes.len()
}

/// Whether the line of the way has these nodes.
fn way_has_nodes(
    alloc: Global,
    world: &Indexed,
    way: WayId,
    nodes: &[(i64, bool, bool)],
) -> Result<bool, NoMemory> {
    let network = Network::new(world, Motorcar);
    let line = RoadLine::of(alloc, &network, Road::of(&network, way))?;
    Ok(has_nodes(&line, nodes))
}

fn check_nodes(rt: &impl Abort, alloc: Global, world: &Indexed) -> Result<(), Fail> {
    for (way, nodes) in NODES {
        assert!(rt;
            way_has_nodes(alloc, world, WayId(way), nodes)?,
            "at way {way}"
        );
    }
    Ok(())
}

#[test]
fn lines_of_roads_have_their_nodes(rt: HostRuntime) -> Result<(), Fail> {
    let world = world_of(rt.alloc(), ROADS)?;
    check_nodes(&rt, rt.alloc(), &world)
}

/// A bollard, a turning circle, one that is a shut gate too, and a node without tags.
const TURNS: &[u8] = b"n1 Tbarrier=bollard x0 y0\nn2 Thighway=turning_circle x1 y0\n\
    n3 Tbarrier=gate,highway=turning_circle,motor_vehicle=no x2 y0\nn4 x3 y0\n";

/// Nodes, the last of which isn't there. Of each whether it is shut, whether it is a place to turn, and whether one may
/// turn where another step leaves it.
const RULES: [(i64, bool, bool, bool); 5] = [
    (1, true, false, true),
    (2, false, true, true),
    (3, true, true, true),
    (4, false, false, false),
    (5, false, false, false),
];

/// Whether this holds at the node, where one may always turn by the only step that leaves.
fn has_rules(world: &Indexed, (node, shut, turns, may): (i64, bool, bool, bool)) -> bool {
    let rules = NodeRules::of(&Network::new(world, Motorcar), NodeId(node));
    rules.node == NodeId(node)
        && (rules.is_shut, rules.is_turning_place) == (shut, turns)
        && (rules.may_turn(false), rules.may_turn(true)) == (may, true)
        && rules.goes_through() != may
}

#[test]
fn nodes_are_shut_or_places_to_turn(rt: HostRuntime) -> Result<(), Fail> {
    let world = world_of(rt.alloc(), TURNS)?;
    for wanted in RULES {
        assert!(rt; has_rules(&world, wanted), "at node {}", wanted.0);
    }
    Ok(())
}
