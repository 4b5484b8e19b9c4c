//! The ends of ways' lines, and how many nodes these have.
ghost use Rattle.std.specs.Prelude.{◌≡◌, ◌≤◌, ◌-◌, length, nat_le, slice_get, option_map};
ghost use Rattle.std.specs.List.{list_any};
ghost use Rattle.road_model.specs.Lines.{changes, line_of, node_at, same_node};
ghost use Rattle.road_model.specs.Restrictions.{is_ring, line_ends, meet, some_ends_at, via_ends, way_ends};

use road_base::{Key, NodeId, Way, WayId};
use road_model::World;
use way_lines::{line_at, line_len};

/// The first and the last node of a line.
#[derive(Clone, Copy)]
pub struct LineEnds {
    pub first: NodeId,
    pub last: NodeId,
}

/// The ends of the way's line, None where it has no node.
#[tactic(auto, unfolding(road_model::specs::Lines::node_at, road_model::specs::Lines::line_of), using(crate::proofs::LineEnds::line_ends_first, crate::proofs::LineEnds::line_ends_last))]
pub fn line_ends<M: World>(world: &M, way: WayId) -> Option<LineEnds>
    ensures first { option_map (λ e. e.first) result ≡ node_at (M.objects world.now) way 0 }
    ensures last { option_map (λ e. e.last) result
        ≡ node_at (M.objects world.now) way (length (line_of (M.objects world.now) way) - 1) }
{
    match world.way(way) {
        Some(body) => ends_of(body.refs.items()),
        None => None,
    }
}

/// The ends of the line of a way with these references: the first and the last of them.
#[tactic(auto, using(crate::proofs::LineEnds::line_ends_first, crate::proofs::LineEnds::line_ends_last))]
fn ends_of(refs: &[NodeId]) -> Option<LineEnds>
    ensures first { option_map (λ e. e.first) result ≡ slice_get (changes refs.now) 0 }
    ensures last { option_map (λ e. e.last) result ≡ slice_get (changes refs.now) (length (changes refs.now) - 1) }
{
    match refs {
        [] => None,
        [first, ..] => Some(LineEnds {
            first: *first,
            last: refs[refs.len() - 1],
        }),
    }
}

/// How many nodes the way's line has.
#[tactic(auto, unfolding(road_model::specs::Lines::line_of))]
pub fn nodes_on<M: World>(world: &M, way: WayId) -> u32
    ensures nodes { result ≡ length (line_of (M.objects world.now) way) }
    ensures short { result ≤ 65535 }
{
    match world.way(way) {
        Some(body) => line_len(body) as u32,
        None => 0,
    }
}

/// Whether the way's line has two nodes or more. Takes the time of the references that repeat the first one at its
/// beginning.
#[tactic(auto, unfolding(road_model::specs::Lines::line_of))]
pub fn has_steps<M: World>(world: &M, way: WayId) -> bool
    ensures { result ≡ nat_le 2 (length (line_of (M.objects world.now) way)) }
{
    match world.way(way) {
        Some(body) => has_two_nodes(body),
        None => false,
    }
}

/// Whether the way's line has two nodes or more.
#[tactic(auto, using(crate::proofs::LineEnds::has_second))]
pub fn has_two_nodes(way: &Way) -> bool
    ensures { result ≡ nat_le 2 (length (changes way.now.refs)) }
{
    line_at(way, 1).is_some()
}

/// Whether some of the ways has an end at one of the nodes.
pub fn some_ends_at<M: World>(world: &M, keys: &[Key], nodes: &[NodeId]) -> bool
    ensures { result ≡ some_ends_at (M.objects world.now) keys.now nodes.now }
{
    keys.iter().any(|key| ends_at(world, *key, nodes))
}

/// Whether some of the ways has an end where one comes to the via member or leaves it.
pub fn some_ends_at_via<M: World>(world: &M, keys: &[Key], via: Option<Key>) -> bool
    ensures { result ≡ some_ends_at (M.objects world.now) keys.now (via_ends (M.objects world.now) via) }
{
    match via {
        Some(Key::Node(node)) => some_ends_at(world, keys, &[node]),
        Some(Key::Way(way)) => some_ends_at_line(world, keys, way),
        _ => some_ends_at(world, keys, &[]),
    }
}

/// Whether some of the ways has an end at an end of the way's line.
fn some_ends_at_line<M: World>(world: &M, keys: &[Key], way: WayId) -> bool
    ensures { result ≡ some_ends_at (M.objects world.now) keys.now (line_ends (M.objects world.now) way) }
{
    match line_ends(world, way) {
        Some(ends) => some_ends_at(world, keys, &[ends.first, ends.last]),
        None => some_ends_at(world, keys, &[]),
    }
}

/// Whether it is a way with an end at one of the nodes.
fn ends_at<M: World>(world: &M, key: Key, nodes: &[NodeId]) -> bool
    ensures { result ≡ meet (way_ends (M.objects world.now) key) nodes.now }
{
    let Key::Way(way) = key else {
        return false;
    };
    let Some(ends) = line_ends(world, way) else {
        return false;
    };
    is_among(ends.first, nodes) || is_among(ends.last, nodes)
}

fn is_among(node: NodeId, nodes: &[NodeId]) -> bool
    ensures { result ≡ list_any (same_node node) nodes.now }
{
    nodes.iter().any(|other| node == *other)
}

/// Whether it is a way whose line begins and ends at one node.
pub fn is_ring<M: World>(world: &M, key: Key) -> bool
    ensures { result ≡ is_ring (M.objects world.now) key }
{
    let Key::Way(way) = key else {
        return false;
    };
    match line_ends(world, way) {
        Some(ends) => ends.first == ends.last,
        None => false,
    }
}
