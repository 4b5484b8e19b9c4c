//! Which keys are closed.
ghost use Rattle.std.specs.Prelude.{◌≡◌, ◌↔◌, ◌++◌, ◌∷◌, [], OnOk, IsTrue, cond, map};
ghost use Rattle.map_cells.specs.Cells.{IsLocatedIn, IsInner, IsThere, HasItsMembers, IsClosed};
ghost use Rattle.cell_check.specs.Closing.{HasNodeIn, AreThere, IsVisible, AddsOpen, is_shown};

use crate::owners::place_of;
use back_references::Indexed;
use map_cells::Area;
use road_base::{Body, Key, Member, NoMemory, NodeId, RelationId, WayId};
use road_model::World;

/// Adds those of the keys that aren't closed, in their order.
pub fn add_open_among(
    world: &Indexed,
    area: &Area,
    keys: &[Key],
    starts: &mut Vec<Key>,
) -> Result<(), NoMemory>
    ensures { OnOk result (AddsOpen world.now area.now keys.now starts.old.items starts.new.items) }
{
    for key in keys {
        add_open(world, area, *key, starts)?;
    }
    Ok(())
}

/// Adds the key, if it isn't closed.
fn add_open(world: &Indexed, area: &Area, key: Key, starts: &mut Vec<Key>) -> Result<(), NoMemory>
    ensures { OnOk result (AddsOpen world.now area.now (key ∷ []) starts.old.items starts.new.items) }
{
    add_if(!is_closed(world, area, key), key, starts)
}

/// Adds the value, if it is wanted.
pub fn add_if<T: Copy>(wanted: bool, value: T, list: &mut Vec<T>) -> Result<(), NoMemory>
    ensures { OnOk result (list.new.items ≡ list.old.items ++ cond wanted (value ∷ []) []) }
{
    if wanted {
        list.push(value)?;
    }
    Ok(())
}

/// Whether all that is linked to the key in the map is in the cell.
fn is_closed(world: &Indexed, area: &Area, key: Key) -> bool
    ensures { IsTrue result ↔ IsClosed world.now area.now key }
{
    match key {
        Key::Node(node) => is_located_in(world, area, node),
        Key::Way(way) => is_inner(world, area, way),
        Key::Relation(rule) => has_its_members(world, rule),
    }
}

/// Whether the node is visible, and located in the area.
pub fn is_located_in<M: World>(world: &M, area: &Area, node: NodeId) -> bool
    ensures { IsTrue result ↔ IsLocatedIn (M.objects world.now) area.now node }
{
    match place_of(world, node) {
        Some(place) => area.holds(place),
        None => false,
    }
}

/// Whether the way is visible, and one of its nodes is located in the area.
fn is_inner<M: World>(world: &M, area: &Area, way: WayId) -> bool
    ensures { IsTrue result ↔ IsInner (M.objects world.now) area.now way }
{
    match world.way(way) {
        Some(body) => has_node_in(world, area, body.refs.items()),
        None => false,
    }
}

/// Whether one of the nodes is located in the area.
fn has_node_in<M: World>(world: &M, area: &Area, nodes: &[NodeId]) -> bool
    ensures { IsTrue result ↔ HasNodeIn (M.objects world.now) area.now nodes.now }
{
    for node in nodes {
        if is_located_in(world, area, *node) {
            return true;
        }
    }
    false
}

/// Whether the relation is visible, and the cell has each node and way that it names.
fn has_its_members(world: &Indexed, rule: RelationId) -> bool
    ensures { IsTrue result ↔ HasItsMembers world.now rule }
{
    match world.relation(rule) {
        Some(body) => are_there(world, body.members.items()),
        None => false,
    }
}

/// Whether the cell has each node and way among the members.
fn are_there(world: &Indexed, members: &[Member]) -> bool
    ensures { IsTrue result ↔ AreThere world.now (map (λ m. m.item) members.now) }
{
    for member in members {
        if !is_there(world, member.item) {
            return false;
        }
    }
    true
}

/// Whether the key is a relation's, or the cell has the object.
fn is_there(world: &Indexed, key: Key) -> bool
    ensures { IsTrue result ↔ IsThere world.now key }
{
    match key {
        Key::Node(_) => is_visible(world, key),
        Key::Way(_) => is_visible(world, key),
        Key::Relation(_) => true,
    }
}

/// Whether the cell has the object.
fn is_visible(world: &Indexed, key: Key) -> bool
    ensures { IsTrue result ↔ IsVisible world.now key }
{
    match world.objects().get(key) {
        Some(event) => is_shown(&event.body),
        None => false,
    }
}

/// Whether the body is visible.
fn is_shown(body: &Body) -> bool
    ensures { result ≡ is_shown body.now }
{
    match body {
        Body::Node(_) => true,
        Body::Way(_) => true,
        Body::Relation(_) => true,
        Body::Deleted => false,
    }
}
