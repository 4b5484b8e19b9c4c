//! The references that objects hold, as pairs.
ghost use Rattle.std.specs.Prelude.{◌≡◌, ◌++◌, IfOk, OnOk, map};
ghost use Rattle.std.specs.List.{flat_map};
ghost use Rattle.back_references.specs.References.{highway_nodes, rule_members, way_references, node_rules, way_rules};
ghost use Rattle.back_references.specs.References.{node_pair, way_pair, way_references_at, node_rules_at, way_rules_at};

use object_store::Objects;
use road_base::{Body, Event, Key, Member, NoMemory, NodeId, RelationId, WayId};
use road_model::{has_highway, is_restriction};
use std::alloc::Global;

/// Each node to which a visible way with the key `highway` refers, with the way.
pub fn way_references_in(alloc: Global, events: &[Event]) -> Result<Vec<(NodeId, WayId)>, NoMemory>
    ensures { IfOk result (λ v. v.items ≡ flat_map way_references events.now) }
{
    let mut pairs = Vec::new(alloc);
    for event in events {
        add_way_references(event, &mut pairs)?;
    }
    Ok(pairs)
}

/// Each node that is a member of a visible restriction, with the restriction.
pub fn node_rules_in(alloc: Global, events: &[Event]) -> Result<Vec<(NodeId, RelationId)>, NoMemory>
    ensures { IfOk result (λ v. v.items ≡ flat_map node_rules events.now) }
{
    let mut pairs = Vec::new(alloc);
    for event in events {
        add_node_rules(event, &mut pairs)?;
    }
    Ok(pairs)
}

/// Each way that is a member of a visible restriction, with the restriction.
pub fn way_rules_in(alloc: Global, events: &[Event]) -> Result<Vec<(WayId, RelationId)>, NoMemory>
    ensures { IfOk result (λ v. v.items ≡ flat_map way_rules events.now) }
{
    let mut pairs = Vec::new(alloc);
    for event in events {
        add_way_rules(event, &mut pairs)?;
    }
    Ok(pairs)
}

/// Each node to which a visible way of the keys with the key `highway` refers, with the way.
pub fn way_references_at(
    alloc: Global,
    objects: &Objects,
    keys: &[Key],
) -> Result<Vec<(NodeId, WayId)>, NoMemory>
    ensures { IfOk result (λ v. v.items ≡ flat_map (way_references_at objects.now) keys.now) }
{
    let mut pairs = Vec::new(alloc);
    for key in keys {
        add_way_references_at(objects, *key, &mut pairs)?;
    }
    Ok(pairs)
}

/// Each node that is a member of a visible restriction of the keys, with the restriction.
pub fn node_rules_at(
    alloc: Global,
    objects: &Objects,
    keys: &[Key],
) -> Result<Vec<(NodeId, RelationId)>, NoMemory>
    ensures { IfOk result (λ v. v.items ≡ flat_map (node_rules_at objects.now) keys.now) }
{
    let mut pairs = Vec::new(alloc);
    for key in keys {
        add_node_rules_at(objects, *key, &mut pairs)?;
    }
    Ok(pairs)
}

/// Each way that is a member of a visible restriction of the keys, with the restriction.
pub fn way_rules_at(
    alloc: Global,
    objects: &Objects,
    keys: &[Key],
) -> Result<Vec<(WayId, RelationId)>, NoMemory>
    ensures { IfOk result (λ v. v.items ≡ flat_map (way_rules_at objects.now) keys.now) }
{
    let mut pairs = Vec::new(alloc);
    for key in keys {
        add_way_rules_at(objects, *key, &mut pairs)?;
    }
    Ok(pairs)
}

fn add_way_references_at(
    objects: &Objects,
    key: Key,
    pairs: &mut Vec<(NodeId, WayId)>,
) -> Result<(), NoMemory>
    ensures { OnOk result (pairs.new.items ≡ pairs.old.items ++ way_references_at objects.now key) }
{
    match objects.get(key) {
        Some(event) => add_way_references(event, pairs),
        None => Ok(()),
    }
}

fn add_way_references(event: &Event, pairs: &mut Vec<(NodeId, WayId)>) -> Result<(), NoMemory>
    ensures { OnOk result (pairs.new.items ≡ pairs.old.items ++ way_references event.now) }
{
    match event.key {
        Key::Way(way) => add_nodes(nodes_of(&event.body), way, pairs),
        _ => Ok(()),
    }
}

fn add_nodes(nodes: &[NodeId], way: WayId, pairs: &mut Vec<(NodeId, WayId)>) -> Result<(), NoMemory>
    ensures { OnOk result (pairs.new.items ≡ pairs.old.items ++ map (λ n. (n, way)) nodes.now) }
{
    for node in nodes {
        pairs.push((*node, way))?;
    }
    Ok(())
}

fn add_node_rules_at(
    objects: &Objects,
    key: Key,
    pairs: &mut Vec<(NodeId, RelationId)>,
) -> Result<(), NoMemory>
    ensures { OnOk result (pairs.new.items ≡ pairs.old.items ++ node_rules_at objects.now key) }
{
    match objects.get(key) {
        Some(event) => add_node_rules(event, pairs),
        None => Ok(()),
    }
}

fn add_node_rules(event: &Event, pairs: &mut Vec<(NodeId, RelationId)>) -> Result<(), NoMemory>
    ensures { OnOk result (pairs.new.items ≡ pairs.old.items ++ node_rules event.now) }
{
    match event.key {
        Key::Relation(rule) => add_member_nodes(members_of(&event.body), rule, pairs),
        _ => Ok(()),
    }
}

fn add_member_nodes(
    members: &[Member],
    rule: RelationId,
    pairs: &mut Vec<(NodeId, RelationId)>,
) -> Result<(), NoMemory>
    ensures { OnOk result (pairs.new.items ≡ pairs.old.items ++ flat_map (λ m. node_pair rule m.item) members.now) }
{
    for member in members {
        add_node(member.item, rule, pairs)?;
    }
    Ok(())
}

fn add_node(
    item: Key,
    rule: RelationId,
    pairs: &mut Vec<(NodeId, RelationId)>,
) -> Result<(), NoMemory>
    ensures { OnOk result (pairs.new.items ≡ pairs.old.items ++ node_pair rule item) }
{
    match item {
        Key::Node(node) => Ok(pairs.push((node, rule))?),
        _ => Ok(()),
    }
}

fn add_way_rules_at(
    objects: &Objects,
    key: Key,
    pairs: &mut Vec<(WayId, RelationId)>,
) -> Result<(), NoMemory>
    ensures { OnOk result (pairs.new.items ≡ pairs.old.items ++ way_rules_at objects.now key) }
{
    match objects.get(key) {
        Some(event) => add_way_rules(event, pairs),
        None => Ok(()),
    }
}

fn add_way_rules(event: &Event, pairs: &mut Vec<(WayId, RelationId)>) -> Result<(), NoMemory>
    ensures { OnOk result (pairs.new.items ≡ pairs.old.items ++ way_rules event.now) }
{
    match event.key {
        Key::Relation(rule) => add_member_ways(members_of(&event.body), rule, pairs),
        _ => Ok(()),
    }
}

fn add_member_ways(
    members: &[Member],
    rule: RelationId,
    pairs: &mut Vec<(WayId, RelationId)>,
) -> Result<(), NoMemory>
    ensures { OnOk result (pairs.new.items ≡ pairs.old.items ++ flat_map (λ m. way_pair rule m.item) members.now) }
{
    for member in members {
        add_way(member.item, rule, pairs)?;
    }
    Ok(())
}

fn add_way(
    item: Key,
    rule: RelationId,
    pairs: &mut Vec<(WayId, RelationId)>,
) -> Result<(), NoMemory>
    ensures { OnOk result (pairs.new.items ≡ pairs.old.items ++ way_pair rule item) }
{
    match item {
        Key::Way(way) => Ok(pairs.push((way, rule))?),
        _ => Ok(()),
    }
}

/// The nodes of a visible way with the key `highway`; of all else none.
fn nodes_of(body: &Body) -> &[NodeId]
    ensures { result.now ≡ highway_nodes body.now }
{
    let Body::Way(way) = body else {
        return &[];
    };
    if !has_highway(&way.tags) {
        return &[];
    }
    way.refs.items()
}

/// The members of a visible restriction; of all else none.
fn members_of(body: &Body) -> &[Member]
    ensures { result.now ≡ rule_members body.now }
{
    let Body::Relation(relation) = body else {
        return &[];
    };
    if !is_restriction(&relation.tags) {
        return &[];
    }
    relation.members.items()
}
