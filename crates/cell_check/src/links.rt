//! What is linked to a key.
ghost use Rattle.std.specs.Prelude.{◌≡◌, ◌↔◌, OnOk, Contains, map};
ghost use Rattle.road_base.specs.declared.ids.Key.{Key as KeyValue};
ghost use Rattle.road_base.specs.declared.ids.Key.TheVariants.{Node as NodeKey, Way as WayKey, Relation as RelationKey};
ghost use Rattle.road_base.specs.declared.ids.NodeId.{NodeId as NodeNumber};
ghost use Rattle.road_model.specs.Links.{RefersTo, HasMember, IsLink};
ghost use Rattle.cell_check.specs.Searches.{Finds, FromStart, GivenBy, IsNodeOrWay};

use crate::search::{LinkSearch, Reached};
use road_base::{Key, Member, NoMemory, NodeId, RelationId, WayId};
use road_model::{World, has_highway, is_restriction};

/// The search comes to what is linked to the key.
pub fn follow<M: World>(world: &M, from: Reached, search: &mut LinkSearch) -> Result<(), NoMemory>
    ensures { OnOk result (Finds search.old search.new
        (FromStart from.start (IsLink (M.objects world.now) from.key))) }
{
    match from.key {
        Key::Node(node) => follow_node(world, node, from.start, search),
        Key::Way(way) => follow_way(world, way, from.start, search),
        Key::Relation(rule) => follow_rule(world, rule, from.start, search),
    }
}

fn follow_node<M: World>(
    world: &M,
    node: NodeId,
    start: Key,
    search: &mut LinkSearch,
) -> Result<(), NoMemory>
    ensures { OnOk result (Finds search.old search.new
        (FromStart start (IsLink (M.objects world.now) (NodeKey node)))) }
{
    reach_ways(world.ways_at(node), start, search)?;
    reach_rules(world.rules_at(node), start, search)
}

fn follow_way<M: World>(
    world: &M,
    way: WayId,
    start: Key,
    search: &mut LinkSearch,
) -> Result<(), NoMemory>
    ensures { OnOk result (Finds search.old search.new
        (FromStart start (IsLink (M.objects world.now) (WayKey way)))) }
{
    reach_nodes(nodes_of(world, way), start, search)?;
    reach_rules(world.rules_of_way(way), start, search)
}

fn follow_rule<M: World>(
    world: &M,
    rule: RelationId,
    start: Key,
    search: &mut LinkSearch,
) -> Result<(), NoMemory>
    ensures { OnOk result (Finds search.old search.new
        (FromStart start (IsLink (M.objects world.now) (RelationKey rule)))) }
{
    reach_members(members_of(world, rule), start, search)
}

fn reach_nodes(nodes: &[NodeId], start: Key, search: &mut LinkSearch) -> Result<(), NoMemory>
    ensures { OnOk result (Finds search.old search.new
        (FromStart start (GivenBy (λ n k. k ≡ NodeKey n) nodes.now))) }
{
    for node in nodes {
        search.reach(Key::Node(*node), start)?;
    }
    Ok(())
}

fn reach_ways(ways: &[WayId], start: Key, search: &mut LinkSearch) -> Result<(), NoMemory>
    ensures { OnOk result (Finds search.old search.new
        (FromStart start (GivenBy (λ w k. k ≡ WayKey w) ways.now))) }
{
    for way in ways {
        search.reach(Key::Way(*way), start)?;
    }
    Ok(())
}

fn reach_rules(rules: &[RelationId], start: Key, search: &mut LinkSearch) -> Result<(), NoMemory>
    ensures { OnOk result (Finds search.old search.new
        (FromStart start (GivenBy (λ r k. k ≡ RelationKey r) rules.now))) }
{
    for rule in rules {
        search.reach(Key::Relation(*rule), start)?;
    }
    Ok(())
}

fn reach_members(members: &[Member], start: Key, search: &mut LinkSearch) -> Result<(), NoMemory>
    ensures { OnOk result (Finds search.old search.new
        (FromStart start (GivenBy (λ m k. (k ≡ m.item) × IsNodeOrWay k) members.now))) }
{
    for member in members {
        reach_node_or_way(member.item, start, search)?;
    }
    Ok(())
}

fn reach_node_or_way(key: Key, start: Key, search: &mut LinkSearch) -> Result<(), NoMemory>
    ensures { OnOk result (Finds search.old search.new (FromStart start (λ k. (k ≡ key) × IsNodeOrWay k))) }
{
    match key {
        Key::Node(_) => search.reach(key, start),
        Key::Way(_) => search.reach(key, start),
        Key::Relation(_) => Ok(()),
    }
}

/// The nodes to which the way refers, where it is visible and has the key `highway`.
fn nodes_of<M: World>(world: &M, way: WayId) -> &[NodeId]
    ensures { (n : NodeNumber) → Contains result.now n ↔ RefersTo (M.objects world.now) way n }
{
    let Some(body) = world.way(way) else {
        return &[];
    };
    if !has_highway(&body.tags) {
        return &[];
    }
    body.refs.items()
}

/// The members of the relation, where it is a visible restriction.
fn members_of<M: World>(world: &M, rule: RelationId) -> &[Member]
    ensures { (k : KeyValue) → Contains (map (λ m. m.item) result.now) k ↔ HasMember (M.objects world.now) rule k }
{
    let Some(body) = world.relation(rule) else {
        return &[];
    };
    if !is_restriction(&body.tags) {
        return &[];
    }
    body.members.items()
}
