//! What is linked to a key.
ghost use Rattle.std.specs.Prelude.{◌≡◌, ◌↔◌, OnOk, Contains, map};
ghost use Rattle.road_base.specs.declared.ids.Key.{Key as KeyValue};
ghost use Rattle.road_base.specs.declared.ids.Key.TheVariants.{Node as NodeKey, Way as WayKey, Relation as RelationKey};
ghost use Rattle.road_base.specs.declared.ids.NodeId.{NodeId as NodeNumber};
ghost use Rattle.road_model.specs.Links.{RefersTo, HasMember, IsLink};
ghost use Rattle.touched_ways.specs.Searches.{Finds, IsWayLink};

use crate::found::Reached;
use road_base::{Member, NoMemory, NodeId, RelationId, WayId};
use road_model::{World, has_highway, is_restriction};

/// A node to which more ways or more restrictions are linked is a hub.
const FEW: usize = 8;

/// Finds what is linked to the node, and tells whether it is a hub.
pub fn follow_node<M: World>(world: &M, node: NodeId, found: &mut Reached) -> Result<bool, NoMemory>
    ensures { OnOk result (Finds found.old found.new (IsLink (M.objects world.now) (NodeKey node))) }
{
    let ways = world.ways_at(node);
    let rules = world.rules_at(node);
    found.add_ways(ways)?;
    found.add_rules(rules)?;
    Ok(ways.len().max(rules.len()) > FEW)
}

/// Finds what is linked to the way.
pub fn follow_way<M: World>(world: &M, way: WayId, found: &mut Reached) -> Result<(), NoMemory>
    ensures { OnOk result (Finds found.old found.new (IsLink (M.objects world.now) (WayKey way))) }
{
    found.add_nodes(nodes_of(world, way))?;
    found.add_rules(world.rules_of_way(way))
}

/// Finds what is linked to the restriction.
pub fn follow_rule<M: World>(
    world: &M,
    rule: RelationId,
    found: &mut Reached,
) -> Result<(), NoMemory>
    ensures { OnOk result (Finds found.old found.new (IsLink (M.objects world.now) (RelationKey rule))) }
{
    found.add_members(members_of(world, rule))
}

/// Finds the ways that are linked to the node, and tells whether it is a hub by them.
pub fn find_ways_of_node<M: World>(
    world: &M,
    node: NodeId,
    found: &mut Reached,
) -> Result<bool, NoMemory>
    ensures { OnOk result (Finds found.old found.new (IsWayLink (M.objects world.now) (NodeKey node))) }
{
    let ways = world.ways_at(node);
    found.add_ways(ways)?;
    Ok(ways.len() > FEW)
}

/// Finds the ways that are linked to the restriction.
pub fn find_ways_of_rule<M: World>(
    world: &M,
    rule: RelationId,
    found: &mut Reached,
) -> Result<(), NoMemory>
    ensures { OnOk result (Finds found.old found.new (IsWayLink (M.objects world.now) (RelationKey rule))) }
{
    found.add_member_ways(members_of(world, rule))
}

/// The nodes to which the way refers, where it is visible and has the key `highway`.
fn nodes_of<M: World>(world: &M, way: WayId) -> &[NodeId]
    ensures { (n : NodeNumber) → Contains result.now n ↔ RefersTo (M.objects world.now) way n }
{
    let Some(body) = world.way(way) else {
        return &[];
    };
    if !has_highway(&body.tags) {
        return &[];
    }
    body.refs.items()
}

/// The members of the relation, where it is a visible restriction.
fn members_of<M: World>(world: &M, rule: RelationId) -> &[Member]
    ensures { (k : KeyValue) → Contains (map (λ m. m.item) result.now) k ↔ HasMember (M.objects world.now) rule k }
{
    let Some(body) = world.relation(rule) else {
        return &[];
    };
    if !is_restriction(&body.tags) {
        return &[];
    }
    body.members.items()
}
