//! Hubs: nodes with many links, which are followed once in a round.
ghost use Rattle.std.specs.Prelude.{◌≡◌, OnOk};
ghost use Rattle.road_base.specs.declared.ids.Key.TheVariants.{Node as NodeKey};
ghost use Rattle.road_model.specs.Links.{IsLink};
ghost use Rattle.touched_ways.specs.Searches.{Finds, AreFollowed, IsWayLink};

use crate::found::Reached;
use crate::links::{find_ways_of_node, follow_node};
use road_base::{NoMemory, NodeId};
use road_model::World;
use road_model::laws::number_order;
use std::collections::BTreeSet;

/// Finds what is linked to the node, unless it is one of the hubs, all of whose links were followed in this round.
pub fn follow_node_once<M: World>(
    world: &M,
    node: NodeId,
    hubs: &mut BTreeSet<NodeId>,
    found: &mut Reached,
) -> Result<(), NoMemory>
    requires { AreFollowed (IsLink (M.objects world.now)) hubs.old found.old }
    ensures finds { OnOk result (Finds found.old found.new (IsLink (M.objects world.now) (NodeKey node))) }
    ensures followed { OnOk result (AreFollowed (IsLink (M.objects world.now)) hubs.new found.new) }
{
    number_order();
    if hubs.contains(&node) {
        return Ok(());
    }
    let is_hub = follow_node(world, node, found)?;
    if is_hub {
        hubs.insert(node)?;
    }
    Ok(())
}

/// Finds the ways that are linked to the node, unless it is one of the hubs, whose ways were found in this round.
pub fn find_ways_once<M: World>(
    world: &M,
    node: NodeId,
    hubs: &mut BTreeSet<NodeId>,
    found: &mut Reached,
) -> Result<(), NoMemory>
    requires { AreFollowed (IsWayLink (M.objects world.now)) hubs.old found.old }
    ensures finds { OnOk result (Finds found.old found.new (IsWayLink (M.objects world.now) (NodeKey node))) }
    ensures followed { OnOk result (AreFollowed (IsWayLink (M.objects world.now)) hubs.new found.new) }
{
    number_order();
    if hubs.contains(&node) {
        return Ok(());
    }
    let is_hub = find_ways_of_node(world, node, found)?;
    if is_hub {
        hubs.insert(node)?;
    }
    Ok(())
}
