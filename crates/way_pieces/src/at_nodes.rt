//! What leaves or comes to nodes, found by the node.
ghost use Rattle.std.specs.Prelude.{◌≡◌, ◌≤◌, ◌-◌, ◌++◌, OnOk, length, map, filter, take, drop};
ghost use Rattle.std.specs.List.Sorted.{IsSortedByKey, IsStableByKey};
ghost use Rattle.road_model.specs.Lines.{same_node};
ghost use Rattle.road_model.specs.Orders.{node_cmp};

use road_base::{NoMemory, NodeId};

/// A departure with the node that it leaves, or an arrival with the node where it ends.
#[derive(Clone, Copy, Debug)]
pub struct AtNode<T> {
    pub node: NodeId,
    pub item: T,
}

/// By node. Those of one node keep their order.
pub fn put_in_order<T: Drop>(items: &mut Vec<AtNode<T>>) -> Result<(), NoMemory>
    ensures sorted { OnOk result (IsSortedByKey (λ s. s.node) node_cmp items.new.items) }
    ensures stable { OnOk result (IsStableByKey (λ s. s.node) node_cmp items.old.items items.new.items) }
{
    items.sort_by_key(|item| item.node)?;
    Ok(())
}

/// Those at the node.
pub fn standing_at<T>(items: &[AtNode<T>], node: NodeId) -> &[AtNode<T>]
    requires { IsSortedByKey (λ s. s.node) node_cmp items.now }
    ensures { result.now ≡ filter (λ s. same_node s.node node) items.now }
{
    let low = items.partition_point(|item| item.node.cmp(&node).is_lt());
    let high = items.partition_point(|item| item.node.cmp(&node).is_le());
    part(items, low, high)
}

fn part<T>(items: &[AtNode<T>], low: usize, high: usize) -> &[AtNode<T>]
    requires rising { low ≤ high }
    requires within { high ≤ length items.now }
    ensures { result.now ≡ take (high - low) (drop low items.now) }
{
    &items[low..high]
}

/// Adds them behind those that the list has, without their nodes.
pub fn add_items<T: Copy + Drop>(list: &mut Vec<T>, items: &[AtNode<T>]) -> Result<(), NoMemory>
    ensures { OnOk result (list.new.items ≡ list.old.items ++ map (λ s. s.item) items.now) }
{
    for item in items {
        list.push(item.item)?;
    }
    Ok(())
}
