//! The keys that a round of a search finds.
ghost use Rattle.std.specs.Prelude.{◌≡◌, IfOk, OnOk};
ghost use Rattle.road_base.specs.declared.ids.Key.{Key as KeyValue};
ghost use Rattle.road_base.specs.declared.ids.Key.TheVariants.{Node as NodeKey, Way as WayKey, Relation as RelationKey};
ghost use Rattle.touched_ways.specs.Searches.{IsFound, Finds, GivenBy, IsNodeOrWay, IsWay};

use crate::found_ways::FoundWays;
use crate::lists::{add, add_each};
use road_base::{Key, Member, NoMemory, NodeId, RelationId, WayId};
use road_model::laws::number_order;
use std::alloc::Global;

/// How many nodes a way has, as a guess.
const NODES: usize = 12;

/// The numbers found, by kind, in no order. One may stand there more than once.
#[derive(Drop)]
pub struct Reached {
    pub nodes: Vec<NodeId>,
    pub ways: FoundWays,
    pub rules: Vec<RelationId>,
}

impl Reached {
    /// Nothing was found.
    pub fn new(alloc: Global) -> Result<Reached, NoMemory>
        ensures { IfOk result (λ f. (k : KeyValue) → IsFound f k → ⊥) }
    {
        let ways = FoundWays::new(alloc)?;
        Ok(Reached {
            nodes: Vec::new(alloc),
            ways,
            rules: Vec::new(alloc),
        })
    }

    /// Nothing was found. There is room for about what is linked to so many nodes and ways.
    pub fn with_room(alloc: Global, nodes: usize, ways: usize) -> Result<Reached, NoMemory>
        ensures { IfOk result (λ f. (k : KeyValue) → IsFound f k → ⊥) }
    {
        let nodes_of_ways = ways.saturating_mul(NODES);
        let ways = FoundWays::with_capacity(alloc, nodes)?;
        let nodes = Vec::with_capacity(alloc, nodes_of_ways)?;
        Ok(Reached {
            nodes,
            ways,
            rules: Vec::new(alloc),
        })
    }

    /// Finds the nodes.
    pub fn add_nodes(&mut self, nodes: &[NodeId]) -> Result<(), NoMemory>
        ensures { OnOk result (Finds self.old self.new (GivenBy (λ n k. k ≡ NodeKey n) nodes.now)) }
    {
        self.nodes.extend_from_slice(nodes)?;
        Ok(())
    }

    /// Finds the ways.
    pub fn add_ways(&mut self, ways: &[WayId]) -> Result<(), NoMemory>
        ensures { OnOk result (Finds self.old self.new (GivenBy (λ w k. k ≡ WayKey w) ways.now)) }
    {
        self.ways.add_all(ways)
    }

    /// Finds the restrictions.
    pub fn add_rules(&mut self, rules: &[RelationId]) -> Result<(), NoMemory>
        ensures { OnOk result (Finds self.old self.new (GivenBy (λ r k. k ≡ RelationKey r) rules.now)) }
    {
        number_order();
        add_each(&mut self.rules, rules)
    }

    /// Finds the keys.
    pub fn add_keys(&mut self, keys: &[Key]) -> Result<(), NoMemory>
        ensures { OnOk result (Finds self.old self.new (GivenBy (λ x k. k ≡ x) keys.now)) }
    {
        for key in keys {
            self.add_key(*key)?;
        }
        Ok(())
    }

    /// Finds the members that are nodes or ways.
    pub fn add_members(&mut self, members: &[Member]) -> Result<(), NoMemory>
        ensures { OnOk result (Finds self.old self.new
            (GivenBy (λ m k. (k ≡ m.item) × IsNodeOrWay k) members.now)) }
    {
        for member in members {
            self.add_node_or_way(member.item)?;
        }
        Ok(())
    }

    /// Finds the members that are ways.
    pub fn add_member_ways(&mut self, members: &[Member]) -> Result<(), NoMemory>
        ensures { OnOk result (Finds self.old self.new (GivenBy (λ m k. (k ≡ m.item) × IsWay k) members.now)) }
    {
        for member in members {
            self.add_if_way(member.item)?;
        }
        Ok(())
    }

    fn add_key(&mut self, key: Key) -> Result<(), NoMemory>
        ensures { OnOk result (Finds self.old self.new (λ k. k ≡ key)) }
    {
        match key {
            Key::Node(node) => self.add_node(node),
            Key::Way(way) => self.add_way(way),
            Key::Relation(rule) => self.add_rule(rule),
        }
    }

    fn add_node_or_way(&mut self, key: Key) -> Result<(), NoMemory>
        ensures { OnOk result (Finds self.old self.new (λ k. (k ≡ key) × IsNodeOrWay k)) }
    {
        match key {
            Key::Node(node) => self.add_node(node),
            Key::Way(member) => self.add_way(member),
            Key::Relation(_) => Ok(()),
        }
    }

    fn add_if_way(&mut self, key: Key) -> Result<(), NoMemory>
        ensures { OnOk result (Finds self.old self.new (λ k. (k ≡ key) × IsWay k)) }
    {
        match key {
            Key::Node(_) => Ok(()),
            Key::Way(way) => self.add_way(way),
            Key::Relation(_) => Ok(()),
        }
    }

    fn add_node(&mut self, node: NodeId) -> Result<(), NoMemory>
        ensures { OnOk result (Finds self.old self.new (λ k. k ≡ NodeKey node)) }
    {
        number_order();
        add(&mut self.nodes, node)
    }

    fn add_way(&mut self, way: WayId) -> Result<(), NoMemory>
        ensures { OnOk result (Finds self.old self.new (λ k. k ≡ WayKey way)) }
    {
        self.ways.add(way)
    }

    fn add_rule(&mut self, rule: RelationId) -> Result<(), NoMemory>
        ensures { OnOk result (Finds self.old self.new (λ k. k ≡ RelationKey rule)) }
    {
        number_order();
        add(&mut self.rules, rule)
    }
}
