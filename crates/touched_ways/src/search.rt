//! What a search over links keeps from round to round.
ghost use Rattle.std.specs.Prelude.{◌⊎◌, IfOk, OnOk, Contains};
ghost use Rattle.road_base.specs.declared.ids.Key.{Key as KeyValue};
ghost use Rattle.ordered_lists.specs.Orders.{Lists};
ghost use Rattle.road_model.specs.Orders.{way_cmp};
ghost use Rattle.touched_ways.specs.Searches.{IsFound, IsFrontier, IsSeen, IsNext};

use crate::found::Reached;
use crate::lists::add_once;
use crate::seen::SeenNumbers;
use ordered_lists::leave_once;
use road_base::{NoMemory, NodeId, RelationId, WayId, Ways};
use road_model::laws::{name_order, number_order};
use std::alloc::Global;

/// The ways and restrictions seen, and the frontier: the nodes found in the last round, in no order, and the ways and
/// restrictions that were new in it. Nodes aren't kept: since no way or restriction is followed twice, few come again.
#[derive(Drop)]
pub struct LinkSearch {
    pub nodes: Vec<NodeId>,
    pub ways: SeenNumbers<WayId>,
    pub rules: SeenNumbers<RelationId>,
}

impl LinkSearch {
    /// Nothing was seen. Takes no memory.
    pub fn new(alloc: Global) -> LinkSearch
        ensures seen { (k : KeyValue) → IsSeen result k → ⊥ }
        ensures frontier { (k : KeyValue) → IsFrontier result k → ⊥ }
    {
        LinkSearch {
            nodes: Vec::new(alloc),
            ways: SeenNumbers::new(alloc),
            rules: SeenNumbers::new(alloc),
        }
    }

    /// Takes in what a round found.
    pub fn take_in(&mut self, found: Reached) -> Result<(), NoMemory>
        ensures { OnOk result (IsNext self.old self.new (IsFound found)) }
    {
        number_order();
        name_order();
        let Reached { nodes, ways, rules } = found;
        self.nodes = nodes;
        self.ways.take_in(ways.list)?;
        self.rules.take_in(rules)?;
        Ok(())
    }

    /// The ways seen and those given, ascending. Only the latter are to be sorted.
    pub fn ways_with(self, last: Vec<WayId>) -> Result<Ways, NoMemory>
        ensures { IfOk result
            (Lists (λ w. w) way_cmp (λ w. Contains self.ways.all.items w ⊎ Contains last.items w)) }
    {
        name_order();
        let seen = self.ways;
        let mut ways = seen.all;
        let mut new = last;
        leave_once(&mut new);
        add_once(&mut ways, new.as_slice())?;
        Ok(Ways::from_list(ways))
    }
}
