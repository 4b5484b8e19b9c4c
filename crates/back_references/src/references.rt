//! The ways and restrictions that name each object of a map.
ghost use Rattle.std.specs.Prelude.{◌≡◌, ◌↔◌, IfOk, Contains};
ghost use Rattle.std.specs.FinMap.{empty};
ghost use Rattle.road_base.specs.Objects.{Objects as ObjectMap, visible};
ghost use Rattle.road_base.specs.declared.ids.Key.{Key};
ghost use Rattle.road_base.specs.declared.ids.Key.TheVariants.{Node as NodeKey, Way as WayKey};
ghost use Rattle.road_base.specs.declared.ids.NodeId.{NodeId};
ghost use Rattle.road_base.specs.declared.ids.WayId.{WayId};
ghost use Rattle.road_base.specs.declared.ids.RelationId.{RelationId};
ghost use Rattle.road_model.specs.Links.{RefersTo, HasMember};
ghost use Rattle.ordered_lists.specs.Orders.{Lists};
ghost use Rattle.road_model.specs.Orders.{node_cmp, way_cmp, relation_cmp};
ghost use Rattle.layered_maps.specs.Lists.{Has};

use crate::collecting::{
    node_rules_at, node_rules_in, way_references_at, way_references_in, way_rules_at, way_rules_in,
};
use crate::exchanged_lists::exchanged;
use layered_maps::LayeredLists;
use object_store::{Base, Objects};
use road_base::laws::key_order;
use road_base::{Key, NoMemory, NodeId, RelationId, WayId};
use road_model::laws::{name_order, number_order};
use std::alloc::Global;

/// For each node the ways and the restrictions that name it, and for each way the restrictions.
#[derive(Drop)]
pub struct References {
    pub ways: LayeredLists<NodeId, WayId>,
    pub node_rules: LayeredLists<NodeId, RelationId>,
    pub way_rules: LayeredLists<WayId, RelationId>,
}

impl References {
    ghost use Rattle.back_references.specs.Indexing.{IsIndexed};

    /// Those of no objects. Takes no memory.
    pub fn new(alloc: Global) -> References
        ensures { IsIndexed empty result }
    {
        References {
            ways: LayeredLists::new(alloc),
            node_rules: LayeredLists::new(alloc),
            way_rules: LayeredLists::new(alloc),
        }
    }

    /// Those of all objects.
    pub fn of(alloc: Global, objects: &Base) -> Result<References, NoMemory>
        ensures { IfOk result (λ r. IsIndexed objects.now r) }
    {
        let ways = ways_of(alloc, objects)?;
        let node_rules = node_rules_of(alloc, objects)?;
        let way_rules = way_rules_of(alloc, objects)?;
        Ok(References {
            ways,
            node_rules,
            way_rules,
        })
    }

    /// Equal ones, which share all with these. Takes some reference counts, and lists of at most eight.
    pub fn share(&self) -> Result<References, NoMemory>
        ensures { IfOk result (λ r. r ≡ self.now) }
    {
        let ways = self.ways.share()?;
        let node_rules = self.node_rules.share()?;
        let way_rules = self.way_rules.share()?;
        Ok(References {
            ways,
            node_rules,
            way_rules,
        })
    }

    /// Those of objects after a change, where these are those of the objects before it, and the visible bodies of other
    /// keys are the same.
    pub fn exchanged(
        &mut self,
        alloc: Global,
        before: &Objects,
        after: &Objects,
        keys: &[Key],
    ) -> Result<References, NoMemory>
        requires held { IsIndexed before.now self.old }
        requires same { (k : Key) → ¬ (Contains keys.now k) → visible before.now k ≡ visible after.now k }
        ensures same { self.new ≡ self.old }
        ensures exchanged { IfOk result (λ r. IsIndexed after.now r) }
    {
        let ways = self.ways_after(alloc, before, after, keys)?;
        let node_rules = self.node_rules_after(alloc, before, after, keys)?;
        let way_rules = self.way_rules_after(alloc, before, after, keys)?;
        Ok(References {
            ways,
            node_rules,
            way_rules,
        })
    }

    /// The ways that refer to each node after the change.
    fn ways_after(
        &mut self,
        alloc: Global,
        before: &Objects,
        after: &Objects,
        keys: &[Key],
    ) -> Result<LayeredLists<NodeId, WayId>, NoMemory>
        requires held { IsIndexed before.now self.old }
        requires same { (k : Key) → ¬ (Contains keys.now k) → visible before.now k ≡ visible after.now k }
        ensures same { self.new ≡ self.old }
        ensures exactly { IfOk result (λ i. (n : NodeId) (w : WayId) → Has node_cmp i n w ↔ RefersTo after.now w n) }
    {
        key_order();
        name_order();
        number_order();
        let gone = way_references_at(alloc, before, keys)?;
        let come = way_references_at(alloc, after, keys)?;
        exchanged(alloc, &mut self.ways, gone, come)
    }

    /// The restrictions that name each node after the change.
    fn node_rules_after(
        &mut self,
        alloc: Global,
        before: &Objects,
        after: &Objects,
        keys: &[Key],
    ) -> Result<LayeredLists<NodeId, RelationId>, NoMemory>
        requires held { IsIndexed before.now self.old }
        requires same { (k : Key) → ¬ (Contains keys.now k) → visible before.now k ≡ visible after.now k }
        ensures same { self.new ≡ self.old }
        ensures exactly { IfOk result (λ i. (n : NodeId) (r : RelationId)
            → Has node_cmp i n r ↔ HasMember after.now r (NodeKey n)) }
    {
        key_order();
        name_order();
        number_order();
        let gone = node_rules_at(alloc, before, keys)?;
        let come = node_rules_at(alloc, after, keys)?;
        exchanged(alloc, &mut self.node_rules, gone, come)
    }

    /// The restrictions that name each way after the change.
    fn way_rules_after(
        &mut self,
        alloc: Global,
        before: &Objects,
        after: &Objects,
        keys: &[Key],
    ) -> Result<LayeredLists<WayId, RelationId>, NoMemory>
        requires held { IsIndexed before.now self.old }
        requires same { (k : Key) → ¬ (Contains keys.now k) → visible before.now k ≡ visible after.now k }
        ensures same { self.new ≡ self.old }
        ensures exactly { IfOk result (λ i. (w : WayId) (r : RelationId)
            → Has way_cmp i w r ↔ HasMember after.now r (WayKey w)) }
    {
        key_order();
        name_order();
        number_order();
        let gone = way_rules_at(alloc, before, keys)?;
        let come = way_rules_at(alloc, after, keys)?;
        exchanged(alloc, &mut self.way_rules, gone, come)
    }

    /// The ways that refer to the node, ascending.
    pub fn ways_at(&self, id: NodeId) -> &[WayId]
        ensures { Lists (λ w. w) way_cmp (λ w. Has node_cmp self.now.ways id w) result.now }
    {
        number_order();
        self.ways.at(id)
    }

    /// The restrictions of which the way is a member, ascending.
    pub fn rules_of_way(&self, id: WayId) -> &[RelationId]
        ensures { Lists (λ r. r) relation_cmp (λ r. Has way_cmp self.now.way_rules id r) result.now }
    {
        name_order();
        self.way_rules.at(id)
    }

    /// The restrictions of which the node is a member, ascending.
    pub fn rules_at(&self, id: NodeId) -> &[RelationId]
        ensures { Lists (λ r. r) relation_cmp (λ r. Has node_cmp self.now.node_rules id r) result.now }
    {
        number_order();
        self.node_rules.at(id)
    }
}

/// The ways that refer to each node.
fn ways_of(alloc: Global, objects: &Base) -> Result<LayeredLists<NodeId, WayId>, NoMemory>
    ensures { IfOk result (λ i. (n : NodeId) (w : WayId) → Has node_cmp i n w ↔ RefersTo objects.now w n) }
{
    key_order();
    name_order();
    number_order();
    let pairs = way_references_in(alloc, objects.ways())?;
    let lists = LayeredLists::of(alloc, pairs)?;
    Ok(lists)
}

/// The restrictions that name each node.
fn node_rules_of(
    alloc: Global,
    objects: &Base,
) -> Result<LayeredLists<NodeId, RelationId>, NoMemory>
    ensures { IfOk result (λ i. (n : NodeId) (r : RelationId)
        → Has node_cmp i n r ↔ HasMember objects.now r (NodeKey n)) }
{
    key_order();
    name_order();
    number_order();
    let pairs = node_rules_in(alloc, objects.relations())?;
    let lists = LayeredLists::of(alloc, pairs)?;
    Ok(lists)
}

/// The restrictions that name each way.
fn way_rules_of(alloc: Global, objects: &Base) -> Result<LayeredLists<WayId, RelationId>, NoMemory>
    ensures { IfOk result (λ i. (w : WayId) (r : RelationId)
        → Has way_cmp i w r ↔ HasMember objects.now r (WayKey w)) }
{
    key_order();
    name_order();
    number_order();
    let pairs = way_rules_in(alloc, objects.relations())?;
    let lists = LayeredLists::of(alloc, pairs)?;
    Ok(lists)
}
