//! A world: an object map, with the ways and restrictions that name each object.
ghost use Rattle.std.specs.Prelude.{◌≡◌, option_copied};
ghost use Rattle.road_base.specs.Objects.{Objects, node_of, way_of, relation_of};
ghost use Rattle.road_base.specs.declared.ids.Key.TheVariants.{Node as NodeKey, Way as WayKey};
ghost use Rattle.road_model.specs.Links.{RefersTo, HasMember};
ghost use Rattle.ordered_lists.specs.Orders.{Lists};
ghost use Rattle.road_model.specs.Orders.{way_cmp, relation_cmp};

use road_base::{Node, NodeId, Relation, RelationId, Way, WayId};

/// What answers for an object map. The look-ups lend visible bodies, None exactly where there is none; the lists hold
/// each number once, ascending, whether or not the named object is visible. No call takes memory.
pub trait World {
    /// The object map for which it answers.
    ghost objects: { Self → Objects };

    /// The visible node of that number.
    fn node(&self, id: NodeId) -> Option<&Node>
        ensures { option_copied result ≡ node_of (objects self.now) id };

    /// The visible way of that number.
    fn way(&self, id: WayId) -> Option<&Way>
        ensures { option_copied result ≡ way_of (objects self.now) id };

    /// The visible relation of that number.
    fn relation(&self, id: RelationId) -> Option<&Relation>
        ensures { option_copied result ≡ relation_of (objects self.now) id };

    /// The visible ways with the key `highway` that refer to the node.
    fn ways_at(&self, id: NodeId) -> &[WayId]
        ensures { Lists (λ w. w) way_cmp (λ w. RefersTo (objects self.now) w id) result.now };

    /// The visible restrictions of which the way is a member.
    fn rules_of_way(&self, id: WayId) -> &[RelationId]
        ensures { Lists (λ r. r) relation_cmp (λ r. HasMember (objects self.now) r (WayKey id)) result.now };

    /// The visible restrictions of which the node is a member.
    fn rules_at(&self, id: NodeId) -> &[RelationId]
        ensures { Lists (λ r. r) relation_cmp (λ r. HasMember (objects self.now) r (NodeKey id)) result.now };
}
