//! The world that a change would leave.
ghost use Rattle.std.specs.Prelude.{◌≡◌};

use crate::indexed::Indexed;
use crate::prepared::Prepared;
use road_base::{Node, NodeId, Relation, RelationId, Way, WayId};
use road_model::World;
use std::marker::Model;

/// The objects that a change would leave, while they stand as they are.
#[derive(Drop)]
pub struct Next<'a> {
    after: &'a Indexed,
}

impl<'a> Model for Next<'a> {
    ghost use Rattle.road_base.specs.Objects.{Objects as ObjectMap};
    ghost use Rattle.object_store.specs.Codes.{coded_objects};

    ghost Value = { ObjectMap };

    ghost coded = { coded_objects };

    ghost view = { λ n. n.after.now };
}

impl<'a> Next<'a> {
    /// The objects that `commit` would leave. Takes no memory.
    pub fn of(now: &'a Indexed, prepared: &'a Prepared) -> Next<'a>
        requires { prepared.now.before ≡ now.now }
        ensures { result ≡ prepared.now.after }
    {
        let _ = now;
        Next {
            after: prepared.next(),
        }
    }
}

impl<'a> World for Next<'a> {
    ghost objects = { λ n. n };

    fn node(&self, id: NodeId) -> Option<&Node> {
        self.after.node(id)
    }

    fn way(&self, id: WayId) -> Option<&Way> {
        self.after.way(id)
    }

    fn relation(&self, id: RelationId) -> Option<&Relation> {
        self.after.relation(id)
    }

    fn ways_at(&self, id: NodeId) -> &[WayId] {
        self.after.ways_at(id)
    }

    fn rules_of_way(&self, id: WayId) -> &[RelationId] {
        self.after.rules_of_way(id)
    }

    fn rules_at(&self, id: NodeId) -> &[RelationId] {
        self.after.rules_at(id)
    }
}
