//! The objects of a map, listed once.
ghost use Rattle.std.specs.Prelude.{◌≡◌, IfOk, map, filter};
ghost use Rattle.std.specs.FinMap.{empty, entries};
ghost use Rattle.road_base.specs.Applying.{IsApplied};
ghost use Rattle.road_base.specs.Objects.{Objects as ObjectMap};

use crate::kinds::{relations_in, ways_in};
use crate::standing::{copies, settle};
use road_base::laws::key_order;
use road_base::{Event, NoMemory};
use std::marker::Model;

/// An object map, listed in key order: to each key that was named its version, and its visible body or a deletion. It
/// never changes.
#[derive(Drop)]
pub struct Base {
    list: Vec<Event>,
}

impl Model for Base {
    ghost use Rattle.road_base.specs.Objects.{Objects as ObjectMap};
    ghost use Rattle.object_store.specs.Codes.{coded_objects};

    ghost Value = { ObjectMap };

    ghost coded = { coded_objects };

    ghost use Rattle.object_store.specs.Listed.{objects_of, IsInOrder};

    ghost view = { λ o. objects_of o.list.items };

    ghost invariant = { λ o. IsInOrder o.list.items };
}

impl Base {
    ghost use Rattle.object_store.specs.Listed.{pair_of, objects_of, is_way, is_relation, IsInOrder, AreEntriesOf};

    /// What the events leave of no objects. They are moved, not copied.
    pub fn of(events: Vec<Event>) -> Result<Base, NoMemory>
        ensures { IfOk result (λ o. IsApplied empty events.items o) }
    {
        let mut list = events;
        settle(&mut list)?;
        Ok(Base { list })
    }

    /// The objects of a list in key order.
    pub(crate) fn in_order(list: Vec<Event>) -> Base
        requires { IsInOrder list.items }
        ensures { result ≡ objects_of list.items }
    {
        Base { list }
    }

    /// All entries as events, in key order.
    pub fn items(&self) -> &[Event]
        ensures entries { entries self.now ≡ map pair_of result.now }
        ensures in_order { IsInOrder result.now }
    {
        key_order();
        self.list.as_slice()
    }

    /// All entries as events, in key order. They are moved, not copied.
    pub(crate) fn into_items(self) -> Vec<Event>
        ensures objects { objects_of result.items ≡ self }
        ensures in_order { IsInOrder result.items }
    {
        self.list
    }

    /// The entries of ways alone as events, in key order.
    pub fn ways(&self) -> &[Event]
        ensures entries { map pair_of result.now ≡ filter (λ p. is_way p.0) (entries self.now) }
        ensures exactly { AreEntriesOf is_way self.now result.now }
        ensures in_order { IsInOrder result.now }
    {
        key_order();
        ways_in(self.list.as_slice())
    }

    /// The entries of relations alone as events, in key order.
    pub fn relations(&self) -> &[Event]
        ensures entries { map pair_of result.now ≡ filter (λ p. is_relation p.0) (entries self.now) }
        ensures exactly { AreEntriesOf is_relation self.now result.now }
        ensures in_order { IsInOrder result.now }
    {
        key_order();
        relations_in(self.list.as_slice())
    }

    /// Copies of all entries as events, in key order.
    pub fn events(&self) -> Result<Vec<Event>, NoMemory>
        ensures { IfOk result (λ v. map pair_of v.items ≡ entries self.now) }
    {
        key_order();
        let list = copies(*self.list.allocator(), self.list.as_slice())?;
        Ok(list)
    }
}
