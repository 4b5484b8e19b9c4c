//! Lists of numbers and steps, which contracts see as lists.
ghost use Rattle.std.specs.Prelude.{◌≡◌, ◌↔◌, [], IfOk, IsTrue, ◌≤◌, length};

use crate::boxed_list::BoxedList;
use crate::{Key, NoMemory, NodeId, Step, WayId};
use std::marker::Model;

/// The nodes that a way names, at most 65,535 of them.
#[derive(Drop)]
pub struct Refs {
    list: BoxedList<NodeId>,
}

impl Model for Refs {
    ghost use Rattle.std.specs.Prelude.{List, ◌≤◌, length};
    ghost use Rattle.road_base.specs.declared.ids.NodeId.{NodeId};

    ghost Value = { List NodeId };

    ghost view = { λ l. l.list };

    ghost invariant = { λ l. length l.list ≤ 65535 };
}

impl Refs {
    /// None. Takes no memory.
    pub fn new() -> Refs
        ensures { result ≡ [] }
    {
        Refs {
            list: BoxedList::new(),
        }
    }

    /// These, in this order.
    pub fn from_list(list: Vec<NodeId>) -> Result<Refs, NoMemory>
        requires { length list.items ≤ 65535 }
        ensures { IfOk result (λ r. r ≡ list.items) }
    {
        let list = BoxedList::of(list)?;
        Ok(Refs { list })
    }

    /// In the order in which the way names them.
    pub fn items(&self) -> &[NodeId]
        ensures items { result.now ≡ self.now }
        ensures short { length self.now ≤ 65535 }
    {
        self.list.items()
    }

    /// Whether the two are equal.
    pub fn same(&self, other: &Refs) -> bool
        ensures { IsTrue result ↔ (self.now ≡ other.now) }
    {
        self.list.items() == other.list.items()
    }

    /// An equal value.
    pub fn copy(&self) -> Result<Refs, NoMemory>
        ensures { IfOk result (λ l. l ≡ self.now) }
    {
        let list = self.list.copy()?;
        Ok(Refs { list })
    }
}

/// Steps in order of travel.
#[derive(Drop)]
pub struct Drive {
    list: Vec<Step>,
}

impl Model for Drive {
    ghost use Rattle.std.specs.Prelude.{List};
    ghost use Rattle.road_base.specs.declared.ids.Step.{Step};

    ghost Value = { List Step };

    ghost view = { λ l. l.list.items };
}

impl Drive {
    /// Takes no memory.
    pub fn from_list(list: Vec<Step>) -> Drive
        ensures { result ≡ list.items }
    {
        Drive { list }
    }

    /// In order of travel.
    pub fn items(&self) -> &[Step]
        ensures { result.now ≡ self.now }
    {
        self.list.as_slice()
    }

    /// An equal value.
    pub fn copy(&self) -> Result<Drive, NoMemory>
        ensures { IfOk result (λ l. l ≡ self.now) }
    {
        let list = self.list.clone()?;
        Ok(Drive { list })
    }
}

/// Keys of objects.
#[derive(Drop)]
pub struct Keys {
    list: Vec<Key>,
}

impl Model for Keys {
    ghost use Rattle.std.specs.Prelude.{List};
    ghost use Rattle.road_base.specs.declared.ids.Key.{Key};

    ghost Value = { List Key };

    ghost view = { λ l. l.list.items };
}

impl Keys {
    /// Takes no memory.
    pub fn from_list(list: Vec<Key>) -> Keys
        ensures { result ≡ list.items }
    {
        Keys { list }
    }

    /// In their stated order.
    pub fn items(&self) -> &[Key]
        ensures { result.now ≡ self.now }
    {
        self.list.as_slice()
    }

    /// An equal value.
    pub fn copy(&self) -> Result<Keys, NoMemory>
        ensures { IfOk result (λ l. l ≡ self.now) }
    {
        let list = self.list.clone()?;
        Ok(Keys { list })
    }
}

/// Numbers of ways.
#[derive(Drop)]
pub struct Ways {
    list: Vec<WayId>,
}

impl Model for Ways {
    ghost use Rattle.std.specs.Prelude.{List};
    ghost use Rattle.road_base.specs.declared.ids.WayId.{WayId};

    ghost Value = { List WayId };

    ghost view = { λ l. l.list.items };
}

impl Ways {
    /// Takes no memory.
    pub fn from_list(list: Vec<WayId>) -> Ways
        ensures { result ≡ list.items }
    {
        Ways { list }
    }

    /// In their stated order.
    pub fn items(&self) -> &[WayId]
        ensures { result.now ≡ self.now }
    {
        self.list.as_slice()
    }

    /// An equal value.
    pub fn copy(&self) -> Result<Ways, NoMemory>
        ensures { IfOk result (λ l. l ≡ self.now) }
    {
        let list = self.list.clone()?;
        Ok(Ways { list })
    }
}
