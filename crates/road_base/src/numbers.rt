//! What keys and events tell to those who keep them in order: kinds and numbers, and an event its key.
ghost use Rattle.std.specs.Prelude.{◌≡◌, IfOk};
ghost use Rattle.road_base.specs.Numbers.{key_number, key_tied, node_tied, way_tied};

use crate::{Event, Key, NoMemory, NodeId, WayId};
use ordered_lists::{Keyed, Kinded, Numbered, Slotted};
use std::alloc::AllocError;

impl Numbered for NodeId {
    fn number(&self) -> i64 {
        self.0
    }
}

impl Numbered for WayId {
    fn number(&self) -> i64 {
        self.0
    }
}

impl Numbered for Event {
    /// That of its node, way or relation.
    fn number(&self) -> i64 {
        match self.key {
            Key::Node(id) => id.0,
            Key::Way(id) => id.0,
            Key::Relation(id) => id.0,
        }
    }
}

impl Numbered for Key {
    /// That of the node, way or relation.
    fn number(&self) -> i64 {
        match self {
            Key::Node(id) => id.0,
            Key::Way(id) => id.0,
            Key::Relation(id) => id.0,
        }
    }
}

impl Kinded for Key {
    /// Nodes stand before ways, and these before relations.
    fn kind(&self) -> u8 {
        match self {
            Key::Node(_) => 0,
            Key::Way(_) => 1,
            Key::Relation(_) => 2,
        }
    }
}

impl Kinded for WayId {
    fn kind(&self) -> u8 {
        0
    }
}

impl Kinded for Event {
    /// That of its key.
    fn kind(&self) -> u8 {
        self.key.kind()
    }
}

impl Slotted for Key {
    ghost number = { key_number };

    /// The number of the node, way or relation.
    fn number(&self) -> i64 {
        match self {
            Key::Node(id) => id.0,
            Key::Way(id) => id.0,
            Key::Relation(id) => id.0,
        }
    }

    ghost tied = { key_tied };
}

impl Slotted for NodeId {
    ghost number = { λ n. n.0 };

    fn number(&self) -> i64 {
        self.0
    }

    ghost tied = { node_tied };
}

impl Slotted for WayId {
    ghost number = { λ w. w.0 };

    fn number(&self) -> i64 {
        self.0
    }

    ghost tied = { way_tied };
}

impl Keyed<Key> for Event {
    ghost key = { λ e. e.key };

    fn key(&self) -> Key {
        self.key
    }

    fn duplicate(&self) -> Result<Event, AllocError> {
        match self.copy() {
            Ok(event) => Ok(event),
            Err(NoMemory) => Err(AllocError),
        }
    }
}
