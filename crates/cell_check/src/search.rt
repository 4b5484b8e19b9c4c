//! What a search over links keeps.
ghost use Rattle.std.specs.Prelude.{◌≡◌, [], OnOk};
ghost use Rattle.std.specs.BTreeMap.{get};
ghost use Rattle.road_base.specs.Objects.{key_cmp};
ghost use Rattle.road_base.specs.declared.ids.Key.{Key as KeyValue};
ghost use Rattle.cell_check.specs.Searches.{Finds, IsAt, IsNew, IsOne};

use road_base::laws::key_order;
use road_base::{Key, NoMemory};
use std::alloc::Global;
use std::collections::BTreeMap;
use std::mem::replace;

/// A key to which a search came, and the one where it began.
#[derive(Clone, Copy)]
pub struct Reached {
    pub key: Key,
    pub start: Key,
}

/// Each key to which a search came, with the one where it began, and the frontier: what was new in the last round.
#[derive(Drop)]
pub struct LinkSearch {
    pub starts: BTreeMap<Key, Key>,
    pub frontier: Vec<Reached>,
}

impl LinkSearch {
    /// The search came to nothing. Takes no memory.
    pub fn new(alloc: Global) -> LinkSearch
        ensures starts { (k v : KeyValue) → IsAt result k v → ⊥ }
        ensures frontier { result.frontier.items ≡ [] }
    {
        LinkSearch {
            starts: BTreeMap::new(alloc),
            frontier: Vec::new(alloc),
        }
    }

    /// Where the search began that came to the key.
    pub fn start_of(&self, key: Key) -> Option<Key>
        ensures { result ≡ get key_cmp self.now.starts key }
    {
        key_order();
        self.starts.get(&key).copied()
    }

    /// The search came to the key from the start, unless it had come to it before.
    pub fn reach(&mut self, key: Key, start: Key) -> Result<(), NoMemory>
        ensures { OnOk result (Finds self.old self.new (IsOne key start)) }
    {
        key_order();
        if self.start_of(key).is_some() {
            return Ok(());
        }
        self.starts.insert(key, start)?;
        self.frontier.push(Reached { key, start })?;
        Ok(())
    }

    /// Takes the frontier, which is empty then. Takes no memory.
    pub fn take_frontier(&mut self, alloc: Global) -> Vec<Reached>
        ensures starts { self.new.starts ≡ self.old.starts }
        ensures taken { result.items ≡ self.old.frontier.items }
        ensures frontier { self.new.frontier.items ≡ [] }
    {
        replace(&mut self.frontier, Vec::new(alloc))
    }
}
