//! What changes at a key.
ghost use Rattle.std.specs.Prelude.{◌≡◌, IfOk};
ghost use Rattle.layered_maps.specs.Layers.{pair};

use crate::entry_run::Entry;
use ordered_lists::{Keyed, Slotted};
use std::alloc::{AllocError, Global};
use std::rc::Rc;

/// A change of a map: a value that comes to stand at its key, or a key that has none from then on.
#[derive(Drop)]
pub enum Change<K, V> {
    Put(V),
    Gone(K),
}

impl<K: Ord + Copy + Slotted, V: Keyed<K>> Change<K, V> {
    ghost use Rattle.layered_maps.specs.Maps.{change_pair};

    /// The key.
    pub fn key(&self) -> K
        ensures { result ≡ (change_pair V.key self.now).0 }
    {
        match self {
            Change::Put(value) => value.key(),
            Change::Gone(key) => *key,
        }
    }

    /// The change as an entry.
    pub fn into_entry(self, alloc: Global) -> Result<Entry<K, Option<V>>, AllocError>
        ensures { IfOk result (λ e. pair e ≡ change_pair V.key self) }
    {
        let key = self.key();
        let value = match self {
            Change::Put(value) => Some(value),
            Change::Gone(_) => None,
        };
        let value = Rc::new(alloc, value)?;
        Ok(Entry { key, value })
    }
}
