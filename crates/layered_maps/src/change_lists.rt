//! Changes, each at its key, as entries.
ghost use Rattle.std.specs.Prelude.{◌≡◌, IfOk, map};
ghost use Rattle.layered_maps.specs.Layers.{pair};
ghost use Rattle.layered_maps.specs.Maps.{change_pair};

use crate::change::Change;
use crate::entry_run::Entry;
use crate::layers::Layers;
use ordered_lists::{Keyed, Slotted};
use std::alloc::{AllocError, Global};

/// The changes as entries, in their order. They are moved, not copied.
pub fn entries_of<K: Ord + Copy + Slotted, V: Keyed<K>>(
    alloc: Global,
    changes: Vec<Change<K, V>>,
) -> Result<Vec<Entry<K, Option<V>>>, AllocError>
    ensures { IfOk result (λ l. map pair l.items ≡ map (change_pair V.key) changes.items) }
{
    let mut entries = Vec::with_capacity(alloc, changes.len())?;
    for change in changes {
        entries.push(change.into_entry(alloc)?)?;
    }
    Ok(entries)
}

/// Marks the keys of the changes in the filter of these layers, so that it needn't be copied for what the changes
/// leave. The layers stay the same.
pub fn mark_keys<K: Ord + Copy + Slotted, V: Keyed<K>>(
    alloc: Global,
    changes: &[Change<K, V>],
    layers: &mut Layers<K, Option<V>>,
) -> Result<(), AllocError>
    ensures { layers.new ≡ layers.old }
{
    layers.clean(alloc)?;
    for change in changes {
        layers.mark(alloc, change.key())?;
    }
    Ok(())
}
