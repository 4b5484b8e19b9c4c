//! What restrictions name: keys that have to be closed where a way passes.
ghost use Rattle.std.specs.Prelude.{◌≡◌, ◌++◌, IfOk, OnOk, Contains, map};
ghost use Rattle.std.specs.List.{flat_map};
ghost use Rattle.road_base.specs.declared.ids.Key.{Key as KeyValue};
ghost use Rattle.cell_check.specs.Candidates.{named_by_restriction};

use layered_maps::Walk;
use ordered_lists::leave_once;
use road_base::laws::key_order;
use road_base::{Body, Event, Key, Member, NoMemory};
use road_model::is_restriction;
use std::alloc::Global;

/// The visible restrictions of the entries, and what they name, each once.
pub fn rules_and_members(alloc: Global, entries: Walk<'_, Key, Event>) -> Result<Vec<Key>, NoMemory>
    ensures { IfOk result (λ keys. (k : KeyValue)
        → Contains (flat_map named_by_restriction entries.entry) k → Contains keys.items k) }
{
    key_order();
    let mut keys = named_among(alloc, entries)?;
    leave_once(&mut keys);
    Ok(keys)
}

/// The visible restrictions of the entries, each with what it names.
fn named_among(alloc: Global, entries: Walk<'_, Key, Event>) -> Result<Vec<Key>, NoMemory>
    ensures { IfOk result (λ keys. keys.items ≡ flat_map named_by_restriction entries.entry) }
{
    let mut keys = Vec::new(alloc);
    let mut rest = entries;
    while let Some(entry) = rest.next() {
        add_named(entry, &mut keys)?;
    }
    Ok(keys)
}

/// Adds the entry's visible restriction, with what it names.
fn add_named(entry: &Event, keys: &mut Vec<Key>) -> Result<(), NoMemory>
    ensures { OnOk result (keys.new.items ≡ keys.old.items ++ named_by_restriction entry.now) }
{
    match (entry.key, &entry.body) {
        (Key::Relation(_), Body::Relation(body)) if is_restriction(&body.tags) => {
            keys.push(entry.key)?;
            add_members(body.members.items(), keys)
        }
        _ => Ok(()),
    }
}

fn add_members(members: &[Member], keys: &mut Vec<Key>) -> Result<(), NoMemory>
    ensures { OnOk result (keys.new.items ≡ keys.old.items ++ map (λ m. m.item) members.now) }
{
    for member in members {
        keys.push(member.item)?;
    }
    Ok(())
}
