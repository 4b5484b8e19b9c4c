//! The keys whose visible body events change.
ghost use Rattle.std.specs.Prelude.{◌≡◌, ◌↔◌, ◌++◌, [], ◌∷◌, IfOk, IsTrue, option_copied};
ghost use Rattle.std.specs.Option.{option_map};
ghost use Rattle.road_base.specs.Applying.{IsApplied, entry_of};
ghost use Rattle.road_base.specs.Objects.{Objects as ObjectMap};
ghost use Rattle.road_model.specs.Links.{AreChanged};
ghost use Rattle.object_store.specs.Listed.{IsInOrder};
ghost use Rattle.object_store.specs.Changes.{Alters};

use crate::objects::Objects;
use road_base::laws::key_order;
use road_base::{Body, Event, Keys, NoMemory};
use std::alloc::Global;

/// The keys whose visible body the events change, ascending. The events are in key order.
pub fn changed_keys(alloc: Global, before: &Objects, events: &[Event]) -> Result<Keys, NoMemory>
    requires { IsInOrder events.now }
    ensures { IfOk result (λ keys. (N : ObjectMap)
        → IsApplied before.now events.now N
        → AreChanged before.now N keys) }
{
    key_order();
    let mut list = Vec::new(alloc);
    for event in events {
        if alters(before.get(event.key), event) {
            list.push(event.key)?;
        }
    }
    Ok(Keys::from_list(list))
}

/// Whether an event changes the visible body of its key.
fn alters(old: Option<&Event>, event: &Event) -> bool
    ensures { IsTrue result ↔ Alters (option_map entry_of (option_copied old.entry)) (entry_of event.now) }
{
    match old {
        Some(old) => old.version < event.version && !old.body.same(&event.body),
        None => !matches!(event.body, Body::Deleted),
    }
}
