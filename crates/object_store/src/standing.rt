//! Of many events those that stand: of each key the first one of the greatest version.
ghost use Rattle.std.specs.Prelude.{◌≡◌, IfOk, OnOk, OnErr};
ghost use Rattle.std.specs.FinMap.{empty};
ghost use Rattle.road_base.specs.Applying.{IsApplied};
ghost use Rattle.object_store.specs.Listed.{IsInOrder, objects_of};

use road_base::laws::key_order;
use road_base::{Event, NoMemory};
use std::alloc::Global;
use std::cmp::Reverse;

/// Leaves the events that stand, in key order. Where no memory is found all stay as they are.
pub fn settle(events: &mut Vec<Event>) -> Result<(), NoMemory>
    ensures applied { OnOk result (IsApplied empty events.old.items (objects_of events.new.items)) }
    ensures in_order { OnOk result (IsInOrder events.new.items) }
    ensures err { OnErr result (events.new.items ≡ events.old.items) }
{
    key_order();
    events.sort_by_key(|event| (event.key, Reverse(event.version)))?;
    events.dedup_by_key(|event| event.key);
    Ok(())
}

/// Copies of the events that stand, in key order.
pub fn standing(alloc: Global, events: &[Event]) -> Result<Vec<Event>, NoMemory>
    ensures applied { IfOk result (λ v. IsApplied empty events.now (objects_of v.items)) }
    ensures in_order { IfOk result (λ v. IsInOrder v.items) }
{
    let mut list = copies(alloc, events)?;
    settle(&mut list)?;
    Ok(list)
}

/// Copies of the events, in their order.
pub fn copies(alloc: Global, events: &[Event]) -> Result<Vec<Event>, NoMemory>
    ensures { IfOk result (λ v. v.items ≡ events.now) }
{
    let mut list = Vec::with_capacity(alloc, events.len())?;
    for event in events {
        list.push(event.copy()?)?;
    }
    Ok(list)
}
