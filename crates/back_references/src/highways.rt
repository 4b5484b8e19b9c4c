//! The ways that may carry roads.
ghost use Rattle.std.specs.Prelude.{◌≡◌, ◌++◌, IfOk, OnOk, filter_map};
ghost use Rattle.std.specs.Option.{option_to_list};
ghost use Rattle.road_model.specs.Highways.{highway_of};

use layered_maps::Walk;
use road_base::{Body, Event, Key, NoMemory, WayId};
use road_model::has_highway;
use std::alloc::Global;

/// The ways of the entries that are visible and have the key `highway`, in the order of the entries.
pub fn highways_among(alloc: Global, entries: Walk<'_, Key, Event>) -> Result<Vec<WayId>, NoMemory>
    ensures { IfOk result (λ ways. ways.items ≡ filter_map (λ e. highway_of e.key e.body) entries.entry) }
{
    let mut ways = Vec::new(alloc);
    let mut rest = entries;
    while let Some(entry) = rest.next() {
        add_highway(entry, &mut ways)?;
    }
    Ok(ways)
}

/// Adds the way of the entry, if it is visible and has the key `highway`.
fn add_highway(entry: &Event, ways: &mut Vec<WayId>) -> Result<(), NoMemory>
    ensures { OnOk result
        (ways.new.items ≡ ways.old.items ++ option_to_list (highway_of entry.now.key entry.now.body)) }
{
    if let Some(way) = highway_of(entry) {
        ways.push(way)?;
    }
    Ok(())
}

/// The way of the entry, if it is visible and has the key `highway`.
fn highway_of(entry: &Event) -> Option<WayId>
    ensures { result ≡ highway_of entry.now.key entry.now.body }
{
    match (entry.key, &entry.body) {
        (Key::Way(way), Body::Way(body)) if has_highway(&body.tags) => Some(way),
        _ => None,
    }
}
