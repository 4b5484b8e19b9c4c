//! The changes of a town.
ghost use Rattle.std.specs.Prelude.{◌≡◌, ◌≤◌, IfOk, OnOk};
ghost use Rattle.sample_town.specs.Draws.{iterate};
ghost use Rattle.sample_town.specs.Lists.{drawn_event, after_event, change_from};

use crate::base::{NODES, RESTRICTIONS, WAYS_EAST};
use crate::draws::Draws;
use crate::streets::{Crossing, deletion, east_way, node};
use road_base::{Event, NoMemory};
use std::alloc::Global;

/// How many events a change has.
const EVENTS: u32 = 20;

/// How many kinds of events there are: a node moves, a way is oneway or not, a restriction goes.
const KINDS: u32 = 3;

/// The kind of an event of a node.
const OF_NODE: u32 = 0;

/// The kind of an event of a way.
const OF_WAY: u32 = 1;

/// How many answers there are to whether a way is oneway.
const ANSWERS: u32 = 2;

/// The answer that it is.
const ONEWAY: u32 = 1;

/// Draws an event of a change.
#[tactic(auto, unfolding(crate::specs::Draws::iterate, crate::specs::Lists::drawn_event, crate::specs::Lists::after_event))]
fn draw_event(alloc: Global, change: u32, draws: &mut Draws) -> Result<Event, NoMemory>
    requires { change ≤ 10 }
    ensures event { IfOk result (λ e. e ≡ drawn_event change draws.old.state) }
    ensures state { draws.new.state ≡ after_event draws.old.state }
{
    match draws.below(KINDS) {
        OF_NODE => Ok(node(change, Crossing::nth(draws.below(NODES)))),
        OF_WAY => {
            let place = draws.below(WAYS_EAST);
            let oneway = draws.below(ANSWERS) == ONEWAY;
            east_way(alloc, change, Crossing::nth_way_east(place), oneway)
        }
        _ => Ok(deletion(change, 1 + draws.below(RESTRICTIONS))),
    }
}

/// The events of a change.
pub fn change_events(alloc: Global, change: u32, draws: &mut Draws) -> Result<Vec<Event>, NoMemory>
    requires { change ≤ 10 }
    ensures items { IfOk result (λ list. list.items ≡ change_from change draws.old.state) }
    ensures state { OnOk result (draws.new.state ≡ iterate after_event 20 draws.old.state) }
{
    let mut list = Vec::with_capacity(alloc, EVENTS as usize)?;
    for _ in 0..EVENTS {
        list.push(draw_event(alloc, change, draws)?)?;
    }
    Ok(list)
}
