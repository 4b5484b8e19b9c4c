//! The base of a town.
ghost use Rattle.std.specs.Prelude.{◌≡◌, ◌+◌, ◌*◌, ◌/◌, ◌%◌, ◌<◌, ◌++◌, IfOk, OnOk};
ghost use Rattle.sample_town.specs.Draws.{after_draws, listed};
ghost use Rattle.sample_town.specs.Streets.{north_way};
ghost use Rattle.sample_town.specs.Lists.{base, base_node, base_east_way, drawn_oneway, drawn_restriction};

use crate::draws::Draws;
use crate::streets::{COLUMNS, Crossing, EAST_WAYS, ROWS, east_way, node, north_way, restriction};
use road_base::{Event, NoMemory};
use std::alloc::Global;

/// How many nodes a town has.
pub const NODES: u32 = ROWS * COLUMNS;

/// How many ways to the east it has.
pub const WAYS_EAST: u32 = ROWS * EAST_WAYS;

/// How many ways to the north it has.
const WAYS_NORTH: u32 = (ROWS - 1) * COLUMNS;

/// How many restrictions it has.
pub const RESTRICTIONS: u32 = 600;

/// How many events the base has.
const EVENTS: u32 = NODES + WAYS_EAST + WAYS_NORTH + RESTRICTIONS;

/// The base, among the numbers of changes.
const BASE: u32 = 0;

/// One way in so many is oneway.
const WAYS_A_ONEWAY: u32 = 8;

/// In how many columns a restriction may begin.
const FIRST_COLUMNS: u32 = COLUMNS - 3;

/// How many kinds of restrictions there are.
const KINDS: u32 = 4;

fn add_nodes(list: &mut Vec<Event>) -> Result<(), NoMemory>
    ensures { OnOk result (list.new.items ≡ list.old.items ++ listed base_node 3600) }
{
    for place in 0..NODES {
        list.push(node(BASE, Crossing::nth(place)))?;
    }
    Ok(())
}

/// Draws whether a way is oneway.
#[tactic(auto, unfolding(crate::specs::Draws::iterate))]
fn draw_oneway(draws: &mut Draws) -> bool
    ensures value { result ≡ drawn_oneway draws.old.state }
    ensures state { draws.new.state ≡ after_draws 1 draws.old.state }
{
    draws.below(WAYS_A_ONEWAY) == 0
}

fn add_ways_east(alloc: Global, list: &mut Vec<Event>, draws: &mut Draws) -> Result<(), NoMemory>
    ensures items { OnOk result
        (list.new.items ≡ list.old.items ++ listed (base_east_way draws.old.state) 3540) }
    ensures state { OnOk result (draws.new.state ≡ after_draws 3540 draws.old.state) }
{
    for place in 0..WAYS_EAST {
        let oneway = draw_oneway(draws);
        list.push(east_way(alloc, BASE, Crossing::nth_way_east(place), oneway)?)?;
    }
    Ok(())
}

fn add_ways_north(alloc: Global, list: &mut Vec<Event>, draws: &mut Draws) -> Result<(), NoMemory>
    ensures items { OnOk result (list.new.items ≡ list.old.items
        ++ listed (λ i. north_way 0 (i / 60) (i % 60) (drawn_oneway (after_draws i draws.old.state))) 3540) }
    ensures state { OnOk result (draws.new.state ≡ after_draws 3540 draws.old.state) }
{
    for place in 0..WAYS_NORTH {
        let oneway = draw_oneway(draws);
        list.push(north_way(alloc, BASE, Crossing::nth(place), oneway)?)?;
    }
    Ok(())
}

/// Draws the column in which a restriction begins, its row and its kind.
#[tactic(auto, unfolding(crate::specs::Draws::iterate, crate::specs::Lists::drawn_restriction))]
fn draw_restriction(alloc: Global, number: u32, draws: &mut Draws) -> Result<Event, NoMemory>
    ensures event { IfOk result (λ e. e ≡ drawn_restriction number draws.old.state) }
    ensures state { draws.new.state ≡ after_draws 3 draws.old.state }
{
    let column = draws.below(FIRST_COLUMNS);
    let row = draws.below(ROWS);
    let kind = draws.below(KINDS);
    restriction(alloc, number, Crossing { row, column }, kind)
}

fn add_restrictions(alloc: Global, list: &mut Vec<Event>, draws: &mut Draws) -> Result<(), NoMemory>
    ensures items { OnOk result (list.new.items ≡ list.old.items
        ++ listed (λ i. drawn_restriction (1 + i) (after_draws (3 * i) draws.old.state)) 600) }
    ensures state { OnOk result (draws.new.state ≡ after_draws 1800 draws.old.state) }
{
    for place in 0..RESTRICTIONS {
        list.push(draw_restriction(alloc, 1 + place, draws)?)?;
    }
    Ok(())
}

/// The base of the town with the number at which the generator stands.
pub fn base_events(alloc: Global, draws: &mut Draws) -> Result<Vec<Event>, NoMemory>
    ensures items { IfOk result (λ list. list.items ≡ base draws.old.state) }
    ensures state { OnOk result (draws.new.state ≡ after_draws 8880 draws.old.state) }
{
    let mut list = Vec::with_capacity(alloc, EVENTS as usize)?;
    add_nodes(&mut list)?;
    add_ways_east(alloc, &mut list, draws)?;
    add_ways_north(alloc, &mut list, draws)?;
    add_restrictions(alloc, &mut list, draws)?;
    Ok(list)
}
