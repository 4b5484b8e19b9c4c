//! The search over links, round by round, from all keys that aren't closed.
ghost use Rattle.std.specs.Prelude.{IfOk, OnOk};
ghost use Rattle.map_cells.specs.declared.area.Area.{Area as AreaValue};
ghost use Rattle.cell_check.specs.Searches.{AreRounds, Finds, IsBegun, IsLinkedTo, IsNext};
ghost use Rattle.cell_check.specs.Outcomes.{AreOpenStarts, IsSearchDone};

use crate::links::follow;
use crate::search::{LinkSearch, Reached};
use road_base::{Key, NoMemory};
use road_model::{LINK_RADIUS, World};
use std::alloc::Global;

/// One link less than the link radius: so far from a way each key has to be closed.
const CLOSED_RADIUS: u32 = LINK_RADIUS - 1;

/// The search that came to all that is within the closed radius of one of these keys, which are those that aren't
/// closed in some area.
pub fn reached<M: World>(alloc: Global, world: &M, starts: &[Key]) -> Result<LinkSearch, NoMemory>
    ensures { IfOk result (λ search. (area : AreaValue)
        → AreOpenStarts (M.objects world.now) area starts.now
        → IsSearchDone (M.objects world.now) area search) }
{
    let mut search = begin(alloc, starts)?;
    rounds(alloc, world, &mut search, CLOSED_RADIUS)?;
    Ok(search)
}

/// The search that has come to the keys, from themselves.
fn begin(alloc: Global, keys: &[Key]) -> Result<LinkSearch, NoMemory>
    ensures { IfOk result (IsBegun keys.now) }
{
    let mut search = LinkSearch::new(alloc);
    for key in keys {
        search.reach(*key, *key)?;
    }
    Ok(search)
}

/// Comes to what is so many links further.
fn rounds<M: World>(
    alloc: Global,
    world: &M,
    search: &mut LinkSearch,
    count: u32,
) -> Result<(), NoMemory>
    ensures { OnOk result (AreRounds (M.objects world.now) count search.old search.new) }
{
    for _round in 0..count {
        next_round(alloc, world, search)?;
    }
    Ok(())
}

/// Comes to what is one link further.
fn next_round<M: World>(alloc: Global, world: &M, search: &mut LinkSearch) -> Result<(), NoMemory>
    ensures { OnOk result (IsNext (M.objects world.now) search.old search.new) }
{
    let frontier = search.take_frontier(alloc);
    follow_all(world, frontier.as_slice(), search)
}

/// Comes to what is linked to these.
fn follow_all<M: World>(
    world: &M,
    frontier: &[Reached],
    search: &mut LinkSearch,
) -> Result<(), NoMemory>
    ensures { OnOk result (Finds search.old search.new (IsLinkedTo (M.objects world.now) frontier.now)) }
{
    for from in frontier {
        follow(world, *from, search)?;
    }
    Ok(())
}
