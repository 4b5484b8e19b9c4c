//! Where a search by cost begins: on the pieces that leave the one node.
ghost use Rattle.std.specs.Prelude.{◌≡◌, [], IfOk, OnOk, Contains};
ghost use Rattle.std.specs.FinMap.{get};
ghost use Rattle.graph_blocks.specs.Lent.{map_of as block_map};
ghost use Rattle.context_search.specs.declared.ends.Begin.{Begin};
ghost use Rattle.context_search.specs.Listed.{AreInOrder, contexts_in};
ghost use Rattle.context_search.specs.Marks.{At, key_of};
ghost use Rattle.least_cost.specs.CostVisits.{IsVisiting, HaveOrigins, AreWaiting, AreBegun, AreWithin};
ghost use Rattle.least_cost.specs.CostVisits.{IsFoundBy, IsBegunBy, IsWithinBy, cost_in};

use crate::candidates::{Candidate, FoundEnd, lesser};
use crate::costs::places_cost;
use crate::places::{places_from, places_up_to};
use crate::visiting::CostSearch;
use context_search::{Begin, Goal, Origin, goal_at, spot_at};
use layered_maps::View;
use road_base::{NoMemory, WayId};
use road_model::{Block, PieceName};
use std::collections::BTreeMap;

/// Comes to the contexts of the pieces on which a drive may begin.
pub fn begin<'a>(
    search: &mut CostSearch<'a>,
    blocks: &View<'a, WayId, Block>,
    starts: &[Begin<'a>],
) -> Result<(), NoMemory>
    requires order { AreInOrder (block_map blocks.now) }
    requires listed { (s : Begin) → Contains starts.now s
        → (x : At) × Contains (contexts_in (block_map blocks.now)) x × (key_of x ≡ (s.piece.now.name, [])) }
    requires visits { search.old.visits ≡ [] }
    requires waiting { search.old.waiting ≡ [] }
    ensures search { OnOk result (IsVisiting (contexts_in (block_map blocks.now)) search.new) }
    ensures origins { OnOk result (HaveOrigins starts.now search.new.visits) }
    ensures begun { OnOk result (AreBegun (contexts_in (block_map blocks.now)) starts.now search.new.visits) }
    ensures waiting { OnOk result (AreWaiting search.new) }
{
    for start in starts {
        begin_on(search, blocks, start)?;
    }
    Ok(())
}

/// Comes to the context of the piece alone, over what is left of the piece.
fn begin_on<'a>(
    search: &mut CostSearch<'a>,
    blocks: &View<'a, WayId, Block>,
    start: &Begin<'a>,
) -> Result<(), NoMemory>
    requires order { AreInOrder (block_map blocks.now) }
    requires listed { (x : At) × Contains (contexts_in (block_map blocks.now)) x
        × (key_of x ≡ (start.now.piece.now.name, [])) }
    ensures { OnOk result (IsBegunBy (contexts_in (block_map blocks.now)) start.now search.old search.new) }
{
    let Some(spot) = spot_at(blocks, start.piece.name, &[]) else {
        unreachable!()
    };
    let left = places_cost(places_from(spot.piece.places.items(), start.first));
    let whole = places_cost(spot.piece.places.items());
    let known = search.latest_named(start.piece.name, &[]);
    search.offer(spot, left, Origin::Begins(start.first), whole, known)?;
    Ok(())
}

/// The least drive within one piece, from one of the starts to a goal.
pub fn least_within<'a>(
    starts: &[Begin<'a>],
    goals: &BTreeMap<PieceName, Goal<'a>>,
) -> Option<Candidate<'a>>
    ensures within { AreWithin starts.now goals.now (cost_in result) }
    ensures found { IsFoundBy starts.now goals.now [] result }
{
    let mut best = None;
    for start in starts {
        best = within_piece(goals, start, best);
    }
    best
}

/// The least of what was found and a drive within the piece, if its start comes before a goal.
fn within_piece<'a>(
    goals: &BTreeMap<PieceName, Goal<'a>>,
    start: &Begin<'a>,
    best: Option<Candidate<'a>>,
) -> Option<Candidate<'a>>
    ensures { IsWithinBy goals.now start.now best.entry result }
{
    let Some(goal) = goal_at(goals, start.piece.name) else {
        return best;
    };
    if start.first > goal.last {
        return best;
    }
    let places = places_up_to(start.piece.places.items(), goal.last);
    let cost = places_cost(places_from(places, start.first));
    let end = FoundEnd::Within(*start, goal);
    lesser(best, Candidate { cost, end })
}
