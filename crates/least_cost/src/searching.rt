//! The search by cost over contexts and arcs.
ghost use Rattle.std.specs.Prelude.{◌≡◌, ◌⊎◌, ◌<◌, ◌-◌, ◌∷◌, [], ℕ, List, IfOk, OnOk, IfSome, Some, Contains, IsTrue};
ghost use Rattle.std.specs.Prelude.{slice_get, length};
ghost use Rattle.std.specs.List.Sorted.{IsPermutation};
ghost use Rattle.graph_blocks.specs.Lent.{map_of as block_map};
ghost use Rattle.context_search.specs.declared.ends.Begin.{Begin};
ghost use Rattle.least_cost.specs.declared.visiting.CostVisit.{CostVisit};
ghost use Rattle.context_search.specs.Listed.{AreInOrder, contexts_in};
ghost use Rattle.context_search.specs.Marks.{at_of, names_behind};
ghost use Rattle.context_search.specs.Visits.{HasTargets};
ghost use Rattle.least_cost.specs.Certified.{AtMost};
ghost use Rattle.least_cost.specs.CostVisits.{IsVisiting, Widens, AreFollowed, IsFollowedBy, StandsAs};
ghost use Rattle.least_cost.specs.PlaceCosts.{places_cost};
ghost use Rattle.least_cost.specs.CostVisits.{IsMetBy, IsOver, IsBettered, IsDone, LeadsOn, Extends, AreWaiting};
ghost use Rattle.least_cost.specs.CostVisits.{IsFoundAfter, cost_in};

use crate::candidates::{Candidate, FoundEnd, cost_in, lesser};
use crate::costs::places_cost;
use crate::places::{latitudes_left, places_up_to, sum};
use crate::visiting::{CostSearch, CostVisit};
use context_search::{Goal, Origin, Spot, goal_at, put_names, spot_at};
use layered_maps::View;
use road_base::{Location, NoMemory, WayId};
use road_model::{Block, PieceName, TurnArc};
use std::alloc::Global;
use std::collections::BTreeMap;

/// Goes on until nothing is left over which a drive of less than what was found might come to the location, where the
/// goals end.
pub fn run<'a>(
    alloc: Global,
    search: &mut CostSearch<'a>,
    blocks: &View<'a, WayId, Block>,
    goals: &BTreeMap<PieceName, Goal<'a>>,
    to: Location,
    best: Option<Candidate<'a>>,
) -> Result<Option<Candidate<'a>>, NoMemory>
    requires order { AreInOrder (block_map blocks.now) }
    requires targets { HasTargets (contexts_in (block_map blocks.now)) }
    requires search { IsVisiting (contexts_in (block_map blocks.now)) search.old }
    requires waiting { AreWaiting search.old }
    ensures search { OnOk result (IsVisiting (contexts_in (block_map blocks.now)) search.new) }
    ensures extends { OnOk result (Extends search.old.visits search.new.visits) }
    ensures done { IfOk result (λ found. (k : ℕ) (v : CostVisit) → slice_get search.new.visits k ≡ Some v
        → IsDone (contexts_in (block_map blocks.now)) goals.now to (cost_in found) search.new.visits v) }
    ensures less { IfOk result (λ found. AtMost (cost_in found) (cost_in best.entry)) }
    ensures found { IfOk result (IsFoundAfter goals.now search.new.visits best.entry) }
{
    let mut found = best;
    for _ in 0..u64::MAX {
        let Some(place) = search.next() else {
            return Ok(found);
        };
        found = pass(alloc, search, blocks, goals, to, place, found)?;
    }
    Err(NoMemory)
}

/// Goes on from the visit at the place, where that may be of use.
fn pass<'a>(
    alloc: Global,
    search: &mut CostSearch<'a>,
    blocks: &View<'a, WayId, Block>,
    goals: &BTreeMap<PieceName, Goal<'a>>,
    to: Location,
    place: usize,
    best: Option<Candidate<'a>>,
) -> Result<Option<Candidate<'a>>, NoMemory>
    requires order { AreInOrder (block_map blocks.now) }
    requires targets { HasTargets (contexts_in (block_map blocks.now)) }
    requires search { IsVisiting (contexts_in (block_map blocks.now)) search.old }
    requires place { place < length search.old.visits }
    ensures search { OnOk result (IsVisiting (contexts_in (block_map blocks.now)) search.new) }
    ensures grows { OnOk result (Widens search.old search.new) }
    ensures done { IfOk result (λ found. (v : CostVisit) → slice_get search.old.visits place ≡ Some v
        → IsDone (contexts_in (block_map blocks.now)) goals.now to (cost_in found) search.new.visits v) }
    ensures less { IfOk result (λ found. AtMost (cost_in found) (cost_in best.entry)) }
    ensures found { IfOk result (IsFoundAfter goals.now search.new.visits best.entry) }
{
    let visit = search.at(place);
    if is_passed(search, place, to, cost_in(&best)) {
        return Ok(best);
    }
    go_on(alloc, search, blocks, &visit, place)?;
    let found = least_over(goals, &visit, place, best)?;
    Ok(found)
}

/// Whether there is no need to go on from the visit at the place.
fn is_passed<'a>(search: &CostSearch<'a>, place: usize, to: Location, best: Option<u128>) -> bool
    requires { place < length search.now.visits }
    ensures { (v : CostVisit) → slice_get search.now.visits place ≡ Some v → IsTrue result
        → IsOver best to v ⊎ IsBettered search.now.visits v }
{
    search.is_bettered(place) || is_over(&search.at(place), to, best)
}

/// Whether no drive of less can come to the location over the visit.
fn is_over(visit: &CostVisit<'_>, to: Location, best: Option<u128>) -> bool
    ensures { IsTrue result → IsOver best to visit.now }
{
    match best {
        Some(cost) => {
            let left = latitudes_left(visit.spot.piece.places.items(), to);
            cost <= visit.cost.saturating_add(u128::from(left))
        }
        None => false,
    }
}

/// Comes to the contexts to which the arcs from the context of the visit lead.
fn go_on<'a>(
    alloc: Global,
    search: &mut CostSearch<'a>,
    blocks: &View<'a, WayId, Block>,
    visit: &CostVisit<'a>,
    place: usize,
) -> Result<(), NoMemory>
    requires order { AreInOrder (block_map blocks.now) }
    requires targets { HasTargets (contexts_in (block_map blocks.now)) }
    requires search { IsVisiting (contexts_in (block_map blocks.now)) search.old }
    requires at { slice_get search.old.visits place ≡ Some visit.now }
    ensures search { OnOk result (IsVisiting (contexts_in (block_map blocks.now)) search.new) }
    ensures grows { OnOk result (Widens search.old search.new) }
    ensures followed { OnOk result (AreFollowed (contexts_in (block_map blocks.now)) search.new.visits
        (at_of visit.now.spot) visit.now.cost (at_of visit.now.spot).context.arcs) }
{
    for arc in visit.spot.context.arcs.items() {
        follow(alloc, search, blocks, visit, place, *arc)?;
    }
    Ok(())
}

/// Comes to the context to which the arc from the context of the visit leads.
fn follow<'a>(
    alloc: Global,
    search: &mut CostSearch<'a>,
    blocks: &View<'a, WayId, Block>,
    visit: &CostVisit<'a>,
    place: usize,
    arc: TurnArc,
) -> Result<(), NoMemory>
    requires order { AreInOrder (block_map blocks.now) }
    requires targets { HasTargets (contexts_in (block_map blocks.now)) }
    requires search { IsVisiting (contexts_in (block_map blocks.now)) search.old }
    requires listed { Contains (contexts_in (block_map blocks.now)) (at_of visit.now.spot) }
    requires has { Contains (at_of visit.now.spot).context.arcs arc }
    ensures { OnOk result (IsFollowedBy (contexts_in (block_map blocks.now)) place visit.now arc search.old
        search.new) }
{
    let mut names = Vec::new(alloc);
    let count = (arc.length as usize).saturating_sub(1);
    put_names(&mut names, &visit.spot, count)?;
    let known = search.latest_named(arc.piece, &names);
    let (spot, whole) = target(search, blocks, &visit.spot, arc, &names, known);
    let cost = sum(visit.cost, whole)?;
    search.offer(spot, cost, Origin::Follows(place), whole, known)?;
    Ok(())
}

/// The context to which the arc leads from this one, and the cost of its piece: as the visit has it that is known of
/// it, else as it is found in the blocks by its names.
fn target<'a>(
    search: &CostSearch<'a>,
    blocks: &View<'a, WayId, Block>,
    from: &Spot<'a>,
    arc: TurnArc,
    names: &[PieceName],
    known: Option<usize>,
) -> (Spot<'a>, u128)
    requires order { AreInOrder (block_map blocks.now) }
    requires targets { HasTargets (contexts_in (block_map blocks.now)) }
    requires search { IsVisiting (contexts_in (block_map blocks.now)) search.now }
    requires listed { Contains (contexts_in (block_map blocks.now)) (at_of from.now) }
    requires has { Contains (at_of from.now).context.arcs arc }
    requires names { names.now ≡ names_behind (at_of from.now) (arc.length - 1) }
    requires known { IfSome known (StandsAs search.now.visits (arc.piece, names.now)) }
    ensures listed { Contains (contexts_in (block_map blocks.now)) (at_of result.0) }
    ensures leads { LeadsOn (at_of from.now) arc (at_of result.0) }
    ensures whole { result.1 ≡ places_cost result.0.piece.now.places }
{
    match known {
        Some(place) => {
            let visit = search.at(place);
            (visit.spot, visit.whole)
        }
        None => {
            let spot = found(blocks, from, arc, names);
            (spot, places_cost(spot.piece.places.items()))
        }
    }
}

/// The context to which the arc leads from this one, found in the blocks by its names.
fn found<'a>(
    blocks: &View<'a, WayId, Block>,
    from: &Spot<'a>,
    arc: TurnArc,
    names: &[PieceName],
) -> Spot<'a>
    requires order { AreInOrder (block_map blocks.now) }
    requires targets { HasTargets (contexts_in (block_map blocks.now)) }
    requires listed { Contains (contexts_in (block_map blocks.now)) (at_of from.now) }
    requires has { Contains (at_of from.now).context.arcs arc }
    requires names { names.now ≡ names_behind (at_of from.now) (arc.length - 1) }
    ensures listed { Contains (contexts_in (block_map blocks.now)) (at_of result) }
    ensures leads { LeadsOn (at_of from.now) arc (at_of result) }
{
    match spot_at(blocks, arc.piece, names) {
        Some(spot) => spot,
        None => unreachable!(),
    }
}

/// The least of what was found and the drives by arcs from the context of the visit to a goal.
fn least_over<'a>(
    goals: &BTreeMap<PieceName, Goal<'a>>,
    visit: &CostVisit<'a>,
    place: usize,
    best: Option<Candidate<'a>>,
) -> Result<Option<Candidate<'a>>, NoMemory>
    ensures { IfOk result (λ found. (visits : List CostVisit) → slice_get visits place ≡ Some visit.now
        → IsMetBy goals.now visits visit.now.cost (at_of visit.now.spot).context.arcs best.entry found) }
{
    let mut least = best;
    for arc in visit.spot.context.arcs.items() {
        least = meet(goals, visit, place, *arc, least)?;
    }
    Ok(least)
}

/// The least of what was found and a drive by the arc to a goal, if it leads to one.
fn meet<'a>(
    goals: &BTreeMap<PieceName, Goal<'a>>,
    visit: &CostVisit<'a>,
    place: usize,
    arc: TurnArc,
    best: Option<Candidate<'a>>,
) -> Result<Option<Candidate<'a>>, NoMemory>
    requires { Contains (at_of visit.now.spot).context.arcs arc }
    ensures { IfOk result (λ found. (visits : List CostVisit) → slice_get visits place ≡ Some visit.now
        → IsMetBy goals.now visits visit.now.cost (arc ∷ []) best.entry found) }
{
    let Some(goal) = goal_at(goals, arc.piece) else {
        return Ok(best);
    };
    let places = places_up_to(goal.piece.places.items(), goal.last);
    let cost = sum(visit.cost, places_cost(places))?;
    let end = FoundEnd::Over(place, goal);
    Ok(lesser(best, Candidate { cost, end }))
}
