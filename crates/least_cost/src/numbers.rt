//! The numbers that a search by cost leaves at the contexts.
ghost use Rattle.std.specs.Prelude.{◌≡◌, ◌∷◌, List, length, map, IfOk, IsTrue, Contains};
ghost use Rattle.ordered_lists.specs.Orders.{rises};
ghost use Rattle.context_search.specs.Marks.{at_of, key_of, key_cmp};
ghost use Rattle.least_cost.specs.declared.visiting.CostVisit.{CostVisit};
ghost use Rattle.least_cost.specs.LastPieces.{last_piece};
ghost use Rattle.least_cost.specs.Latitudes.{latitudes_left};
ghost use Rattle.least_cost.specs.Lowered.{least_at, less_left, lesser_of, number_left};

use crate::context_finder::ContextFinder;
use crate::places::latitudes_left;
use crate::visiting::CostVisit;
use context_search::Spot;
use road_base::{Location, NoMemory};
use std::alloc::Global;

/// The lesser of two, where none is greater than every number.
fn lesser_of(a: Option<u128>, b: Option<u128>) -> Option<u128>
    ensures { result ≡ lesser_of a b }
{
    match (a, b) {
        (None, b) => b,
        (Some(a), None) => Some(a),
        (Some(a), Some(b)) => Some(a.min(b)),
    }
}

/// The number that the search leaves at each of the contexts, which are all, in their order: over the visits, where
/// it found a drive of the cost to the location. Takes one pass over the contexts, and for each visit a few steps where
/// the numbers of ways are spread evenly, at most the time of a search among the contexts.
pub fn numbers(
    alloc: Global,
    spots: &[Spot<'_>],
    visits: &[CostVisit<'_>],
    best: Option<u128>,
    to: Location,
) -> Result<Vec<Option<u128>>, NoMemory>
    requires up { IsTrue (rises key_cmp (map key_of (map at_of spots.now))) }
    requires listed { (v : CostVisit) → Contains visits.now v → Contains (map at_of spots.now) (at_of v.spot) }
    ensures { IfOk result (λ l. l.items ≡ map (number_left visits.now best to) (map at_of spots.now)) }
{
    let costs = least_costs(alloc, spots, visits)?;
    let mut numbers = Vec::with_capacity(alloc, spots.len())?;
    for place in 0..spots.len() {
        numbers.push(lowered(&spots[place], costs[place], best, to))?;
    }
    Ok(numbers)
}

/// The number at the context that was come to over that cost, or wasn't.
fn lowered(spot: &Spot<'_>, cost: Option<u128>, best: Option<u128>, to: Location) -> Option<u128>
    ensures { result ≡ lesser_of cost (less_left best (latitudes_left spot.now.piece.now.places to)) }
{
    let left = u128::from(latitudes_left(spot.piece.places.items(), to));
    match best {
        Some(best) => lesser_of(cost, Some(best.saturating_sub(left))),
        None => lesser_of(cost, None),
    }
}

/// The least cost over which each of the contexts was come to.
fn least_costs(
    alloc: Global,
    spots: &[Spot<'_>],
    visits: &[CostVisit<'_>],
) -> Result<Vec<Option<u128>>, NoMemory>
    requires up { IsTrue (rises key_cmp (map key_of (map at_of spots.now))) }
    requires listed { (v : CostVisit) → Contains visits.now v → Contains (map at_of spots.now) (at_of v.spot) }
    ensures { IfOk result (λ l. l.items ≡ map (least_at visits.now) (map at_of spots.now)) }
{
    let finder = ContextFinder::of(alloc, spots)?;
    let mut costs = Vec::from_elem(alloc, None, spots.len())?;
    for place in (0..visits.len()).rev() {
        lower(&mut costs, spots, &finder, &visits[place]);
    }
    Ok(costs)
}

/// Lowers the cost of the context of the visit to its own, if that is less.
fn lower(
    costs: &mut Vec<Option<u128>>,
    spots: &[Spot<'_>],
    finder: &ContextFinder,
    visit: &CostVisit<'_>,
)
    requires of { finder.now ≡ map last_piece (map at_of spots.now) }
    requires up { IsTrue (rises key_cmp (map key_of (map at_of spots.now))) }
    requires listed { Contains (map at_of spots.now) (at_of visit.now.spot) }
    requires count { length costs.old.items ≡ length spots.now }
    ensures count { length costs.new.items ≡ length spots.now }
    ensures lowered { (visits : List CostVisit) → costs.old.items ≡ map (least_at visits) (map at_of spots.now)
        → costs.new.items ≡ map (least_at (visit.now ∷ visits)) (map at_of spots.now) }
{
    let names = visit.spot.context.before.items();
    let Some(number) = finder.find(spots, visit.spot.piece.name, names) else {
        unreachable!()
    };
    costs[number] = lesser_of(Some(visit.cost), costs[number]);
}
