//! What numbers at the contexts of a graph have to be so that they show a cost.
ghost use Rattle.std.specs.Prelude.{◌≡◌, ◌+◌, ◌-◌, ◌<◌, [], length, map, IfOk, Some, IsTrue, IsFalse, Contains};
ghost use Rattle.std.specs.Prelude.{slice_get, take, drop, ℕ};
ghost use Rattle.ordered_lists.specs.Orders.{rises};
ghost use Rattle.road_model.specs.declared.lists.Place.{Place};
ghost use Rattle.road_model.specs.declared.lists.TurnArc.{TurnArc};
ghost use Rattle.context_search.specs.Ends.{BeginsBy, StopsBy};
ghost use Rattle.context_search.specs.Marks.{At, at_of, key_of, key_cmp};
ghost use Rattle.context_search.specs.Visits.{HasTargets};
ghost use Rattle.least_cost.specs.Shown.{LeadsBy};
ghost use Rattle.least_cost.specs.Costs.{plus};
ghost use Rattle.least_cost.specs.Certified.{AtMost};
ghost use Rattle.least_cost.specs.PlaceCosts.{places_cost};
ghost use Rattle.least_cost.specs.Shown.{number_at, HoldsAtEnds, HoldsAtStarts, HoldsOnArc, HoldsAtContext};
ghost use Rattle.least_cost.specs.Shown.{HoldsEverywhere, piece_cost, AreNumbered};
ghost use Rattle.least_cost.specs.LastPieces.{StandBeside, is_passed, last_piece, passes};

use crate::context_finder::ContextFinder;
use crate::costs::places_cost;
use context_search::{Spot, put_names};
use road_base::{NoMemory, NodeId};
use road_model::laws::name_order;
use road_model::{PieceName, Place, TurnArc};
use std::alloc::Global;

/// What is to be shown: that no drive from node a to node b costs less, or where there is no cost, that there is none.
#[derive(Clone, Copy)]
pub struct Claim {
    pub a: NodeId,
    pub b: NodeId,
    pub cost: Option<u128>,
}

/// All contexts in order, what they are found by, a number at each, and of their last pieces what they cost and whether
/// they pass node b.
#[derive(Clone, Copy)]
pub struct NumberedContexts<'s, 'b> {
    pub spots: &'s [Spot<'b>],
    pub finder: &'s ContextFinder,
    pub numbers: &'s [Option<u128>],
    pub costs: &'s [u128],
    pub passed: &'s [bool],
}

/// Whether the numbers, one for each of the contexts, show the claim. Goes over contexts and arcs once, and takes some
/// 43 bytes for each context.
pub fn hold(
    alloc: Global,
    spots: &[Spot<'_>],
    numbers: &[Option<u128>],
    claim: &Claim,
) -> Result<bool, NoMemory>
    requires up { IsTrue (rises key_cmp (map key_of (map at_of spots.now))) }
    requires targets { HasTargets (map at_of spots.now) }
    requires count { length numbers.now ≡ length spots.now }
    ensures yes { IfOk result (λ yes. IsTrue yes
        → HoldsEverywhere (map at_of spots.now) numbers.now claim.now.a claim.now.b claim.now.cost) }
    ensures no { IfOk result (λ yes. IsFalse yes
        → HoldsEverywhere (map at_of spots.now) numbers.now claim.now.a claim.now.b claim.now.cost
        → ⊥) }
{
    let finder = ContextFinder::of(alloc, spots)?;
    let sums = piece_costs(alloc, spots)?;
    let marks = passing(alloc, spots, claim.b)?;
    let numbered = NumberedContexts {
        spots,
        finder: &finder,
        numbers,
        costs: sums.as_slice(),
        passed: marks.as_slice(),
    };
    let holds = holds_everywhere(alloc, &numbered, claim)?;
    Ok(holds)
}

/// Whether the last pieces of the contexts pass the node.
fn passing(alloc: Global, spots: &[Spot<'_>], node: NodeId) -> Result<Vec<bool>, NoMemory>
    ensures { IfOk result (λ v. v.items ≡ map (is_passed node) (map at_of spots.now)) }
{
    let mut marks = Vec::with_capacity(alloc, spots.len())?;
    for spot in spots {
        marks.push(passes(spot.piece.places.items(), node))?;
    }
    Ok(marks)
}

/// The costs of the last pieces of the contexts.
fn piece_costs(alloc: Global, spots: &[Spot<'_>]) -> Result<Vec<u128>, NoMemory>
    ensures { IfOk result (λ v. v.items ≡ map piece_cost (map at_of spots.now)) }
{
    let mut costs = Vec::with_capacity(alloc, spots.len())?;
    for spot in spots {
        costs.push(places_cost(spot.piece.places.items()))?;
    }
    Ok(costs)
}

/// Whether the numbers show the claim at each context. Goes over contexts and arcs once.
fn holds_everywhere(
    alloc: Global,
    numbered: &NumberedContexts<'_, '_>,
    claim: &Claim,
) -> Result<bool, NoMemory>
    requires numbered { AreNumbered (map at_of numbered.now.spots.now) numbered.now.numbers.now numbered.now.costs.now }
    requires beside { StandBeside (map at_of numbered.now.spots.now) claim.now.b numbered.now.finder.now
        numbered.now.passed.now }
    ensures yes { IfOk result (λ yes. IsTrue yes
        → HoldsEverywhere (map at_of numbered.now.spots.now) numbered.now.numbers.now
        claim.now.a claim.now.b claim.now.cost) }
    ensures no { IfOk result (λ yes. IsFalse yes
        → HoldsEverywhere (map at_of numbered.now.spots.now) numbered.now.numbers.now
        claim.now.a claim.now.b claim.now.cost
        → ⊥) }
{
    let mut names = Vec::new(alloc);
    let count = numbered.spots.len();
    for number in 0..count {
        let holds = holds_at(&mut names, numbered, claim, number)?;
        if !holds {
            return Ok(false);
        }
    }
    Ok(true)
}

/// Whether they do so at the context.
fn holds_at(
    names: &mut Vec<PieceName>,
    numbered: &NumberedContexts<'_, '_>,
    claim: &Claim,
    number: usize,
) -> Result<bool, NoMemory>
    requires numbered { AreNumbered (map at_of numbered.now.spots.now) numbered.now.numbers.now numbered.now.costs.now }
    requires beside { StandBeside (map at_of numbered.now.spots.now) claim.now.b numbered.now.finder.now
        numbered.now.passed.now }
    requires within { number < length numbered.now.spots.now }
    ensures yes { IfOk result (λ yes. IsTrue yes → (x : At)
        → slice_get (map at_of numbered.now.spots.now) number ≡ Some x
        → HoldsAtContext (map at_of numbered.now.spots.now) numbered.now.numbers.now
        claim.now.a claim.now.b claim.now.cost number x) }
    ensures no { IfOk result (λ yes. IsFalse yes → (x : At)
        → slice_get (map at_of numbered.now.spots.now) number ≡ Some x
        → HoldsAtContext (map at_of numbered.now.spots.now) numbered.now.numbers.now
        claim.now.a claim.now.b claim.now.cost number x
        → ⊥) }
{
    if !holds_alone(numbered, claim, number) {
        return Ok(false);
    }
    let holds = holds_on_arcs(names, numbered, claim, number)?;
    Ok(holds)
}

/// Whether they do so for drives that begin on the piece of the context, if it is one of a piece alone.
fn holds_alone(numbered: &NumberedContexts<'_, '_>, claim: &Claim, number: usize) -> bool
    requires numbered { AreNumbered (map at_of numbered.now.spots.now) numbered.now.numbers.now numbered.now.costs.now }
    requires within { number < length numbered.now.spots.now }
    ensures yes { IsTrue result → (x : At)
        → slice_get (map at_of numbered.now.spots.now) number ≡ Some x
        → x.context.before ≡ []
        → HoldsAtStarts claim.now.a claim.now.b claim.now.cost
        (number_at numbered.now.numbers.now number) x.piece.places }
    ensures no { IsFalse result → (x : At)
        → slice_get (map at_of numbered.now.spots.now) number ≡ Some x
        → (x.context.before ≡ []
        → HoldsAtStarts claim.now.a claim.now.b claim.now.cost
        (number_at numbered.now.numbers.now number) x.piece.places)
        → ⊥ }
{
    let spot = numbered.spots[number];
    if !is_alone(&spot) {
        return true;
    }
    let places = spot.piece.places.items();
    holds_at_starts(places, claim, number_of(numbered.numbers, number))
}

/// Whether the context is one of a piece alone.
fn is_alone(spot: &Spot<'_>) -> bool
    ensures yes { IsTrue result → spot.now.context.now.before ≡ [] }
    ensures no { IsFalse result → spot.now.context.now.before ≡ [] → ⊥ }
{
    spot.context.before.items().is_empty()
}

/// Whether they do so on all arcs from the context.
fn holds_on_arcs(
    names: &mut Vec<PieceName>,
    numbered: &NumberedContexts<'_, '_>,
    claim: &Claim,
    number: usize,
) -> Result<bool, NoMemory>
    requires numbered { AreNumbered (map at_of numbered.now.spots.now) numbered.now.numbers.now numbered.now.costs.now }
    requires beside { StandBeside (map at_of numbered.now.spots.now) claim.now.b numbered.now.finder.now
        numbered.now.passed.now }
    requires within { number < length numbered.now.spots.now }
    ensures yes { IfOk result (λ yes. IsTrue yes → (x : At) (arc : TurnArc)
        → slice_get (map at_of numbered.now.spots.now) number ≡ Some x
        → Contains x.context.arcs arc
        → HoldsOnArc (map at_of numbered.now.spots.now) numbered.now.numbers.now
        claim.now.b claim.now.cost number x arc) }
    ensures no { IfOk result (λ yes. IsFalse yes → (x : At)
        → slice_get (map at_of numbered.now.spots.now) number ≡ Some x
        → ((arc : TurnArc) → Contains x.context.arcs arc
        → HoldsOnArc (map at_of numbered.now.spots.now) numbered.now.numbers.now
        claim.now.b claim.now.cost number x arc)
        → ⊥) }
{
    let spot = numbered.spots[number];
    let arcs = spot.context.arcs.items();
    let count = arcs.len();
    for place in 0..count {
        let holds = holds_on_arc(names, numbered, claim, number, arc_of(arcs, place))?;
        if !holds {
            return Ok(false);
        }
    }
    Ok(true)
}

/// Whether they do so on the arc from the context.
fn holds_on_arc(
    names: &mut Vec<PieceName>,
    numbered: &NumberedContexts<'_, '_>,
    claim: &Claim,
    number: usize,
    arc: TurnArc,
) -> Result<bool, NoMemory>
    requires numbered { AreNumbered (map at_of numbered.now.spots.now) numbered.now.numbers.now numbered.now.costs.now }
    requires beside { StandBeside (map at_of numbered.now.spots.now) claim.now.b numbered.now.finder.now
        numbered.now.passed.now }
    requires within { number < length numbered.now.spots.now }
    requires has { (x : At) → slice_get (map at_of numbered.now.spots.now) number ≡ Some x
        → Contains x.context.arcs arc }
    ensures yes { IfOk result (λ yes. IsTrue yes → (x : At)
        → slice_get (map at_of numbered.now.spots.now) number ≡ Some x
        → HoldsOnArc (map at_of numbered.now.spots.now) numbered.now.numbers.now
        claim.now.b claim.now.cost number x arc) }
    ensures no { IfOk result (λ yes. IsFalse yes → (x : At)
        → slice_get (map at_of numbered.now.spots.now) number ≡ Some x
        → HoldsOnArc (map at_of numbered.now.spots.now) numbered.now.numbers.now
        claim.now.b claim.now.cost number x arc
        → ⊥) }
{
    name_order();
    let to = target(names, numbered.spots, numbered.finder, number, arc)?;
    let from = number_of(numbered.numbers, number);
    let limit = number_of(numbered.numbers, to);
    let sum = sum_of(numbered.costs, to);
    let goes_on = is_at_most(limit, from, sum);
    let ends = holds_up_to_goal(numbered, claim, to, from);
    Ok(goes_on && ends)
}

/// Whether the cost is at most the number and what it costs on the last piece of the context up to each step that ends
/// at node b.
fn holds_up_to_goal(
    numbered: &NumberedContexts<'_, '_>,
    claim: &Claim,
    to: usize,
    number: Option<u128>,
) -> bool
    requires beside { StandBeside (map at_of numbered.now.spots.now) claim.now.b numbered.now.finder.now
        numbered.now.passed.now }
    requires within { to < length numbered.now.spots.now }
    ensures yes { IsTrue result → (x : At)
        → slice_get (map at_of numbered.now.spots.now) to ≡ Some x
        → HoldsAtEnds claim.now.b claim.now.cost number x.piece.places }
    ensures no { IsFalse result → (x : At)
        → slice_get (map at_of numbered.now.spots.now) to ≡ Some x
        → HoldsAtEnds claim.now.b claim.now.cost number x.piece.places
        → ⊥ }
{
    if !is_marked(numbered.passed, to) {
        return true;
    }
    let spot = numbered.spots[to];
    holds_at_ends(spot.piece.places.items(), claim.b, claim.cost, number)
}

/// The mark at the place.
fn is_marked(marks: &[bool], place: usize) -> bool
    requires { place < length marks.now }
    ensures { slice_get marks.now place ≡ Some result }
{
    marks[place]
}

/// The arc at the place.
fn arc_of(arcs: &[TurnArc], place: usize) -> TurnArc
    requires { place < length arcs.now }
    ensures { slice_get arcs.now place ≡ Some result }
{
    arcs[place]
}

/// The number at the place.
fn number_of(numbers: &[Option<u128>], place: usize) -> Option<u128>
    requires { place < length numbers.now }
    ensures { slice_get numbers.now place ≡ Some result }
{
    numbers[place]
}

/// The sum at the place.
fn sum_of(sums: &[u128], place: usize) -> u128
    requires { place < length sums.now }
    ensures { slice_get sums.now place ≡ Some result }
{
    sums[place]
}

/// The number of the context to which the arc leads from the one with this number.
fn target(
    names: &mut Vec<PieceName>,
    spots: &[Spot<'_>],
    finder: &ContextFinder,
    from: usize,
    arc: TurnArc,
) -> Result<usize, NoMemory>
    requires of { finder.now ≡ map last_piece (map at_of spots.now) }
    requires up { IsTrue (rises key_cmp (map key_of (map at_of spots.now))) }
    requires targets { HasTargets (map at_of spots.now) }
    requires within { from < length spots.now }
    requires has { (x : At) → slice_get (map at_of spots.now) from ≡ Some x → Contains x.context.arcs arc }
    ensures within { IfOk result (λ n. n < length spots.now) }
    ensures leads { IfOk result (λ n. (x : At) → slice_get (map at_of spots.now) from ≡ Some x
        → LeadsBy (map at_of spots.now) x arc n) }
{
    let count = (arc.length as usize).saturating_sub(1);
    put_names(names, &spots[from], count)?;
    match finder.find(spots, arc.piece, names) {
        Some(number) => Ok(number),
        None => unreachable!(),
    }
}

/// Whether the numbers show the claim for drives that begin on a piece with these places, at whose end the number
/// stands.
fn holds_at_starts(places: &[Place], claim: &Claim, number: Option<u128>) -> bool
    ensures yes { IsTrue result → HoldsAtStarts claim.now.a claim.now.b claim.now.cost number places.now }
    ensures no { IsFalse result → HoldsAtStarts claim.now.a claim.now.b claim.now.cost number places.now → ⊥ }
{
    for step in 0..places.len() {
        if !holds_at_start(places, step, claim, number) {
            return false;
        }
    }
    true
}

/// The same for drives that begin with the step, if it begins at node a.
fn holds_at_start(places: &[Place], step: usize, claim: &Claim, number: Option<u128>) -> bool
    requires { step < length places.now }
    ensures yes { IsTrue result → BeginsBy places.now step claim.now.a
        → AtMost number (Some (places_cost (drop step places.now)))
        × HoldsAtEnds claim.now.b claim.now.cost (Some 0) (drop step places.now) }
    ensures no { IsFalse result → (BeginsBy places.now step claim.now.a
        → AtMost number (Some (places_cost (drop step places.now)))
        × HoldsAtEnds claim.now.b claim.now.cost (Some 0) (drop step places.now))
        → ⊥ }
{
    if begins(places, step, claim.a) {
        holds_from(&places[step..], claim, number)
    } else {
        true
    }
}

/// The same for a drive that begins with the first of the places.
fn holds_from(places: &[Place], claim: &Claim, number: Option<u128>) -> bool
    ensures yes { IsTrue result → AtMost number (Some (places_cost places.now))
        × HoldsAtEnds claim.now.b claim.now.cost (Some 0) places.now }
    ensures no { IsFalse result → AtMost number (Some (places_cost places.now))
        → HoldsAtEnds claim.now.b claim.now.cost (Some 0) places.now
        → ⊥ }
{
    if !is_at_most(number, Some(0), places_cost(places)) {
        return false;
    }
    holds_at_ends(places, claim.b, claim.cost, Some(0))
}

/// Whether the cost is at most the number and what it costs on a piece with these places up to each step that ends at
/// the node.
fn holds_at_ends(places: &[Place], node: NodeId, cost: Option<u128>, number: Option<u128>) -> bool
    ensures yes { IsTrue result → HoldsAtEnds node cost number places.now }
    ensures no { IsFalse result → HoldsAtEnds node cost number places.now → ⊥ }
{
    for step in 0..places.len() {
        if !holds_at_end(places, step, node, cost, number) {
            return false;
        }
    }
    true
}

/// The same for one step, if it ends at the node.
fn holds_at_end(
    places: &[Place],
    step: usize,
    node: NodeId,
    cost: Option<u128>,
    number: Option<u128>,
) -> bool
    requires { step < length places.now }
    ensures yes { IsTrue result → StopsBy places.now step node
        → AtMost cost (plus number (Some (places_cost (take (step + 2) places.now)))) }
    ensures no { IsFalse result → (StopsBy places.now step node
        → AtMost cost (plus number (Some (places_cost (take (step + 2) places.now)))))
        → ⊥ }
{
    if stops(places, step, node) {
        is_at_most(cost, number, places_cost(&places[..step + 2]))
    } else {
        true
    }
}

/// Whether one of the places is at the node.
fn passes(places: &[Place], node: NodeId) -> bool
    ensures { result ≡ passes node places.now }
{
    places.iter().any(|place| place.node == node)
}

/// Whether the step begins at the node.
fn begins(places: &[Place], step: usize, node: NodeId) -> bool
    requires { step < length places.now }
    ensures yes { IsTrue result → BeginsBy places.now step node }
    ensures no { IsFalse result → BeginsBy places.now step node → ⊥ }
{
    step + 1 < places.len() && is_at(places, step, node)
}

/// Whether the step ends at the node.
fn stops(places: &[Place], step: usize, node: NodeId) -> bool
    requires { step < length places.now }
    ensures yes { IsTrue result → StopsBy places.now step node }
    ensures within { IsTrue result → step + 1 < length places.now }
    ensures no { IsFalse result → StopsBy places.now step node → ⊥ }
{
    step + 1 < places.len() && is_at(places, step + 1, node)
}

/// Whether the place is at the node.
fn is_at(places: &[Place], at: usize, node: NodeId) -> bool
    requires { at < length places.now }
    ensures yes { IsTrue result → (place : Place) × (slice_get places.now at ≡ Some place) × (place.node ≡ node) }
    ensures no { IsFalse result → (place : Place) → slice_get places.now at ≡ Some place → place.node ≡ node → ⊥ }
{
    places[at].node == node
}

/// Whether the first is at most the sum of the others, where none is greater than every number.
fn is_at_most(limit: Option<u128>, before: Option<u128>, cost: u128) -> bool
    ensures yes { IsTrue result → AtMost limit (plus before (Some cost)) }
    ensures no { IsFalse result → AtMost limit (plus before (Some cost)) → ⊥ }
{
    match (limit, before) {
        (_, None) => true,
        (None, Some(_)) => false,
        (Some(limit), Some(before)) => limit.saturating_sub(before) <= cost,
    }
}
