//! The steps of what a search by cost has found.
ghost use Rattle.std.specs.Prelude.{◌≡◌, ◌+◌, ◌<◌, ◌≤◌, ◌++◌, ℕ, Some, length, take, drop, IfOk, OnOk, Contains};
ghost use Rattle.std.specs.Prelude.{slice_get};
ghost use Rattle.std.specs.List.{flat_map};
ghost use Rattle.context_search.specs.declared.marks.Origin.TheVariants.{Begins, Follows};
ghost use Rattle.context_search.specs.Routes.{spelled};
ghost use Rattle.least_cost.specs.Trails.{IsTrail, Descend, Ascend, IsWayTo, steps_at};
ghost use Rattle.least_cost.specs.declared.visiting.CostVisit.{CostVisit};

use crate::visiting::CostVisit;
use context_search::{Goal, Origin};
use road_base::{Drive, NoMemory, Step};
use road_model::Piece;
use std::alloc::Global;
use way_lines::add_steps;

/// The steps of the pieces of the visits that lead to the one at the place, and those of the goal's piece up to where
/// it ends.
pub fn along(
    alloc: Global,
    visits: &[CostVisit<'_>],
    place: usize,
    goal: &Goal<'_>,
) -> Result<Drive, NoMemory>
    requires descend { Descend visits.now }
    requires ascend { Ascend visits.now }
    requires place { place < length visits.now }
    requires ascends { goal.now.piece.now.name.index ≤ goal.now.piece.now.end }
    ensures { IfOk result (IsWayTo visits.now place goal.now) }
{
    let (first, places) = way_back(alloc, visits, place)?;
    let mut steps = Vec::new(alloc);
    add_whole(&mut steps, visits, &places)?;
    add_up_to(alloc, &mut steps, goal.piece, goal.last)?;
    Ok(Drive::from_list(steps_from(alloc, &steps, first)?))
}

/// The steps from that one on.
fn steps_from(alloc: Global, steps: &[Step], first: usize) -> Result<Vec<Step>, NoMemory>
    ensures { IfOk result (λ v. v.items ≡ drop first steps.now) }
{
    Ok(Vec::from_slice(alloc, &steps[first.min(steps.len())..])?)
}

/// With which step of the first piece the drive begins, and the places of the visits on the way, in order.
fn way_back(
    alloc: Global,
    visits: &[CostVisit<'_>],
    place: usize,
) -> Result<(usize, Vec<usize>), NoMemory>
    requires descend { Descend visits.now }
    requires place { place < length visits.now }
    ensures trail { IfOk result (λ r. IsTrail visits.now r.0 r.1.items place) }
{
    let mut places = Vec::new(alloc);
    let mut at = place;
    while let Origin::Follows(before) = origin_at(visits, at) {
        places.push(at)?;
        at = before;
    }
    places.push(at)?;
    places.reverse();
    Ok((first_step(origin_at(visits, at)), places))
}

/// How the visit at the place was come to.
fn origin_at(visits: &[CostVisit<'_>], place: usize) -> Origin
    requires { place < length visits.now }
    ensures { (v : CostVisit) → slice_get visits.now place ≡ Some v → v.origin ≡ result }
{
    let visit = visits[place];
    visit.origin
}

/// The step with which a visit of this origin begins a drive.
fn first_step(origin: Origin) -> usize
    ensures { (first : ℕ) → origin ≡ Begins first → result ≡ first }
{
    match origin {
        Origin::Begins(first) => first,
        Origin::Follows(_) => 0,
    }
}

/// Adds the steps of the pieces of the visits at the places.
fn add_whole(
    steps: &mut Vec<Step>,
    visits: &[CostVisit<'_>],
    places: &[usize],
) -> Result<(), NoMemory>
    requires ascend { Ascend visits.now }
    requires within { (k : ℕ) → Contains places.now k → k < length visits.now }
    ensures { OnOk result (steps.new.items ≡ steps.old.items ++ flat_map (steps_at visits.now) places.now) }
{
    for place in places {
        add_visit(steps, visits, *place)?;
    }
    Ok(())
}

/// Adds the steps of the piece of the visit at the place.
fn add_visit(steps: &mut Vec<Step>, visits: &[CostVisit<'_>], place: usize) -> Result<(), NoMemory>
    requires ascend { Ascend visits.now }
    requires within { place < length visits.now }
    ensures { OnOk result (steps.new.items ≡ steps.old.items ++ steps_at visits.now place) }
{
    let visit = visits[place];
    add_piece(steps, visit.spot.piece)?;
    Ok(())
}

/// Adds the steps of the piece.
fn add_piece(steps: &mut Vec<Step>, piece: &Piece) -> Result<(), NoMemory>
    requires { piece.now.name.index ≤ piece.now.end }
    ensures { OnOk result (steps.new.items ≡ steps.old.items ++ spelled piece.now) }
{
    let name = piece.name;
    let count = piece.end - name.index;
    add_steps(steps, name.way, name.index, count, name.dir)
}

/// Adds the steps of the piece up to one.
fn add_up_to(
    alloc: Global,
    steps: &mut Vec<Step>,
    piece: &Piece,
    last: usize,
) -> Result<(), NoMemory>
    requires ascends { piece.now.name.index ≤ piece.now.end }
    ensures { OnOk result (steps.new.items ≡ steps.old.items ++ take (last + 1) (spelled piece.now)) }
{
    let mut whole = Vec::new(alloc);
    add_piece(&mut whole, piece)?;
    let count = last.min(whole.len());
    let count = (count + 1).min(whole.len());
    steps.extend_from_slice(&whole[..count])?;
    Ok(())
}
