//! The steps of what was found.
ghost use Rattle.std.specs.Prelude.{◌≡◌, ◌+◌, ◌-◌, ◌<◌, ◌≤◌, ◌++◌, length, take, drop, IfOk, OnOk, Contains, Some, ℕ};
ghost use Rattle.std.specs.Prelude.{slice_get};
ghost use Rattle.context_search.specs.declared.marks.TreeVisit.{TreeVisit};
ghost use Rattle.context_search.specs.declared.marks.Origin.TheVariants.{Begins};
ghost use Rattle.std.specs.List.{flat_map};
ghost use Rattle.context_search.specs.Routes.{IsChain, IsRoute, Descend, AreSpelled, spelled, steps_at};

use crate::ends::{Begin, Goal};
use crate::following::Meeting;
use crate::marks::{Origin, TreeVisit};
use road_base::{Drive, NoMemory, Step};
use road_model::Piece;
use std::alloc::Global;
use way_lines::add_steps;

/// The steps of the piece from where the drive begins to where it ends.
pub fn within(alloc: Global, start: &Begin<'_>, goal: &Goal<'_>) -> Result<Drive, NoMemory>
    requires ascends { start.now.piece.now.name.index ≤ start.now.piece.now.end }
    requires rises { start.now.first ≤ goal.now.last }
    requires last { goal.now.last < length (spelled start.now.piece.now) }
    ensures { IfOk result (λ d. d
        ≡ take (goal.now.last + 1 - start.now.first) (drop start.now.first (spelled start.now.piece.now))) }
{
    let mut steps = Vec::new(alloc);
    add_part(alloc, &mut steps, start.piece, start.first, goal.last)?;
    Ok(Drive::from_list(steps))
}

/// The steps of the pieces of the visits that lead to the one that met the goal, and of the goal.
pub fn along(
    alloc: Global,
    visits: &[TreeVisit<'_>],
    meeting: &Meeting<'_>,
) -> Result<Drive, NoMemory>
    requires descend { Descend visits.now }
    requires spelled { AreSpelled visits.now }
    requires place { meeting.now.place < length visits.now }
    requires ascends { meeting.now.goal.piece.now.name.index ≤ meeting.now.goal.piece.now.end }
    requires last { meeting.now.goal.last < length (spelled meeting.now.goal.piece.now) }
    ensures { IfOk result (IsRoute visits.now meeting.now.place meeting.now.goal) }
{
    let (first, places) = way_back(alloc, visits, meeting.place)?;
    let mut steps = Vec::new(alloc);
    add_whole(&mut steps, visits, &places)?;
    let goal = meeting.goal;
    add_part(alloc, &mut steps, goal.piece, 0, goal.last)?;
    let steps = without_first(alloc, &steps, first)?;
    Ok(Drive::from_list(steps))
}

/// The steps without so many of the first ones.
fn without_first(alloc: Global, steps: &[Step], count: usize) -> Result<Vec<Step>, NoMemory>
    ensures { IfOk result (λ v. v.items ≡ drop count steps.now) }
{
    let from = count.min(steps.len());
    Ok(Vec::from_slice(alloc, &steps[from..])?)
}

/// With which step of the first piece the drive begins, and the places of the visits on the way, in order.
fn way_back(
    alloc: Global,
    visits: &[TreeVisit<'_>],
    place: usize,
) -> Result<(usize, Vec<usize>), NoMemory>
    requires descend { Descend visits.now }
    requires place { place < length visits.now }
    ensures chain { IfOk result (λ r. IsChain visits.now r.0 r.1.items place) }
{
    let mut places = Vec::new(alloc);
    let mut at = place;
    while let Origin::Follows(before) = origin_at(visits, at) {
        places.push(at)?;
        at = before;
    }
    places.push(at)?;
    places.reverse();
    Ok((first_step(origin_at(visits, at)), places))
}

/// How the context of the visit at the place was come to.
fn origin_at(visits: &[TreeVisit<'_>], place: usize) -> Origin
    requires { place < length visits.now }
    ensures { (v : TreeVisit) × (slice_get visits.now place ≡ Some v) × (v.origin ≡ result) }
{
    let visit = visits[place];
    visit.origin
}

/// The step with which a drive begins.
fn first_step(origin: Origin) -> usize
    ensures { (first : ℕ) → origin ≡ Begins first → result ≡ first }
{
    match origin {
        Origin::Begins(first) => first,
        Origin::Follows(_) => 0,
    }
}

/// Adds the steps of the pieces of the visits at the places.
fn add_whole(
    steps: &mut Vec<Step>,
    visits: &[TreeVisit<'_>],
    places: &[usize],
) -> Result<(), NoMemory>
    requires spelled { AreSpelled visits.now }
    requires within { (k : ℕ) → Contains places.now k → k < length visits.now }
    ensures { OnOk result (steps.new.items
        ≡ steps.old.items ++ flat_map (steps_at visits.now) places.now) }
{
    for place in places {
        add_visit(steps, visits, *place)?;
    }
    Ok(())
}

/// Adds the steps of the piece of the visit.
fn add_visit(steps: &mut Vec<Step>, visits: &[TreeVisit<'_>], place: usize) -> Result<(), NoMemory>
    requires spelled { AreSpelled visits.now }
    requires within { place < length visits.now }
    ensures { OnOk result (steps.new.items ≡ steps.old.items ++ steps_at visits.now place) }
{
    let visit = visits[place];
    add_piece(steps, visit.spot.piece)
}

/// Adds the steps of the piece.
fn add_piece(steps: &mut Vec<Step>, piece: &Piece) -> Result<(), NoMemory>
    requires { piece.now.name.index ≤ piece.now.end }
    ensures { OnOk result (steps.new.items ≡ steps.old.items ++ spelled piece.now) }
{
    let name = piece.name;
    let count = piece.end - name.index;
    add_steps(steps, name.way, name.index, count, name.dir)
}

/// Adds the steps of the piece from one to another.
fn add_part(
    alloc: Global,
    steps: &mut Vec<Step>,
    piece: &Piece,
    first: usize,
    last: usize,
) -> Result<(), NoMemory>
    requires ascends { piece.now.name.index ≤ piece.now.end }
    requires rises { first ≤ last }
    requires last { last < length (spelled piece.now) }
    ensures { OnOk result (steps.new.items
        ≡ steps.old.items ++ take (last + 1 - first) (drop first (spelled piece.now))) }
{
    let mut whole = Vec::new(alloc);
    add_piece(&mut whole, piece)?;
    steps.extend_from_slice(&whole[first..last + 1])?;
    Ok(())
}
