//! The search over contexts and arcs, in phases.
ghost use Rattle.std.specs.Prelude.{◌≡◌, ◌<◌, [], length, IfOk, OnOk, IfSome, IfNone, MatchOption, Some, Contains};
ghost use Rattle.std.specs.Prelude.{slice_get, ℕ};
ghost use Rattle.graph_blocks.specs.Lent.{map_of as block_map};
ghost use Rattle.context_search.specs.declared.ends.Begin.{Begin};
ghost use Rattle.context_search.specs.declared.marks.TreeVisit.{TreeVisit};
ghost use Rattle.context_search.specs.declared.spots.Spot.{Spot};
ghost use Rattle.context_search.specs.Marks.{At, at_of, key_of};
ghost use Rattle.context_search.specs.Listed.{AreInOrder, contexts_in};
ghost use Rattle.context_search.specs.Visits.{IsSearch, IsVisited, AreBegun, AreKnown, NoneBegun, Grows, HasTargets};
ghost use Rattle.context_search.specs.Visits.{IsClosed, AreClosed, Meets, Misses, IsVisitedBy, IsMarked, target_key};
ghost use Rattle.context_search.specs.Visits.{StateKey, first_key, goal_in};
ghost use Rattle.context_search.specs.declared.marks.Origin.TheVariants.{Begins};

use crate::ends::{Begin, Goal, goal_at};
use crate::look_ups::spot_at;
use crate::marks::{Origin, Search};
use crate::phases::Phases;
use crate::spots::{Spot, put_names};
use layered_maps::View;
use road_base::{NoMemory, WayId};
use road_model::{Block, PieceName, TurnArc};
use std::alloc::Global;
use std::collections::BTreeMap;

/// How a goal was come to: by an arc from the context of the visit at this place.
#[derive(Clone, Copy, Drop)]
pub struct Meeting<'a> {
    pub place: usize,
    pub goal: Goal<'a>,
}

/// Visits the contexts of the pieces on which a drive may begin.
pub fn begin<'a, F: Phases>(
    search: &mut Search<'a>,
    blocks: &View<'a, WayId, Block>,
    phases: &F,
    starts: &[Begin<'_>],
) -> Result<(), NoMemory>
    requires order { AreInOrder (block_map blocks.now) }
    requires listed { (s : Begin) → Contains starts.now s
        → (x : At) × Contains (contexts_in (block_map blocks.now)) x × (key_of x ≡ (s.piece.now.name, [])) }
    requires search { IsSearch (F.rules phases.now) (contexts_in (block_map blocks.now)) search.old }
    requires none { search.old.visits ≡ [] }
    ensures search { OnOk result (IsSearch (F.rules phases.now) (contexts_in (block_map blocks.now)) search.new) }
    ensures grows { OnOk result (Grows (contexts_in (block_map blocks.now)) search.old search.new) }
    ensures begun { OnOk result (AreBegun (F.rules phases.now) starts.now search.new) }
    ensures all { OnOk result ((s : Begin) → Contains starts.now s
        → IsVisited search.new.visits (first_key (F.rules phases.now) s)) }
{
    for start in starts {
        begin_on(search, blocks, phases, start)?;
    }
    Ok(())
}

/// Visits the context of the piece alone, in the phase in which a drive begins on it.
fn begin_on<'a, F: Phases>(
    search: &mut Search<'a>,
    blocks: &View<'a, WayId, Block>,
    phases: &F,
    start: &Begin<'_>,
) -> Result<(), NoMemory>
    requires order { AreInOrder (block_map blocks.now) }
    requires listed { (x : At) × Contains (contexts_in (block_map blocks.now)) x
        × (key_of x ≡ (start.now.piece.now.name, [])) }
    requires known { AreKnown search.old }
    ensures known { OnOk result (AreKnown search.new) }
    ensures marked { OnOk result ((spot : Spot) × Contains (contexts_in (block_map blocks.now)) (at_of spot)
        × (key_of (at_of spot) ≡ (start.now.piece.now.name, []))
        × IsMarked spot ((F.rules phases.now).start start.now.piece.now.zone) (Begins start.now.first)
        search.old search.new) }
{
    match spot_at(blocks, start.piece.name, &[]) {
        Some(spot) => {
            let phase = phases.start(start.piece.zone);
            search.mark(spot, phase, Origin::Begins(start.first), 0)
        }
        None => unreachable!(),
    }
}

/// Goes on until a goal is come to, or nothing is left to go on from.
pub fn run<'a, 'b, F: Phases>(
    alloc: Global,
    search: &mut Search<'a>,
    blocks: &View<'a, WayId, Block>,
    phases: &F,
    goals: &BTreeMap<PieceName, Goal<'b>>,
) -> Result<Option<Meeting<'b>>, NoMemory>
    requires order { AreInOrder (block_map blocks.now) }
    requires targets { HasTargets (contexts_in (block_map blocks.now)) }
    requires search { IsSearch (F.rules phases.now) (contexts_in (block_map blocks.now)) search.old }
    requires closed { AreClosed (F.rules phases.now) (contexts_in (block_map blocks.now)) goals.now search.old }
    ensures search { OnOk result (IsSearch (F.rules phases.now) (contexts_in (block_map blocks.now)) search.new) }
    ensures begun { OnOk result (NoneBegun search.old search.new) }
    ensures stays { OnOk result ((k : StateKey) → IsVisited search.old.visits k → IsVisited search.new.visits k) }
    ensures met { IfOk result (λ met. MatchOption met
        ((k : ℕ) (v : TreeVisit) → slice_get search.new.visits k ≡ Some v
        → IsClosed (F.rules phases.now) (contexts_in (block_map blocks.now)) goals.now search.new.visits v)
        (λ m. Meets (F.rules phases.now) goals.now search.new.visits m.place m.goal)) }
{
    let mut names = Vec::new(alloc);
    while let Some(place) = search.next() {
        let met = go_on(search, &mut names, blocks, phases, goals, place)?;
        if met.is_some() {
            return Ok(met);
        }
    }
    Ok(None)
}

/// Follows the arcs from the context of the visit, until one leads to a goal.
fn go_on<'a, 'b, F: Phases>(
    search: &mut Search<'a>,
    names: &mut Vec<PieceName>,
    blocks: &View<'a, WayId, Block>,
    phases: &F,
    goals: &BTreeMap<PieceName, Goal<'b>>,
    place: usize,
) -> Result<Option<Meeting<'b>>, NoMemory>
    requires order { AreInOrder (block_map blocks.now) }
    requires targets { HasTargets (contexts_in (block_map blocks.now)) }
    requires search { IsSearch (F.rules phases.now) (contexts_in (block_map blocks.now)) search.old }
    requires place { place < length search.old.visits }
    ensures search { OnOk result (IsSearch (F.rules phases.now) (contexts_in (block_map blocks.now)) search.new) }
    ensures grows { OnOk result (Grows (contexts_in (block_map blocks.now)) search.old search.new) }
    ensures begun { OnOk result (NoneBegun search.old search.new) }
    ensures met { IfOk result (λ met. MatchOption met
        ((v : TreeVisit) → slice_get search.old.visits place ≡ Some v
        → IsClosed (F.rules phases.now) (contexts_in (block_map blocks.now)) goals.now search.new.visits v)
        (λ m. Meets (F.rules phases.now) goals.now search.new.visits m.place m.goal)) }
{
    let visit = search.at(place);
    for arc in visit.spot.context.arcs.items() {
        if let Some(goal) = met_by(phases, goals, visit.phase, *arc) {
            return Ok(Some(Meeting { place, goal }));
        }
        follow(search, names, blocks, phases, place, *arc)?;
    }
    Ok(None)
}

/// The goal to which the arc leads, if the phase goes on by its piece.
fn met_by<'a, F: Phases>(
    phases: &F,
    goals: &BTreeMap<PieceName, Goal<'a>>,
    phase: u8,
    arc: TurnArc,
) -> Option<Goal<'a>>
    ensures is { IfSome result (λ g. goal_in goals.now arc.piece ≡ Some g) }
    ensures goes { IfSome result (λ g. (next : ℕ) × ((F.rules phases.now).go phase g.piece.now.zone ≡ Some next)) }
    ensures none { IfNone result (Misses (F.rules phases.now) goals.now phase arc) }
{
    match goal_at(goals, arc.piece) {
        Some(goal) => match phases.go(phase, goal.piece.zone) {
            Some(_) => Some(goal),
            None => None,
        },
        None => None,
    }
}

/// Visits the context to which the arc of the visit's context leads, in the phase in which the visit's goes on, where
/// that isn't done yet.
fn follow<'a, F: Phases>(
    search: &mut Search<'a>,
    names: &mut Vec<PieceName>,
    blocks: &View<'a, WayId, Block>,
    phases: &F,
    place: usize,
    arc: TurnArc,
) -> Result<(), NoMemory>
    requires order { AreInOrder (block_map blocks.now) }
    requires targets { HasTargets (contexts_in (block_map blocks.now)) }
    requires search { IsSearch (F.rules phases.now) (contexts_in (block_map blocks.now)) search.old }
    requires place { place < length search.old.visits }
    requires has { (v : TreeVisit) → slice_get search.old.visits place ≡ Some v
        → Contains v.spot.context.now.arcs arc }
    ensures search { OnOk result (IsSearch (F.rules phases.now) (contexts_in (block_map blocks.now)) search.new) }
    ensures grows { OnOk result (Grows (contexts_in (block_map blocks.now)) search.old search.new) }
    ensures begun { OnOk result (NoneBegun search.old search.new) }
    ensures passed { OnOk result ((v : TreeVisit) → slice_get search.old.visits place ≡ Some v
        → IsVisitedBy (F.rules phases.now) (contexts_in (block_map blocks.now)) search.new.visits (at_of v.spot)
        v.phase arc) }
{
    let visit = search.at(place);
    let spot = target(names, blocks, &visit.spot, arc)?;
    match phases.go(visit.phase, spot.piece.zone) {
        Some(phase) => search.mark(spot, phase, Origin::Follows(place), visit.driven),
        None => Ok(()),
    }
}

/// The context to which the arc leads from this one.
fn target<'a>(
    names: &mut Vec<PieceName>,
    blocks: &View<'a, WayId, Block>,
    from: &Spot<'_>,
    arc: TurnArc,
) -> Result<Spot<'a>, NoMemory>
    requires order { AreInOrder (block_map blocks.now) }
    requires targets { HasTargets (contexts_in (block_map blocks.now)) }
    requires listed { Contains (contexts_in (block_map blocks.now)) (at_of from.now) }
    requires has { Contains from.now.context.now.arcs arc }
    ensures listed { IfOk result (λ s. Contains (contexts_in (block_map blocks.now)) (at_of s)) }
    ensures named { IfOk result (λ s. key_of (at_of s) ≡ target_key (at_of from.now) arc) }
{
    let count = (arc.length as usize).saturating_sub(1);
    put_names(names, from, count)?;
    match spot_at(blocks, arc.piece, names) {
        Some(spot) => Ok(spot),
        None => unreachable!(),
    }
}
