//! The contexts that a search has visited.
ghost use Rattle.std.specs.Prelude.{◌≡◌, ◌<◌, ◌∷◌, [], length, IfOk, OnOk, IfSome, IfNone, Some, slice_get};
ghost use Rattle.std.specs.List.Sorted.{IsPermutation};
ghost use Rattle.context_search.specs.Visits.{AreKnown, IsMarked, names_in, state_key};

use crate::frontier::{Frontier, length_of};
use crate::spots::Spot;
use road_base::{Location, NoMemory};
use road_model::PieceName;
use road_model::laws::name_order;
use std::alloc::Global;
use std::collections::BTreeSet;
use std::marker::Model;

/// How a context was come to.
#[derive(Clone, Copy, Debug)]
pub enum Origin {
    /// A drive begins on its piece, with this step.
    Begins(usize),
    /// By an arc from the context of the visit at this place.
    Follows(usize),
}

/// A context that can be come to in a phase, how it was, and how far it is to the end of its piece.
#[derive(Clone, Copy, Drop)]
pub struct TreeVisit<'a> {
    pub spot: Spot<'a>,
    pub phase: u8,
    pub origin: Origin,
    pub driven: u64,
}

/// What names a context in a phase: its piece, the pieces before it, and the phase. Names are compared in this order.
#[derive(Clone, Copy, Drop, PartialEq, Eq, PartialOrd, Ord)]
pub struct ContextName<'a> {
    pub piece: PieceName,
    pub before: &'a [PieceName],
    pub phase: u8,
}

/// The visits in their order, the names of their contexts, and those from which the search hasn't gone on.
#[derive(Drop)]
pub struct Search<'a> {
    known: BTreeSet<ContextName<'a>>,
    visits: Vec<TreeVisit<'a>>,
    frontier: Frontier,
}

impl<'a> Model for Search<'a> {
    ghost use Rattle.context_search.specs.Visits.{Marks};

    ghost Value = { Marks };

    ghost view = { λ s. record { known = s.known; visits = s.visits.items; waiting = s.frontier } };
}

impl<'a> Search<'a> {
    /// Nothing is visited, on the way to the location. Takes no memory.
    pub fn new(alloc: Global, to: Location) -> Search<'a>
        ensures known { AreKnown result }
        ensures visits { result.visits ≡ [] }
        ensures waiting { result.waiting ≡ [] }
    {
        Search {
            known: BTreeSet::new(alloc),
            visits: Vec::new(alloc),
            frontier: Frontier::new(alloc, to),
        }
    }

    /// The visits in the order in which the contexts were come to.
    pub fn visits(&self) -> &[TreeVisit<'a>]
        ensures { result.now ≡ self.now.visits }
    {
        self.visits.as_slice()
    }

    /// The visit at the place.
    pub fn at(&self, place: usize) -> TreeVisit<'a>
        requires { place < length self.now.visits }
        ensures { slice_get self.now.visits place ≡ Some result }
    {
        self.visits[place]
    }

    /// Takes out the place of the visit from which to go on.
    pub fn next(&mut self) -> Option<usize>
        ensures known { self.new.known ≡ self.old.known }
        ensures visits { self.new.visits ≡ self.old.visits }
        ensures some { IfSome result (λ place. IsPermutation self.old.waiting (place ∷ self.new.waiting)) }
        ensures none { IfNone result (self.old.waiting ≡ []) }
        ensures empty { IfNone result (self.new.waiting ≡ []) }
    {
        self.frontier.pop()
    }

    /// Visits the context in the phase, where that isn't done yet. So much was driven before its piece.
    pub fn mark(
        &mut self,
        spot: Spot<'a>,
        phase: u8,
        origin: Origin,
        before: u64,
    ) -> Result<(), NoMemory>
        requires { AreKnown self.old }
        ensures known { OnOk result (AreKnown self.new) }
        ensures marked { OnOk result (IsMarked spot.entry phase origin self.old self.new) }
    {
        name_order();
        let name = name_of(spot, phase);
        if self.known.contains(&name) {
            return Ok(());
        }
        let driven = before.saturating_add(length_of(spot.piece));
        self.frontier.push(self.visits.len(), driven, spot.piece)?;
        self.visits.push(TreeVisit {
            spot,
            phase,
            origin,
            driven,
        })?;
        self.known.insert(name)?;
        Ok(())
    }
}

/// The context's names, and the phase.
fn name_of<'a>(spot: Spot<'a>, phase: u8) -> ContextName<'a>
    ensures { names_in result ≡ state_key spot.entry phase }
{
    ContextName {
        piece: spot.piece.name,
        before: spot.context.before.items(),
        phase,
    }
}
