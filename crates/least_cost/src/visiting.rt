//! The contexts that a search by cost has come to.
ghost use Rattle.std.specs.Prelude.{◌≡◌, ◌↔◌, ◌<◌, ◌∷◌, [], ℕ, List, length, IfOk, OnOk, IfSome, IfNone};
ghost use Rattle.std.specs.Prelude.{Some, IsTrue, slice_get};
ghost use Rattle.std.specs.List.Sorted.{IsPermutation};
ghost use Rattle.context_search.specs.Marks.{at_of, key_of};
ghost use Rattle.least_cost.specs.CostVisits.{IsOffered, IsVisitedAt, IsBettered, StandsAs, ContextNames, names_at};
ghost use Rattle.least_cost.specs.PlaceCosts.{places_cost};
ghost use Rattle.least_cost.specs.declared.visiting.CostVisit.{CostVisit};

use crate::frontier::CostFrontier;
use crate::places::latitudes_left;
use crate::visit_table::{Sought, VisitTable};
use context_search::{Origin, Spot};
use road_base::{Location, NoMemory};
use road_model::PieceName;
use std::alloc::Global;
use std::marker::Model;

/// A context that can be come to, the cost of a drive up to the end of its piece, how that drive comes there, and the
/// cost of the piece.
#[derive(Clone, Copy, Drop)]
pub struct CostVisit<'a> {
    pub spot: Spot<'a>,
    pub cost: u128,
    pub origin: Origin,
    /// The cost of the whole piece, which is made once for a context.
    pub whole: u128,
}

/// The visits in their order, one more for a context each time that a cheaper drive comes to it, and those from which
/// the search hasn't gone on. Where the last visit of a context stands is looked up in a table, and compared before it
/// is relied on: contracts don't speak of the table.
#[derive(Drop)]
pub struct CostSearch<'a> {
    visits: Vec<CostVisit<'a>>,
    table: VisitTable<'a>,
    frontier: CostFrontier,
    to: Location,
}

impl<'a> Model for CostSearch<'a> {
    ghost use Rattle.least_cost.specs.CostVisits.{Visiting};

    ghost Value = { Visiting };

    ghost view = { λ s. record { visits = s.visits.items; waiting = s.frontier } };
}

impl<'a> CostSearch<'a> {
    /// Nothing is visited. The search leads to the location.
    pub fn new(alloc: Global, to: Location) -> CostSearch<'a>
        ensures visits { result.visits ≡ [] }
        ensures waiting { result.waiting ≡ [] }
    {
        CostSearch {
            visits: Vec::new(alloc),
            table: VisitTable::new(alloc),
            frontier: CostFrontier::new(alloc),
            to,
        }
    }

    /// The visits in their order.
    pub fn visits(&self) -> &[CostVisit<'a>]
        ensures { result.now ≡ self.now.visits }
    {
        self.visits.as_slice()
    }

    /// The visit at the place.
    pub fn at(&self, place: usize) -> CostVisit<'a>
        requires { place < length self.now.visits }
        ensures { slice_get self.now.visits place ≡ Some result }
    {
        self.visits[place]
    }

    /// Takes out the place of the visit from which to go on.
    pub fn next(&mut self) -> Option<usize>
        ensures visits { self.new.visits ≡ self.old.visits }
        ensures some { IfSome result (λ place. IsPermutation self.old.waiting (place ∷ self.new.waiting)) }
        ensures none { IfNone result (self.old.waiting ≡ []) }
        ensures empty { IfNone result (self.new.waiting ≡ []) }
    {
        self.frontier.pop()
    }

    /// Comes to the context over a drive of this cost up to the end of its piece, unless the visit at the place that is
    /// known of it costs no more.
    pub fn offer(
        &mut self,
        spot: Spot<'a>,
        cost: u128,
        origin: Origin,
        whole: u128,
        known: Option<usize>,
    ) -> Result<(), NoMemory>
        requires whole { whole ≡ places_cost spot.piece.now.places }
        requires known { IfSome known (StandsAs self.old.visits (key_of (at_of spot))) }
        ensures { OnOk result (IsOffered spot.entry cost origin self.old self.new) }
    {
        let known = self.latest_of(&spot, known);
        if self.costs_no_more(known, cost) {
            return Ok(());
        }
        let place = self.visits.len();
        let left = latitudes_left(spot.piece.places.items(), self.to);
        self.frontier.push(place, expected(cost, left))?;
        self.table.put((spot.piece.name, spot.context.before.items()), known, place)?;
        self.visits.push(CostVisit {
            spot,
            cost,
            origin,
            whole,
        })?;
        Ok(())
    }

    /// Whether a place is known, and the visit there costs no more than that.
    fn costs_no_more(&self, known: Option<usize>, cost: u128) -> bool
        ensures { IsTrue result → (q : ContextNames) → IfSome known (StandsAs self.now.visits q)
            → IsVisitedAt self.now.visits q cost }
    {
        match known {
            Some(place) => match self.visits.get(place) {
                Some(visit) => visit.cost <= cost,
                None => false,
            },
            None => false,
        }
    }

    /// Whether the next visit of the same context as the one at the place costs less.
    pub fn is_bettered(&self, place: usize) -> bool
        requires { place < length self.now.visits }
        ensures { (v : CostVisit) → slice_get self.now.visits place ≡ Some v → IsTrue result
            → IsBettered self.now.visits v }
    {
        match self.table.next(place) {
            Some(next) => self.betters(next, &self.visits[place]),
            None => false,
        }
    }

    /// Whether the visit at the place is one of the same context, and costs less.
    fn betters(&self, place: usize, visit: &CostVisit<'a>) -> bool
        ensures { IsTrue result → IsBettered self.now.visits visit.now }
    {
        let before = visit.spot.context.before.items();
        match self.named_at(place, visit.spot.piece.name, before) {
            Some(known) => self.at(known).cost < visit.cost,
            None => false,
        }
    }

    /// The place of the last visit of the context of these names, unless it is looked up apart.
    pub fn latest_named(&self, piece: PieceName, before: &[PieceName]) -> Option<usize>
        ensures { IfSome result (StandsAs self.now.visits (piece, before.now)) }
    {
        match self.table.sought(piece, before.len()) {
            Sought::At(place) => self.named_at(place, piece, before),
            Sought::Apart | Sought::Nowhere => None,
        }
    }

    /// The place of the last visit of the context that is known, else that which is looked up apart.
    fn latest_of(&self, spot: &Spot<'a>, known: Option<usize>) -> Option<usize>
        requires { IfSome known (StandsAs self.now.visits (key_of (at_of spot.now))) }
        ensures { IfSome result (StandsAs self.now.visits (key_of (at_of spot.now))) }
    {
        match known {
            Some(place) => Some(place),
            None => self.latest_apart(spot),
        }
    }

    /// The place of the last visit of the context, if it is looked up apart.
    fn latest_apart(&self, spot: &Spot<'a>) -> Option<usize>
        ensures { IfSome result (StandsAs self.now.visits (key_of (at_of spot.now))) }
    {
        let before = spot.context.before.items();
        if let Sought::Nowhere = self.table.sought(spot.piece.name, before.len()) {
            return None;
        }
        match self.table.apart(&(spot.piece.name, before)) {
            Some(place) => self.named_at(place, spot.piece.name, before),
            None => None,
        }
    }

    /// The place, if the visit there is one of the context of these names.
    fn named_at(&self, place: usize, piece: PieceName, before: &[PieceName]) -> Option<usize>
        ensures { IfSome result (StandsAs self.now.visits (piece, before.now)) }
    {
        match self.visits.get(place) {
            Some(visit) if is_named(visit, piece, before) => Some(place),
            _ => None,
        }
    }
}

/// Over which cost a drive is to be expected: what was driven, and what is left at least. Where it passes 64 bits, the
/// greatest number that doesn't.
fn expected(cost: u128, left: u64) -> u64 {
    match u64::try_from(cost) {
        Ok(cost) => cost.saturating_add(left),
        Err(_) => u64::MAX,
    }
}

/// Whether the visit is one of the context of these names.
fn is_named(visit: &CostVisit<'_>, piece: PieceName, before: &[PieceName]) -> bool
    ensures { IsTrue result → names_at visit.now ≡ (piece, before.now) }
{
    is_same(visit.spot.piece.name, piece) && are_same(visit.spot.context.before.items(), before)
}

/// Whether both name the same piece.
fn is_same(a: PieceName, b: PieceName) -> bool
    ensures { IsTrue result ↔ (a ≡ b) }
{
    a == b
}

/// Whether both lists name the same pieces.
fn are_same(a: &[PieceName], b: &[PieceName]) -> bool
    ensures { IsTrue result ↔ (a.now ≡ b.now) }
{
    a == b
}
