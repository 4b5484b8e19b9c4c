//! Contexts found by their names among all of a graph, in a few steps where the numbers of ways are spread evenly.
ghost use Rattle.std.specs.Prelude.{◌≡◌, ◌<◌, ◌≤◌, length, map, slice_get, IfOk, IfSome, IfNone, IsTrue, Some};
ghost use Rattle.std.specs.Prelude.{Contains};
ghost use Rattle.std.specs.List.{HoldsAt};
ghost use Rattle.ordered_lists.specs.Orders.{rises};
ghost use Rattle.context_search.specs.Marks.{At, at_of, key_of, key_cmp};
ghost use Rattle.least_cost.specs.LastPieces.{alone, last_piece, IsAlone};

use context_search::{Spot, find_spot};
use ordered_lists::{Numbered, Ranges};
use road_base::NoMemory;
use road_model::PieceName;
use std::alloc::Global;
use std::marker::Model;

/// The name of a context's last piece, and how many pieces stand before it.
#[derive(Clone, Copy)]
pub struct LastPiece {
    name: PieceName,
    before: usize,
}

impl Numbered for LastPiece {
    fn number(&self) -> i64 {
        self.name.way.0
    }
}

/// By what the contexts of a graph are found: their last pieces, in their order, close to one another, and where those
/// of a way stand among them. Contracts see the list of the last pieces. They don't speak of where those of a way
/// stand: what is found there is compared before it is relied on, and where it isn't found all contexts are searched.
#[derive(Drop)]
pub struct ContextFinder {
    list: Vec<LastPiece>,
    ranges: Ranges,
}

impl Model for ContextFinder {
    ghost use Rattle.std.specs.Prelude.{List};
    ghost use Rattle.least_cost.specs.declared.context_finder.LastPiece.{LastPiece};

    ghost Value = { List LastPiece };

    ghost view = { λ f. f.list.items };
}

impl ContextFinder {
    /// That of these contexts. Takes one pass over them, and some 26 bytes for each.
    pub fn of(alloc: Global, spots: &[Spot<'_>]) -> Result<ContextFinder, NoMemory>
        ensures { IfOk result (λ f. f ≡ map last_piece (map at_of spots.now)) }
    {
        let list = last_pieces(alloc, spots)?;
        let ranges = Ranges::of(alloc, list.as_slice());
        Ok(ContextFinder { list, ranges })
    }

    /// Where the context of these names stands among those that the finder is of: that of the piece behind the pieces
    /// before it. None exactly where they have no such context. Takes the time of a search among the contexts of some
    /// ways with neighbouring numbers; where the pieces before it are some, that of a search among all.
    pub fn find(&self, spots: &[Spot<'_>], piece: PieceName, before: &[PieceName]) -> Option<usize>
        requires of { self.now ≡ map last_piece (map at_of spots.now) }
        requires up { IsTrue (rises key_cmp (map key_of (map at_of spots.now))) }
        ensures within { IfSome result (λ i. i < length spots.now) }
        ensures some { IfSome result (HoldsAt (λ s. key_of (at_of s) ≡ (piece, before.now)) spots.now) }
        ensures none { IfNone result
            ((x : At) → Contains (map at_of spots.now) x → key_of x ≡ (piece, before.now) → ⊥) }
    {
        match self.find_alone(piece, before) {
            Some(place) => Some(place),
            None => find_spot(spots, piece, before),
        }
    }

    /// Where the context of the piece alone stands, if there are no pieces before it and it is found.
    fn find_alone(&self, piece: PieceName, before: &[PieceName]) -> Option<usize>
        ensures { IfSome result (λ i. IsAlone self.now piece before.now i) }
    {
        if !before.is_empty() {
            return None;
        }
        let Some((from, to)) = self.ranges.part_of(piece.way.0) else {
            return None;
        };
        let list = self.list.as_slice();
        let place = first_from(list, piece, from, to);
        if stands_alone(list, piece, place) {
            Some(place)
        } else {
            None
        }
    }
}

/// Whether the piece stands there alone.
fn stands_alone(list: &[LastPiece], piece: PieceName, place: usize) -> bool
    ensures { IsTrue result → slice_get list.now place ≡ Some (alone piece) }
{
    match list.get(place) {
        Some(last) => is_alone(last, piece),
        None => false,
    }
}

/// Whether it is the piece, and none is before it.
#[tactic(auto, using(crate::proofs::NearContexts::names_decide))]
fn is_alone(last: &LastPiece, piece: PieceName) -> bool
    ensures { IsTrue result → last.now ≡ alone piece }
{
    last.before == 0 && last.name == piece
}

/// The last pieces of the contexts.
fn last_pieces(alloc: Global, spots: &[Spot<'_>]) -> Result<Vec<LastPiece>, NoMemory>
    ensures { IfOk result (λ v. v.items ≡ map last_piece (map at_of spots.now)) }
{
    let mut list = Vec::with_capacity(alloc, spots.len())?;
    for spot in spots {
        list.push(last_of(spot))?;
    }
    Ok(list)
}

/// The last piece of the context.
fn last_of(spot: &Spot<'_>) -> LastPiece
    ensures { result ≡ last_piece (at_of spot.now) }
{
    LastPiece {
        name: spot.piece.name,
        before: spot.context.before.items().len(),
    }
}

/// Where a search for the first context whose last piece isn't below this one ends, between the two places.
fn first_from(list: &[LastPiece], piece: PieceName, from: usize, to: usize) -> usize
    ensures { result ≤ length list.now }
{
    let mut high = to.min(list.len());
    let mut low = from.min(high);
    while low < high {
        let middle = low + (high - low) / 2;
        if list[middle].name < piece {
            low = middle + 1;
        } else {
            high = middle;
        }
    }
    low
}
