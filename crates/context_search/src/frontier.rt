//! The visits from which a search hasn't gone on yet, the one over which the least drive is to be expected first.
//!
//! What is expected is an order of trial and nothing more: contracts see the places in some order, since whichever is
//! gone on from first, the same contexts can be come to, and a drive is found exactly where there is one. So no number
//! here is promised to be a length: any would do. Good ones make the search short and its drive near the shortest.
ghost use Rattle.std.specs.Prelude.{◌≡◌, [], ◌∷◌, IfOk, OnOk, IfSome, IfNone};
ghost use Rattle.std.specs.List.Sorted.{IsPermutation};

use road_base::{Location, NoMemory};
use road_model::Piece;
use std::alloc::Global;
use std::cmp::Reverse;
use std::collections::BinaryHeap;
use std::marker::Model;

/// Places in the list of visits. Contracts see them in some order.
#[derive(Drop)]
pub struct Frontier {
    heap: BinaryHeap<Reverse<(u64, usize)>>,
    to: Location,
}

impl Model for Frontier {
    ghost use Rattle.std.specs.Prelude.{ℕ, List, map};
    ghost use Rattle.std.specs.BinaryHeap.{heap_items};

    ghost Value = { List ℕ };

    ghost view = { λ f. map (λ r. r.0.1) (heap_items f.heap) };
}

impl Frontier {
    /// No places. The search leads to the location. Takes no memory.
    pub fn new(alloc: Global, to: Location) -> Frontier
        ensures { result ≡ [] }
    {
        Frontier {
            heap: BinaryHeap::new(alloc),
            to,
        }
    }

    /// Adds the place, at which so much was driven up to the end of the piece.
    pub fn push(&mut self, place: usize, driven: u64, piece: &Piece) -> Result<(), NoMemory>
        ensures { OnOk result (IsPermutation (place ∷ self.old) self.new) }
    {
        let estimate = estimate(driven, piece, self.to);
        self.heap.push(Reverse((estimate, place)))?;
        Ok(())
    }

    /// Takes out the place over which the least drive is to be expected, one of those with the least where there are
    /// many: some place, as contracts see it.
    pub fn pop(&mut self) -> Option<usize>
        ensures some { IfSome result (λ place. IsPermutation self.old (place ∷ self.new)) }
        ensures none { IfNone result (self.old ≡ []) }
        ensures empty { IfNone result (self.new ≡ []) }
    {
        match self.heap.pop() {
            Some(Reverse((_, place))) => Some(place),
            None => None,
        }
    }
}

/// What was driven, and twice the straight line from the end of the piece: an order of trial, for which any number
/// would do. By the straight line twice the search goes for the goal, and looks at less around the way to it.
fn estimate(driven: u64, piece: &Piece, to: Location) -> u64 {
    match piece.places.items().last() {
        Some(place) => {
            driven.saturating_add(straight_line(place.location, to).saturating_mul(2))
        }
        None => driven,
    }
}

/// About how long the piece is, by straight lines between its places: for the order of trial alone. Stays at the last
/// number of 64 bits where it would be more.
pub fn length_of(piece: &Piece) -> u64 {
    let places = piece.places.items();
    let mut sum: u64 = 0;
    let mut rest = places;
    while let [first, second, ..] = rest {
        sum = sum.saturating_add(straight_line(first.location, second.location));
        rest = &rest[1..];
    }
    sum
}

/// About how far the places are from each other, in units of 1e-7 degree of latitude, over the antimeridian where
/// that is nearer: the longer of the two sides and three eighths of the shorter, less than 7 % off on a plane. For the
/// order of trial alone.
fn straight_line(from: Location, to: Location) -> u64 {
    let up = u64::from(from.lat.abs_diff(to.lat));
    let across = u64::from(from.lon.abs_diff(to.lon));
    let across = across.min(3_600_000_000_u64.saturating_sub(across));
    let across = across.saturating_mul(narrowed(to.lat)) / 65_536;
    let longer = up.max(across);
    let shorter = up.min(across);
    longer.saturating_add(shorter.saturating_mul(3) / 8)
}

/// About how much shorter than on the equator a degree of longitude is, in parts of 65,536: all of them at latitude 0,
/// none at the poles, and between them by a parabola in place of the cosine. For the order of trial alone.
fn narrowed(lat: i32) -> u64 {
    let lat = u64::from(lat.unsigned_abs());
    let quarter: u64 = 810_000_000_000_000_000;
    quarter.saturating_sub(lat.saturating_mul(lat)) / 12_359_619_140_625
}
