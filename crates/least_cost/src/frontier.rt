//! The visits from which a search by cost hasn't gone on yet, the one over which the least drive is to be expected
//! first.
//!
//! In which order they come decides how long the search takes, and nothing else: contracts see the places in some
//! order.
ghost use Rattle.std.specs.Prelude.{◌≡◌, [], ◌∷◌, IfOk, OnOk, IfSome, IfNone};
ghost use Rattle.std.specs.List.Sorted.{IsPermutation};

use road_base::NoMemory;
use std::alloc::Global;
use std::cmp::Reverse;
use std::collections::BinaryHeap;
use std::marker::Model;

/// Places in the list of visits. Contracts see them in some order.
#[derive(Drop)]
pub struct CostFrontier {
    heap: BinaryHeap<Reverse<(u64, usize)>>,
}

impl Model for CostFrontier {
    ghost use Rattle.std.specs.Prelude.{ℕ, List, map};
    ghost use Rattle.std.specs.BinaryHeap.{heap_items};

    ghost Value = { List ℕ };

    ghost view = { λ f. map (λ r. r.0.1) (heap_items f.heap) };
}

impl CostFrontier {
    /// No places.
    pub fn new(alloc: Global) -> CostFrontier
        ensures { result ≡ [] }
    {
        CostFrontier {
            heap: BinaryHeap::new(alloc),
        }
    }

    /// Adds the place, over which a drive of so much is to be expected.
    pub fn push(&mut self, place: usize, expected: u64) -> Result<(), NoMemory>
        ensures { OnOk result (IsPermutation (place ∷ self.old) self.new) }
    {
        self.heap.push(Reverse((expected, place)))?;
        Ok(())
    }

    /// Takes out the place over which the least is to be expected.
    pub fn pop(&mut self) -> Option<usize>
        ensures some { IfSome result (λ place. IsPermutation self.old (place ∷ self.new)) }
        ensures none { IfNone result (self.old ≡ []) }
        ensures empty { IfNone result (self.new ≡ []) }
    {
        match self.heap.pop() {
            Some(Reverse((_, place))) => Some(place),
            None => None,
        }
    }
}
