//! The numbers of one kind that a search has seen.
ghost use Rattle.std.specs.Prelude.{◌≡◌, ◌↔◌, ◌⊎◌, [], OnOk, Contains};
ghost use Rattle.std.specs.FinMap.{IsAntisymmetric};

use crate::lists::{add_sorted, without};
use ordered_lists::leave_once;
use road_base::NoMemory;
use std::alloc::Global;

/// The numbers seen, and the frontier: those among them that were new in the last round. Both ascend.
#[derive(Drop)]
pub struct SeenNumbers<T: Ord + Copy> {
    pub all: Vec<T>,
    pub frontier: Vec<T>,
}

impl<T: Ord + Copy> SeenNumbers<T> {
    /// Takes no memory.
    pub fn new(alloc: Global) -> SeenNumbers<T>
        ensures all { result.all.items ≡ [] }
        ensures frontier { result.frontier.items ≡ [] }
    {
        SeenNumbers {
            all: Vec::new(alloc),
            frontier: Vec::new(alloc),
        }
    }

    /// Takes in what a round found.
    pub fn take_in(&mut self, found: Vec<T>) -> Result<(), NoMemory>
        requires { IsAntisymmetric T.cmp }
        ensures sound { OnOk result ((x : T) → Contains self.new.frontier.items x → Contains found.items x) }
        ensures complete { OnOk result ((x : T) → Contains found.items x
            → Contains self.new.frontier.items x ⊎ Contains self.old.all.items x) }
        ensures all { OnOk result ((x : T) → Contains self.new.all.items x
            ↔ (Contains self.old.all.items x ⊎ Contains self.new.frontier.items x)) }
    {
        let mut numbers = found;
        leave_once(&mut numbers);
        let frontier = without(numbers, self.all.as_slice())?;
        add_sorted(&mut self.all, frontier.as_slice())?;
        self.frontier = frontier;
        Ok(())
    }
}
