//! How many places lie where.
ghost use Rattle.std.specs.Prelude.{◌≡◌, ◌≤◌, ◌*◌, ◌∷◌, ◌++◌, [], List, OnOk, OnErr, max};
ghost use Rattle.road_base.specs.declared.location.Location.{Location as Place};

use crate::grid::Grid;
use crate::merging::{add_tally, halve, put_together};
use crate::sums::Tally;
use road_base::{Location, NoMemory};
use std::alloc::Global;

/// The most squares that are held when the grid isn't made coarser: 2^24.
const MOST_SQUARES: usize = 16_777_216;

/// The least number of tallies that are gathered before they are put together with those held: 2^18.
const LEAST_ROOM: usize = 262_144;

/// How many of the places that came lie in each square of a grid over the world. Holds at most some 21 million squares
/// of 16 bytes, in a list that grows by doubling.
#[derive(Drop)]
pub struct PlaceCounts {
    pub(crate) grid: Grid,
    pub(crate) tallies: Vec<Tally>,
    settled: usize,
}

impl PlaceCounts {
    ghost use Rattle.cell_plan.specs.CountedPlaces.{HasCounted};

    /// No places, to be planned with a margin of so many units of 1e-7 degree: the side of a square is the greatest
    /// power of two that is at most an eighth of it, and 2^8 where that is less. Takes no memory.
    pub fn new(alloc: Global, margin: u32) -> PlaceCounts
        ensures none { HasCounted [] result }
        ensures fine { result.grid.side * 8 ≤ max margin 2048 }
    {
        PlaceCounts {
            grid: Grid::for_margin(margin),
            tallies: Vec::new(alloc),
            settled: 0,
        }
    }

    /// Counts one more place. Where no memory is found the place isn't counted. For n places this takes the time of
    /// n log n in all; places of one square that come one behind another take one step each.
    pub fn add(&mut self, place: Location) -> Result<(), NoMemory>
        ensures ok { OnOk result
            ((places : List Place) → HasCounted places self.old → HasCounted (places ++ place ∷ []) self.new) }
        ensures err { OnErr result ((places : List Place) → HasCounted places self.old → HasCounted places self.new) }
    {
        if self.is_due() {
            self.settle();
        }
        add_tally(&mut self.tallies, self.grid.tally(place))
    }

    /// Whether so many tallies were gathered since the last time that they are to be put together with those held: a
    /// quarter as many as were held then.
    fn is_due(&self) -> bool {
        let gathered = self.tallies.len().saturating_sub(self.settled);
        gathered >= (self.settled / 4).max(LEAST_ROOM)
    }

    /// Puts together what lies in one square, in a grid so coarse that no more squares are held than may be.
    fn settle(&mut self)
        ensures { (places : List Place) → HasCounted places self.old → HasCounted places self.new }
    {
        put_together(&mut self.tallies);
        while self.tallies.len() > MOST_SQUARES && self.grid.is_fine() {
            self.coarsen();
        }
        self.settled = self.tallies.len();
    }

    /// Counts in the grid of which each square is four of this one's.
    fn coarsen(&mut self)
        requires { self.old.grid.side * 2 ≤ 2147483648 }
        ensures counted { (places : List Place) → HasCounted places self.old → HasCounted places self.new }
        ensures side { self.new.grid.side ≡ self.old.grid.side * 2 }
    {
        self.grid = self.grid.coarser();
        halve(self.tallies.as_mut_slice());
        put_together(&mut self.tallies);
    }
}
