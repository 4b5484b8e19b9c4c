//! The grid in whose squares places are counted.
ghost use Rattle.std.specs.Prelude.{◌≡◌, ◌<◌, ◌≤◌, ◌+◌, ◌-◌, ◌*◌, ◌/◌, ◌^◌, ℕ, IsTrue, MatchOption};
ghost use Rattle.std.specs.Prelude.{unsigned_abs, pos, ◌+ℤ◌, max};
ghost use Rattle.road_base.specs.declared.location.Location.{Location as Place};
ghost use Rattle.cell_plan.specs.Grids.{units_east, units_north, in_interval, in_squares, touched, touched_interval};
ghost use Rattle.cell_plan.specs.Regions.{IsCellOf};

use crate::intervals::{Interval, Rect};
use crate::region::{EAST_END, NORTH_END, Region, SOUTH_START};
use crate::sums::Tally;
use road_base::Location;

/// The least side of a square, in units of 1e-7 degree: 2^8, some 3 metres.
const FINEST: u64 = 256;

/// How many squares at first lie side by side in a margin, at least, where they are larger than the least.
const IN_MARGIN: u64 = 8;

/// The side beyond which squares grow no more, of which four make the root square.
const COARSEST: u64 = 2_147_483_648;

/// A grid over the root square: the side of its squares, in units of 1e-7 degree.
#[derive(Clone, Copy)]
pub struct Grid {
    pub side: u64,
    ghost positive: { 0 < side },
    ghost bounded: { side ≤ 2147483648 },
}

impl Grid {
    /// The grid with which counting begins, where cells are grown by that margin at least.
    pub fn for_margin(margin: u32) -> Grid
        ensures { result.side * 8 ≤ max margin 2048 }
    {
        let mut side = FINEST;
        while side * 2 * IN_MARGIN <= u64::from(margin) {
            side *= 2;
        }
        Grid { side }
    }

    /// Whether the squares may still grow.
    pub fn is_fine(self) -> bool
        ensures { IsTrue result → self.side * 2 ≤ 2147483648 }
    {
        self.side <= COARSEST / 2
    }

    /// The grid of which each square is four of this one's.
    pub fn coarser(self) -> Grid
        requires { self.side * 2 ≤ 2147483648 }
        ensures { result.side ≡ self.side * 2 }
    {
        Grid {
            side: self.side * 2,
        }
    }

    /// The square in which the place lies, counted once.
    pub fn tally(self, place: Location) -> Tally
        ensures column { result.column ≡ units_east place / self.side }
        ensures row { result.row ≡ units_north place / self.side }
        ensures count { result.count ≡ 1 }
    {
        Tally {
            column: (units_beyond(place.lon) / self.side) as u32,
            row: (units_beyond(place.lat) / self.side) as u32,
            count: 1,
        }
    }

    /// All squares.
    pub fn root(self) -> Rect
        ensures { (p : Place) → IsTrue (in_squares self.side result p) }
    {
        let all = Interval {
            start: 0,
            end: u64::from(u32::MAX) / self.side + 1,
        };
        Rect {
            columns: all,
            rows: all,
        }
    }

    /// What of these squares lies in the world. None where no place does.
    pub fn cell(self, square: Rect) -> Option<Region>
        ensures { MatchOption result ((p : Place) → IsTrue (in_squares self.side square p) → ⊥)
            (λ cell. IsCellOf self.side square cell.units) }
    {
        let columns = self.units(square.columns, 0, EAST_END);
        let rows = self.units(square.rows, SOUTH_START, NORTH_END);
        if columns.len() == 0 || rows.len() == 0 {
            return None;
        }
        Some(Region {
            units: Rect { columns, rows },
        })
    }

    /// What of these columns, or rows, lies between the world's edges.
    fn units(self, interval: Interval, from: u64, to: u64) -> Interval
        requires { to < 2 ^ 63 }
        ensures exactly { (n : ℕ) → from ≤ n → n < to → in_interval result n ≡ in_interval interval (n / self.side) }
        ensures start { from ≤ result.start }
        ensures end { result.end ≤ to }
        ensures length { result.end ≤ result.start + (interval.end - interval.start) * self.side }
    {
        Interval {
            start: interval.start.saturating_mul(self.side).max(from),
            end: interval.end.saturating_mul(self.side).min(to),
        }
    }

    /// The squares that touch the region.
    pub fn touched(self, region: Region) -> Rect
        ensures { result ≡ touched self.side region.units }
    {
        Rect {
            columns: self.touched_interval(region.units.columns),
            rows: self.touched_interval(region.units.rows),
        }
    }

    /// The columns, or rows, that touch these units.
    fn touched_interval(self, units: Interval) -> Interval
        requires { units.end < 2 ^ 63 }
        ensures { result ≡ touched_interval self.side units }
    {
        Interval {
            start: units.start / self.side,
            end: units.end / self.side + 1,
        }
    }
}

/// How many units the coordinate lies beyond the root square's corner.
fn units_beyond(coordinate: i32) -> u64
    ensures { result ≡ unsigned_abs (coordinate +ℤ pos 1800000000) }
{
    (i64::from(coordinate) + 1_800_000_000).unsigned_abs()
}
