//! Squares divided into cells.
ghost use Rattle.std.specs.Prelude.{◌≡◌, ◌||◌, ◌<◌, ◌≤◌, ◌*◌, ◌-◌, ◌^◌, ◌⊎◌, Bool, false, List, IsTrue};
ghost use Rattle.std.specs.Prelude.{OnOk, min, max};
ghost use Rattle.road_base.specs.declared.location.Location.{Location as Place};
ghost use Rattle.cell_plan.specs.Grids.{in_squares, width};
ghost use Rattle.cell_plan.specs.Dividing.{Covers, AreFarIn, HoldsNear, AreGrown, AreCounted};

use crate::cells::{PlanRule, PlannedCell};
use crate::grid::Grid;
use crate::growth::{grow, shorter_side};
use crate::intervals::Rect;
use crate::near::{amount_near, chosen, thinned, total_in};
use crate::region::Region;
use crate::sums::Tally;
use road_base::NoMemory;
use std::alloc::Global;

/// How squares of a grid are divided.
#[derive(Clone, Copy)]
pub struct Job {
    pub grid: Grid,
    pub rule: PlanRule,
}

/// The part of a cell's shorter side by which it is grown at least.
const GROWN_PART: u64 = 32;

/// Adds the cells of a square behind those planned so far. The tallies are those of the squares near it, and its cell
/// is grown within a region around it.
pub fn divide(
    alloc: Global,
    job: Job,
    square: Rect,
    within: Region,
    tallies: &[Tally],
    cells: &mut Vec<PlannedCell>,
) -> Result<(), NoMemory>
    ensures cover { OnOk result ((part : Place → Bool) → Covers part cells.old.items
        → ((p : Place) → IsTrue (part p) → IsTrue (in_squares job.grid.side square p) → ⊥)
        → Covers (λ p. part p || in_squares job.grid.side square p) cells.new.items) }
    ensures grown { OnOk result (AreFarIn job.rule.margin job.grid.side square within.units
        → AreGrown job.rule.margin cells.old.items → AreGrown job.rule.margin cells.new.items) }
    ensures counted { OnOk result ((places : List Place)
        → HoldsNear job.grid.side square within.units tallies.now places
        → AreCounted job.rule job.grid.side places cells.old.items
        → AreCounted job.rule job.grid.side places cells.new.items) }
{
    let Some(cell) = job.grid.cell(square) else {
        return Ok(());
    };
    let grown = grow(cell, job.growth(cell), within);
    let touched = job.grid.touched(grown);
    let amount = amount_near(tallies, square, touched)?;
    if job.is_final(square, amount.places) {
        let count = total_in(tallies, square)?;
        cells.push(PlannedCell {
            cell: cell.area(),
            grown: grown.area(),
            count,
        })?;
        return Ok(());
    }
    let thinned = thinned(alloc, tallies, square, touched, amount.tallies)?;
    let near = chosen(&thinned, tallies);
    let parts = square.quadrants();
    divide(alloc, job, parts.south_west, grown, near, cells)?;
    divide(alloc, job, parts.north_west, grown, near, cells)?;
    divide(alloc, job, parts.south_east, grown, near, cells)?;
    divide(alloc, job, parts.north_east, grown, near, cells)?;
    Ok(())
}

impl Job {
    /// How many units of latitude the cell is grown by.
    fn growth(self, cell: Region) -> u64
        ensures { self.rule.margin ≤ result }
    {
        u64::from(self.rule.margin).max(shorter_side(cell) / GROWN_PART)
    }

    /// Whether the square isn't divided further, where so many places lie near it.
    fn is_final(self, square: Rect, places: u64) -> bool
        ensures small { IsTrue result
            → (places ≤ self.rule.most) ⊎ (width square * self.grid.side ≤ max self.rule.margin self.grid.side) }
        ensures long { result ≡ false → 1 < width square }
    {
        places <= self.rule.most
            || square.columns.len() <= 1
            || self.side_of(square) <= u64::from(self.rule.margin)
    }

    /// The side of the square, in units of 1e-7 degree.
    fn side_of(self, square: Rect) -> u64
        ensures { result ≡ min (width square * self.grid.side) (2 ^ 64 - 1) }
    {
        square.columns.len().saturating_mul(self.grid.side)
    }
}
