//! How far a cell is grown.
ghost use Rattle.std.specs.Prelude.{◌≤◌, ℕ, IsTrue};
ghost use Rattle.road_base.specs.declared.location.Location.{Location as Place};
ghost use Rattle.cell_plan.specs.Grids.{in_units, HasEdgesInside};
ghost use Rattle.cell_plan.specs.Dividing.{IsFarIn};

use crate::intervals::{Interval, Rect};
use crate::region::Region;

/// The units of 1e-7 degree of a degree.
const DEGREE: u64 = 10_000_000;

/// The units from the root square's south edge to the equator.
const EQUATOR: u64 = 1_800_000_000;

/// How many thousandths more units of longitude than of latitude are as long, at the latitudes of 0 to 89 degrees:
/// 1000 / cos - 1000, rounded up.
const WIDENING: [u32; 90] = [
    0, 1, 1, 2, 3, 4, 6, 8, 10, 13, 16, 19, 23, 27, 31, 36, 41, 46, 52, 58, 65, 72, 79, 87, 95,
    104, 113, 123, 133, 144, 155, 167, 180, 193, 207, 221, 237, 253, 270, 287, 306, 326, 346, 368,
    391, 415, 440, 467, 495, 525, 556, 590, 625, 662, 702, 744, 789, 837, 888, 942, 1000, 1063,
    1131, 1203, 1282, 1367, 1459, 1560, 1670, 1791, 1924, 2072, 2237, 2421, 2628, 2864, 3134, 3446,
    3810, 4241, 4759, 5393, 6186, 7206, 8567, 10_474, 13_336, 18_108, 27_654, 56_299,
];

/// The cell and what lies around it, `by` units of latitude or as far to its sides, within a region.
pub fn grow(cell: Region, by: u64, within: Region) -> Region
    ensures within { HasEdgesInside result.units within.units }
    ensures far { (margin : ℕ) (p : Place) → margin ≤ by → IsTrue (in_units cell.units p)
        → IsFarIn margin within.units p → IsFarIn margin result.units p }
{
    let rows = cell.units.rows.grown(by, within.units.rows);
    let columns = cell
        .units
        .columns
        .grown(to_the_sides(by, farthest(rows)), within.units.columns);
    Region {
        units: Rect { columns, rows },
    }
}

/// How many units of latitude are as long as the cell's shorter side, or a few more: as long as it is from south to
/// north, or from west to east where it lies nearest to the equator. A part of a cell has no longer one.
pub fn shorter_side(cell: Region) -> u64 {
    let rows = cell.units.rows;
    rows.len()
        .min(units_of_latitude(cell.units.columns.len(), nearest(rows)))
}

/// How many units of latitude are as long as these units of longitude, at so many units of latitude from the equator,
/// rounded down to whole degrees.
fn units_of_latitude(units: u64, latitude: u64) -> u64 {
    let more = u64::from(widening(latitude / DEGREE));
    units.saturating_mul(1000) / (1000 + more)
}

/// How many units of longitude are at least as long, at so many units of latitude from the equator, as `by` units of
/// latitude; never fewer. Beyond 89 degrees as many as there.
fn to_the_sides(by: u64, latitude: u64) -> u64
    ensures { by ≤ result }
{
    let more = u64::from(widening(latitude.div_ceil(DEGREE)));
    by.saturating_add(by.saturating_mul(more) / 1000 + 1)
}

/// The widening at a latitude of so many degrees.
fn widening(degrees: u64) -> u32 {
    match WIDENING.get(degrees as usize) {
        Some(more) => *more,
        None => WIDENING[89],
    }
}

/// How many units these rows are away from the equator.
fn nearest(rows: Interval) -> u64 {
    rows.start
        .saturating_sub(EQUATOR)
        .max(EQUATOR.saturating_sub(rows.end))
}

/// How many units these rows reach from the equator.
fn farthest(rows: Interval) -> u64 {
    rows.start.abs_diff(EQUATOR).max(rows.end.abs_diff(EQUATOR))
}
