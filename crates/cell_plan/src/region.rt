//! Parts of the world, in units of 1e-7 degree from the root square's south-west corner.
ghost use Rattle.std.specs.Prelude.{◌≡◌, ◌≤◌, ◌+◌, pos, ◌+ℤ◌};

use crate::intervals::{Interval, Rect};
use map_cells::Area;

/// The units of 1e-7 degree from the root square's west edge to the world's east edge, and to behind it.
pub const EAST_END: u64 = 3_600_000_001;

/// The units of 1e-7 degree from the root square's south edge to the world's south edge.
pub const SOUTH_START: u64 = 900_000_000;

/// The units of 1e-7 degree from the root square's south edge to the world's north edge, and to behind it.
pub const NORTH_END: u64 = 2_700_000_001;

/// Units of 1e-7 degree that lie in the world: how far east and north of the root square's south-west corner they are.
#[derive(Clone, Copy)]
pub struct Region {
    pub units: Rect,
    ghost west: { units.columns.start ≤ 3600000001 },
    ghost east: { units.columns.end ≤ 3600000001 },
    ghost south: { (900000000 ≤ units.rows.start) × (units.rows.start ≤ 2700000001) },
    ghost north: { (900000000 ≤ units.rows.end) × (units.rows.end ≤ 2700000001) },
}

impl Region {
    ghost use Rattle.cell_plan.specs.Regions.{AreEdges, whole_world};

    /// The whole world.
    pub fn world() -> Region
        ensures { result.units ≡ whole_world }
    {
        Region {
            units: Rect {
                columns: Interval {
                    start: 0,
                    end: EAST_END,
                },
                rows: Interval {
                    start: SOUTH_START,
                    end: NORTH_END,
                },
            },
        }
    }

    /// The area that has these units.
    pub fn area(self) -> Area
        ensures { AreEdges self.units result }
    {
        Area {
            west: coordinate(self.units.columns.start),
            south: coordinate(self.units.rows.start),
            east: last_coordinate(self.units.columns.end),
            north: last_coordinate(self.units.rows.end),
        }
    }
}

/// The coordinate that lies so many units beyond the root square's corner.
fn coordinate(units: u64) -> i32
    requires { units ≤ 3600000001 }
    ensures { (result +ℤ pos 1800000000) ≡ pos units }
{
    (units as i64 - 1_800_000_000) as i32
}

/// The coordinate one before that.
fn last_coordinate(units: u64) -> i32
    requires { units ≤ 3600000001 }
    ensures { (result +ℤ pos 1800000001) ≡ pos units }
{
    (units as i64 - 1_800_000_001) as i32
}
