//! Areas of the world.
ghost use Rattle.std.specs.Prelude.{◌≡◌};
ghost use Rattle.road_base.specs.Ranges.{is_within};
ghost use Rattle.map_cells.specs.Areas.{is_in};

use road_base::Location;

/// A part of the world between two longitudes and two latitudes, in units of 1e-7 degree. Its edges are in it. A cell
/// is an area too: since places are whole numbers, a half-open square ends one before the next one begins. Where an
/// edge lies beyond the opposite one, no place is in the area.
#[derive(Clone, Copy, PartialEq, Eq, Debug)]
pub struct Area {
    pub west: i32,
    pub south: i32,
    pub east: i32,
    pub north: i32,
}

impl Area {
    /// Whether the place is in the area.
    pub fn holds(&self, place: Location) -> bool
        ensures { result ≡ is_in self.now place }
    {
        is_between(self.west, self.east, place.lon) && is_between(self.south, self.north, place.lat)
    }
}

/// Whether the number is between these two, or one of them.
fn is_between(low: i32, high: i32, number: i32) -> bool
    ensures { result ≡ is_within low high number }
{
    low <= number && number <= high
}
