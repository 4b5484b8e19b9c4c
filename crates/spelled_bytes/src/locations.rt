//! Locations.
ghost use Rattle.std.specs.Prelude.{◌≡◌};
ghost use Rattle.spelled_bytes.specs.Spelling.{location_bytes, LocationFits};
ghost use Rattle.spelled_bytes.specs.OneSpelling.{location_one};

use crate::spelling::Spell;
use crate::unread::Unread;
use road_base::{Location, is_in_range};
use std::alloc::Global;

/// The longitude, and then the latitude, both in range.
impl<F> Spell<F> for Location {
    ghost spelling = { location_bytes };

    ghost fits = { LocationFits };

    ghost one = { location_one };

    fn read(alloc: Global, bytes: &[u8]) -> Result<(Location, &[u8]), Unread> {
        let ((lon, lat), rest) = <(i32, i32) as Spell<F>>::read(alloc, bytes)?;
        if !is_in_range(lon, lat) {
            return Err(Unread::Malformed);
        }
        Ok((Location { lon, lat }, rest))
    }
}
