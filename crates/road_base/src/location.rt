//! Places on the earth.
ghost use Rattle.std.specs.Prelude.{IsTrue};
ghost use Rattle.road_base.specs.Ranges.{is_in_range};

/// A place on the earth, in units of 1e-7 degree: the longitude from -1800000000 to 1800000000, and the latitude
/// from -900000000 to 900000000.
#[derive(Clone, Copy, PartialEq, Eq, Debug)]
pub struct Location {
    pub lon: i32,
    pub lat: i32,
    ghost in_range: { IsTrue (is_in_range lon lat) },
}
