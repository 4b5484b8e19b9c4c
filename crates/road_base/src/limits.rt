//! The limits that every part of the program keeps: of an object, of inputs and stores, and of places.
ghost use Rattle.std.specs.Prelude.{◌≡◌};
ghost use Rattle.road_base.specs.Ranges.{is_in_range};

/// The most tags, references or members of an object.
pub const MOST_ITEMS: usize = 65_535;

/// The most bytes of a line, without its newline: 2^24.
pub const MOST_LINE: usize = 16_777_216;

/// The most bytes of an input, and of a frame behind its first line: 2^30.
pub const MOST_BYTES: usize = 1_073_741_824;

/// The most bytes of a session, and of a file of a store: 2^40.
pub const MOST_STORE: u64 = 1_099_511_627_776;

/// The greatest longitude, 180 degrees in units of 1e-7 degree. The least one is its negative.
pub const MOST_LON: i32 = 1_800_000_000;

/// The greatest latitude, 90 degrees in units of 1e-7 degree. The least one is its negative.
pub const MOST_LAT: i32 = 900_000_000;

/// The longitude is within 180 degrees, and the latitude within 90; both are in units of 1e-7 degree.
pub fn is_in_range(lon: i32, lat: i32) -> bool
    ensures { result ≡ is_in_range lon lat }
{
    -MOST_LON <= lon && lon <= MOST_LON && -MOST_LAT <= lat && lat <= MOST_LAT
}
