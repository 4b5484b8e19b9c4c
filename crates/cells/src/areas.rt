//! Areas, as words spell them.
ghost use Rattle.std.specs.Prelude.{◌≡◌, ◌∷◌, [], IfSome, IfNone};
ghost use Rattle.road_base.specs.Ranges.{is_in_range};
ghost use Rattle.opl_lexer.specs.Letters.{comma};
ghost use Rattle.opl_lexer.specs.Parts.{parts};
ghost use Rattle.cells.specs.Commands.{area_of, area_of_parts, area_between};

use map_cells::Area;
use opl_lexer::whole;

/// The farthest longitude from the meridian, in units of 1e-7 degree.
const MOST_LON: i64 = 1_800_000_000;

/// The farthest latitude from the equator.
const MOST_LAT: i64 = 900_000_000;

/// The area that the word is: `WEST,SOUTH,EAST,NORTH`, whole numbers of 1e-7 degree, longitudes from -1800000000 to
/// 1800000000 and latitudes from -900000000 to 900000000.
pub fn area_of(word: &str) -> Option<Area>
    ensures { result ≡ area_of word.now }
{
    match cut(word) {
        Some((west, rest)) => behind_west(west, rest),
        None => None,
    }
}

/// The word up to its first comma, and what stands behind it.
fn cut(word: &str) -> Option<(&str, &str)>
    ensures some { IfSome result (λ cut. parts comma word.now ≡ cut.0.now ∷ parts comma cut.1.now) }
    ensures none { IfNone result (parts comma word.now ≡ word.now ∷ []) }
{
    word.split_once(',')
}

/// The area, where this stands behind its first number.
fn behind_west(west: &str, word: &str) -> Option<Area>
    ensures { result ≡ area_of_parts (west.now ∷ parts comma word.now) }
{
    match cut(word) {
        Some((south, rest)) => behind_south(west, south, rest),
        None => None,
    }
}

fn behind_south(west: &str, south: &str, word: &str) -> Option<Area>
    ensures { result ≡ area_of_parts (west.now ∷ south.now ∷ parts comma word.now) }
{
    match cut(word) {
        Some((east, rest)) => behind_east(west, south, east, rest),
        None => None,
    }
}

fn behind_east(west: &str, south: &str, east: &str, word: &str) -> Option<Area>
    ensures { result ≡ area_of_parts (west.now ∷ south.now ∷ east.now ∷ parts comma word.now) }
{
    match cut(word) {
        Some(_) => None,
        None => area_of_four(west, south, east, word),
    }
}

fn area_of_four(west: &str, south: &str, east: &str, north: &str) -> Option<Area>
    ensures { result ≡ area_of_parts (west.now ∷ south.now ∷ east.now ∷ north.now ∷ []) }
{
    let west = whole(west)?;
    let south = whole(south)?;
    let east = whole(east)?;
    let north = whole(north)?;
    area_between(west, south, east, north)
}

fn area_between(west: i64, south: i64, east: i64, north: i64) -> Option<Area>
    ensures { result ≡ area_between west south east north }
{
    if is_in_world(west, south) && is_in_world(east, north) {
        Some(Area {
            west: west as i32,
            south: south as i32,
            east: east as i32,
            north: north as i32,
        })
    } else {
        None
    }
}

fn is_in_world(lon: i64, lat: i64) -> bool
    ensures { result ≡ is_in_range lon lat }
{
    -MOST_LON <= lon && lon <= MOST_LON && -MOST_LAT <= lat && lat <= MOST_LAT
}
