//! Parts of the places of a piece.
ghost use Rattle.std.specs.Prelude.{◌≡◌, ◌+◌, take, drop, IfOk};
ghost use Rattle.least_cost.specs.Latitudes.{latitudes_left};

use crate::costs::lat_difference;
use road_base::{Location, NoMemory};
use road_model::Place;

/// The sum. `NoMemory` where it passes 128 bits.
pub fn sum(a: u128, b: u128) -> Result<u128, NoMemory>
    ensures { IfOk result (λ n. n ≡ a + b) }
{
    match a.checked_add(b) {
        Some(sum) => Ok(sum),
        None => Err(NoMemory),
    }
}

/// The places from that one on.
pub fn places_from(places: &[Place], first: usize) -> &[Place]
    ensures { result.now ≡ drop first places.now }
{
    &places[first.min(places.len())..]
}

/// The places up to the end of the step.
pub fn places_up_to(places: &[Place], last: usize) -> &[Place]
    ensures { result.now ≡ take (last + 2) places.now }
{
    if last < places.len() {
        &places[..(last + 2).min(places.len())]
    } else {
        places
    }
}

/// The difference of latitudes between the last place and the location: each step costs at least one more than its own,
/// so no drive on from there to the location costs less. 0 where there is no place.
pub fn latitudes_left(places: &[Place], to: Location) -> u64
    ensures { result ≡ latitudes_left places.now to }
{
    match places.last() {
        Some(place) => lat_difference(place.location, to),
        None => 0,
    }
}
