//! What steps and drives cost.
ghost use Rattle.std.specs.Prelude.{◌≡◌, ◌≤◌, ◌<◌, ◌^◌, ◌+◌, ◌*◌, ◌/◌, ◌+ℤ◌, ◌-ℤ◌, unsigned_abs, IfSome, length};
ghost use Rattle.least_cost.specs.Costs.{lon_difference, narrowed, straight, root, cost_between, location_of};
ghost use Rattle.least_cost.specs.Costs.{step_cost_of, cost_of};
ghost use Rattle.least_cost.specs.PlaceCosts.{places_cost};

use road_base::{Location, NodeId, Step};
use road_model::{Place, World};
use std::num::{nearest_u64_to_f64, saturating_f64_to_u64};
use way_lines::{head, tail};

/// The cost of a step from one location to another: one more than the straight line between them in units of 1e-7
/// degree of latitude, rounded down, where differences of longitude, the shorter way round the earth, count by
/// Bhaskara's fraction for the cosine of the mean latitude. At least 1. Takes no memory.
pub fn step_cost(from: Location, to: Location) -> u64
    ensures cost { result ≡ cost_between from to }
    ensures small { result < 2 ^ 32 }
{
    let across = narrowed(lon_difference(from, to), lat_sum(from, to));
    straight(across, lat_difference(from, to)) + 1
}

/// The difference of the longitudes, the shorter way round the earth.
fn lon_difference(from: Location, to: Location) -> u64
    ensures is { result ≡ lon_difference from.lon to.lon }
    ensures small { result ≤ 1800000000 }
{
    let difference = (i64::from(from.lon) - i64::from(to.lon)).unsigned_abs();
    difference.min(3_600_000_000 - difference)
}

/// The difference of the latitudes.
pub fn lat_difference(from: Location, to: Location) -> u64
    ensures is { result ≡ unsigned_abs (from.lat -ℤ to.lat) }
    ensures small { result ≤ 1800000000 }
{
    (i64::from(from.lat) - i64::from(to.lat)).unsigned_abs()
}

/// The sum of the latitudes without its sign.
fn lat_sum(from: Location, to: Location) -> u64
    ensures is { result ≡ unsigned_abs (from.lat +ℤ to.lat) }
    ensures small { result ≤ 1800000000 }
{
    (i64::from(from.lat) + i64::from(to.lat)).unsigned_abs()
}

/// A difference of longitudes in units as long as those of latitude, where two latitudes have that sum.
fn narrowed(across: u64, sum: u64) -> u64
    requires across { across ≤ 1800000000 }
    requires sum { sum ≤ 1800000000 }
    ensures is { result ≡ narrowed across sum }
    ensures small { result ≤ 1800000000 }
{
    let square = sum * sum;
    let turn = 12_960_000_000_000_000_000_u64;
    fraction(across, turn - 4 * square, turn + square)
}

/// So many times the part of the whole, rounded down.
fn fraction(times: u64, part: u64, whole: u64) -> u64
    requires part { part ≤ whole }
    requires whole { 0 < whole }
    ensures is { result ≡ times * part / whole }
    ensures small { result ≤ times }
{
    let product = u128::from(times) * u128::from(part);
    let guess = guessed_fraction(times, part, whole);
    let guessed = u128::from(guess) * u128::from(whole);
    if guessed <= product && product - guessed < u128::from(whole) {
        guess
    } else {
        (product / u128::from(whole)) as u64
    }
}

/// About so many times the part of the whole: what it mostly is, rounded down.
fn guessed_fraction(times: u64, part: u64, whole: u64) -> u64 {
    let ratio = nearest_u64_to_f64(part) / nearest_u64_to_f64(whole);
    saturating_f64_to_u64(nearest_u64_to_f64(times) * ratio)
}

/// What the sides of a right angle span, rounded down.
fn straight(across: u64, up: u64) -> u64
    requires across { across ≤ 1800000000 }
    requires up { up ≤ 1800000000 }
    ensures is { result ≡ straight across up }
    ensures small { result + 1 < 2 ^ 32 }
{
    root(across * across + up * up)
}

/// The greatest whole number whose square is at most n.
fn root(n: u64) -> u64
    ensures is { result ≡ root n }
    ensures low { result * result ≤ n }
{
    let guess = guessed_root(n);
    let next = guess + 1;
    if guess * guess <= n && n < next * next {
        guess
    } else {
        n.isqrt()
    }
}

/// About the root of the number: what it mostly is, rounded down.
fn guessed_root(n: u64) -> u64
    ensures { result + 1 < 2 ^ 32 }
{
    saturating_f64_to_u64(nearest_u64_to_f64(n).sqrt()).min(4_294_967_294)
}

/// The cost of the drive, the sum over its steps. None exactly where a step names no pair of a visible way or one of
/// its nodes has no location. Takes no memory, and for each step the time of its way's references.
pub fn drive_cost<M: World>(world: &M, drive: &[Step]) -> Option<u128>
    ensures { result ≡ cost_of (M.objects world.now) drive.now }
{
    let mut sum: u128 = 0;
    for step in drive {
        let Some(cost) = step_cost_of(world, *step) else {
            return None;
        };
        sum += u128::from(cost);
    }
    Some(sum)
}

/// The cost of the step. None exactly where it names no pair of a visible way or one of its nodes has no location.
fn step_cost_of<M: World>(world: &M, step: Step) -> Option<u64>
    ensures cost { result ≡ step_cost_of (M.objects world.now) step }
    ensures small { IfSome result (λ n. n < 2 ^ 32) }
{
    let Some(from) = location_of(world, tail(world, step)) else {
        return None;
    };
    let Some(to) = location_of(world, head(world, step)) else {
        return None;
    };
    Some(step_cost(from, to))
}

/// Where the node lies, if there is one that is visible with a location.
fn location_of<M: World>(world: &M, node: Option<NodeId>) -> Option<Location>
    ensures { result ≡ location_of (M.objects world.now) node }
{
    let Some(node) = node else {
        return None;
    };
    match world.node(node) {
        Some(body) => body.location,
        None => None,
    }
}

/// What it costs to pass the places one behind another: of the places of a piece from i to j, the cost of its steps
/// from i up to j. Takes no memory, and the time of the places.
pub fn places_cost(places: &[Place]) -> u128
    ensures cost { result ≡ places_cost places.now }
    ensures small { result ≤ length places.now * 2 ^ 32 }
{
    let mut sum: u128 = 0;
    let steps = places.len().saturating_sub(1);
    for step in 0..steps {
        sum += u128::from(step_cost(places[step].location, places[step + 1].location));
    }
    sum
}
