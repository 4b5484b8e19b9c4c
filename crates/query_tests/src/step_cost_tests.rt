//! What steps cost, as the rule's worked numbers have it.
use least_cost::step_cost;
use road_base::{Location, is_in_range};
use std::test::Fail;

/// Two places, as longitude and latitude in units of 1e-7 degree, and what a step between them costs: at 60 degrees,
/// where the fraction is one half; over the antimeridian; at one place; round a pole; from pole to pole; half round the
/// earth; and near the equator.
const STEPS: [((i32, i32), (i32, i32), u64); 10] = [
    ((0, 600_000_000), (10_000_000, 600_000_000), 5_000_001),
    ((1_800_000_000, 0), (-1_800_000_000, 0), 1),
    ((1_800_000_000, 0), (-1_799_999_990, 0), 11),
    ((7, 7), (7, 7), 1),
    ((0, 900_000_000), (1_800_000_000, 900_000_000), 1),
    (
        (-1_800_000_000, -900_000_000),
        (1_800_000_000, 900_000_000),
        1_800_000_001,
    ),
    ((0, 0), (1_800_000_000, 0), 1_800_000_001),
    (
        (0, -900_000_000),
        (1_800_000_000, 900_000_000),
        2_545_584_413,
    ),
    ((0, -2), (3, 2), 6),
    ((0, 0), (3, 4), 5),
];

/// The place, None where it is none.
fn place(at: (i32, i32)) -> Option<Location> {
    let (lon, lat) = at;
    if is_in_range(lon, lat) {
        Some(Location { lon, lat })
    } else {
        None
    }
}

#[test]
fn steps_cost_what_the_rule_says(rt: HostRuntime) -> Result<(), Fail> {
    for (a, b, cost) in STEPS {
        let (Some(from), Some(to)) = (place(a), place(b)) else {
            return Err(Fail::from("a place out of range"));
        };
        assert_eq!(rt; step_cost(from, to), cost, "from {a:?} to {b:?}");
        assert_eq!(rt; step_cost(to, from), cost, "from {b:?} to {a:?}");
    }
    Ok(())
}
