//! What the second profile for cars answers: which directions are for destination traffic, and all else as the first.
use access_profile::{Motorcar, Motorcar2, ProfileOf};
use object_tests::makers::tags;
use road_base::{Dir, Tags};
use road_model::Profile;
use std::alloc::Global;
use std::test::Fail;

/// Tags of a way, and whether the direction along it and the one against it are for destination traffic.
const ZONES: [(&str, bool, bool); 41] = [
    // each of the keys that may decide, for both directions and for one
    ("highway=service motorcar=destination", true, true),
    ("highway=service motorcar:forward=destination", true, false),
    ("highway=service motorcar:backward=destination", false, true),
    ("highway=service motor_vehicle=destination", true, true),
    (
        "highway=service motor_vehicle:forward=destination",
        true,
        false,
    ),
    (
        "highway=service motor_vehicle:backward=destination",
        false,
        true,
    ),
    ("highway=service vehicle=destination", true, true),
    ("highway=service vehicle:forward=destination", true, false),
    ("highway=service vehicle:backward=destination", false, true),
    ("highway=service access=destination", true, true),
    ("highway=service access:forward=destination", true, false),
    ("highway=service access:backward=destination", false, true),
    // the first key decides
    (
        "highway=service motorcar=yes access=destination",
        false,
        false,
    ),
    (
        "highway=service motorcar=destination access=yes",
        true,
        true,
    ),
    (
        "highway=service motor_vehicle=destination access=no",
        true,
        true,
    ),
    (
        "highway=service vehicle=destination motor_vehicle=no",
        false,
        false,
    ),
    (
        "highway=service access=destination access:forward=yes",
        false,
        true,
    ),
    (
        "highway=service access:backward=destination access=no",
        false,
        true,
    ),
    (
        "highway=service motorcar:backward=permissive vehicle=destination",
        true,
        false,
    ),
    // no key decides
    ("highway=service", false, false),
    (
        "highway=service bicycle=destination foot=destination",
        false,
        false,
    ),
    (
        "highway=service access:conditional=destination",
        false,
        false,
    ),
    ("highway=service access:both=destination", false, false),
    ("highway=destination", false, false),
    // other values
    ("highway=service access=yes", false, false),
    ("highway=service access=private", false, false),
    ("highway=service access=Destination", false, false),
    ("highway=service access=destination;delivery", false, false),
    ("highway=service access=", false, false),
    // the direction isn't free
    ("highway=service access=destination oneway=yes", true, false),
    ("highway=service access=destination oneway=-1", false, true),
    (
        "highway=service access=destination oneway=reversible",
        false,
        false,
    ),
    (
        "highway=service access=destination junction=roundabout",
        true,
        false,
    ),
    ("highway=motorway access=destination", true, false),
    ("highway=service access=destination area=yes", false, false),
    ("access=destination", false, false),
    ("highway=proposed motorcar=destination", false, false),
    // ways for others
    ("highway=track motor_vehicle=destination", true, true),
    ("highway=footway motorcar:forward=destination", true, false),
    ("highway=track vehicle=destination", false, false),
    ("highway=track access=destination", false, false),
];

/// Whether the profile tells of a way with these tags, along it and against it, that it is for destination traffic.
fn zones<P: Profile>(alloc: Global, profile: &P, of: &str) -> Result<(bool, bool), Fail> {
    let tags = tags(alloc, of)?;
    let along = profile.zone(&tags, Dir::Forward);
    Ok((along, profile.zone(&tags, Dir::Backward)))
}

#[test]
fn some_directions_are_for_destination_traffic(rt: HostRuntime) -> Result<(), Fail> {
    for (of, along, against) in ZONES {
        assert_eq!(rt;
            zones(rt.alloc(), &Motorcar2, of)?,
            (along, against),
            "at {of:?}"
        );
    }
    Ok(())
}

/// The first profile tells of none.
#[test]
fn the_first_profile_knows_no_zones(rt: HostRuntime) -> Result<(), Fail> {
    for (of, _, _) in ZONES {
        assert_eq!(rt;
            zones(rt.alloc(), &Motorcar, of)?,
            (false, false),
            "at {of:?}"
        );
    }
    Ok(())
}

/// Of the profile of this number, whether it takes via ways listed backward, and whether it knows a zone.
fn told(alloc: Global, number: u32) -> Result<Option<(bool, (bool, bool))>, Fail> {
    let Some(profile) = ProfileOf::new(number) else {
        return Ok(None);
    };
    let found = zones(
        alloc,
        &profile,
        "highway=service access:forward=destination",
    )?;
    Ok(Some((profile.reverses(), found)))
}

#[test]
fn the_second_profile_answers_otherwise(rt: HostRuntime) -> Result<(), Fail> {
    for (number, answers) in [
        (0, None),
        (1, Some((false, (false, false)))),
        (2, Some((true, (true, false)))),
        (3, None),
    ] {
        assert_eq!(rt; told(rt.alloc(), number)?, answers, "at {number}");
    }
    assert_eq!(rt; (Motorcar.number(), Motorcar2.number()), (1, 2));
    assert_eq!(rt; (Motorcar.reverses(), Motorcar2.reverses()), (false, true));
    Ok(())
}

/// Tags of ways, nodes and restrictions.
const OF_ALL: [&str; 12] = [
    "",
    "highway=service access=destination oneway=-1",
    "highway=service access=no motorcar=yes motor_vehicle:backward=no",
    "highway=track vehicle=yes",
    "highway=motorway area=yes",
    "highway=turning_circle",
    "barrier=bollard",
    "barrier=gate access=destination",
    "restriction=no_left_turn",
    "restriction:motorcar=only_left_turn restriction=no_left_turn",
    "except=psv;motorcar restriction=no_left_turn",
    "restriction=give_way",
];

/// Whether both profiles say the same of a direction of a way with these tags.
fn same_direction(tags: &Tags, dir: Dir) -> bool {
    Motorcar.direction(tags, dir) == Motorcar2.direction(tags, dir)
}

/// Whether all other answers of both profiles are the same for these tags.
fn are_same(alloc: Global, of: &str) -> Result<bool, Fail> {
    let tags = tags(alloc, of)?;
    let ways = same_direction(&tags, Dir::Forward) && same_direction(&tags, Dir::Backward);
    let nodes = Motorcar.turns(&tags) == Motorcar2.turns(&tags)
        && Motorcar.node_open(&tags) == Motorcar2.node_open(&tags);
    Ok(ways && nodes && Motorcar.rule(&tags) == Motorcar2.rule(&tags))
}

#[test]
fn all_other_answers_are_the_same(rt: HostRuntime) -> Result<(), Fail> {
    for of in OF_ALL {
        assert!(rt; are_same(rt.alloc(), of)?, "at {of:?}");
    }
    Ok(())
}
