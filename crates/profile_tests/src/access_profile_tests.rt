//! Both classes of ways with each key that may decide, the order of these keys, and what restrictions say.
use access_profile::{Motorcar, ProfileOf, deciding};
use object_tests::makers::{tags, tags_of, text};
use road_base::{Dir, NoMemory, Tags, Text};
use road_model::{Access, AccessKey, ClosedBy, Profile, RuleKind};
use std::alloc::Global;
use std::test::Fail;

/// What the profile answers for a way along it and against it.
fn directions(alloc: Global, of: &str) -> Result<(Access, Access), Fail> {
    let tags = tags(alloc, of)?;
    let along = Motorcar.direction(&tags, Dir::Forward);
    Ok((along, Motorcar.direction(&tags, Dir::Backward)))
}

fn closed(name: AccessKey, side: Option<Dir>) -> Access {
    Access::Closed(ClosedBy::Deciding { name, side })
}

const BY_HIGHWAY: Access = Access::Closed(ClosedBy::Highway);

const FOR_CARS: [&str; 14] = [
    "trunk",
    "primary",
    "secondary",
    "tertiary",
    "motorway_link",
    "trunk_link",
    "primary_link",
    "secondary_link",
    "tertiary_link",
    "unclassified",
    "residential",
    "living_street",
    "service",
    "road",
];

const FOR_OTHERS: [&str; 7] = [
    "track",
    "pedestrian",
    "cycleway",
    "footway",
    "path",
    "bridleway",
    "busway",
];

const KEYS: [(&str, AccessKey, Option<Dir>); 8] = [
    ("motorcar:forward", AccessKey::Motorcar, Some(Dir::Forward)),
    ("motorcar", AccessKey::Motorcar, None),
    (
        "motor_vehicle:forward",
        AccessKey::MotorVehicle,
        Some(Dir::Forward),
    ),
    ("motor_vehicle", AccessKey::MotorVehicle, None),
    ("vehicle:forward", AccessKey::Vehicle, Some(Dir::Forward)),
    ("vehicle", AccessKey::Vehicle, None),
    ("access:forward", AccessKey::Access, Some(Dir::Forward)),
    ("access", AccessKey::Access, None),
];

/// What is answered along a way of the class with this value of the key.
fn along(alloc: Global, class: &str, key: &str, value: &str) -> Result<Access, Fail> {
    let of = format!(in alloc; "highway={class} {key}={value}")?;
    Ok(directions(alloc, &of)?.0)
}

/// The first of these classes of which another answer is given.
fn first_other<'a>(
    alloc: Global,
    classes: &[&'a str],
    key: &str,
    value: &str,
    want: Access,
) -> Result<Option<&'a str>, Fail> {
    for class in classes {
        if along(alloc, class, key, value)? != want {
            return Ok(Some(*class));
        }
    }
    Ok(None)
}

#[test]
fn each_key_decides_for_cars(rt: HostRuntime) -> Result<(), Fail> {
    let alloc = rt.alloc();
    for (key, name, side) in KEYS {
        let open = first_other(alloc, &FOR_CARS, key, "permissive", Access::Free)?;
        assert_eq!(rt; open, None, "at {key}");
        let shut = first_other(alloc, &FOR_CARS, key, "private", closed(name, side))?;
        assert_eq!(rt; shut, None, "at {key}");
    }
    Ok(())
}

/// What is answered of a way for others where the value of the key opens, and where it doesn't.
fn for_others(name: AccessKey, side: Option<Dir>) -> (Access, Access) {
    match name {
        AccessKey::Motorcar | AccessKey::MotorVehicle => (Access::Free, closed(name, side)),
        _ => (BY_HIGHWAY, BY_HIGHWAY),
    }
}

#[test]
fn keys_of_motors_decide_for_others(rt: HostRuntime) -> Result<(), Fail> {
    let alloc = rt.alloc();
    for (key, name, side) in KEYS {
        let (opened, closed) = for_others(name, side);
        let open = first_other(alloc, &FOR_OTHERS, key, "permissive", opened)?;
        assert_eq!(rt; open, None, "at {key}");
        let shut = first_other(alloc, &FOR_OTHERS, key, "", closed)?;
        assert_eq!(rt; shut, None, "at {key}");
    }
    Ok(())
}

const OTHER_CLASSES: [&str; 9] = [
    "",
    "construction",
    "proposed",
    "steps",
    "corridor",
    "raceway",
    "Primary",
    "primary;service",
    "tracks",
];

/// Tags that decide nothing.
const RESTS: [&str; 6] = [
    "",
    "access:conditional=no",
    "motorcar:lanes=no",
    "bicycle=no",
    "area=no",
    "vehicle:both=no",
];

/// The first of these classes whose ways aren't answered so in both directions.
fn first_not_so<'a>(
    alloc: Global,
    classes: &[&'a str],
    rest: &str,
    want: Access,
) -> Result<Option<&'a str>, Fail> {
    for class in classes {
        let of = format!(in alloc; "highway={class} {rest}")?;
        if directions(alloc, &of)? != (want, want) {
            return Ok(Some(*class));
        }
    }
    Ok(None)
}

#[test]
fn classes_decide_without_a_key(rt: HostRuntime) -> Result<(), Fail> {
    for rest in RESTS {
        for (classes, want) in [
            (FOR_CARS.as_slice(), Access::Free),
            (FOR_OTHERS.as_slice(), BY_HIGHWAY),
            (OTHER_CLASSES.as_slice(), BY_HIGHWAY),
        ] {
            let other = first_not_so(rt.alloc(), classes, rest, want)?;
            assert_eq!(rt; other, None, "at {rest:?}");
        }
        assert_eq!(rt;
            directions(rt.alloc(), rest)?,
            (BY_HIGHWAY, BY_HIGHWAY),
            "at {rest:?}"
        );
    }
    Ok(())
}

const FREE: Access = Access::Free;

const AREA: Access = Access::Closed(ClosedBy::Area);

const WRONG: Access = Access::WrongWay;

const NO_MOTORS: Access = Access::Closed(ClosedBy::Deciding {
    name: AccessKey::MotorVehicle,
    side: None,
});

const NO_MOTORS_BACK: Access = Access::Closed(ClosedBy::Deciding {
    name: AccessKey::MotorVehicle,
    side: Some(Dir::Backward),
});

const NO_ACCESS: Access = Access::Closed(ClosedBy::Deciding {
    name: AccessKey::Access,
    side: None,
});

const NO_ACCESS_ALONG: Access = Access::Closed(ClosedBy::Deciding {
    name: AccessKey::Access,
    side: Some(Dir::Forward),
});

const NO_MOTORCAR: Access = Access::Closed(ClosedBy::Deciding {
    name: AccessKey::Motorcar,
    side: None,
});

/// Tags, and the answers along the way and against it.
const REASONS: [(&str, Access, Access); 16] = [
    (
        "highway=service access=no motorcar=yes motor_vehicle:backward=no",
        FREE,
        FREE,
    ),
    (
        "highway=service vehicle=yes access=no motor_vehicle:backward=no",
        FREE,
        NO_MOTORS_BACK,
    ),
    ("highway=track vehicle=yes", BY_HIGHWAY, BY_HIGHWAY),
    (
        "highway=track vehicle=yes motor_vehicle=no",
        NO_MOTORS,
        NO_MOTORS,
    ),
    (
        "highway=track motor_vehicle:forward=yes access=yes",
        FREE,
        BY_HIGHWAY,
    ),
    ("highway=motorway", FREE, WRONG),
    ("highway=motorway oneway=-1", WRONG, FREE),
    ("highway=service junction=roundabout", FREE, WRONG),
    ("highway=service oneway=reversible", WRONG, WRONG),
    ("highway=service oneway=yes access=no", NO_ACCESS, NO_ACCESS),
    ("highway=service area=yes", AREA, AREA),
    ("area=yes motorcar=no oneway=yes", AREA, AREA),
    ("highway=footway area=yes", AREA, AREA),
    ("railway=rail motorcar=yes", BY_HIGHWAY, BY_HIGHWAY),
    (
        "highway=service access:forward=no access=yes",
        NO_ACCESS_ALONG,
        FREE,
    ),
    (
        "highway=service motorcar=no motorcar:forward=destination",
        FREE,
        NO_MOTORCAR,
    ),
];

#[test]
fn first_reason_closes(rt: HostRuntime) -> Result<(), Fail> {
    for (of, along, against) in REASONS {
        assert_eq!(rt; directions(rt.alloc(), of)?, (along, against), "at {of:?}");
    }
    Ok(())
}

const ALL_KEYS: &str =
    "access=a access:backward=b vehicle=c motor_vehicle:backward=d motor_vehicle=e motorcar:forward=f";

/// Tags, a direction, and the key that decides, with its side.
const NAMED: [(&str, Dir, Option<(AccessKey, Option<Dir>)>); 3] = [
    (
        ALL_KEYS,
        Dir::Forward,
        Some((AccessKey::Motorcar, Some(Dir::Forward))),
    ),
    (
        ALL_KEYS,
        Dir::Backward,
        Some((AccessKey::MotorVehicle, Some(Dir::Backward))),
    ),
    (
        "motorcar:lanes=no access:conditional=no bicycle=no",
        Dir::Forward,
        None,
    ),
];

fn decided(alloc: Global, of: &str, dir: Dir) -> Result<Option<(AccessKey, Option<Dir>)>, Fail> {
    let tags = tags(alloc, of)?;
    Ok(deciding(&tags, dir))
}

#[test]
fn deciding_keys_are_named(rt: HostRuntime) -> Result<(), Fail> {
    for (of, dir, key) in NAMED {
        assert_eq!(rt; decided(rt.alloc(), of, dir)?, key, "{dir:?} at {of:?}");
    }
    assert_eq!(rt; Motorcar.number(), 1);
    Ok(())
}

/// The profile of the number, with its answers along a way and against it.
fn numbered(alloc: Global, number: u32) -> Result<Option<(u32, Access, Access)>, Fail> {
    let Some(profile) = ProfileOf::new(number) else {
        return Ok(None);
    };
    let tags = tags(alloc, "highway=motorway access=destination")?;
    let along = profile.direction(&tags, Dir::Forward);
    Ok(Some((
        profile.number(),
        along,
        profile.direction(&tags, Dir::Backward),
    )))
}

#[test]
fn profiles_have_numbers(rt: HostRuntime) -> Result<(), Fail> {
    for (number, answers) in [
        (0, None),
        (1, Some((1, FREE, WRONG))),
        (2, Some((2, FREE, WRONG))),
        (3, None),
        (4_294_967_295, None),
    ] {
        assert_eq!(rt; numbered(rt.alloc(), number)?, answers, "at {number}");
    }
    Ok(())
}

/// Whether the first profile takes via ways listed backward, and whether it knows a zone along a way with these tags.
fn reverses_or_zones(alloc: Global, of: &str) -> Result<(bool, bool), Fail> {
    let tags = tags(alloc, of)?;
    Ok((Motorcar.reverses(), Motorcar.zone(&tags, Dir::Forward)))
}

#[test]
fn cars_know_no_zones(rt: HostRuntime) -> Result<(), Fail> {
    for of in [
        "",
        "highway=service access=destination",
        "motorcar=destination",
    ] {
        assert_eq!(rt;
            reverses_or_zones(rt.alloc(), of)?,
            (false, false),
            "at {of:?}"
        );
    }
    Ok(())
}

/// Tags of a node, whether one may turn there, and whether it lets through.
const NODES: [(&str, bool, bool); 5] = [
    ("highway=turning_circle", true, true),
    ("highway=turning_loop barrier=bollard", true, false),
    ("highway=turning_circle;crossing barrier=gate", false, true),
    (
        "turning_circle=yes barrier=bollard motorcar=yes",
        false,
        true,
    ),
    ("", false, true),
];

/// Whether one may turn at a node with these tags, and whether it lets through.
fn at_node(alloc: Global, of: &str) -> Result<(bool, bool), Fail> {
    let tags = tags(alloc, of)?;
    Ok((Motorcar.turns(&tags), Motorcar.node_open(&tags)))
}

#[test]
fn nodes_turn_and_let_through(rt: HostRuntime) -> Result<(), Fail> {
    for (of, turns, open) in NODES {
        assert_eq!(rt; at_node(rt.alloc(), of)?, (turns, open), "at {of:?}");
    }
    Ok(())
}

const KINDS: [(&str, RuleKind); 16] = [
    ("restriction=no_left_turn", RuleKind::No),
    ("restriction=no_", RuleKind::No),
    ("restriction=only_straight_on", RuleKind::Only),
    ("restriction=no", RuleKind::Absent),
    ("restriction=give_way", RuleKind::Absent),
    ("restriction= ", RuleKind::Absent),
    ("restriction:hgv=no_left_turn", RuleKind::Absent),
    ("restriction:motorcar=only_left_turn", RuleKind::Only),
    (
        "restriction:motorcar=none restriction=no_left_turn",
        RuleKind::Absent,
    ),
    (
        "restriction:motorcar= restriction=no_left_turn",
        RuleKind::Absent,
    ),
    ("except=motorcar restriction=no_left_turn", RuleKind::Freed),
    ("except=vehicle", RuleKind::Freed),
    (
        "except=psv;motorcar restriction=only_left_turn",
        RuleKind::Freed,
    ),
    (
        "except=psv;bicycle restriction=only_left_turn",
        RuleKind::Only,
    ),
    ("except=motorcars restriction=no_left_turn", RuleKind::No),
    ("except= restriction=no_left_turn", RuleKind::No),
];

/// The kind of a restriction with these tags.
fn kind_of(alloc: Global, of: &str) -> Result<RuleKind, Fail> {
    let tags = tags(alloc, of)?;
    Ok(Motorcar.rule(&tags))
}

#[test]
fn restrictions_have_a_kind(rt: HostRuntime) -> Result<(), Fail> {
    for (of, kind) in KINDS {
        assert_eq!(rt; kind_of(rt.alloc(), of)?, kind, "at {of:?}");
    }
    Ok(())
}

/// Values of `except`, and the kind of a restriction with them.
const EXCEPTIONS: [(&str, RuleKind); 7] = [
    ("psv ;  motor_vehicle ; taxi", RuleKind::Freed),
    ("  motorcar", RuleKind::Freed),
    (";vehicle ", RuleKind::Freed),
    ("motor car", RuleKind::No),
    ("motorcar,psv", RuleKind::No),
    ("\tmotorcar", RuleKind::No),
    ("  ", RuleKind::No),
];

fn add_tag(
    alloc: Global,
    list: &mut Vec<(Text, Text)>,
    key: &str,
    value: &str,
) -> Result<(), NoMemory> {
    let key = text(alloc, key)?;
    list.push((key, text(alloc, value)?))?;
    Ok(())
}

/// The tags of a restriction with an exception.
fn excepted(alloc: Global, value: &str) -> Result<Tags, Fail> {
    let mut list = Vec::new(alloc);
    add_tag(alloc, &mut list, "except", value)?;
    add_tag(alloc, &mut list, "restriction", "no_left_turn")?;
    tags_of(list)
}

/// The kind of a restriction with that exception.
fn kind_beside(alloc: Global, value: &str) -> Result<RuleKind, Fail> {
    let tags = excepted(alloc, value)?;
    Ok(Motorcar.rule(&tags))
}

#[test]
fn spaces_around_an_exception_are_dropped(rt: HostRuntime) -> Result<(), Fail> {
    for (value, kind) in EXCEPTIONS {
        assert_eq!(rt; kind_beside(rt.alloc(), value)?, kind, "at {value:?}");
    }
    Ok(())
}
