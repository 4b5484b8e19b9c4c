//! What the profile at a moment answers: which directions are open and which are for destination traffic, by
//! conditional access keys, and all else as the profile of its number.
ghost use Rattle.road_base.specs.Profiles.{IsProfile};

use access_profile::ProfileOf;
use moment_rules::{AtMoment, Moment, parse_moment};
use object_tests::makers::{tags_of, text};
use road_base::{Dir, NoMemory, Tags, Text};
use road_model::{Access, AccessKey, ClosedBy, Profile};
use std::alloc::Global;
use std::test::Fail;

/// A Monday.
const NIGHT: &str = "2024-05-06T23:00";

const NOON: &str = "2024-05-06T12:00";

fn conditional(name: AccessKey, side: Option<Dir>) -> Access {
    Access::Closed(ClosedBy::Conditional { name, side })
}

fn deciding(name: AccessKey, side: Option<Dir>) -> Access {
    Access::Closed(ClosedBy::Deciding { name, side })
}

const BY_HIGHWAY: Access = Access::Closed(ClosedBy::Highway);

/// Puts the tag, as `access=no`, behind the others.
fn add(alloc: Global, tag: &str, list: &mut Vec<(Text, Text)>) -> Result<(), NoMemory> {
    if let Some((key, value)) = tag.split_once('=') {
        list.push((text(alloc, key)?, text(alloc, value)?))?;
    }
    Ok(())
}

/// The tags, as `access=no|highway=service`.
fn way(alloc: Global, of: &str) -> Result<Tags, Fail> {
    let mut list = Vec::new(alloc);
    for tag in of.split('|') {
        add(alloc, tag, &mut list)?;
    }
    list.sort_by(|a, b| a.0.as_str().cmp(b.0.as_str()))?;
    tags_of(list)
}

/// The moment of the text.
fn moment(of: &str) -> Result<Moment, Fail> {
    match parse_moment(of) {
        Some(at) => Ok(at),
        None => Err(Fail::from("no moment")),
    }
}

/// What is answered at the moment, along a way with these tags and against it.
fn directions(alloc: Global, of: &str, at: &str) -> Result<(Access, Access), Fail> {
    let (tags, profile) = (way(alloc, of)?, AtMoment::new(1, moment(at)?));
    let along = profile.direction(&tags, Dir::Forward);
    Ok((along, profile.direction(&tags, Dir::Backward)))
}

/// Whether this is answered along the way and against it, first in the night and then at noon.
fn answers(
    alloc: Global,
    of: &str,
    night: (Access, Access),
    noon: (Access, Access),
) -> Result<bool, Fail> {
    Ok(directions(alloc, of, NIGHT)? == night && directions(alloc, of, NOON)? == noon)
}

/// The same both along a way and against it.
fn both(access: Access) -> (Access, Access) {
    (access, access)
}

/// Tags of ways that are free at noon, and by which conditional key they are closed in the night.
const CLOSED_IN_THE_NIGHT: [(&str, AccessKey); 9] = [
    (
        "highway=service|access:conditional=no @ (22:00-06:00)",
        AccessKey::Access,
    ),
    (
        "highway=service|vehicle:conditional=no @ 22:00-06:00",
        AccessKey::Vehicle,
    ),
    (
        "highway=service|motor_vehicle:conditional=private @ (Mo-Fr 22:00-06:00)",
        AccessKey::MotorVehicle,
    ),
    (
        "highway=service|motorcar:conditional=no@Mo 22:00-24:00",
        AccessKey::Motorcar,
    ),
    // a conditional key comes before the key alone
    (
        "highway=service|access=yes|access:conditional=no @ (22:00-06:00)",
        AccessKey::Access,
    ),
    // and an earlier one before a later key
    (
        "highway=service|access=yes|motorcar:conditional=no @ (22:00-06:00)",
        AccessKey::Motorcar,
    ),
    (
        "highway=service|access:conditional=yes @ (20:00-08:00)|motorcar:conditional=no @ (22:00-06:00)",
        AccessKey::Motorcar,
    ),
    // the last part that applies decides
    (
        "highway=service|access:conditional=yes @ (20:00-24:00); no @ (22:00-06:00)",
        AccessKey::Access,
    ),
    // of ways for others only keys of motor vehicles tell
    (
        "highway=track|motor_vehicle=yes|motor_vehicle:conditional=no @ (22:00-06:00)",
        AccessKey::MotorVehicle,
    ),
];

#[test]
fn some_ways_are_closed_in_the_night(rt: HostRuntime) -> Result<(), Fail> {
    let alloc = rt.alloc();
    for (of, name) in CLOSED_IN_THE_NIGHT {
        let night = both(conditional(name, None));
        assert!(rt; answers(alloc, of, night, both(Access::Free))?, "at {of:?}");
    }
    Ok(())
}

/// Tags of ways of which what is answered is the same in the night and at noon.
const ALWAYS: [(&str, Access); 14] = [
    // an earlier key comes before a later conditional one
    (
        "highway=service|motorcar=yes|access:conditional=no @ (00:00-24:00)",
        Access::Free,
    ),
    (
        "highway=service|motor_vehicle=permissive|vehicle:conditional=no @ Mo",
        Access::Free,
    ),
    // no part applies
    (
        "highway=service|access:conditional=no @ (Sa-Su)",
        Access::Free,
    ),
    (
        "highway=service|access=destination|access:conditional=no @ (Tu 22:00-06:00)",
        Access::Free,
    ),
    // a value that isn't read leaves the key alone, or the next one
    (
        "highway=service|access=yes|access:conditional=no @ (PH)",
        Access::Free,
    ),
    (
        "highway=service|access=yes|access:conditional=no @ Mo; no @ (sunset-sunrise)",
        Access::Free,
    ),
    (
        "highway=service|access=yes|motorcar:conditional=no @ (weight>3.5)",
        Access::Free,
    ),
    (
        "highway=service|access=yes|access:conditional=no @ Mo;",
        Access::Free,
    ),
    ("highway=service|access:conditional=no", Access::Free),
    ("highway=service|access:conditional=", Access::Free),
    // other keys aren't looked at
    (
        "highway=service|bicycle:conditional=no @ Mo|oneway:conditional=yes @ Mo",
        Access::Free,
    ),
    // ways for others
    ("highway=footway|access:conditional=yes @ Mo", BY_HIGHWAY),
    ("highway=path|vehicle:conditional=no @ Mo", BY_HIGHWAY),
    (
        "area=yes|highway=service|access:conditional=yes @ Mo",
        Access::Closed(ClosedBy::Area),
    ),
];

#[test]
fn some_ways_are_the_same_at_all_times(rt: HostRuntime) -> Result<(), Fail> {
    let alloc = rt.alloc();
    for (of, access) in ALWAYS {
        assert!(rt;
            answers(alloc, of, both(access), both(access))?,
            "at {of:?}"
        );
    }
    Ok(())
}

/// Where the key alone closes the way, it is named, and where the conditional one opens it, the way is free.
#[test]
fn keys_alone_are_named_where_they_close(rt: HostRuntime) -> Result<(), Fail> {
    let alloc = rt.alloc();
    let closed = both(deciding(AccessKey::Access, None));
    let of = "highway=service|access=no|access:conditional=yes @ (22:00-06:00)";
    assert!(rt; answers(alloc, of, both(Access::Free), closed)?);
    let of = "highway=service|access=no|vehicle:conditional=destination @ (Mo 20:00-24:00)";
    assert!(rt; answers(alloc, of, both(Access::Free), closed)?);
    let of = "highway=service|access=no|vehicle:conditional=destination @ (PH)";
    assert!(rt; answers(alloc, of, closed, closed)?);
    Ok(())
}

/// Ways that are closed to cars at noon, and opened in the night by keys for motor vehicles.
#[test]
fn ways_for_others_are_opened(rt: HostRuntime) -> Result<(), Fail> {
    let alloc = rt.alloc();
    let closed = both(BY_HIGHWAY);
    let of = "highway=pedestrian|motor_vehicle:conditional=yes @ (22:00-06:00)";
    assert!(rt; answers(alloc, of, both(Access::Free), closed)?);
    let of = "highway=busway|motorcar:conditional=permissive @ (20:00-06:00)";
    assert!(rt; answers(alloc, of, both(Access::Free), closed)?);
    let of = "access=yes|highway=footway|motorcar:forward:conditional=yes @ Mo 22:00-24:00";
    assert!(rt; answers(alloc, of, (Access::Free, BY_HIGHWAY), closed)?);
    Ok(())
}

/// A key with a direction counts in this direction alone, and before the one without.
#[test]
fn keys_of_a_direction_count_in_it(rt: HostRuntime) -> Result<(), Fail> {
    let alloc = rt.alloc();
    let free = both(Access::Free);
    let back = conditional(AccessKey::MotorVehicle, Some(Dir::Backward));
    let of = "highway=service|motor_vehicle:backward:conditional=no @ (Mo 22:00-06:00)";
    assert!(rt; answers(alloc, of, (Access::Free, back), free)?);
    let of =
        "highway=service|motor_vehicle:conditional=yes @ Mo|motor_vehicle:backward:conditional=no @ (22:00-06:00)";
    assert!(rt; answers(alloc, of, (Access::Free, back), free)?);
    let along = conditional(AccessKey::Access, Some(Dir::Forward));
    let of = "highway=service|access:forward:conditional=no @ (22:00-06:00)|oneway=yes";
    assert!(rt;
        answers(
            alloc,
            of,
            (along, Access::WrongWay),
            (Access::Free, Access::WrongWay)
        )?
    );
    Ok(())
}

/// Under the profile of this number at this moment, whether the directions along a way with these tags and against it
/// are for destination traffic.
fn zones(alloc: Global, number: u32, of: &str, at: &str) -> Result<(bool, bool), Fail>
    requires { IsProfile number }
{
    let (tags, profile) = (way(alloc, of)?, AtMoment::new(number, moment(at)?));
    let along = profile.zone(&tags, Dir::Forward);
    Ok((along, profile.zone(&tags, Dir::Backward)))
}

/// Tags of ways, and whether they are for destination traffic in the night and at noon.
const ZONES: [(&str, bool, bool); 6] = [
    (
        "highway=service|access:conditional=destination @ (22:00-06:00)",
        true,
        false,
    ),
    (
        "highway=service|access=destination|access:conditional=yes @ (22:00-06:00)",
        false,
        true,
    ),
    (
        "highway=service|access=destination|access:conditional=no @ (22:00-06:00)",
        false,
        true,
    ),
    (
        "highway=service|access=destination|access:conditional=no @ (PH)",
        true,
        true,
    ),
    (
        "highway=service|access:conditional=destination @ (22:00-06:00)|motorcar=yes",
        false,
        false,
    ),
    (
        "highway=footway|motor_vehicle:conditional=destination @ (22:00-06:00)",
        true,
        false,
    ),
];

#[test]
fn zones_go_by_the_moment(rt: HostRuntime) -> Result<(), Fail> {
    let alloc = rt.alloc();
    for (of, night, noon) in ZONES {
        assert_eq!(rt; zones(alloc, 2, of, NIGHT)?, (night, night), "at {of:?}");
        assert_eq!(rt; zones(alloc, 2, of, NOON)?, (noon, noon), "at {of:?}");
        assert_eq!(rt; zones(alloc, 1, of, NIGHT)?, (false, false), "at {of:?}");
    }
    Ok(())
}

/// Whether all answers but directions and zones are those of the profile of the number.
fn is_as_ever(alloc: Global, profile: &AtMoment, of: &str) -> Result<bool, Fail> {
    let tags = way(alloc, of)?;
    let Some(plain) = ProfileOf::new(profile.number()) else {
        return Ok(false);
    };
    let nodes = profile.node_open(&tags) == plain.node_open(&tags)
        && profile.turns(&tags) == plain.turns(&tags);
    Ok(nodes && profile.rule(&tags) == plain.rule(&tags) && profile.reverses() == plain.reverses())
}

#[test]
fn all_else_is_as_ever(rt: HostRuntime) -> Result<(), Fail> {
    let alloc = rt.alloc();
    let (first, second) = (
        AtMoment::new(1, moment(NIGHT)?),
        AtMoment::new(2, moment(NIGHT)?),
    );
    assert_eq!(rt; (first.number(), second.number()), (1, 2));
    assert_eq!(rt; (first.reverses(), second.reverses()), (false, true));
    for of in [
        "barrier=gate|access:conditional=no @ Mo",
        "barrier=bollard|access=yes",
        "highway=turning_circle",
        "restriction:conditional=no_left_turn @ Mo",
        "restriction=only_left_turn",
        "except=motorcar|restriction=no_left_turn",
    ] {
        assert!(rt; is_as_ever(alloc, &first, of)?, "at {of:?}");
        assert!(rt; is_as_ever(alloc, &second, of)?, "at {of:?}");
    }
    Ok(())
}
