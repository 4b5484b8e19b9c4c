//! The table of `oneway`, beside each road that is usually driven along the way alone.
use object_tests::makers::tags;
use oneway_rules::oneway;
use road_base::Dir;
use std::alloc::Global;
use std::test::Fail;

/// Whether the directions along the way and against it are allowed.
fn allowed(alloc: Global, of: &str) -> Result<(bool, bool), Fail> {
    let tags = tags(alloc, of)?;
    Ok((oneway(&tags, Dir::Forward), oneway(&tags, Dir::Backward)))
}

const ROADS: [&str; 8] = [
    "highway=residential",
    "highway=motorway",
    "highway=motorway_link",
    "highway=primary junction=roundabout",
    "highway=primary junction=circular",
    "highway=motorway junction=yes",
    "junction=roundabout",
    "",
];

/// What is allowed beside a value of `oneway`.
const VALUES: [(&str, (bool, bool)); 10] = [
    ("yes", (true, false)),
    ("true", (true, false)),
    ("1", (true, false)),
    ("-1", (false, true)),
    ("reverse", (false, true)),
    ("no", (true, true)),
    ("false", (true, true)),
    ("0", (true, true)),
    ("alternating", (true, true)),
    ("reversible", (false, false)),
];

/// The first of the roads on which another answer is given.
fn first_other(
    alloc: Global,
    value: &str,
    want: (bool, bool),
) -> Result<Option<&'static str>, Fail> {
    for road in ROADS {
        let of = format!(in alloc; "{road} oneway={value}")?;
        if allowed(alloc, &of)? != want {
            return Ok(Some(road));
        }
    }
    Ok(None)
}

/// The first of the values and the roads by which another answer is given.
fn first_wrong(alloc: Global) -> Result<Option<(&'static str, &'static str)>, Fail> {
    for (value, want) in VALUES {
        if let Some(road) = first_other(alloc, value, want)? {
            return Ok(Some((value, road)));
        }
    }
    Ok(None)
}

#[test]
fn values_decide_on_every_road(rt: HostRuntime) -> Result<(), Fail> {
    assert_eq!(rt; first_wrong(rt.alloc())?, None);
    Ok(())
}

/// Whether the roads may be driven both ways.
const USUAL: [bool; 8] = [true, false, true, false, false, false, false, true];

/// Tags that decide nothing.
const RESTS: [&str; 6] = [
    "",
    "oneway=",
    "oneway=Yes",
    "oneway=-2",
    "oneway:bicycle=-1",
    "oneway:conditional=no",
];

/// The first of the tags beside which another answer is given.
fn first_deciding(alloc: Global, road: &str, both: bool) -> Result<Option<&'static str>, Fail> {
    for rest in RESTS {
        let of = format!(in alloc; "{road} {rest}")?;
        if allowed(alloc, &of)? != (true, both) {
            return Ok(Some(rest));
        }
    }
    Ok(None)
}

/// The first of the roads, and of the tags that decide there.
fn first_unusual(alloc: Global) -> Result<Option<(&'static str, &'static str)>, Fail> {
    for (road, both) in ROADS.into_iter().zip(USUAL) {
        if let Some(rest) = first_deciding(alloc, road, both)? {
            return Ok(Some((road, rest)));
        }
    }
    Ok(None)
}

#[test]
fn roads_have_their_usual_direction(rt: HostRuntime) -> Result<(), Fail> {
    assert_eq!(rt; first_unusual(rt.alloc())?, None);
    Ok(())
}
