//! The table of `barrier`, beside each key that may decide.
use barrier_rules::barrier_open;
use object_tests::makers::tags;
use std::alloc::Global;
use std::test::Fail;

const OPEN: [&str; 10] = [
    "cattle_grid",
    "toll_booth",
    "border_control",
    "entrance",
    "height_restrictor",
    "gate",
    "lift_gate",
    "sally_port",
    "kerb",
    "no",
];

const SHUT: [&str; 14] = [
    "",
    "yes",
    "bollard",
    "block",
    "cycle_barrier",
    "chain",
    "swing_gate",
    "fence",
    "wall",
    "kissing_gate",
    "stile",
    "turnstile",
    "Gate",
    "gate;bollard",
];

/// Whether one may pass by these tags.
fn is_passable(alloc: Global, of: &str) -> Result<bool, Fail> {
    let tags = tags(alloc, of)?;
    Ok(barrier_open(&tags))
}

/// The first of these kinds of barriers that doesn't answer so beside the tags.
fn first_other<'a>(
    alloc: Global,
    kinds: &[&'a str],
    rest: &str,
    open: bool,
) -> Result<Option<&'a str>, Fail> {
    for kind in kinds {
        let of = format!(in alloc; "barrier={kind} {rest}")?;
        if is_passable(alloc, &of)? != open {
            return Ok(Some(*kind));
        }
    }
    Ok(None)
}

/// Whether the barriers that are open without a key answer so beside the tags, and so those that are shut.
fn answer(alloc: Global, rest: &str, open: bool, shut: bool) -> Result<bool, Fail> {
    let first_open = first_other(alloc, &OPEN, rest, open)?;
    let first_shut = first_other(alloc, &SHUT, rest, shut)?;
    Ok(first_open.is_none() && first_shut.is_none())
}

/// Tags that decide nothing.
const RESTS: [&str; 5] = [
    "",
    "foot=yes",
    "access:conditional=no",
    "motorcar:forward=no",
    "motor_vehicle:lanes=yes",
];

/// Whether the tags decide nothing, at barriers and elsewhere.
fn decide_nothing(alloc: Global, rest: &str) -> Result<bool, Fail> {
    let bare = format!(in alloc; "highway=crossing {rest}")?;
    Ok(is_passable(alloc, &bare)? && answer(alloc, rest, true, false)?)
}

/// The first of the tags that decides anything.
fn first_deciding(alloc: Global) -> Result<Option<&'static str>, Fail> {
    for rest in RESTS {
        if !decide_nothing(alloc, rest)? {
            return Ok(Some(rest));
        }
    }
    Ok(None)
}

#[test]
fn barriers_decide_without_a_key(rt: HostRuntime) -> Result<(), Fail> {
    assert_eq!(rt; first_deciding(rt.alloc())?, None);
    Ok(())
}

/// Tags, and whether one may pass a barrier by them.
const KEYS: [(&str, bool); 20] = [
    ("motorcar=yes", true),
    ("motor_vehicle=permissive", true),
    ("vehicle=designated", true),
    ("access=destination", true),
    ("access=official", true),
    ("access=public", true),
    ("access=discouraged", true),
    ("access=unknown", true),
    ("motorcar=no", false),
    ("motor_vehicle=private", false),
    ("vehicle=customers", false),
    ("access=", false),
    ("access=Yes", false),
    ("access=no motorcar=yes", true),
    ("access=no motor_vehicle=yes", true),
    ("access=no vehicle=yes", true),
    ("access=yes vehicle=no", false),
    ("vehicle=yes motor_vehicle=no", false),
    ("motor_vehicle=yes motorcar=no", false),
    ("motor_vehicle=yes motorcar=", false),
];

/// Whether the tags decide so at each barrier, and nothing elsewhere.
fn decide(alloc: Global, keys: &str, open: bool) -> Result<bool, Fail> {
    Ok(is_passable(alloc, keys)? && answer(alloc, keys, open, open)?)
}

/// The first of the tags that decides otherwise.
fn first_undecided(alloc: Global) -> Result<Option<&'static str>, Fail> {
    for (keys, open) in KEYS {
        if !decide(alloc, keys, open)? {
            return Ok(Some(keys));
        }
    }
    Ok(None)
}

#[test]
fn first_key_decides_at_a_barrier(rt: HostRuntime) -> Result<(), Fail> {
    assert_eq!(rt; first_undecided(rt.alloc())?, None);
    Ok(())
}
