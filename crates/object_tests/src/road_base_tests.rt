//! The happy path of each public call, with ample memory.
ghost use Rattle.std.specs.Prelude.{◌≡◌, ◌<◌};

use crate::makers::event_of;
use road_base::{
    Body, Dir, Drive, Key, Keys, LittleEndian, Location, Member, NoMemory, NodeId, RelationId,
    Step, Steps, Tags, WayId, Ways, is_in_range, is_profile,
};
use std::alloc::{AllocError, AllocFailed, Global};
use std::marker::Brand;
use std::mem::size_of;
use std::sync::ledger::{Blank, Ledger};
use std::test::Fail;

const PLACE: Location = Location {
    lon: 133_777_500,
    lat: 525_162_000,
};

/// A node at that place, a way, a relation, and the deletion of a node.
const NODE: &[u8] = b"n4 v3 Tbridge=yes,highway=primary,name=Lange%20%Br%fc%cke x13.37775 y52.5162";

const WAY: &[u8] = b"w7 v1 Tbridge=yes,highway=primary,name=Lange%20%Br%fc%cke Nn4,n-5,n4";

const RELATION: &[u8] = b"r1 v1 Tbridge=yes,highway=primary,name=Lange%20%Br%fc%cke Mw7@across";

const EACH_BODY: [&[u8]; 4] = [NODE, WAY, RELATION, b"n1 v1 dD"];

/// A copy of the body of the event.
fn copied(alloc: Global, line: &[u8]) -> Result<Body, Fail> {
    let event = event_of(alloc, line)?;
    Ok(event.body.copy()?)
}

/// A copy of the node's tags.
fn copied_tags(alloc: Global) -> Result<Tags, Fail> {
    let event = event_of(alloc, NODE)?;
    match &event.body {
        Body::Node(node) => Ok(node.tags.copy()?),
        _ => Err(Fail::from("the line spells no node")),
    }
}

fn is_at_place(body: &Body) -> bool {
    match body {
        Body::Node(node) => node.location == Some(PLACE),
        _ => false,
    }
}

fn refs_in(body: &Body) -> &[NodeId] {
    match body {
        Body::Way(way) => way.refs.items(),
        _ => &[],
    }
}

fn members_in(body: &Body) -> &[Member] {
    match body {
        Body::Relation(relation) => relation.members.items(),
        _ => &[],
    }
}

#[test]
fn a_key_is_looked_up(rt: HostRuntime) -> Result<(), Fail> {
    let tags = copied_tags(rt.alloc())?;
    let cases = [
        ("access", None),
        ("bridge", Some("yes")),
        ("foot", None),
        ("highway", Some("primary")),
        ("highways", None),
        ("name", Some("Lange Brücke")),
        ("oneway", None),
    ];
    for (key, value) in cases {
        assert_eq!(rt; tags.get(key), value, "at {key}");
    }
    assert_eq!(rt; tags.items().len(), 3);
    Ok(())
}

#[test]
fn a_node_is_copied(rt: HostRuntime) -> Result<(), Fail> {
    let event = event_of(rt.alloc(), NODE)?;
    let copied = event.copy()?;
    assert_eq!(rt; copied.key, Key::Node(NodeId(4)));
    assert_eq!(rt; copied.version, 3);
    assert!(rt; is_at_place(&copied.body));
    Ok(())
}

#[test]
fn a_way_is_copied(rt: HostRuntime) -> Result<(), Fail> {
    let copied = copied(rt.alloc(), WAY)?;
    assert_eq!(rt;
        refs_in(&copied),
        [NodeId(4), NodeId(-5), NodeId(4)].as_slice()
    );
    Ok(())
}

#[test]
fn a_relation_is_copied(rt: HostRuntime) -> Result<(), Fail> {
    let copied = copied(rt.alloc(), RELATION)?;
    let members = members_in(&copied);
    assert_eq!(rt; members.len(), 1);
    assert_eq!(rt; members[0].item, Key::Way(WayId(7)));
    assert_eq!(rt; members[0].role.as_str(), "across");
    Ok(())
}

#[test]
fn a_deletion_is_copied(rt: HostRuntime) -> Result<(), Fail> {
    assert!(rt; matches!(Body::Deleted.copy()?, Body::Deleted));
    Ok(())
}

fn each_body(alloc: Global) -> Result<Vec<Body>, Fail> {
    let mut bodies = Vec::new(alloc);
    for line in EACH_BODY {
        bodies.push(event_of(alloc, line)?.body)?;
    }
    Ok(bodies)
}

/// Whether the body is the same as the one at the place alone.
fn is_at_alone(body: &Body, at: usize, bodies: &[Body]) -> bool {
    bodies
        .iter()
        .enumerate()
        .all(|(other, that)| body.same(that) == (at == other))
}

#[test]
fn bodies_are_the_same_as_their_copies_alone(rt: HostRuntime) -> Result<(), Fail> {
    let bodies = each_body(rt.alloc())?;
    for (at, body) in bodies.iter().enumerate() {
        let copied = body.copy()?;
        assert!(rt; is_at_alone(&copied, at, &bodies), "body {at}");
    }
    Ok(())
}

const STEPS: [Step; 2] = [
    Step {
        way: WayId(7),
        index: 0,
        dir: Dir::Forward,
    },
    Step {
        way: WayId(7),
        index: 0,
        dir: Dir::Backward,
    },
];

#[test]
fn a_drive_is_copied(rt: HostRuntime) -> Result<(), Fail> {
    let drive = Drive::from_list(STEPS.to_vec(rt.alloc())?);
    let copied = drive.copy()?;
    assert_eq!(rt; copied.items(), STEPS.as_slice());
    Ok(())
}

/// Keys in their order.
const KEYS: [Key; 3] = [
    Key::Node(NodeId(i64::MAX)),
    Key::Way(WayId(1)),
    Key::Relation(RelationId(i64::MIN)),
];

#[test]
fn keys_are_copied(rt: HostRuntime) -> Result<(), Fail> {
    assert!(rt; KEYS[0] < KEYS[1] && KEYS[1] < KEYS[2]);
    let keys = Keys::from_list(KEYS.to_vec(rt.alloc())?);
    let copied = keys.copy()?;
    assert_eq!(rt; copied.items(), KEYS.as_slice());
    Ok(())
}

const WAYS: [WayId; 2] = [WayId(9), WayId(-9)];

#[test]
fn ways_are_copied(rt: HostRuntime) -> Result<(), Fail> {
    let ways = Ways::from_list(WAYS.to_vec(rt.alloc())?);
    let copied = ways.copy()?;
    assert_eq!(rt; copied.items(), WAYS.as_slice());
    Ok(())
}

#[test]
fn numbers_are_little_endian(rt: HostRuntime) -> Result<(), Fail> {
    let mut out = Vec::new(rt.alloc());
    7u8.put(&mut out)?;
    0x0102_0304u32.put(&mut out)?;
    0x0102_0304_0506_0708u64.put(&mut out)?;
    (-2i32).put(&mut out)?;
    i64::MIN.put(&mut out)?;
    assert_eq!(rt;
        out.as_slice(),
        b"\x07\x04\x03\x02\x01\x08\x07\x06\x05\x04\x03\x02\x01\xfe\xff\xff\xff\0\0\0\0\0\0\0\x80".as_slice()
    );
    Ok(())
}

#[test]
fn steps_are_counted(rt: HostRuntime) {
    assert_eq!(rt; size_of::<Steps<Brand>>(), 0);
    count_two::<Brand>(Blank::new(1));
}

fn count_two<L: Ledger>(blank: Blank)
    requires name { blank.name ≡ L.name }
    requires parts { blank.parts ≡ L.parts }
    requires some { 0 < L.parts }
{
    let mut steps = Steps::<L>::new(blank);
    steps.tick();
    steps.tick();
}

#[test]
fn memory_is_refused_in_one_way(rt: HostRuntime) {
    assert_eq!(rt; NoMemory::from(AllocError), NoMemory);
    assert_eq!(rt; NoMemory::from(AllocFailed { value: 7 }), NoMemory);
}

#[test]
fn two_profiles_have_numbers(rt: HostRuntime) {
    for (number, is) in [
        (0, false),
        (1, true),
        (2, true),
        (3, false),
        (u32::MAX, false),
    ] {
        assert_eq!(rt; is_profile(number), is, "at {number}");
    }
}

/// Longitudes and latitudes in units of 1e-7 degree, and whether there is such a place.
const RANGES: [(i32, i32, bool); 7] = [
    (0, 0, true),
    (1_800_000_000, -900_000_000, true),
    (-1_800_000_000, 900_000_000, true),
    (1_800_000_001, 0, false),
    (-1_800_000_001, 0, false),
    (0, 900_000_001, false),
    (i32::MIN, i32::MIN, false),
];

#[test]
fn places_have_a_range(rt: HostRuntime) {
    for (lon, lat, is) in RANGES {
        assert_eq!(rt; is_in_range(lon, lat), is, "at {lon} {lat}");
    }
}
