//! The happy path of each public call, with ample memory.
ghost use Rattle.std.specs.Prelude.{◌≤◌, length};

use object_store::Objects;
use object_tests::makers::{are_same, event_of, events_of};
use ordered_lists::Ranges;
use road_base::{Body, Event, Key, NoMemory, NodeId};
use std::alloc::Global;
use std::process::Abort;
use std::test::Fail;

const FIRST: Key = Key::Node(NodeId(1));

/// What is known of node 1: its version, and its longitude where it is visible.
type Known = Option<(u32, Option<i32>)>;

fn first_node(objects: &Objects) -> Known {
    let event = objects.get(FIRST)?;
    let lon = match &event.body {
        Body::Node(node) => node.location.map(|location| location.lon),
        _ => None,
    };
    Some((event.version, lon))
}

/// Versions of node 1, of which two are the greatest.
const EXTRACT: &[u8] = b"n1 v2 x1 y0\nn1 v3 x2 y0\nn1 v3 x3 y0\nn1 v1 x4 y0\n";

/// A change, how many keys it changes, and what is then known of node 1.
const CHANGES: [(&[u8], usize, Known); 2] = [
    (b"n1 v4 dD", 1, Some((4, None))),
    (b"n1 v2 x5 y0", 0, Some((4, None))),
];

/// How many keys the events change; `changed` and `apply` say the same.
fn applied_alone(objects: &mut Objects, events: &[Event]) -> Result<Option<usize>, NoMemory> {
    let told = objects.changed(events)?;
    let keys = objects.apply(events)?;
    if told.items() != keys.items() {
        return Ok(None);
    }
    Ok(Some(keys.items().len()))
}

/// Whether these are the events of the objects.
fn lists(objects: &Objects, events: &[Event]) -> Result<bool, NoMemory> {
    Ok(are_same(events, objects.listed()?.items()))
}

fn is_copied(objects: &Objects) -> Result<bool, NoMemory> {
    let events = objects.events()?;
    Ok(lists(objects, &events)? && lists(&objects.copy()?, &events)?)
}

/// Makes a change, which changes so many keys, and leaves this of node 1.
fn check_change(
    rt: &impl Abort,
    alloc: Global,
    objects: &mut Objects,
    change: &[u8],
    keys: usize,
    known: Known,
) -> Result<(), Fail> {
    let events = events_of(alloc, change)?;
    assert_eq!(rt; applied_alone(objects, &events)?, Some(keys));
    assert_eq!(rt; first_node(objects), known);
    Ok(())
}

/// Makes the changes of the extract, one after another.
fn check_changes(rt: &impl Abort, alloc: Global, objects: &mut Objects) -> Result<(), Fail> {
    assert_eq!(rt; first_node(objects), Some((3, Some(20_000_000))));
    for (change, keys, known) in CHANGES.iter() {
        check_change(rt, alloc, objects, change, *keys, *known)?;
    }
    assert!(rt; is_copied(objects)?);
    Ok(())
}

#[test]
fn the_first_of_the_greatest_version_stands(rt: HostRuntime) -> Result<(), Fail> {
    let mut objects = Objects::of(events_of(rt.alloc(), EXTRACT)?)?;
    check_changes(&rt, rt.alloc(), &mut objects)
}

/// A change, and the version of node 1 that it brings; None where it brings none.
const BROUGHT: [(&[u8], Option<u32>); 3] = [
    (b"n1 v3 x5 y0", None),
    (b"w1 v9 Nn7", None),
    (b"n1 v4 dD", Some(4)),
];

/// The version of node 1 that the event would bring; None where it would bring none. The event is then applied.
fn brought(objects: &mut Objects, event: Event) -> Result<Option<u32>, NoMemory> {
    let fresh = objects.prepare(&[event])?;
    let version = fresh.get(FIRST).map(|entry| entry.version);
    objects.commit(fresh);
    Ok(version)
}

#[test]
fn a_change_is_found_before_it_is_made(rt: HostRuntime) -> Result<(), Fail> {
    let alloc = rt.alloc();
    let mut objects = Objects::of(events_of(alloc, EXTRACT)?)?;
    for (change, version) in BROUGHT.iter() {
        assert_eq!(rt; brought(&mut objects, event_of(alloc, change)?)?, *version);
    }
    assert_eq!(rt; first_node(&objects), Some((4, None)));
    Ok(())
}

/// Whether objects that a reader shares stay as they are, where these follow the events.
fn are_kept(objects: &mut Objects, events: &[Event]) -> Result<bool, NoMemory> {
    let shared = objects.copy()?;
    let before = objects.events()?;
    let fresh = objects.prepare(events)?;
    objects.commit(fresh);
    lists(&shared, &before)
}

/// Whether a reader keeps its objects behind each of the changes.
fn readers_keep_their_objects(alloc: Global, objects: &mut Objects) -> Result<bool, Fail> {
    for (change, _, known) in CHANGES.iter() {
        let events = events_of(alloc, change)?;
        if !are_kept(objects, &events)? || first_node(objects) != *known {
            return Ok(false);
        }
    }
    Ok(true)
}

#[test]
fn a_reader_keeps_its_objects(rt: HostRuntime) -> Result<(), Fail> {
    let mut objects = Objects::of(events_of(rt.alloc(), EXTRACT)?)?;
    assert!(rt; readers_keep_their_objects(rt.alloc(), &mut objects)?);
    Ok(())
}

/// Versions of way 1 and of node 1, and their deletions.
const EVENTS: &[u8] =
    b"w1 v2 Nn7\nn1 v1 x1 y0\nw1 v3 dD\nn1 v1 x2 y0\nw1 v3 Nn8\nn1 v5 x3 y0\nn1 v5 dD\n";

fn applied_at_once(alloc: Global, events: &[Event]) -> Result<Vec<Event>, NoMemory> {
    let mut objects = Objects::new(alloc);
    let _ = objects.apply(events)?;
    objects.events()
}

fn applied_singly(alloc: Global, events: &[Event]) -> Result<Vec<Event>, NoMemory> {
    let mut objects = Objects::new(alloc);
    for part in events.chunks(1) {
        let _ = objects.apply(part)?;
    }
    objects.events()
}

fn applied_in_two(alloc: Global, events: &[Event], at: usize) -> Result<Vec<Event>, NoMemory>
    requires { at ≤ length events.now }
{
    let (front, back) = events.split_at(at);
    let mut objects = Objects::new(alloc);
    let _ = objects.apply(front)?;
    let _ = objects.apply(back)?;
    objects.events()
}

/// Whether the events leave these objects one by one, and cut in two at each place.
fn is_same_in_turn(alloc: Global, events: &[Event], whole: &[Event]) -> Result<bool, NoMemory> {
    for at in 0..events.len() {
        if !are_same(&applied_in_two(alloc, events, at)?, whole) {
            return Ok(false);
        }
    }
    Ok(are_same(&applied_singly(alloc, events)?, whole))
}

#[test]
fn events_in_turn_leave_what_they_leave_at_once(rt: HostRuntime) -> Result<(), Fail> {
    let alloc = rt.alloc();
    let events = events_of(alloc, EVENTS)?;
    let whole = applied_at_once(alloc, &events)?;
    assert!(rt; is_same_in_turn(alloc, &events, &whole)?);
    Ok(())
}

/// Whether each number's part has every place at which it stands.
fn parts_fit(alloc: Global, list: &[NodeId]) -> bool {
    let ranges = Ranges::of(alloc, list);
    list.iter().enumerate().all(|(at, id)| match ranges.part_of(id.0) {
        Some((from, to)) => from <= at && at < to,
        None => false,
    })
}

#[test]
fn parts_have_their_numbers(rt: HostRuntime) {
    let alloc = rt.alloc();
    let wide = [
        NodeId(-9_000_000_000_000_000_000),
        NodeId(3),
        NodeId(3),
        NodeId(5),
        NodeId(9_000_000_000_000_000_000),
    ];
    let dense = [NodeId(7), NodeId(8), NodeId(8), NodeId(8), NodeId(12)];
    assert!(rt; parts_fit(alloc, &wide));
    assert!(rt; parts_fit(alloc, &dense));
    assert!(rt; parts_fit(alloc, &[NodeId(4)]));
    assert!(rt; Ranges::of(alloc, &dense).part_of(8) == Some((0, 4)));
    assert!(rt; Ranges::of(alloc, &dense).part_of(100).is_none());
    assert!(rt; Ranges::of::<NodeId>(alloc, &[]).part_of(0).is_none());
}
