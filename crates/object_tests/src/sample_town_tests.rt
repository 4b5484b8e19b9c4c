//! Towns against values that were computed elsewhere, from the rules alone.
use crate::makers::are_same;
use road_base::{Body, Event, Key, NoMemory, Node, Relation, Tags, Way};
use sample_town::{Draws, Town};
use std::alloc::Global;
use std::process::Abort;
use std::test::Fail;

fn key_text(alloc: Global, key: Key) -> Result<String, NoMemory> {
    let text = match key {
        Key::Node(id) => format!(in alloc; "n{}", id.0)?,
        Key::Way(id) => format!(in alloc; "w{}", id.0)?,
        Key::Relation(id) => format!(in alloc; "r{}", id.0)?,
    };
    Ok(text)
}

fn add_tags(text: &mut String, tags: &Tags) -> Result<(), NoMemory> {
    for (key, value) in tags.items() {
        text.push_str(" ")?;
        text.push_str(key.as_str())?;
        text.push_str("=")?;
        text.push_str(value.as_str())?;
    }
    Ok(())
}

fn add_node(alloc: Global, text: &mut String, node: &Node) -> Result<(), NoMemory> {
    add_tags(text, &node.tags)?;
    if let Some(at) = node.location {
        let place = format!(in alloc; " {} {}", at.lon, at.lat)?;
        text.push_str(place.as_str())?;
    }
    Ok(())
}

fn add_word(text: &mut String, word: &str) -> Result<(), NoMemory> {
    text.push_str(" ")?;
    text.push_str(word)?;
    Ok(())
}

fn add_key(alloc: Global, text: &mut String, key: Key) -> Result<(), NoMemory> {
    let name = key_text(alloc, key)?;
    add_word(text, name.as_str())
}

fn add_way(alloc: Global, text: &mut String, way: &Way) -> Result<(), NoMemory> {
    add_tags(text, &way.tags)?;
    for id in way.refs.items() {
        add_key(alloc, text, Key::Node(*id))?;
    }
    Ok(())
}

fn add_relation(alloc: Global, text: &mut String, relation: &Relation) -> Result<(), NoMemory> {
    add_tags(text, &relation.tags)?;
    for member in relation.members.items() {
        add_key(alloc, text, member.item)?;
        add_word(text, member.role.as_str())?;
    }
    Ok(())
}

/// The event's key and version, and what its body has, parted by spaces.
fn event_text(alloc: Global, event: &Event) -> Result<String, NoMemory> {
    let mut text = key_text(alloc, event.key)?;
    let version = format!(in alloc; " v{}", event.version)?;
    text.push_str(version.as_str())?;
    match &event.body {
        Body::Node(node) => add_node(alloc, &mut text, node)?,
        Body::Way(way) => add_way(alloc, &mut text, way)?,
        Body::Relation(relation) => add_relation(alloc, &mut text, relation)?,
        Body::Deleted => text.push_str(" deleted")?,
    }
    Ok(text)
}

/// Adds the lists of the next twelve calls.
fn add_lists(town: &mut Town, lists: &mut Vec<Vec<Event>>) -> Result<(), NoMemory> {
    for _ in 0..12 {
        lists.push(town.events()?)?;
    }
    Ok(())
}

/// The lists of the first twelve calls.
fn twelve_lists(alloc: Global, number: u64) -> Result<Vec<Vec<Event>>, NoMemory> {
    let mut town = Town::new(alloc, number);
    let mut lists = Vec::new(alloc);
    add_lists(&mut town, &mut lists)?;
    Ok(lists)
}

/// The text of the event at this place of this list, or an empty one.
fn text_at(
    alloc: Global,
    lists: &[Vec<Event>],
    list: usize,
    place: usize,
) -> Result<String, NoMemory> {
    match lists.get(list).and_then(|events| events.get(place)) {
        Some(event) => event_text(alloc, event),
        None => Ok(String::new(alloc)),
    }
}

fn have_version(events: &[Event], version: u32) -> bool {
    events.iter().all(|event| event.version == version)
}

#[test]
fn the_first_draw(rt: HostRuntime) {
    let mut draws = Draws { state: 0 };
    assert_eq!(rt; draws.draw(), 167_951_807);
    let mut draws = Draws { state: 0 };
    assert_eq!(rt; draws.below(8), 7);
}

/// How many events the list of this version has.
fn count_of(version: u32) -> usize {
    match version {
        1 => 3600 + 3540 + 3540 + 600,
        12 => 0,
        _ => 20,
    }
}

/// The first version whose list has another count of events, or an event of another version.
fn wrong_version(lists: &[Vec<Event>]) -> Option<u32> {
    for (events, version) in lists.iter().zip(1..13) {
        if events.len() != count_of(version) || !have_version(events, version) {
            return Some(version);
        }
    }
    None
}

/// How many lists there are, and the first version whose list is wrong.
fn counted_lists(alloc: Global) -> Result<(usize, Option<u32>), NoMemory> {
    let lists = twelve_lists(alloc, 0)?;
    Ok((lists.len(), wrong_version(&lists)))
}

#[test]
fn the_lists_and_their_versions(rt: HostRuntime) -> Result<(), Fail> {
    assert_eq!(rt; counted_lists(rt.alloc())?, (12, None));
    Ok(())
}

fn check_same(rt: &impl Abort, these: &[Vec<Event>], those: &[Vec<Event>]) {
    for (this, that) in these.iter().zip(those) {
        assert!(rt; are_same(this, that));
    }
}

/// The town of the number gives these lists.
fn check_lists(
    rt: &impl Abort,
    alloc: Global,
    number: u64,
    these: &[Vec<Event>],
) -> Result<(), NoMemory> {
    let those = twelve_lists(alloc, number)?;
    check_same(rt, these, &those);
    Ok(())
}

#[test]
fn equal_numbers_give_equal_lists(rt: HostRuntime) -> Result<(), Fail> {
    let these = twelve_lists(rt.alloc(), 20_261_128)?;
    check_lists(&rt, rt.alloc(), 20_261_128, &these)?;
    Ok(())
}

/// A list, a place in it, and the event that stands there.
type Case = (usize, usize, &'static str);

const OF_TOWN_0: [Case; 12] = [
    (0, 0, "n1 v1 0 0"),
    (0, 61, "n62 v1 10000 10000"),
    (0, 3600, "w1 v1 highway=residential n1 n2"),
    (0, 3601, "w2 v1 highway=residential oneway=yes n2 n3"),
    (0, 7140, "w100001 v1 highway=residential n1 n61"),
    (
        0,
        10_679,
        "w103540 v1 highway=residential oneway=yes n3540 n3600",
    ),
    (
        0,
        10_680,
        "r1 v1 restriction=no_straight_on type=restriction w2330 from w2331 via w2332 to",
    ),
    (
        0,
        10_682,
        "r3 v1 restriction=no_straight_on type=restriction w407 from n414 via w408 to",
    ),
    (
        0,
        10_684,
        "r5 v1 restriction=only_straight_on type=restriction w3062 from n3114 via w3063 to",
    ),
    (1, 0, "n183 v2 20001 30000"),
    (1, 1, "w1154 v2 highway=residential n1173 n1174"),
    (1, 3, "r508 v2 deleted"),
];

const OF_TOWN_7: [Case; 5] = [
    (0, 3606, "w7 v1 highway=residential oneway=yes n7 n8"),
    (
        0,
        11_279,
        "r600 v1 restriction=only_straight_on type=restriction w2366 from w2367 via w2368 to",
    ),
    (2, 19, "n1719 v3 380002 280000"),
    (
        10,
        0,
        "w1754 v11 highway=residential oneway=yes n1783 n1784",
    ),
    (10, 19, "n875 v11 340010 140000"),
];

/// Whether the event of a case is what stands there.
fn stands_there(
    alloc: Global,
    lists: &[Vec<Event>],
    (list, place, wanted): Case,
) -> Result<bool, NoMemory> {
    let text = text_at(alloc, lists, list, place)?;
    Ok(text.as_str() == wanted)
}

/// List and place of the first case in whose place another event stands.
fn other_among(
    alloc: Global,
    lists: &[Vec<Event>],
    cases: &[Case],
) -> Result<Option<(usize, usize)>, NoMemory> {
    for case in cases {
        if !stands_there(alloc, lists, *case)? {
            return Ok(Some((case.0, case.1)));
        }
    }
    Ok(None)
}

fn other_in_town(
    alloc: Global,
    number: u64,
    cases: &[Case],
) -> Result<Option<(usize, usize)>, NoMemory> {
    let lists = twelve_lists(alloc, number)?;
    other_among(alloc, &lists, cases)
}

#[test]
fn the_events_of_two_towns(rt: HostRuntime) -> Result<(), Fail> {
    assert_eq!(rt; other_in_town(rt.alloc(), 0, &OF_TOWN_0)?, None);
    assert_eq!(rt; other_in_town(rt.alloc(), 7, &OF_TOWN_7)?, None);
    Ok(())
}
