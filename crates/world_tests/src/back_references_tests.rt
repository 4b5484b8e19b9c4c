//! A small world, with ample memory.
use back_references::{Indexed, Next};
use object_tests::makers::{are_same, deletion, events_of};
use road_base::{Event, Key, NoMemory, NodeId, RelationId, WayId};
use road_model::World;
use std::alloc::Global;
use std::process::Abort;
use std::test::Fail;

/// Way 10 over the nodes 1, 2 and 1, way 11 that is no highway, way 12 to a node that isn't there, restriction 30, and
/// a relation of another kind.
const TOWN: &[u8] = b"r31 v1 Ttype=multipolygon Mw10@,n2@,w99@,r30@,n2@\n\
    r30 v1 Ttype=restriction Mw10@,n2@,w99@,r30@,n2@\n\
    w12 v1 Thighway=yes Nn2,n9\nw11 v1 Twaterway=yes Nn2\nw10 v1 Thighway=yes Nn1,n2,n1\nn2 v1\nn1 v1\n";

fn town(alloc: Global) -> Result<Indexed, Fail> {
    Ok(Indexed::of(alloc, events_of(alloc, TOWN)?)?)
}

/// How many keys the events change; `changed` and `apply` say the same.
fn applied_alone(world: &mut Indexed, events: &[Event]) -> Result<Option<usize>, NoMemory> {
    let told = world.changed(events)?;
    let keys = world.apply(events)?;
    if told.items() != keys.items() {
        return Ok(None);
    }
    Ok(Some(keys.items().len()))
}

/// Whether these ways refer to the nodes, each node beside its ways.
fn refer(world: &Indexed, cases: &[(NodeId, &[WayId])]) -> bool {
    cases
        .iter()
        .all(|(node, ways)| world.ways_at(*node) == *ways)
}

/// Whether restriction 30 alone names the node and the ways.
fn rules(world: &Indexed, node: NodeId, ways: &[WayId]) -> bool {
    let wanted = [RelationId(30)];
    world.rules_at(node) == wanted.as_slice()
        && ways
            .iter()
            .all(|way| world.rules_of_way(*way) == wanted.as_slice())
}

/// The nodes of the town to which ways refer.
const REFERRED: [(NodeId, &[WayId]); 3] = [
    (NodeId(1), &[WayId(10)]),
    (NodeId(2), &[WayId(10), WayId(12)]),
    (NodeId(9), &[WayId(12)]),
];

/// What the town has.
fn check_town(rt: &impl Abort, world: &Indexed) {
    assert!(rt; refer(world, &REFERRED));
    assert!(rt; rules(world, NodeId(2), &[WayId(10), WayId(99)]));
    assert!(rt; world.node(NodeId(2)).is_some());
    assert!(rt; world.node(NodeId(9)).is_none());
    assert!(rt; world.way(WayId(11)).is_some());
    assert!(rt; world.relation(RelationId(31)).is_some());
}

#[test]
fn links_are_listed(rt: HostRuntime) -> Result<(), Fail> {
    let world = town(rt.alloc())?;
    check_town(&rt, &world);
    Ok(())
}

/// The same where way 10 is deleted.
const LEFT: [(NodeId, &[WayId]); 2] = [(NodeId(1), &[]), (NodeId(2), &[WayId(12)])];

/// What the town has without way 10.
fn check_without_way_10(rt: &impl Abort, world: &Indexed) {
    assert!(rt; world.way(WayId(10)).is_none());
    assert!(rt; refer(world, &LEFT));
    assert!(rt; rules(world, NodeId(2), &[WayId(10)]));
}

/// How many events the world has, and how many are listed.
fn counts(world: &Indexed) -> Result<(usize, usize), NoMemory> {
    let events = world.events()?.len();
    Ok((events, world.objects().listed()?.items().len()))
}

/// Deletes way 10 of the town.
fn check_deletion(rt: &impl Abort, world: &mut Indexed) -> Result<(), Fail> {
    let deleted = [deletion(Key::Way(WayId(10)), 2)];
    assert_eq!(rt; applied_alone(world, &deleted)?, Some(1));
    check_without_way_10(rt, world);
    let (events, listed) = counts(world)?;
    assert_eq!(rt; events, listed);
    Ok(())
}

#[test]
fn links_of_a_deleted_way_go(rt: HostRuntime) -> Result<(), Fail> {
    let mut world = town(rt.alloc())?;
    check_deletion(&rt, &mut world)
}

/// Whether these are the visible ways with the key `highway`.
fn has_highways(world: &Indexed, ways: &[WayId]) -> Result<bool, NoMemory> {
    let found = world.highways()?;
    Ok(found.as_slice() == ways)
}

#[test]
fn highways_are_listed(rt: HostRuntime) -> Result<(), Fail> {
    let world = town(rt.alloc())?;
    assert!(rt; has_highways(&world, &[WayId(10), WayId(12)])?);
    Ok(())
}

#[test]
fn no_objects_have_no_links(rt: HostRuntime) {
    let world = Indexed::new(rt.alloc());
    assert!(rt; world.ways_at(NodeId(1)).is_empty());
    assert!(rt; world.rules_at(NodeId(1)).is_empty());
    assert!(rt; world.rules_of_way(WayId(1)).is_empty());
}

/// The town, and then way 10 drawn anew, way 12 deleted and revived, way 10 closed and reopened elsewhere, and
/// restriction 30 turned into another relation and back.
const CHANGES: &[u8] = b"r31 v1 Ttype=multipolygon Mw10@,n2@,w99@,r30@,n2@\n\
    r30 v1 Ttype=restriction Mw10@,n2@,w99@,r30@,n2@\n\
    w12 v1 Thighway=yes Nn2,n9\nw11 v1 Twaterway=yes Nn2\nw10 v1 Thighway=yes Nn1,n2,n1\nn2 v1\nn1 v1\n\
    w10 v2 Thighway=yes Nn2,n3\nw12 v2 dD\nw12 v3 Thighway=yes Nn1\nw10 v3 Twaterway=yes Nn1\n\
    r30 v2 Ttype=route Mw10@,n2@,w99@,r30@,n2@\nr30 v3 Ttype=restriction Mw10@,n2@,w99@,r30@,n2@\n\
    w10 v4 Thighway=yes Nn1,n9\nw10 v1 Thighway=yes Nn5\n";

/// Whether both worlds have the same links at the first numbers.
fn have_same_links<A: World, B: World>(these: &A, those: &B) -> bool {
    (0..1_100).all(|id| {
        these.ways_at(NodeId(id)) == those.ways_at(NodeId(id))
            && these.rules_at(NodeId(id)) == those.rules_at(NodeId(id))
            && these.rules_of_way(WayId(id)) == those.rules_of_way(WayId(id))
    })
}

fn copies(alloc: Global, events: &[Event]) -> Result<Vec<Event>, NoMemory> {
    let mut list = Vec::new(alloc);
    for event in events {
        list.push(event.copy()?)?;
    }
    Ok(list)
}

/// The world of these events at once.
fn made_of(alloc: Global, events: &[Event]) -> Result<Indexed, NoMemory> {
    Indexed::of(alloc, copies(alloc, events)?)
}

/// Whether the links of the other world are foreseen behind these events. They are then applied.
fn foresees(world: &mut Indexed, events: &[Event], made: &Indexed) -> Result<bool, NoMemory> {
    let prepared = world.prepare(events)?;
    let foreseen = have_same_links(&Next::of(world, &prepared), made);
    world.commit(prepared);
    Ok(foreseen)
}

/// Whether both worlds have the same links and entries.
fn is_same(these: &Indexed, those: &Indexed) -> Result<bool, NoMemory> {
    let events = these.events()?;
    Ok(have_same_links(these, those) && are_same(&events, &those.events()?))
}

/// Whether the links of the other world are foreseen behind these events, and the world then has its links and entries.
fn becomes(world: &mut Indexed, events: &[Event], made: &Indexed) -> Result<bool, NoMemory> {
    Ok(foresees(world, events, made)? && is_same(world, made)?)
}

/// Whether the world, which has followed these events but for the last ones, becomes the world that is made of all.
fn follows_last(
    alloc: Global,
    world: &mut Indexed,
    events: &[Event],
    last: &[Event],
) -> Result<bool, NoMemory> {
    let made = made_of(alloc, events)?;
    becomes(world, last, &made)
}

/// Whether the world, which has followed none before, becomes at each of these events the one that is made so far.
fn follows_each(alloc: Global, world: &mut Indexed, events: &[Event]) -> Result<bool, NoMemory> {
    for at in 0..events.len() {
        if !follows_last(alloc, world, &events[..at + 1], &events[at..at + 1])? {
            return Ok(false);
        }
    }
    Ok(true)
}

/// Whether a world that follows the events, one by one, has the links and entries of one that is made of them.
fn is_followed(alloc: Global, events: &[Event]) -> Result<bool, NoMemory> {
    let mut world = Indexed::new(alloc);
    follows_each(alloc, &mut world, events)
}

#[test]
fn a_world_that_follows_is_the_one_that_is_made(rt: HostRuntime) -> Result<(), Fail> {
    let alloc = rt.alloc();
    let events = events_of(alloc, CHANGES)?;
    assert!(rt; is_followed(alloc, &events)?);
    Ok(())
}

/// Ways, each from a node to one that they share.
struct Drawn {
    /// The number of the first way.
    first: i64,
    /// The number behind that of the last way.
    end: i64,
    version: u32,
    /// How far the number of a way's own node is above its own.
    shift: i64,
    shared: i64,
}

/// The ways of a town.
const FIRST: Drawn = Drawn {
    first: 1,
    end: 700,
    version: 1,
    shift: 0,
    shared: 1_000,
};

/// Changes of the town. The first one replaces more lists than are merged with whatever comes; the lists of the second
/// one stand before these, and those of the third one are merged with the latter. The fourth one replaces many lists
/// once more, and the last one the longest list.
const REDRAWN: [Drawn; 5] = [
    Drawn {
        first: 1,
        end: 600,
        version: 2,
        shift: 1,
        shared: 1_000,
    },
    Drawn {
        first: 600,
        end: 603,
        version: 2,
        shift: 1,
        shared: 1_000,
    },
    Drawn {
        first: 603,
        end: 605,
        version: 2,
        shift: 1,
        shared: 1_000,
    },
    Drawn {
        first: 1,
        end: 300,
        version: 3,
        shift: 2,
        shared: 1_000,
    },
    Drawn {
        first: 650,
        end: 651,
        version: 2,
        shift: 1,
        shared: 1_001,
    },
];

fn add_drawn(alloc: Global, ways: &Drawn, id: i64, text: &mut String) -> Result<(), NoMemory> {
    let own = id.saturating_add(ways.shift);
    let line = format!(in alloc;
        "w{id} v{} Thighway=yes Nn{own},n{}\n",
        ways.version, ways.shared
    )?;
    text.push_str(line.as_str())?;
    Ok(())
}

/// The events that draw the ways.
fn drawn_events(alloc: Global, ways: &Drawn) -> Result<Vec<Event>, Fail> {
    let mut text = String::new(alloc);
    for id in ways.first..ways.end {
        add_drawn(alloc, ways, id, &mut text)?;
    }
    events_of(alloc, text.as_bytes())
}

/// Whether the world becomes the one of all events, these ways' among them.
fn follows_drawn(
    alloc: Global,
    world: &mut Indexed,
    all: &mut Vec<Event>,
    ways: &Drawn,
) -> Result<bool, Fail> {
    let events = drawn_events(alloc, ways)?;
    let mut more = copies(alloc, &events)?;
    all.append(&mut more)?;
    Ok(follows_last(alloc, world, all, &events)?)
}

/// Whether the world of these events becomes, at each of these changes, the one of all events so far.
fn all_drawn_are_followed(
    alloc: Global,
    mut all: Vec<Event>,
    changes: &[Drawn],
) -> Result<bool, Fail> {
    let mut world = made_of(alloc, &all)?;
    for ways in changes {
        if !follows_drawn(alloc, &mut world, &mut all, ways)? {
            return Ok(false);
        }
    }
    Ok(true)
}

#[test]
fn many_lists_are_followed(rt: HostRuntime) -> Result<(), Fail> {
    let alloc = rt.alloc();
    assert!(rt; all_drawn_are_followed(alloc, drawn_events(alloc, &FIRST)?, &REDRAWN)?);
    Ok(())
}
