//! The ways within eight links, before and after a change.
use crate::worlds::world_of;
use back_references::Indexed;
use road_base::{Key, Keys, NoMemory, NodeId, RelationId, WayId, Ways};
use std::alloc::Global;
use std::test::Fail;
use touched_ways::{apart_from, meeting, merge, near_change, reached, surroundings, with_beside};

/// Way 10 over the nodes 1 and 2, way 11 over 4, 3 and 2, way 13 over 1 and 6, way 14 over 6 and 7, and way 15 over 7
/// and 8.
const BEFORE: &[u8] =
    b"n1\nn2\nn3\nn4\nn6\nn7\nn8\nw10 Thighway=road Nn1,n2\nw11 Thighway=road Nn4,n3,n2\n\
    w13 Thighway=road Nn1,n6\nw14 Thighway=road Nn6,n7\nw15 Thighway=road Nn7,n8\n";

/// With node 5, and way 12 from node 3 to it.
const AFTER: &[u8] =
    b"n1\nn2\nn3\nn4\nn5\nn6\nn7\nn8\nw10 Thighway=road Nn1,n2\nw11 Thighway=road Nn4,n3,n2\n\
    w12 Thighway=road Nn3,n5\nw13 Thighway=road Nn1,n6\nw14 Thighway=road Nn6,n7\n\
    w15 Thighway=road Nn7,n8\n";

/// With a restriction, of which a way that isn't there is a member, and a relation of another kind.
const RULED: &[u8] =
    b"n1\nn2\nn3\nn4\nn6\nn7\nw10 Thighway=road Nn1,n2\nw11 Thighway=road Nn4,n3,n2\n\
    w13 Thighway=road Nn1,n6\nw14 Thighway=road Nn6,n7\nr5 Ttype=restriction Mw99@from,n6@via\n\
    r6 Ttype=route Mw10@\n";

/// The ways that are reached from these keys in the world.
fn reached_from(alloc: Global, world: &Indexed, changed: &[Key]) -> Result<Ways, Fail> {
    let keys = Keys::from_list(Vec::from_slice(alloc, changed)?);
    Ok(reached(alloc, world, &keys)?)
}

/// The same in the world of these lines.
fn reached_in(alloc: Global, lines: &[u8], changed: &[Key]) -> Result<Ways, Fail> {
    let world = world_of(alloc, lines)?;
    reached_from(alloc, &world, changed)
}

fn are(ways: &Ways, want: &[i64]) -> bool {
    let found = ways.items();
    found.len() == want.len() && found.iter().zip(want).all(|(way, id)| way.0 == *id)
}

/// Whether these ways are reached from the key alone.
fn reaches(alloc: Global, lines: &[u8], key: Key, want: &[i64]) -> Result<bool, Fail> {
    let ways = reached_in(alloc, lines, &[key])?;
    Ok(are(&ways, want))
}

/// A map, a key that changes, and the ways that are reached from it.
const REACHED: [(&[u8], Key, &[i64]); 9] = [
    (BEFORE, Key::Way(WayId(12)), &[12]),
    (BEFORE, Key::Node(NodeId(5)), &[]),
    (AFTER, Key::Node(NodeId(5)), &[10, 11, 12, 13]),
    (AFTER, Key::Way(WayId(12)), &[10, 11, 12, 13, 14]),
    (AFTER, Key::Way(WayId(14)), &[10, 11, 12, 13, 14, 15]),
    (RULED, Key::Relation(RelationId(5)), &[10, 11, 13, 14, 99]),
    (RULED, Key::Relation(RelationId(6)), &[]),
    (RULED, Key::Way(WayId(99)), &[10, 11, 13, 14, 99]),
    (RULED, Key::Node(NodeId(6)), &[10, 11, 13, 14, 99]),
];

#[test]
fn ways_within_eight_links(rt: HostRuntime) -> Result<(), Fail> {
    for (lines, key, want) in REACHED {
        assert!(rt; reaches(rt.alloc(), lines, key, want)?, "from {key:?}");
    }
    Ok(())
}

/// The ways that are touched where these keys change.
fn touched(alloc: Global, changed: &[Key]) -> Result<Ways, Fail> {
    let before = reached_in(alloc, BEFORE, changed)?;
    let after = reached_in(alloc, AFTER, changed)?;
    Ok(merge(alloc, &before, &after)?)
}

#[test]
fn touched_ways(rt: HostRuntime) -> Result<(), Fail> {
    let ways = touched(rt.alloc(), &[Key::Node(NodeId(5)), Key::Way(WayId(12))])?;
    assert!(rt; are(&ways, &[10, 11, 12, 13, 14]));
    Ok(())
}

/// Ten ways in two rows: 10 to 14 over the nodes 1 to 6, and 20 to 24 over the nodes 7 to 12.
const ROWS: &[u8] =
    b"w10 Thighway=road Nn1,n2\nw11 Thighway=road Nn2,n3\nw12 Thighway=road Nn3,n4\nw13 Thighway=road Nn4,n5\n\
    w14 Thighway=road Nn5,n6\nw20 Thighway=road Nn7,n8\nw21 Thighway=road Nn8,n9\nw22 Thighway=road Nn9,n10\n\
    w23 Thighway=road Nn10,n11\nw24 Thighway=road Nn11,n12\n";

/// With way 12 from node 3 to node 7, in place of node 4.
const MOVED: &[u8] =
    b"w10 Thighway=road Nn1,n2\nw11 Thighway=road Nn2,n3\nw12 Thighway=road Nn3,n7\nw13 Thighway=road Nn4,n5\n\
    w14 Thighway=road Nn5,n6\nw20 Thighway=road Nn7,n8\nw21 Thighway=road Nn8,n9\nw22 Thighway=road Nn9,n10\n\
    w23 Thighway=road Nn10,n11\nw24 Thighway=road Nn11,n12\n";

/// Whether a change of way 12 from the one world to the other has these ways within two links, and touches those.
fn is_about(
    alloc: Global,
    was: &Indexed,
    is: &Indexed,
    near: &[i64],
    all: &[i64],
) -> Result<bool, NoMemory> {
    let keys = Keys::from_list(Vec::from_slice(alloc, &[Key::Way(WayId(12))])?);
    let close = near_change(alloc, was, is, &keys)?;
    let touched = surroundings(alloc, was, is, &keys)?;
    Ok(are(&close, near) && are(&touched, all))
}

/// The same, from that world to the one of these lines.
fn is_about_since(alloc: Global, was: &Indexed, after: &[u8]) -> Result<bool, Fail> {
    let is = world_of(alloc, after)?;
    Ok(is_about(
        alloc,
        was,
        &is,
        &[11, 12, 13, 20],
        &[10, 11, 12, 13, 14, 20, 21, 22, 23],
    )?)
}

#[test]
fn ways_about_a_moved_way(rt: HostRuntime) -> Result<(), Fail> {
    for (before, after) in [(ROWS, MOVED), (MOVED, ROWS)] {
        let was = world_of(rt.alloc(), before)?;
        assert!(rt; is_about_since(rt.alloc(), &was, after)?);
    }
    Ok(())
}

/// Whether these are the ways that meet the way, and those of them that aren't near a change of way 12.
fn meets(
    alloc: Global,
    world: &Indexed,
    way: i64,
    met: &[i64],
    apart: &[i64],
) -> Result<bool, NoMemory> {
    let near = Ways::from_list(Vec::from_slice(
        alloc,
        &[WayId(11), WayId(12), WayId(13), WayId(20)],
    )?);
    let ways = meeting(alloc, world, &[WayId(way)])?;
    let others = apart_from(alloc, &ways, &near)?;
    Ok(are(&ways, met) && are(&others, apart))
}

/// A way, those that meet it in the moved world, and those of them that aren't near the change.
const MET: [(i64, &[i64], &[i64]); 4] = [
    (11, &[10, 11, 12], &[10]),
    (13, &[13, 14], &[14]),
    (20, &[12, 20, 21], &[21]),
    (24, &[23, 24], &[23, 24]),
];

fn all_meet(alloc: Global, world: &Indexed) -> Result<bool, NoMemory> {
    for (way, met, apart) in MET {
        if !meets(alloc, world, way, met, apart)? {
            return Ok(false);
        }
    }
    Ok(true)
}

#[test]
fn ways_that_meet_a_way(rt: HostRuntime) -> Result<(), Fail> {
    let world = world_of(rt.alloc(), MOVED)?;
    assert!(rt; all_meet(rt.alloc(), &world)?);
    Ok(())
}

/// A restriction names the ways 10, 12 and 14.
const NAMED: &[u8] =
    b"w10 Thighway=road Nn1,n2\nw11 Thighway=road Nn2,n3\nw12 Thighway=road Nn3,n4\n\
    w14 Thighway=road Nn5,n6\nr5 Ttype=restriction Mw10@from,w12@via,w14@to\n";

/// Whether the way has these beside it.
fn has_beside(alloc: Global, world: &Indexed, way: i64, want: &[i64]) -> Result<bool, NoMemory> {
    let ways = Ways::from_list(Vec::from_slice(alloc, &[WayId(way)])?);
    let all = with_beside(alloc, world, &ways)?;
    Ok(are(&all, want))
}

#[test]
fn ways_beside_a_way(rt: HostRuntime) -> Result<(), Fail> {
    let world = world_of(rt.alloc(), NAMED)?;
    assert!(rt; has_beside(rt.alloc(), &world, 12, &[10, 12, 14])?);
    assert!(rt; has_beside(rt.alloc(), &world, 11, &[11])?);
    Ok(())
}
