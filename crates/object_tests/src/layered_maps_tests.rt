//! Layered maps of which somebody holds an older state while they change.
use crate::makers::deletion;
use layered_maps::{Change, LayeredMap};
use road_base::laws::key_order;
use road_base::{Event, Key, NodeId};
use std::alloc::{AllocError, Global};
use std::test::Fail;

/// The version of each of the nodes 1 to 4, and None for a node that isn't there.
type Versions = [Option<u32>; 4];

/// A node, which comes to stand in the version, or goes.
type NodeChange = (i64, Option<u32>);

/// What is there at first,
const FIRST: Versions = [Some(1), Some(1), Some(1), None];
/// what changes while that is held, of nodes below the changes and of another one,
const WHILE_HELD: &[NodeChange] = &[(2, Some(2)), (4, Some(1)), (1, None), (2, Some(3))];
/// what is there then,
const THEN: Versions = [None, Some(3), Some(1), Some(1)];
/// what changes when nobody holds it any more,
const AFTERWARDS: &[NodeChange] = &[(3, Some(2)), (1, Some(5)), (2, None)];
/// and what is there at last.
const AT_LAST: Versions = [Some(5), None, Some(2), Some(1)];

fn node(id: i64) -> Key {
    Key::Node(NodeId(id))
}

/// The nodes that are there at first, below all changes.
fn first_nodes(alloc: Global) -> Result<LayeredMap<Key, Event>, AllocError> {
    let one = deletion(Key::Node(NodeId(1)), 1);
    let two = deletion(Key::Node(NodeId(2)), 1);
    let three = deletion(Key::Node(NodeId(3)), 1);
    LayeredMap::of(vec![in alloc; one, two, three]?)
}

/// The node comes to stand in the version, or goes.
fn change(
    alloc: Global,
    map: &mut LayeredMap<Key, Event>,
    id: i64,
    version: Option<u32>,
) -> Result<(), AllocError> {
    key_order();
    let change = match version {
        Some(version) => Change::Put(deletion(node(id), version)),
        None => Change::Gone(node(id)),
    };
    let prepared = map.prepare(vec![in alloc; change]?)?;
    map.commit(prepared);
    Ok(())
}

fn change_all(
    alloc: Global,
    map: &mut LayeredMap<Key, Event>,
    changes: &[NodeChange],
) -> Result<(), AllocError> {
    for (id, version) in changes {
        change(alloc, map, *id, *version)?;
    }
    Ok(())
}

fn version(map: &LayeredMap<Key, Event>, id: i64) -> Option<u32> {
    key_order();
    Some(map.get(node(id))?.version)
}

/// Whether the nodes stand in these versions.
fn has(map: &LayeredMap<Key, Event>, versions: Versions) -> bool {
    [
        version(map, 1),
        version(map, 2),
        version(map, 3),
        version(map, 4),
    ] == versions
}

/// Whether a copy stays as it is while the map changes. It is dropped then.
fn is_copy_kept(alloc: Global, map: &mut LayeredMap<Key, Event>) -> Result<bool, AllocError> {
    let held = map.share()?;
    change_all(alloc, map, WHILE_HELD)?;
    Ok(has(&held, FIRST))
}

/// Whether a copy that is taken between what is prepared and its commit stays as it is, and the map changes.
fn is_late_copy_kept(alloc: Global, map: &mut LayeredMap<Key, Event>) -> Result<bool, AllocError> {
    key_order();
    let change = Change::Put(deletion(node(2), 2));
    let prepared = map.prepare(vec![in alloc; change]?)?;
    let held = map.share()?;
    map.commit(prepared);
    Ok(has(&held, FIRST) && version(map, 2) == Some(2))
}

#[test]
fn what_is_put_while_a_copy_is_held_stays_afterwards(rt: HostRuntime) -> Result<(), Fail> {
    let alloc = rt.alloc();
    let mut map = first_nodes(alloc)?;
    assert!(rt; is_copy_kept(alloc, &mut map)?);
    assert!(rt; has(&map, THEN));
    change_all(alloc, &mut map, AFTERWARDS)?;
    assert!(rt; has(&map, AT_LAST));
    Ok(())
}

#[test]
fn what_was_prepared_before_a_copy_is_none_of_it(rt: HostRuntime) -> Result<(), Fail> {
    let alloc = rt.alloc();
    let mut map = first_nodes(alloc)?;
    assert!(rt; is_late_copy_kept(alloc, &mut map)?);
    Ok(())
}
