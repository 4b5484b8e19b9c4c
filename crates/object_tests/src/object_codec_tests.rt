//! Lists of events whose bytes were spelled by hand.
use crate::makers::{deletion, events_of};
use object_codec::{decode, encode};
use road_base::{Body, Event, Key, NoMemory, NodeId};
use std::alloc::Global;
use std::process::Abort;
use std::test::Fail;

/// The deletion of node 1 in version 4.
const DELETED: &[u8] = b"\x01\0\0\0\0\0\0\0\0\x01\0\0\0\0\0\0\0\x04\0\0\0\0";

/// A node with a place and tags, one without either, a way, a relation, and the deletions of a way and a relation.
const EACH_KIND: &[u8] = b"\x06\0\0\0\0\0\0\0\
    \0\x01\0\0\0\0\0\0\0\x02\0\0\0\x01\
    \x02\0\0\0\
    \x06\0\0\0\0\0\0\0bridge\x03\0\0\0\0\0\0\0yes\
    \x04\0\0\0\0\0\0\0name\x0d\0\0\0\0\0\0\0Lange Br\xc3\xbccke\
    \x01\x5c\x48\xf9\x07\x10\x56\x4d\x1f\
    \0\xfb\xff\xff\xff\xff\xff\xff\xff\x01\0\0\0\x01\
    \0\0\0\0\
    \0\
    \x01\x0a\0\0\0\0\0\0\0\x03\0\0\0\x01\
    \0\0\0\0\
    \x03\0\0\0\
    \x01\0\0\0\0\0\0\0\xfb\xff\xff\xff\xff\xff\xff\xff\x01\0\0\0\0\0\0\0\
    \x02\x07\0\0\0\0\0\0\0\x01\0\0\0\x01\
    \0\0\0\0\
    \x02\0\0\0\
    \x01\x0a\0\0\0\0\0\0\0\x04\0\0\0\0\0\0\0from\
    \0\x01\0\0\0\0\0\0\0\0\0\0\0\0\0\0\0\
    \x01\x0b\0\0\0\0\0\0\0\xff\xff\xff\xff\0\
    \x02\0\0\0\0\0\0\0\x80\0\0\0\0\0";

/// Bytes that spell no list, and what is wrong with them.
const OUTSIDE: [(&str, &[u8]); 9] = [
    (
        "a count of 2^63",
        b"\0\0\0\0\0\0\0\x80\0\x01\0\0\0\0\0\0\0\x04\0\0\0\0",
    ),
    (
        "a count of 2",
        b"\x02\0\0\0\0\0\0\0\0\x01\0\0\0\0\0\0\0\x04\0\0\0\0",
    ),
    (
        "a kind of 3",
        b"\x01\0\0\0\0\0\0\0\x03\x01\0\0\0\0\0\0\0\x04\0\0\0\0",
    ),
    (
        "a state of 2",
        b"\x01\0\0\0\0\0\0\0\0\x01\0\0\0\0\0\0\0\x04\0\0\0\x02",
    ),
    (
        "a flag of 2",
        b"\x01\0\0\0\0\0\0\0\0\x01\0\0\0\0\0\0\0\x04\0\0\0\x01\0\0\0\0\x02",
    ),
    (
        "a longitude of 1800000001",
        b"\x01\0\0\0\0\0\0\0\0\x01\0\0\0\0\0\0\0\x04\0\0\0\x01\0\0\0\0\x01\x01\xd2\x49\x6b\0\0\0\0",
    ),
    (
        "one key twice",
        b"\x01\0\0\0\0\0\0\0\0\x01\0\0\0\0\0\0\0\x04\0\0\0\x01\x02\0\0\0\
            \x01\0\0\0\0\0\0\0a\0\0\0\0\0\0\0\0\x01\0\0\0\0\0\0\0a\0\0\0\0\0\0\0\0\0",
    ),
    (
        "a key that is no UTF-8",
        b"\x01\0\0\0\0\0\0\0\0\x01\0\0\0\0\0\0\0\x04\0\0\0\x01\x01\0\0\0\
            \x01\0\0\0\0\0\0\0\xff\0\0\0\0\0\0\0\0\0",
    ),
    (
        "a text of 2^64 - 1 bytes",
        b"\x01\0\0\0\0\0\0\0\0\x01\0\0\0\0\0\0\0\x04\0\0\0\x01\x01\0\0\0\
            \xff\xff\xff\xff\xff\xff\xff\xffa\0\0\0\0\0\0\0\0\0",
    ),
];

/// The lines of the same events.
const LINES: &[u8] = b"n1 v2 Tbridge=yes,name=Lange%20%Br%fc%cke x13.37775 y52.5162\nn-5 v1\n\
    w10 v3 Nn1,n-5,n1\nr7 v1 Mw10@from,n1@\nw11 v4294967295 dD\nr-9223372036854775808 v0 dD\n";

/// No list has this spelling, or the one that has is spelled so again.
fn is_refused_or_same(alloc: Global, bytes: &[u8]) -> Result<bool, NoMemory> {
    let Some(events) = decode(alloc, bytes)? else {
        return Ok(true);
    };
    let mut out = Vec::new(alloc);
    encode(&events, &mut out)?;
    Ok(out.as_slice() == bytes)
}

/// The deletion is spelled behind a byte that stands there.
fn check_spelling(rt: &impl Abort, alloc: Global) -> Result<(), Fail> {
    let mut out = vec![in alloc; 7]?;
    encode(&[deletion(Key::Node(NodeId(1)), 4)], &mut out)?;
    assert_eq!(rt; out.len(), 23);
    assert_eq!(rt; out[0], 7);
    assert_eq!(rt; &out[1..], DELETED);
    Ok(())
}

/// The events are the deletion alone.
fn check_events(rt: &impl Abort, events: &[Event]) {
    assert_eq!(rt; events.len(), 1);
    assert_eq!(rt; events[0].key, Key::Node(NodeId(1)));
    assert_eq!(rt; events[0].version, 4);
    assert!(rt; matches!(events[0].body, Body::Deleted));
}

#[test]
fn one_deletion(rt: HostRuntime) -> Result<(), Fail> {
    check_spelling(&rt, rt.alloc())?;
    let events = decode(rt.alloc(), DELETED)?.ok_or("it spells a deletion")?;
    check_events(&rt, &events);
    Ok(())
}

#[test]
fn no_events(rt: HostRuntime) -> Result<(), Fail> {
    let alloc = rt.alloc();
    let mut out = Vec::new(alloc);
    encode(&[], &mut out)?;
    assert_eq!(rt; out.as_slice(), [0; 8].as_slice());
    let events = decode(alloc, &[0; 8])?.ok_or("it spells no events")?;
    assert!(rt; events.is_empty());
    Ok(())
}

#[test]
fn each_kind_is_read_again(rt: HostRuntime) -> Result<(), Fail> {
    let alloc = rt.alloc();
    let mut out = Vec::new(alloc);
    encode(&events_of(alloc, LINES)?, &mut out)?;
    assert_eq!(rt; out.as_slice(), EACH_KIND);
    let events = decode(alloc, EACH_KIND)?.ok_or("it spells six events")?;
    assert_eq!(rt; events.len(), 6);
    let mut again = Vec::new(alloc);
    encode(&events, &mut again)?;
    assert_eq!(rt; again.as_slice(), EACH_KIND);
    Ok(())
}

#[test]
fn cuts_and_additions_are_refused(rt: HostRuntime) -> Result<(), Fail> {
    let alloc = rt.alloc();
    for end in 0..EACH_KIND.len() {
        assert!(rt; decode(alloc, &EACH_KIND[..end])?.is_none(), "cut at {end}");
    }
    let mut longer = EACH_KIND.to_vec(alloc)?;
    longer.push(0)?;
    assert!(rt; decode(alloc, &longer)?.is_none());
    Ok(())
}

#[test]
fn changed_bytes_are_refused_or_another_list(rt: HostRuntime) -> Result<(), Fail> {
    let alloc = rt.alloc();
    for at in 0..EACH_KIND.len() {
        for change in [1, 2, 3, 0x40, 0x80, 0xff] {
            let mut bytes = EACH_KIND.to_vec(alloc)?;
            let Some(byte) = bytes.get_mut(at) else {
                continue;
            };
            *byte ^= change;
            assert!(rt; is_refused_or_same(alloc, &bytes)?, "byte {at} by {change}");
        }
    }
    Ok(())
}

#[test]
fn what_is_not_in_the_grammar(rt: HostRuntime) -> Result<(), Fail> {
    let alloc = rt.alloc();
    for (what, bytes) in OUTSIDE {
        assert!(rt; decode(alloc, bytes)?.is_none(), "{what}");
    }
    Ok(())
}
