//! Whole inputs.
use opl_lexer::{FaultKind, Mode};
use opl_objects::{Fault, ReadError, Reader};
use road_base::{Body, Event, Key, NodeId, RelationId, WayId};
use std::alloc::{AllocError, Global};
use std::test::Fail;

/// What is read of a text that is cut before this byte.
fn read_cut(alloc: Global, mode: Mode, text: &[u8], at: usize) -> Result<Vec<Event>, ReadError> {
    let (front, behind) = text.split_at(at.min(text.len()));
    let mut reader = Reader::new(alloc, mode);
    reader.feed(front)?;
    reader.feed(behind)?;
    reader.finish()
}

/// Whether the events have these keys and versions.
fn are(events: &[Event], wanted: &[(Key, u32)]) -> bool {
    events.len() == wanted.len()
        && events.iter().zip(wanted).all(|(event, (key, version))| event.key == *key
            && event.version == *version)
}

#[test]
fn every_cut_gives_the_same_events(rt: HostRuntime) -> Result<(), Fail> {
    let text =
        b"# a note\r\n n1 x1 y2 T%6e%ame=caf%e9% v1\r\n\n \t\r\nc77 anything\nw1 v4 Nn1xy,n2xy\nr5 Mn1@,w2@a%20%b v7\r";
    let wanted = [
        (Key::Node(NodeId(1)), 1),
        (Key::Way(WayId(1)), 4),
        (Key::Relation(RelationId(5)), 7),
    ];
    for at in 0..text.len() + 1 {
        let events = read_cut(rt.alloc(), Mode::Extract, text, at)?;
        assert!(rt; are(events.as_slice(), &wanted), "at {at}");
    }
    Ok(())
}

/// Whether the fault of a line is answered where the line ends, and by all later calls.
fn is_refused(alloc: Global, text: &[u8], fault: Fault) -> bool {
    let refusal = Err(ReadError::Fault(fault));
    let mut reader = Reader::new(alloc, Mode::Change);
    reader.feed(text) == Ok(())
        && reader.feed(b"\n") == refusal
        && reader.feed(b"n1 v1\n") == refusal
        && reader.finish().err() == refusal.err()
}

#[test]
fn faults_are_answered_again(rt: HostRuntime) {
    let lines: [(&[u8], u32, FaultKind); 8] = [
        (b"n1 v1 k5", 3, FaultKind::UnknownField),
        (b"w1 v1 Nn1,x2", 3, FaultKind::BadRef),
        (b"n1 v1 Ta=b=c", 3, FaultKind::BadTag),
        (b"n1 v1 x1e2 y0", 3, FaultKind::BadCoordinate),
        (b"n1 v1 Ta=b Tc=d x0 y0", 4, FaultKind::Repeated),
        (b"n1 x0 y0", 0, FaultKind::NoVersion),
        (b"z1", 1, FaultKind::UnknownLine),
        (b"\xff", 0, FaultKind::NotUtf8),
    ];
    for (line, field, kind) in lines {
        let fault = Fault {
            line: 1,
            field,
            kind,
        };
        assert!(rt; is_refused(rt.alloc(), line, fault), "at {line:?}");
    }
}

/// Whether the event is this version of a node, with this location in units of 1e-7 degrees and this name.
fn is_node(event: &Event, id: i64, version: u32, location: (i32, i32), name: Option<&str>) -> bool {
    match &event.body {
        Body::Node(node) => {
            event.key == Key::Node(NodeId(id))
                && event.version == version
                && node.location.map(|place| (place.lon, place.lat)) == Some(location)
                && node.tags.get("name") == name
        }
        _ => false,
    }
}

#[test]
fn nodes_are_read_whole(rt: HostRuntime) -> Result<(), Fail> {
    let text =
        b"n1 v1 x1 y2 T%6e%ame=caf%e9%%20%%1F600%\nn-9223372036854775808 v1 x180 y-90.00000009";
    let places = [(10_000_000, 20_000_000), (1_800_000_000, -900_000_000)];
    for at in 0..text.len() + 1 {
        let events = read_cut(rt.alloc(), Mode::Change, text, at)?;
        assert_eq!(rt; events.len(), 2, "at {at}");
        assert!(rt;
            is_node(&events[0], 1, 1, places[0], Some("caf\u{e9} \u{1f600}")),
            "at {at}"
        );
        assert!(rt;
            is_node(&events[1], i64::MIN, 1, places[1], None),
            "at {at}"
        );
    }
    Ok(())
}

/// A node with so many tags, each with a key of its own.
fn many_tags(alloc: Global, count: usize) -> Result<String, AllocError> {
    let mut line = String::from_str(alloc, "n1 v1 Tlast=")?;
    for number in 1..count {
        let tag = format!(in alloc; ",{number}=")?;
        line.push_str(&tag)?;
    }
    Ok(line)
}

/// How many tags a node has.
fn tag_count(event: &Event) -> usize {
    match &event.body {
        Body::Node(node) => node.tags.items().len(),
        _ => 0,
    }
}

#[test]
fn lists_hold_65535_tags(rt: HostRuntime) -> Result<(), Fail> {
    let alloc = rt.alloc();
    let line = many_tags(alloc, 65_535)?;
    let events = read_cut(alloc, Mode::Change, line.as_bytes(), 0)?;
    assert_eq!(rt; events.len(), 1);
    assert_eq!(rt; tag_count(&events[0]), 65_535);
    Ok(())
}
