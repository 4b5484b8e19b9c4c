//! What is replied of drives and pairs of nodes, on drawn maps and on a village.
ghost use Rattle.std.specs.Prelude.{◌≡◌, ◌<◌};

use access_profile::Motorcar;
use change_apply::Engine;
use drive_queries::{Asked, Found, WordTable, judge, message, reach};
use object_tests::makers::extract_of;
use reply_lines::verdict_text;
use road_base::{Event, NoMemory, NodeId, Step, Steps};
use std::alloc::Global;
use std::marker::Brand;
use std::sync::ledger::{Blank, Ledger};
use std::test::Fail;
use way_lines::{head, tail};

/// The verdict on the drive.
fn judged(alloc: Global, engine: &Engine<Motorcar>, drive: &[Step]) -> Result<Vec<u8>, Fail> {
    if drive.is_empty() {
        return Err(Fail::from("there are no steps"));
    }
    let table = WordTable::of(alloc, engine.world(), &engine.profile(), drive)?;
    let verdict = judge(engine.world(), &engine.profile(), &table, drive);
    let mut text = Vec::new(alloc);
    verdict_text(&verdict, &mut text)?;
    Ok(text)
}

/// Whether the drive begins at the one node and ends at the other.
fn leads(engine: &Engine<Motorcar>, drive: &[Step], a: NodeId, b: NodeId) -> bool {
    match (drive.first(), drive.last()) {
        (Some(first), Some(last)) => {
            tail(engine.world(), *first) == Some(a) && head(engine.world(), *last) == Some(b)
        }
        _ => false,
    }
}

/// What is found between the nodes.
fn found(
    alloc: Global,
    engine: &Engine<Motorcar>,
    a: NodeId,
    b: NodeId,
) -> Result<Found, NoMemory> {
    reach(
        alloc,
        engine.world(),
        &engine.profile(),
        engine.blocks(),
        a,
        b,
    )
}

/// That the node isn't there.
fn no_node(alloc: Global, node: NodeId) -> Result<Vec<u8>, Fail> {
    let node = node.0;
    Ok(format!(in alloc; "no-node {node}")?.into_bytes())
}

/// The verdict on the drive, where it leads from one node to the other.
fn judged_between(
    alloc: Global,
    engine: &Engine<Motorcar>,
    drive: &[Step],
    a: NodeId,
    b: NodeId,
) -> Result<Vec<u8>, Fail> {
    if leads(engine, drive, a, b) {
        judged(alloc, engine, drive)
    } else {
        Err(Fail::from("the drive leads elsewhere"))
    }
}

/// The verdict on the drive that is found between the nodes, or why there is none.
fn reached(
    alloc: Global,
    engine: &mut Engine<Motorcar>,
    a: NodeId,
    b: NodeId,
) -> Result<Vec<u8>, Fail> {
    match found(alloc, engine, a, b)? {
        Found::Drive(drive) => judged_between(alloc, engine, drive.items(), a, b),
        Found::NoNode(node) => no_node(alloc, node),
        Found::Nowhere => Ok(b"none".to_vec(alloc)?),
    }
}

/// What is replied to the line.
fn replied(alloc: Global, engine: &mut Engine<Motorcar>, line: &str) -> Result<Vec<u8>, Fail> {
    match message(alloc, line)? {
        Asked::Drive(drive) => judged(alloc, engine, drive.items()),
        Asked::Reach(a, b) => reached(alloc, engine, a, b),
        _ => Err(Fail::from("the line asks something else")),
    }
}

/// Whether this is replied to the line.
fn replies(
    alloc: Global,
    engine: &mut Engine<Motorcar>,
    line: &str,
    want: &str,
) -> Result<bool, Fail> {
    Ok(replied(alloc, engine, line)?.as_slice() == want.as_bytes())
}

/// The first of the lines to which another reply is given than the one beside it.
fn first_other<'a>(
    alloc: Global,
    engine: &mut Engine<Motorcar>,
    rows: &[(&'a str, &str)],
) -> Result<Option<&'a str>, Fail> {
    for (line, want) in rows {
        if !replies(alloc, engine, line, want)? {
            return Ok(Some(*line));
        }
    }
    Ok(None)
}

/// The same on the map of these events.
fn first_other_among<'a, L: Ledger>(
    alloc: Global,
    events: Vec<Event>,
    rows: &[(&'a str, &str)],
    steps: &mut Steps<L>,
) -> Result<Option<&'a str>, Fail> {
    let mut engine = Engine::load(alloc, Motorcar, events, steps)?;
    first_other(alloc, &mut engine, rows)
}

/// The same on the map of an extract.
fn first_other_on<'a, L: Ledger>(
    alloc: Global,
    lines: &[u8],
    rows: &[(&'a str, &str)],
    blank: Blank,
) -> Result<Option<&'a str>, Fail>
    requires name { blank.name ≡ L.name }
    requires parts { blank.parts ≡ L.parts }
    requires some { 0 < L.parts }
{
    let mut steps = Steps::<L>::new(blank);
    first_other_among(alloc, extract_of(alloc, lines)?, rows, &mut steps)
}

/// A roundabout that is driven against its line.
const ROUNDABOUT: &[u8] = b"n1 x0.001 y0\nn2 x0.002 y0\nn3 x0.003 y0\n\
    w10 Thighway=residential,junction=roundabout,oneway=-1 Nn1,n2,n3,n1\n";

/// A way with a bollard in its middle.
const BOLLARD: &[u8] = b"n1 x0.001 y0\nn2 Tbarrier=bollard x0.002 y0\nn3 x0.003 y0\n\
    w10 Thighway=residential Nn1,n2,n3\n";

/// The same, where cars may pass it.
const OPEN_BOLLARD: &[u8] =
    b"n1 x0.001 y0\nn2 Tbarrier=bollard,motor_vehicle=yes x0.002 y0\nn3 x0.003 y0\n\
    w10 Thighway=residential Nn1,n2,n3\n";

/// A way that goes back to where it began, and the same as a oneway.
const THERE_AND_BACK: &[u8] =
    b"n1 x0.001 y0\nn2 x0.002 y0\nw10 Thighway=residential Nn1,n1,n2,n1\n";

const ONEWAY_BACK: &[u8] =
    b"n1 x0.001 y0\nn2 x0.002 y0\nw10 Thighway=residential,oneway=yes Nn1,n1,n2,n1\n";

/// Three ways that meet at node 2, where one may not turn from the first into the second; the same with an exception
/// for cars; and four ways, of which one must go on by the second or the third.
const NO_TURN: &[u8] = b"n1 x0.001 y0\nn2 x0.002 y0\nn3 x0.003 y0\nn4 x0.004 y0\n\
    w10 Thighway=residential Nn1,n2\nw11 Thighway=residential Nn2,n3\nw12 Thighway=residential Nn2,n4\n\
    r5 Ttype=restriction,restriction=no_left_turn Mw10@from,n2@via,w11@to\n";

const EXCEPTED: &[u8] = b"n1 x0.001 y0\nn2 x0.002 y0\nn3 x0.003 y0\nn4 x0.004 y0\n\
    w10 Thighway=residential Nn1,n2\nw11 Thighway=residential Nn2,n3\nw12 Thighway=residential Nn2,n4\n\
    r5 Ttype=restriction,restriction=no_left_turn,except=psv;motorcar Mw10@from,n2@via,w11@to\n";

const TWO_ONLY: &[u8] = b"n1 x0.001 y0\nn2 x0.002 y0\nn3 x0.003 y0\nn4 x0.004 y0\nn5 x0.005 y0\n\
    w10 Thighway=residential Nn1,n2\nw11 Thighway=residential Nn2,n3\nw12 Thighway=residential Nn2,n4\n\
    w13 Thighway=residential Nn2,n5\n\
    r5 Ttype=restriction,restriction=only_straight_on Mw10@from,n2@via,w12@to\n\
    r6 Ttype=restriction,restriction=only_left_turn Mw10@from,n2@via,w11@to\n";

/// A chain of ways with a fork at its end and a No rule over two via ways, and the same with an Only rule beside it.
const CHAIN: &[u8] =
    b"n1 x0.001 y0\nn2 x0.002 y0\nn3 x0.003 y0\nn4 x0.004 y0\nn5 x0.005 y0\nn6 x0.006 y0\n\
    w1 Thighway=residential Nn1,n2\nw2 Thighway=residential Nn2,n3\nw3 Thighway=residential Nn3,n4\n\
    w4 Thighway=residential Nn4,n5\nw5 Thighway=residential Nn4,n6\n\
    r20 Ttype=restriction,restriction=no_u_turn Mw1@from,w2@via,w3@via,w4@to\n";

const BOUND_CHAIN: &[u8] =
    b"n1 x0.001 y0\nn2 x0.002 y0\nn3 x0.003 y0\nn4 x0.004 y0\nn5 x0.005 y0\nn6 x0.006 y0\n\
    w1 Thighway=residential Nn1,n2\nw2 Thighway=residential Nn2,n3\nw3 Thighway=residential Nn3,n4\n\
    w4 Thighway=residential Nn4,n5\nw5 Thighway=residential Nn4,n6\n\
    r20 Ttype=restriction,restriction=no_u_turn Mw1@from,w2@via,w3@via,w4@to\n\
    r21 Ttype=restriction,restriction=only_right_turn Mw2@from,w3@via,w5@to\n";

/// A village: a street of two edges, a lane and a second street from its end, a building, and relations.
const VILLAGE: &[u8] = b"n101 x8.5 y50.1\nn102 x8.501 y50.1\nn103 Thighway=crossing x8.502 y50.1\n\
    n104 x8.502 y50.101\nn105 x8.503 y50.1\nn106 x8.5005 y50.1005\nn107 x8.5006 y50.1005\n\
    n108 x8.5006 y50.1006\n\
    w201 Thighway=residential,name=Hauptstra%df%e Nn101,n102,n103\n\
    w202 Thighway=service,access:conditional=no%20%%40%%20%(22:00-06:00) Nn103,n104\n\
    w203 Thighway=residential Nn103,n105\nw204 Tbuilding=yes Nn106,n107,n108,n106\n\
    r301 Ttype=multipolygon,building=yes Mw204@outer\nr302 Ttype=route,route=bus Mw201@,w203@\n\
    r303 Ttype=restriction,restriction=no_right_turn Mw201@from,n103@via,w202@to\n";

/// The maps, with lines and what is replied to them.
const MAPS: [(&[u8], &[(&str, &str)]); 11] = [
    (
        ROUNDABOUT,
        &[
            ("drive w10.0+", "broken 1 wrong-way"),
            ("drive w10.2- w10.1-", "legal"),
        ],
    ),
    (
        BOLLARD,
        &[
            ("drive w10.0+ w10.1+", "broken 2 barrier 2"),
            ("drive w10.0+ w10.0-", "legal"),
            ("reach 1 3", "none"),
        ],
    ),
    (
        OPEN_BOLLARD,
        &[("reach 1 3", "legal"), ("reach 1 9", "no-node 9")],
    ),
    (
        THERE_AND_BACK,
        &[("drive w10.0+ w10.1+", "broken 2 reversal 2")],
    ),
    (ONEWAY_BACK, &[("drive w10.0+ w10.1+", "legal")]),
    (
        NO_TURN,
        &[
            ("drive w10.0+ w11.0+", "broken 2 no 5"),
            ("reach 1 3", "legal"),
        ],
    ),
    (EXCEPTED, &[("drive w10.0+ w11.0+", "legal")]),
    (
        TWO_ONLY,
        &[
            ("drive w10.0+ w11.0+", "legal"),
            ("drive w10.0+ w12.0+", "legal"),
            ("drive w10.0+ w13.0+", "broken 2 only 5"),
        ],
    ),
    (CHAIN, &[("drive w2.0+ w3.0+ w4.0+", "legal")]),
    (
        BOUND_CHAIN,
        &[
            ("drive w1.0+ w2.0+ w3.0+ w4.0+", "broken 4 no 20"),
            ("drive w2.0+ w3.0+ w4.0+", "broken 3 only 21"),
            ("reach 1 5", "legal"),
        ],
    ),
    (
        VILLAGE,
        &[
            ("drive w201.5+", "broken 1 no-step"),
            ("drive w999.0+", "broken 1 no-step"),
            ("drive w204.0+", "broken 1 closed highway"),
            ("drive w201.0+ w203.0+", "broken 2 apart"),
            ("drive w201.0+ w201.0-", "broken 2 reversal 102"),
            ("drive w203.0+ w203.0-", "legal"),
            ("drive w201.1+ w202.0+", "broken 2 no 303"),
            ("drive w202.0- w201.1- w201.0-", "legal"),
            ("drive w201.0+ w201.1+ w202.0+", "broken 3 no 303"),
            ("reach 101 104", "legal"),
        ],
    ),
];

#[test]
fn lines_are_answered(rt: HostRuntime) -> Result<(), Fail> {
    for (lines, rows) in MAPS {
        let other = first_other_on::<Brand>(rt.alloc(), lines, rows, Blank::new(1))?;
        assert_eq!(rt; other, None);
    }
    Ok(())
}
