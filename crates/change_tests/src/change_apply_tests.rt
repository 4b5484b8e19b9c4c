//! What a change costs, and that the graph behind changes is that of all their events.
ghost use Rattle.std.specs.Prelude.{◌≡◌, ◌<◌};

use access_profile::Motorcar;
use change_apply::{Engine, Report};
use graph_file::{VERSION, write};
use object_tests::makers::events_of;
use road_base::{Dir, Event, NoMemory, Steps, WayId};
use road_model::{Piece, PieceName, Profile};
use std::alloc::Global;
use std::marker::Brand;
use std::sync::ledger::{Blank, Ledger};
use std::test::Fail;

const NOTHING: Report = Report {
    touched: 0,
    rebuilt: 0,
};

/// The bytes of the graph.
fn graph_of(alloc: Global, engine: &Engine<Motorcar>) -> Result<Vec<u8>, Fail> {
    let mut bytes = Vec::new(alloc);
    write(VERSION, Motorcar.number(), engine.blocks(), &mut bytes)?;
    Ok(bytes)
}

/// Follows the change, and asks for the graph behind it: how many ways it touches, and how many blocks were built. Its
/// events are put behind those of the changes before.
fn follow<L: Ledger>(
    alloc: Global,
    engine: &mut Engine<Motorcar>,
    change: &[u8],
    all: &mut Vec<Event>,
    steps: &mut Steps<L>,
) -> Result<Report, Fail> {
    let mut events = events_of(alloc, change)?;
    let report = engine.apply(&events, steps)?;
    let _ = graph_of(alloc, engine)?;
    all.append(&mut events)?;
    Ok(report)
}

/// Whether the graph has these bytes.
fn is_graph(alloc: Global, engine: &mut Engine<Motorcar>, bytes: &[u8]) -> Result<bool, Fail> {
    Ok(graph_of(alloc, engine)?.as_slice() == bytes)
}

/// Whether both graphs have the same bytes.
fn have_same_graph(
    alloc: Global,
    these: &mut Engine<Motorcar>,
    those: &mut Engine<Motorcar>,
) -> Result<bool, Fail> {
    let bytes = graph_of(alloc, these)?;
    is_graph(alloc, those, &bytes)
}

/// Whether the graph is that of all these events at once.
fn is_graph_of<L: Ledger>(
    alloc: Global,
    engine: &mut Engine<Motorcar>,
    all: Vec<Event>,
    steps: &mut Steps<L>,
) -> Result<bool, Fail> {
    let mut whole = Engine::load(alloc, Motorcar, all, steps)?;
    have_same_graph(alloc, engine, &mut whole)
}

/// Follows the changes in turn, and answers what the last of them cost.
fn follow_all<L: Ledger>(
    alloc: Global,
    engine: &mut Engine<Motorcar>,
    changes: &[&[u8]],
    all: &mut Vec<Event>,
    steps: &mut Steps<L>,
) -> Result<Report, Fail> {
    let mut report = NOTHING;
    for change in changes {
        report = follow(alloc, engine, change, all, steps)?;
    }
    Ok(report)
}

/// What the last of the changes cost, and whether the graph behind all of them is that of all their events at once.
/// The engine has followed none before.
fn follow_and_compare<L: Ledger>(
    alloc: Global,
    engine: &mut Engine<Motorcar>,
    changes: &[&[u8]],
    steps: &mut Steps<L>,
) -> Result<(Report, bool), Fail> {
    let mut all = Vec::new(alloc);
    let report = follow_all(alloc, engine, changes, &mut all, steps)?;
    Ok((report, is_graph_of(alloc, engine, all, steps)?))
}

/// The same of an engine of no events.
fn follow_from_nothing<L: Ledger>(
    alloc: Global,
    changes: &[&[u8]],
    steps: &mut Steps<L>,
) -> Result<(Report, bool), Fail> {
    let mut engine = Engine::load(alloc, Motorcar, Vec::new(alloc), steps)?;
    follow_and_compare(alloc, &mut engine, changes, steps)
}

/// The same with a ledger of its own.
fn followed<L: Ledger>(
    alloc: Global,
    changes: &[&[u8]],
    blank: Blank,
) -> Result<(Report, bool), Fail>
    requires name { blank.name ≡ L.name }
    requires parts { blank.parts ≡ L.parts }
    requires some { 0 < L.parts }
{
    let mut steps = Steps::<L>::new(blank);
    follow_from_nothing(alloc, changes, &mut steps)
}

/// A chain: way k goes from node k to node k + 1.
const CHAIN: &[u8] = b"n1 v1 x0.001 y0\nn2 v1 x0.002 y0\nn3 v1 x0.003 y0\nn4 v1 x0.004 y0\n\
    n5 v1 x0.005 y0\nn6 v1 x0.006 y0\nn7 v1 x0.007 y0\nn8 v1 x0.008 y0\nn9 v1 x0.009 y0\n\
    n10 v1 x0.01 y0\nn11 v1 x0.011 y0\n\
    w1 v1 Thighway=residential Nn1,n2\nw2 v1 Thighway=residential Nn2,n3\n\
    w3 v1 Thighway=residential Nn3,n4\nw4 v1 Thighway=residential Nn4,n5\n\
    w5 v1 Thighway=residential Nn5,n6\nw6 v1 Thighway=residential Nn6,n7\n\
    w7 v1 Thighway=residential Nn7,n8\nw8 v1 Thighway=residential Nn8,n9\n\
    w9 v1 Thighway=residential Nn9,n10\nw10 v1 Thighway=residential Nn10,n11\n";

/// Node 2 lies elsewhere: the ways 1 and 2 are one link away, way 3 three, way 4 five, way 5 seven, and way 6 nine,
/// which is too far to be touched. Where no restriction names a way, blocks are built up to two links away, and farther
/// on where pieces or arcs change: here none do.
const MOVED: &[u8] = b"n2 v2 x0.0025 y0\n";

/// A restriction names the ways 3 and 4, neither of which is near node 2: so none of their blocks is built where it
/// moves. Way 3 is three links away, the restriction four, way 4 five, and way 5 seven.
const FAR_TURN: &[u8] =
    b"r1 v1 Ttype=restriction,restriction=no_straight_on Mw3@from,n4@via,w4@to\n";

/// A restriction names the ways 2, 3 and 4. Way 2 is near node 2: so where it moves, the blocks of the ways 3 and 4 are
/// built too, which are named beside it. The restriction is two links away, the ways 3 and 4 three, way 5 five, and way
/// 6 seven.
const NEAR_TURN: &[u8] =
    b"r1 v1 Ttype=restriction,restriction=no_straight_on Mw2@from,w3@via,w4@to\n";

/// Nothing changes: the entry that stands has the same version.
const SAME: &[u8] = b"n2 v1 x0.0025 y0\n";

/// Way 3 goes: the ways 2 and 4 were two links away, 1 and 5 four, 6 six, 7 eight.
const GONE: &[u8] = b"w3 v2 dD\n";

/// Way 3 comes back and reaches node 9, so that the ways 8 and 9 are two links away, 7 and 10 four.
const LONGER: &[u8] = b"w3 v3 Thighway=residential Nn3,n4,n9\n";

/// Way 1 passes node 2; way 2 leaves way 1's last node, and way 3 the last one of way 2.
const PASSED: &[u8] = b"n1 v1 x0.001 y0\nn2 v1 x0.002 y0\nn3 v1 x0.003 y0\nn4 v1 x0.004 y0\n\
    n5 v1 x0.005 y0\nn6 v1 x0.002 y0.001\n\
    w1 v1 Thighway=residential Nn1,n2,n3\nw2 v1 Thighway=residential Nn3,n4\n\
    w3 v1 Thighway=residential Nn4,n5\n";

/// Way 4 comes to node 2 and makes it a junction: way 1, two links away, gets other pieces, so that way 2, four links
/// away, is built too; way 3, six links away, isn't.
const JOINED: &[u8] = b"w4 v1 Thighway=residential Nn6,n2\n";

/// A restriction names way 3 beside way 2, which meets way 1: so where way 4 comes, way 3 is built too.
const BESIDE: &[u8] = b"r1 v1 Ttype=restriction,restriction=no_straight_on Mw2@from,n4@via,w3@to\n";

/// A restriction names way 3 beside way 5, where way 3 ends. Neither meets way 1: so where way 4 comes, way 3 isn't
/// built, which is six links away; way 5 is eight.
const BEHIND: &[u8] = b"n7 v1 x0.006 y0\nw5 v1 Thighway=residential Nn5,n7\n\
    r1 v1 Ttype=restriction,restriction=no_straight_on Mw3@from,n5@via,w5@to\n";

/// Way 11 passes node 3. Way 10 leaves where it ends, then the ways 13, 14 and 15.
const PLAIN: &[u8] = b"n1 v1 x0.001 y0\nn2 v1 x0.002 y0\nn3 v1 x0.003 y0\nn4 v1 x0.004 y0\n\
    n6 v1 x0.006 y0\nn7 v1 x0.007 y0\nn8 v1 x0.008 y0\nw10 v1 Thighway=residential Nn1,n2\n\
    w11 v1 Thighway=residential Nn4,n3,n2\nw13 v1 Thighway=residential Nn1,n6\n\
    w14 v1 Thighway=residential Nn6,n7\nw15 v1 Thighway=residential Nn7,n8\n";

/// Way 12 comes to node 3, with its other node. Way 11 is two links away, way 10 four: it is built, since way 11 gets
/// other pieces. Way 13 is six links away, way 14 eight, and way 15 ten, which is too far to be touched.
const JUNCTION_MADE: &[u8] = b"n5 v1 x0.005 y0\nw12 v1 Thighway=residential Nn3,n5\n";

/// Ways 10 and 11 run beside each other, one each way, and end at node 3, which way 14 leaves; a restriction names the
/// ways 10 to 13. Way 15 leaves where way 12 ends.
const BESIDE_EACH_OTHER: &[u8] = b"n2 v1 x0.001 y0.002\nn3 v1 x0.002 y0.002\nn4 v1 x0.003 y0.002\n\
    n5 v1 x0.001 y0.001\nn6 v1 x0.002 y0.001\nn7 v1 x0.002 y0\n\
    w10 v1 Thighway=residential,oneway=yes Nn2,n3\nw11 v1 Thighway=residential,oneway=yes Nn3,n2\n\
    w12 v1 Thighway=residential Nn2,n5\nw13 v1 Thighway=residential Nn5,n6\n\
    w14 v1 Thighway=residential Nn3,n4\nw15 v1 Thighway=residential Nn5,n7\n\
    r20 v1 Ttype=restriction,restriction=no_straight_on Mw10@from,w11@via,w12@via,w13@to\n";

/// Without node 4 way 14 has no pieces, so that node 3 is a dead end, and way 12 has a further context, from which an
/// arc leads by way 15: so that one is built too, for its sources. It is seven links away, and neither near the change
/// nor beside a way that is.
const DEAD_END: &[u8] = b"n4 v2 dD\n";

/// Changes, how many ways the last of them touches, and how many blocks are built behind it.
const ROWS: [(&[&[u8]], u64, u64); 13] = [
    (&[CHAIN], 10, 10),
    (&[CHAIN, SAME], 0, 0),
    (&[CHAIN, MOVED], 5, 2),
    (&[CHAIN, FAR_TURN, MOVED], 5, 2),
    (&[CHAIN, NEAR_TURN, MOVED], 6, 4),
    (&[CHAIN, MOVED, GONE], 7, 3),
    (&[CHAIN, MOVED, GONE, LONGER], 10, 5),
    (&[PASSED], 3, 3),
    (&[PASSED, JOINED], 4, 3),
    (&[PASSED, BESIDE, JOINED], 4, 4),
    (&[PASSED, BEHIND, JOINED], 5, 3),
    (&[PLAIN, JUNCTION_MADE], 5, 3),
    (&[BESIDE_EACH_OTHER, DEAD_END], 6, 6),
];

#[test]
fn changes_touch_what_is_near(rt: HostRuntime) -> Result<(), Fail> {
    for (changes, touched, rebuilt) in ROWS {
        let (report, same) = followed::<Brand>(rt.alloc(), changes, Blank::new(1))?;
        assert_eq!(rt; report.touched, touched);
        assert_eq!(rt; report.rebuilt, rebuilt);
        assert!(rt; same);
    }
    Ok(())
}

/// Whether one arc alone leads from the piece, by this position of way 11, backward.
fn leads_by(piece: &Piece, index: u32) -> bool {
    let by = PieceName {
        way: WayId(11),
        index,
        dir: Dir::Backward,
    };
    match piece.contexts.items() {
        [context] => match context.arcs.items() {
            [arc] => arc.piece == by,
            _ => false,
        },
        _ => false,
    }
}

/// Whether one arc alone leads from way 10 along its line, by this position of way 11.
fn way_10_leads_by(engine: &Engine<Motorcar>, index: u32) -> Result<bool, NoMemory> {
    let Some(block) = engine.blocks().get(WayId(10)) else {
        return Ok(false);
    };
    Ok(match block.pieces.items() {
        [forward, _] => forward.name.dir == Dir::Forward && leads_by(forward, index),
        _ => false,
    })
}

/// Whether way 10 leads by all of way 11 before node 3 is a junction, and by its last step behind that.
fn leads_by_less<L: Ledger>(
    alloc: Global,
    engine: &mut Engine<Motorcar>,
    steps: &mut Steps<L>,
) -> Result<bool, Fail> {
    let before = way_10_leads_by(engine, 0)?;
    let change = events_of(alloc, JUNCTION_MADE)?;
    let _ = engine.apply(&change, steps)?;
    Ok(before && way_10_leads_by(engine, 1)?)
}

fn way_10_leads_by_less<L: Ledger>(alloc: Global, steps: &mut Steps<L>) -> Result<bool, Fail> {
    let events = events_of(alloc, PLAIN)?;
    let mut engine = Engine::load(alloc, Motorcar, events, steps)?;
    leads_by_less(alloc, &mut engine, steps)
}

/// The same with a ledger of its own.
fn junction_is_made<L: Ledger>(alloc: Global, blank: Blank) -> Result<bool, Fail>
    requires name { blank.name ≡ L.name }
    requires parts { blank.parts ≡ L.parts }
    requires some { 0 < L.parts }
{
    let mut steps = Steps::<L>::new(blank);
    way_10_leads_by_less(alloc, &mut steps)
}

#[test]
fn arcs_lead_to_the_junction_that_is_made(rt: HostRuntime) -> Result<(), Fail> {
    assert!(rt; junction_is_made::<Brand>(rt.alloc(), Blank::new(1))?);
    Ok(())
}
