//! Drives of least cost on a drawn map, and which numbers show their cost.
ghost use Rattle.std.specs.Prelude.{◌≡◌, ◌<◌};

use access_profile::Motorcar;
use change_apply::Engine;
use least_cost::{Cheapest, Potentials, Shortest, check, drive_cost, least, shortest};
use object_tests::makers::extract_of;
use road_base::{Dir, Event, NoMemory, NodeId, Step, Steps, WayId};
use std::alloc::Global;
use std::marker::Brand;
use std::sync::ledger::{Blank, Ledger};
use std::test::Fail;

/// Three ways that meet at node 2: one may not turn from the first into the second.
const NO_TURN: &[u8] = b"n1 x0.001 y0\nn2 x0.002 y0\nn3 x0.003 y0\nn4 x0.004 y0\n\
    w10 Thighway=residential Nn1,n2\nw11 Thighway=residential Nn2,n3\nw12 Thighway=residential Nn2,n4\n\
    r5 Ttype=restriction,restriction=no_left_turn Mw10@from,n2@via,w11@to\n";

/// What shows the cost from node 1 to node 3: at the contexts of 10.0+, 10.0-, 11.0+, 11.0-, 12.0+ and 12.0-.
const SHOWN: [u128; 6] = [10_001, 60_004, 60_004, 70_005, 30_002, 50_003];

/// The first step of the way in the direction.
fn first_step(way: i64, dir: Dir) -> Step {
    Step {
        way: WayId(way),
        index: 0,
        dir,
    }
}

/// The drive from node 1 to node 3: by way 12 to its end and back.
fn around() -> [Step; 4] {
    [
        first_step(10, Dir::Forward),
        first_step(12, Dir::Forward),
        first_step(12, Dir::Backward),
        first_step(11, Dir::Forward),
    ]
}

/// The drive that the restriction forbids.
fn forbidden() -> [Step; 2] {
    [first_step(10, Dir::Forward), first_step(11, Dir::Forward)]
}

/// The numbers, as potentials.
fn numbers(alloc: Global, costs: &[u128]) -> Result<Potentials, Fail> {
    let mut list = Vec::new(alloc);
    for cost in costs {
        list.push(Some(*cost))?;
    }
    Ok(Potentials::from_list(list))
}

/// Whether the numbers show that the drive, if there is one, is one of least cost between the nodes.
fn checked(
    alloc: Global,
    engine: &Engine<Motorcar>,
    ends: (NodeId, NodeId),
    route: Option<&[Step]>,
    potentials: &Potentials,
) -> Result<bool, NoMemory> {
    check(
        alloc,
        engine.world(),
        &engine.profile(),
        engine.blocks(),
        ends.0,
        ends.1,
        route,
        potentials,
    )
}

/// What is found between the nodes, with what shows it.
fn cheapest(
    alloc: Global,
    engine: &Engine<Motorcar>,
    a: NodeId,
    b: NodeId,
) -> Result<Cheapest, NoMemory> {
    least(
        alloc,
        engine.world(),
        &engine.profile(),
        engine.blocks(),
        a,
        b,
    )
}

/// What is found between the nodes.
fn found(
    alloc: Global,
    engine: &Engine<Motorcar>,
    a: NodeId,
    b: NodeId,
) -> Result<Shortest, NoMemory> {
    shortest(
        alloc,
        engine.world(),
        &engine.profile(),
        engine.blocks(),
        a,
        b,
    )
}

/// Whether the numbers show that the drive is one of least cost from node 1 to node 3.
fn shows(
    alloc: Global,
    engine: &Engine<Motorcar>,
    drive: &[Step],
    costs: &[u128],
) -> Result<bool, Fail> {
    let potentials = numbers(alloc, costs)?;
    let ends = (NodeId(1), NodeId(3));
    Ok(checked(alloc, engine, ends, Some(drive), &potentials)?)
}

/// Whether the worked numbers show the worked drive, and none of these does: the last number one more, one number too
/// few, the drive that is forbidden.
fn shows_as_worked(alloc: Global, engine: &Engine<Motorcar>) -> Result<bool, Fail> {
    let raised = [10_001, 60_004, 60_004, 70_005, 30_002, 50_004];
    Ok(
        shows(alloc, engine, &around(), &SHOWN)?
            && !shows(alloc, engine, &around(), &raised)?
            && !shows(alloc, engine, &around(), &SHOWN[..5])?
            && !shows(alloc, engine, &forbidden(), &SHOWN)?,
    )
}

/// Whether a drive of this cost is found from node 1 to the node, and the numbers beside it show that.
fn costs_least(
    alloc: Global,
    engine: &Engine<Motorcar>,
    to: i64,
    wanted: u128,
) -> Result<bool, Fail> {
    let ends = (NodeId(1), NodeId(to));
    let Cheapest::Route {
        cost,
        drive,
        potentials,
    } = cheapest(alloc, engine, ends.0, ends.1)?
    else {
        return Ok(false);
    };
    let shown = checked(alloc, engine, ends, Some(drive.items()), &potentials)?;
    Ok(shown && cost == wanted && drive_cost(engine.world(), drive.items()) == Some(wanted))
}

/// Whether a drive of this cost is found from node 1 to node 3.
fn is_short(alloc: Global, engine: &Engine<Motorcar>, wanted: u128) -> Result<bool, NoMemory> {
    match found(alloc, engine, NodeId(1), NodeId(3))? {
        Shortest::Route { cost, .. } => Ok(cost == wanted),
        _ => Ok(false),
    }
}

/// Whether there is no node 9.
fn lacks_a_node(alloc: Global, engine: &Engine<Motorcar>) -> Result<bool, NoMemory> {
    match found(alloc, engine, NodeId(1), NodeId(9))? {
        Shortest::NoNode(node) => Ok(node == NodeId(9)),
        _ => Ok(false),
    }
}

/// Whether all is as it was worked out on the map.
fn is_as_worked(alloc: Global, engine: &Engine<Motorcar>) -> Result<bool, Fail> {
    let nowhere = drive_cost(engine.world(), &[first_step(13, Dir::Forward)]);
    Ok(
        nowhere.is_none()
            && shows_as_worked(alloc, engine)?
            && costs_least(alloc, engine, 3, 60_004)?
            && costs_least(alloc, engine, 4, 30_002)?
            && is_short(alloc, engine, 60_004)?
            && lacks_a_node(alloc, engine)?,
    )
}

/// The same of the map of these events.
fn is_as_worked_among<L: Ledger>(
    alloc: Global,
    events: Vec<Event>,
    steps: &mut Steps<L>,
) -> Result<bool, Fail> {
    let engine = Engine::load(alloc, Motorcar, events, steps)?;
    is_as_worked(alloc, &engine)
}

/// The same of the drawn map.
fn is_as_worked_on<L: Ledger>(alloc: Global, blank: Blank) -> Result<bool, Fail>
    requires name { blank.name ≡ L.name }
    requires parts { blank.parts ≡ L.parts }
    requires some { 0 < L.parts }
{
    let mut steps = Steps::<L>::new(blank);
    is_as_worked_among(alloc, extract_of(alloc, NO_TURN)?, &mut steps)
}

#[test]
fn numbers_show_the_least_cost(rt: HostRuntime) -> Result<(), Fail> {
    let is_as_worked = is_as_worked_on::<Brand>(rt.alloc(), Blank::new(1))?;
    assert!(rt; is_as_worked);
    Ok(())
}
