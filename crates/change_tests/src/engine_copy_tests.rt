//! That a copy of an engine and the engine go on alone: a change of the one leaves the other as it was.
ghost use Rattle.std.specs.Prelude.{◌≡◌, ◌<◌};

use access_profile::Motorcar;
use change_apply::Engine;
use graph_file::{VERSION, write};
use object_tests::makers::events_of;
use road_base::Steps;
use road_model::Profile;
use std::alloc::Global;
use std::marker::Brand;
use std::sync::ledger::{Blank, Ledger};
use std::test::Fail;

/// A chain of ways with a fork at its end and a No rule over two via ways, so that contexts are of several pieces.
const MAP: &[u8] = b"n1 v1 x0.001 y0\nn2 v1 x0.002 y0\nn3 v1 x0.003 y0\nn4 v1 x0.004 y0\n\
    n5 v1 x0.005 y0\nn6 v1 x0.006 y0\n\
    w1 v1 Thighway=residential Nn1,n2\nw2 v1 Thighway=residential Nn2,n3\n\
    w3 v1 Thighway=residential Nn3,n4\nw4 v1 Thighway=residential Nn4,n5\n\
    w5 v1 Thighway=residential Nn4,n6\n\
    r20 v1 Ttype=restriction,restriction=no_u_turn Mw1@from,w2@via,w3@via,w4@to\n";

/// An Only rule beside it.
const CHANGE: &[u8] =
    b"r21 v1 Ttype=restriction,restriction=only_right_turn Mw2@from,w3@via,w5@to\n";

/// The bytes of the graph.
fn graph_of(alloc: Global, engine: &Engine<Motorcar>) -> Result<Vec<u8>, Fail> {
    let mut bytes = Vec::new(alloc);
    write(VERSION, Motorcar.number(), engine.blocks(), &mut bytes)?;
    Ok(bytes)
}

/// Whether the graph has these bytes.
fn is_graph(alloc: Global, engine: &Engine<Motorcar>, bytes: &[u8]) -> Result<bool, Fail> {
    Ok(graph_of(alloc, engine)?.as_slice() == bytes)
}

/// An engine of the map.
fn engine_of_map<L: Ledger>(alloc: Global, steps: &mut Steps<L>) -> Result<Engine<Motorcar>, Fail> {
    let events = events_of(alloc, MAP)?;
    Ok(Engine::load(alloc, Motorcar, events, steps)?)
}

/// The graph of the map with the change, made at once.
fn graph_behind<L: Ledger>(alloc: Global, steps: &mut Steps<L>) -> Result<Vec<u8>, Fail> {
    let mut events = events_of(alloc, MAP)?;
    events.append(&mut events_of(alloc, CHANGE)?)?;
    let engine = Engine::load(alloc, Motorcar, events, steps)?;
    graph_of(alloc, &engine)
}

/// Whether both have the same graph.
fn have_same_graph(
    alloc: Global,
    these: &Engine<Motorcar>,
    those: &Engine<Motorcar>,
) -> Result<bool, Fail> {
    let bytes = graph_of(alloc, these)?;
    is_graph(alloc, those, &bytes)
}

/// Whether the one has this graph behind the change, and the other that which both had before, which is another one.
fn changes_alone<L: Ledger>(
    alloc: Global,
    one: &mut Engine<Motorcar>,
    other: &Engine<Motorcar>,
    behind: &[u8],
    steps: &mut Steps<L>,
) -> Result<bool, Fail> {
    let before = graph_of(alloc, other)?;
    let change = events_of(alloc, CHANGE)?;
    let _ = one.follow(&change, steps)?;
    let stays = is_graph(alloc, other, &before)?;
    Ok(stays && is_graph(alloc, one, behind)? && before.as_slice() != behind)
}

/// Whether a copy is equal, and then changes alone.
fn copy_changes_alone<L: Ledger>(
    alloc: Global,
    behind: &[u8],
    steps: &mut Steps<L>,
) -> Result<bool, Fail> {
    let engine = engine_of_map(alloc, steps)?;
    let mut copy = engine.copy()?;
    let same = have_same_graph(alloc, &engine, &copy)?;
    Ok(same && changes_alone(alloc, &mut copy, &engine, behind, steps)?)
}

/// Whether an engine changes without its copy.
fn copied_changes_alone<L: Ledger>(
    alloc: Global,
    behind: &[u8],
    steps: &mut Steps<L>,
) -> Result<bool, Fail> {
    let mut engine = engine_of_map(alloc, steps)?;
    let copy = engine.copy()?;
    changes_alone(alloc, &mut engine, &copy, behind, steps)
}

/// Whether both hold.
fn each_changes_alone<L: Ledger>(alloc: Global, steps: &mut Steps<L>) -> Result<bool, Fail> {
    let behind = graph_behind(alloc, steps)?;
    let copy = copy_changes_alone(alloc, &behind, steps)?;
    Ok(copy && copied_changes_alone(alloc, &behind, steps)?)
}

/// The same with a ledger of its own.
fn copies_change_alone<L: Ledger>(alloc: Global, blank: Blank) -> Result<bool, Fail>
    requires name { blank.name ≡ L.name }
    requires parts { blank.parts ≡ L.parts }
    requires some { 0 < L.parts }
{
    let mut steps = Steps::<L>::new(blank);
    each_changes_alone(alloc, &mut steps)
}

#[test]
fn a_copy_and_what_is_copied_change_alone(rt: HostRuntime) -> Result<(), Fail> {
    assert!(rt; copies_change_alone::<Brand>(rt.alloc(), Blank::new(1))?);
    Ok(())
}
