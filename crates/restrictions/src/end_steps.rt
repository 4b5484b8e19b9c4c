//! The end steps of ways into a node and out of it.
ghost use Rattle.std.specs.Prelude.{◌≡◌, ◌<◌, OnOk, IfOk, IsTrue, Some, [], length, take, slice_get, Contains};
ghost use Rattle.std.specs.List.{list_any};
ghost use Rattle.road_base.specs.declared.ids.Key.{Key};
ghost use Rattle.restrictions.specs.Ends.{added, ends_of, first_dir, first_end, last_dir, last_end, same_step};
ghost use Rattle.restrictions.specs.Ends.{with_ends};

use crate::line_ends::{has_steps, line_ends, nodes_on};
use road_base::{Dir, Key, NoMemory, NodeId, Step, WayId};
use road_model::World;
use std::alloc::Global;

/// Whether steps are asked for that end at the node, or that begin there.
#[derive(Clone, Copy)]
pub enum Side {
    Into,
    OutOf,
}

/// The end steps of these ways into the node or out of it, each once. A way that stands among them several times is
/// looked at once; to see whether it stands there before takes the time of the square of their number.
pub fn ends_of<M: World>(
    alloc: Global,
    world: &M,
    side: Side,
    ways: &[Key],
    node: NodeId,
) -> Result<Vec<Step>, NoMemory>
    ensures { IfOk result (λ steps. steps.items ≡ ends_of (M.objects world.now) side node ways.now []) }
{
    let mut steps = Vec::new(alloc);
    for at in 0..ways.len() {
        if !stands_before(ways, at) {
            add_ends(&mut steps, world, side, ways[at], node)?;
        }
    }
    Ok(steps)
}

/// Whether the key at the place stands at an earlier one, too.
fn stands_before(keys: &[Key], at: usize) -> bool
    requires { at < length keys.now }
    ensures { IsTrue result → (k : Key) → slice_get keys.now at ≡ Some k → Contains (take at keys.now) k }
{
    keys[..at].contains(&keys[at])
}

/// Adds the end steps of the way that aren't there yet.
fn add_ends<M: World>(
    steps: &mut Vec<Step>,
    world: &M,
    side: Side,
    key: Key,
    node: NodeId,
) -> Result<(), NoMemory>
    ensures { OnOk result (steps.new.items ≡ with_ends (M.objects world.now) side node steps.old.items key) }
{
    let Key::Way(way) = key else {
        return Ok(());
    };
    let first = first_end(world, side, way, node);
    let last = last_end(world, side, way, node);
    add_once(steps, first)?;
    add_once(steps, last)?;
    Ok(())
}

/// The end step at the beginning of the line, if that is the node and another one stands behind it.
fn first_end<M: World>(world: &M, side: Side, way: WayId, node: NodeId) -> Option<Step>
    ensures { result ≡ first_end (M.objects world.now) side way node }
{
    let Some(ends) = line_ends(world, way) else {
        return None;
    };
    if ends.first != node || !has_steps(world, way) {
        return None;
    }
    Some(Step {
        way,
        index: 0,
        dir: first_dir(side),
    })
}

/// The end step at the end of the line, if that is the node.
fn last_end<M: World>(world: &M, side: Side, way: WayId, node: NodeId) -> Option<Step>
    ensures { result ≡ last_end (M.objects world.now) side way node }
{
    let Some(ends) = line_ends(world, way) else {
        return None;
    };
    if ends.last != node {
        return None;
    }
    let nodes = nodes_on(world, way);
    if nodes < 2 {
        return None;
    }
    Some(Step {
        way,
        index: nodes - 2,
        dir: last_dir(side),
    })
}

/// The direction of the end step at the beginning of a line.
fn first_dir(side: Side) -> Dir
    ensures { result ≡ first_dir side }
{
    match side {
        Side::Into => Dir::Backward,
        Side::OutOf => Dir::Forward,
    }
}

/// The direction of the end step at the end of a line.
fn last_dir(side: Side) -> Dir
    ensures { result ≡ last_dir side }
{
    match side {
        Side::Into => Dir::Forward,
        Side::OutOf => Dir::Backward,
    }
}

/// Adds the step, if there is one and it isn't there yet.
fn add_once(steps: &mut Vec<Step>, step: Option<Step>) -> Result<(), NoMemory>
    ensures { OnOk result (steps.new.items ≡ added steps.old.items step) }
{
    let Some(step) = step else {
        return Ok(());
    };
    if is_listed(step, steps.as_slice()) {
        return Ok(());
    }
    steps.push(step)?;
    Ok(())
}

fn is_listed(step: Step, steps: &[Step]) -> bool
    ensures { result ≡ list_any (same_step step) steps.now }
{
    steps.iter().any(|other| same_step(step, *other))
}

fn same_step(this: Step, that: Step) -> bool
    ensures { result ≡ same_step this that }
{
    this == that
}
