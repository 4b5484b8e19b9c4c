//! The lines of the ways of a drive, so that no step of it goes over a way's references.
ghost use Rattle.std.specs.Prelude.{◌≡◌, ◌+◌, Some, Contains, IfOk, IfSome, IfNone, IsFalse, is_some, length, nat_lt};
ghost use Rattle.std.specs.Prelude.{option_copied, slice_get};
ghost use Rattle.road_base.specs.declared.ids.WayId.{WayId};
ghost use Rattle.road_base.specs.Objects.{Objects};
ghost use Rattle.road_model.specs.Lines.{head_position, line_of, names_pair, tail_position};
ghost use Rattle.drive_judging.specs.DriveLines.{HasEnds, IsLineIn, line_in};

use road_base::{Dir, NoMemory, NodeId, Step, WayId};
use road_model::World;
use road_model::laws::name_order;
use std::alloc::Global;
use std::collections::BTreeMap;
use way_lines::nodes_of;

/// The nodes of a way's line.
#[derive(Drop)]
pub struct DriveLine {
    nodes: Vec<NodeId>,
}

/// The lines of the ways. Takes the time of their references.
pub fn lines_of<M: World>(
    alloc: Global,
    world: &M,
    ways: &[WayId],
) -> Result<BTreeMap<WayId, DriveLine>, NoMemory>
    ensures { IfOk result (λ lines. (w : WayId) → Contains ways.now w → IsLineIn (M.objects world.now) lines w) }
{
    name_order();
    let mut lines = BTreeMap::new(alloc);
    for way in ways {
        lines.insert(*way, line_of(alloc, world, *way)?)?;
    }
    Ok(lines)
}

/// The line of the way, empty where it isn't visible.
fn line_of<M: World>(alloc: Global, world: &M, way: WayId) -> Result<DriveLine, NoMemory>
    ensures { IfOk result (λ l. l.nodes.items ≡ line_of (M.objects world.now) way) }
{
    match world.way(way) {
        Some(body) => Ok(DriveLine {
            nodes: nodes_of(alloc, body)?,
        }),
        None => Ok(DriveLine {
            nodes: Vec::new(alloc),
        }),
    }
}

/// Where the step begins and ends, by the line of its way. None exactly where the line has no such pair of nodes.
pub fn ends_in(lines: &BTreeMap<WayId, DriveLine>, step: Step) -> Option<(NodeId, NodeId)>
    ensures some { IfSome result (λ p. (M : Objects) → IsLineIn M lines.now step.way → HasEnds M step p) }
    ensures none { IfNone result ((M : Objects) → IsLineIn M lines.now step.way → IsFalse (names_pair M step)) }
{
    match line_at(lines, step.way) {
        Some(line) => ends_along(&line.nodes, step),
        None => None,
    }
}

/// The line that is kept of the way.
fn line_at(lines: &BTreeMap<WayId, DriveLine>, way: WayId) -> Option<&DriveLine>
    ensures { option_copied result ≡ line_in lines.now way }
{
    name_order();
    lines.get(&way)
}

/// Where the step begins and ends, by its way's line.
fn ends_along(nodes: &[NodeId], step: Step) -> Option<(NodeId, NodeId)>
    ensures tail { IfSome result (λ p. slice_get nodes.now (tail_position step.dir step.index) ≡ Some p.0) }
    ensures head { IfSome result (λ p. slice_get nodes.now (head_position step.dir step.index) ≡ Some p.1) }
    ensures named { is_some result ≡ nat_lt (step.index + 1) (length nodes.now) }
{
    let first = step.index as usize;
    if first + 1 >= nodes.len() {
        return None;
    }
    match step.dir {
        Dir::Forward => Some((nodes[first], nodes[first + 1])),
        Dir::Backward => Some((nodes[first + 1], nodes[first])),
    }
}
