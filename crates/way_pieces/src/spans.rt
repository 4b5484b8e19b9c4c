//! The pieces of a way.
ghost use Rattle.std.specs.Prelude.{◌≡◌, IfOk, OnOk, slice_get};
ghost use Rattle.ordered_lists.specs.Orders.{Lists};
ghost use Rattle.road_model.specs.Orders.{name_cmp};
ghost use Rattle.road_model.specs.Networks.{on};
ghost use Rattle.junctions.specs.Junctions.{AreJunctions};
ghost use Rattle.way_lines.specs.RoadLines.{IsRoadLine};
ghost use Rattle.way_pieces.specs.Names.{IsSpanOn};
ghost use Rattle.way_pieces.specs.Stretches.{is_located, has_located_ends, span_on, added, both_added};

use crate::stretches::Stretch;
use road_base::{Dir, NoMemory};
use road_model::{Network, PieceName, Profile, World};
use std::alloc::Global;
use way_lines::{LineNode, Road, RoadLine};

/// A piece with both its positions: its name has the lower one, `end` is the upper one.
#[derive(Clone, Copy, Debug, PartialEq, Eq)]
pub struct PieceSpan {
    pub name: PieceName,
    pub end: u32,
}

/// The pieces of the way whose line this is and whose junctions these are, each once, by position and forward before
/// backward.
pub fn spans_along<M: World, P: Profile>(
    alloc: Global,
    network: &Network<'_, M, P>,
    line: &RoadLine,
    junctions: &[u32],
) -> Result<Vec<PieceSpan>, NoMemory>
    requires line { on network.now IsRoadLine line.now }
    requires junctions { on network.now AreJunctions line.now.road.way junctions.now }
    ensures { IfOk result (λ v. Lists (λ s. s.name) name_cmp (on network.now IsSpanOn line.now.road.way) v.items) }
{
    if junctions.len() == 0 {
        return Ok(Vec::new(alloc));
    }
    let mut spans = Vec::with_capacity(alloc, 2 * (junctions.len() - 1))?;
    for at in 1..junctions.len() {
        let stretch = Stretch {
            way: line.road.way,
            index: junctions[at - 1],
            end: junctions[at],
        };
        if !has_located_ends(line.nodes.as_slice(), stretch) {
            continue;
        }
        add_spans(&mut spans, line.road, stretch)?;
    }
    Ok(spans)
}

/// Whether the nodes at both junctions are visible with a location. The nodes are those of the way's line.
fn has_located_ends(nodes: &[LineNode], stretch: Stretch) -> bool
    ensures { result ≡ has_located_ends nodes.now stretch }
{
    is_located(nodes, stretch.index) && is_located(nodes, stretch.end)
}

/// Whether there is a node at the position that is visible with a location.
fn is_located(nodes: &[LineNode], position: u32) -> bool
    ensures { result ≡ is_located (slice_get nodes.now position) }
{
    match nodes.get(position as usize) {
        Some(node) => node.location.is_some(),
        None => false,
    }
}

/// Adds the pieces between two neighbouring junctions of the road, both located, in the directions in which it is open.
fn add_spans(spans: &mut Vec<PieceSpan>, road: Road, stretch: Stretch) -> Result<(), NoMemory>
    ensures { OnOk result (spans.new.items ≡ both_added spans.old.items road stretch) }
{
    let along = span_on(stretch, Dir::Forward);
    let against = span_on(stretch, Dir::Backward);
    add_if(spans, road.forward, along)?;
    add_if(spans, road.backward, against)?;
    Ok(())
}

fn span_on(stretch: Stretch, dir: Dir) -> PieceSpan
    ensures { result ≡ span_on stretch dir }
{
    PieceSpan {
        name: PieceName {
            way: stretch.way,
            index: stretch.index,
            dir,
        },
        end: stretch.end,
    }
}

/// Adds the span, if it is wanted.
fn add_if(spans: &mut Vec<PieceSpan>, wanted: bool, span: PieceSpan) -> Result<(), NoMemory>
    ensures { OnOk result (spans.new.items ≡ added spans.old.items wanted span) }
{
    if !wanted {
        return Ok(());
    }
    spans.push(span)?;
    Ok(())
}
