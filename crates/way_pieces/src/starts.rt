//! Where the pieces of a way start, by its line.
ghost use Rattle.std.specs.Prelude.{◌≡◌, ◌<◌, IfOk, length, map};
ghost use Rattle.std.specs.List.{All};
ghost use Rattle.way_pieces.specs.Starts.{IsWithin, start_by, start_on};

use crate::at_nodes::AtNode;
use crate::departures::Departure;
use crate::spans::PieceSpan;
use road_base::{Dir, NoMemory, Step};
use std::alloc::Global;
use way_lines::LineNode;

/// Where each of the pieces starts. The nodes are those of the way's line.
pub fn starts_of(
    alloc: Global,
    nodes: &[LineNode],
    spans: &[PieceSpan],
) -> Result<Vec<AtNode<Departure>>, NoMemory>
    requires { All (IsWithin (length nodes.now)) spans.now }
    ensures { IfOk result (λ v. v.items ≡ map (start_on nodes.now) spans.now) }
{
    let mut starts = Vec::with_capacity(alloc, spans.len())?;
    for span in spans {
        starts.push(start_on(nodes, *span))?;
    }
    Ok(starts)
}

fn start_on(nodes: &[LineNode], span: PieceSpan) -> AtNode<Departure>
    requires { IsWithin (length nodes.now) span }
    ensures { result ≡ start_on nodes.now span }
{
    match span.name.dir {
        Dir::Forward => start_by(
            nodes,
            span,
            span.name.index,
            span.name.index,
            span.name.index + 1,
        ),
        Dir::Backward => start_by(nodes, span, span.end, span.end - 1, span.end - 1),
    }
}

/// The start of the piece, which begins with the step between these positions.
fn start_by(
    nodes: &[LineNode],
    span: PieceSpan,
    tail: u32,
    index: u32,
    head: u32,
) -> AtNode<Departure>
    requires tail { tail < length nodes.now }
    requires head { head < length nodes.now }
    ensures { result ≡ start_by nodes.now span tail index head }
{
    AtNode {
        node: nodes[tail as usize].node,
        item: Departure {
            piece: span.name,
            first: Step {
                way: span.name.way,
                index,
                dir: span.name.dir,
            },
            toward: nodes[head as usize].node,
        },
    }
}
