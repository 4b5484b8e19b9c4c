//! Where the pieces of a way end, by its line.
ghost use Rattle.std.specs.Prelude.{◌≡◌, ◌<◌, IfOk, length, map};
ghost use Rattle.std.specs.List.{All};
ghost use Rattle.way_pieces.specs.Starts.{IsWithin};
ghost use Rattle.way_pieces.specs.Stops.{stop_by, stop_on};

use crate::arrivals::Arrival;
use crate::at_nodes::AtNode;
use crate::spans::PieceSpan;
use road_base::{Dir, NoMemory};
use std::alloc::Global;
use way_lines::LineNode;

/// Where each of the pieces ends. The nodes are those of the way's line.
pub fn stops_of(
    alloc: Global,
    nodes: &[LineNode],
    spans: &[PieceSpan],
) -> Result<Vec<AtNode<Arrival>>, NoMemory>
    requires { All (IsWithin (length nodes.now)) spans.now }
    ensures { IfOk result (λ v. v.items ≡ map (stop_on nodes.now) spans.now) }
{
    let mut stops = Vec::with_capacity(alloc, spans.len())?;
    for span in spans {
        stops.push(stop_on(nodes, *span))?;
    }
    Ok(stops)
}

fn stop_on(nodes: &[LineNode], span: PieceSpan) -> AtNode<Arrival>
    requires { IsWithin (length nodes.now) span }
    ensures { result ≡ stop_on nodes.now span }
{
    match span.name.dir {
        Dir::Forward => stop_by(nodes, span, span.end - 1, span.end),
        Dir::Backward => stop_by(nodes, span, span.name.index + 1, span.name.index),
    }
}

/// The end of the piece, which ends with the step between these positions.
fn stop_by(nodes: &[LineNode], span: PieceSpan, tail: u32, head: u32) -> AtNode<Arrival>
    requires tail { tail < length nodes.now }
    requires head { head < length nodes.now }
    ensures { result ≡ stop_by nodes.now span tail head }
{
    AtNode {
        node: nodes[head as usize].node,
        item: Arrival {
            span,
            from: nodes[tail as usize].node,
        },
    }
}
