//! The pieces of a way as its block lists them, where they start and end, and the directions in which the way is open.
ghost use Rattle.std.specs.Prelude.{◌≡◌, ◌↔◌, [], None, IfOk, IfSome, map};
ghost use Rattle.std.specs.List.{filter_map, list_any};
ghost use Rattle.road_base.specs.declared.ids.WayId.{WayId};
ghost use Rattle.road_base.specs.Objects.{Objects};
ghost use Rattle.road_model.specs.Rules.{Rules};
ghost use Rattle.road_model.specs.Blocks.{ListsPieces};
ghost use Rattle.way_lines.specs.RoadLines.{IsRoad};
ghost use Rattle.way_pieces.specs.Listed.{first_index, goes, listed_span, start_along, listed_start};
ghost use Rattle.way_pieces.specs.Listed.{stop_along, listed_stop};
ghost use Rattle.way_pieces.specs.RoadPieces.{AreSpans, AreStarts, AreStops};

use crate::arrivals::Arrival;
use crate::at_nodes::{AtNode, put_in_order};
use crate::departures::Departure;
use crate::spans::PieceSpan;
use road_base::{Dir, NoMemory, Step, WayId};
use road_model::{Block, Piece, Place};
use std::alloc::Global;
use way_lines::Road;

/// The directions in which the way is open whose pieces the block lists: each in which one of them goes. None where it
/// lists no piece: then nothing is known of them.
pub fn listed_road(way: WayId, block: &Block) -> Option<Road>
    ensures none { (result ≡ None) ↔ (block.now.pieces ≡ []) }
    ensures way { IfSome result (λ r. r.way ≡ way) }
    ensures directions { IfSome result (λ r. (M : Objects) (P : Rules)
        → ListsPieces M P way block.now
        → IsRoad M P r) }
{
    let pieces = block.pieces.items();
    if pieces.is_empty() {
        return None;
    }
    Some(Road {
        way,
        forward: some_goes(pieces, Dir::Forward),
        backward: some_goes(pieces, Dir::Backward),
    })
}

/// Whether some of the pieces goes in the direction.
fn some_goes(pieces: &[Piece], dir: Dir) -> bool
    ensures { result ≡ list_any (goes dir) pieces.now }
{
    pieces.iter().any(|piece| goes(piece, dir))
}

/// Whether the piece goes in the direction.
fn goes(piece: &Piece, dir: Dir) -> bool
    ensures { result ≡ goes dir piece.now }
{
    piece.name.dir == dir
}

/// The pieces that the block lists, in its order.
pub fn spans_in(alloc: Global, block: &Block) -> Result<Vec<PieceSpan>, NoMemory>
    ensures { IfOk result (λ v. (M : Objects) (P : Rules) (w : WayId)
        → ListsPieces M P w block.now
        → AreSpans M P w v.items) }
{
    let spans = listed_spans(alloc, block.pieces.items())?;
    Ok(spans)
}

/// Each of the pieces' names, with its end.
fn listed_spans(alloc: Global, pieces: &[Piece]) -> Result<Vec<PieceSpan>, NoMemory>
    ensures { IfOk result (λ v. v.items ≡ map listed_span pieces.now) }
{
    let mut spans = Vec::with_capacity(alloc, pieces.len())?;
    for piece in pieces {
        spans.push(listed_span(piece))?;
    }
    Ok(spans)
}

/// The piece's name, and its end.
fn listed_span(piece: &Piece) -> PieceSpan
    ensures { result ≡ listed_span piece.now }
{
    PieceSpan {
        name: piece.name,
        end: piece.end,
    }
}

/// Where the pieces start that the block lists, by node.
pub fn starts_in(alloc: Global, block: &Block) -> Result<Vec<AtNode<Departure>>, NoMemory>
    ensures { IfOk result (λ v. (M : Objects) (P : Rules) (w : WayId)
        → ListsPieces M P w block.now
        → AreStarts M P w v.items) }
{
    let mut starts = listed_starts(alloc, block.pieces.items())?;
    put_in_order(&mut starts)?;
    Ok(starts)
}

/// Where each of the pieces starts that passes two nodes or more: all of them, in a graph.
fn listed_starts(alloc: Global, pieces: &[Piece]) -> Result<Vec<AtNode<Departure>>, NoMemory>
    ensures { IfOk result (λ v. v.items ≡ filter_map listed_start pieces.now) }
{
    let mut starts = Vec::with_capacity(alloc, pieces.len())?;
    for piece in pieces {
        if let Some(start) = start_along(listed_span(piece), piece.places.items()) {
            starts.push(start)?;
        }
    }
    Ok(starts)
}

/// The start of the piece that passes these places, in order of travel.
fn start_along(span: PieceSpan, places: &[Place]) -> Option<AtNode<Departure>>
    ensures { result ≡ start_along span places.now }
{
    let [from, to, ..] = places else {
        return None;
    };
    Some(AtNode {
        node: from.node,
        item: Departure {
            piece: span.name,
            first: Step {
                way: span.name.way,
                index: first_index(span),
                dir: span.name.dir,
            },
            toward: to.node,
        },
    })
}

/// Where the pieces end that the block lists, by node.
pub fn stops_in(alloc: Global, block: &Block) -> Result<Vec<AtNode<Arrival>>, NoMemory>
    ensures { IfOk result (λ v. (M : Objects) (P : Rules) (w : WayId)
        → ListsPieces M P w block.now
        → AreStops M P w v.items) }
{
    let mut stops = listed_stops(alloc, block.pieces.items())?;
    put_in_order(&mut stops)?;
    Ok(stops)
}

/// Where each of the pieces ends that passes two nodes or more: all of them, in a graph.
fn listed_stops(alloc: Global, pieces: &[Piece]) -> Result<Vec<AtNode<Arrival>>, NoMemory>
    ensures { IfOk result (λ v. v.items ≡ filter_map listed_stop pieces.now) }
{
    let mut stops = Vec::with_capacity(alloc, pieces.len())?;
    for piece in pieces {
        if let Some(stop) = stop_along(listed_span(piece), piece.places.items()) {
            stops.push(stop)?;
        }
    }
    Ok(stops)
}

/// The end of the piece that passes these places, in order of travel.
fn stop_along(span: PieceSpan, places: &[Place]) -> Option<AtNode<Arrival>>
    ensures { result ≡ stop_along span places.now }
{
    let [.., from, to] = places else {
        return None;
    };
    Some(AtNode {
        node: to.node,
        item: Arrival {
            span,
            from: from.node,
        },
    })
}

/// The position of the piece's first step.
fn first_index(span: PieceSpan) -> u32
    ensures { result ≡ first_index span span.name.dir }
{
    match span.name.dir {
        Dir::Forward => span.name.index,
        Dir::Backward => span.end.saturating_sub(1),
    }
}
