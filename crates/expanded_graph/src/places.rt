//! The nodes of a line with their locations, and those that a piece passes.
ghost use Rattle.std.specs.Prelude.{◌≡◌, ◌≤◌, ◌<◌, length, map, IfOk};
ghost use Rattle.std.specs.List.{filter_map};
ghost use Rattle.road_model.specs.Lines.{line_of};
ghost use Rattle.road_model.specs.Networks.{on, made_on, map_of};
ghost use Rattle.road_model.specs.Pieces.{IsPiece};
ghost use Rattle.way_pieces.specs.Names.{Arrives, IsDeparture, piece_of};
ghost use Rattle.way_lines.specs.RoadLines.{line_node};
ghost use Rattle.expanded_graph.specs.Travel.{place_of, travelled, nodes_on};

use road_base::{Dir, NoMemory, NodeId, Step};
use road_model::{Network, Place, Profile, World};
use std::alloc::Global;
use way_lines::LineNode;
use way_pieces::{Departure, PieceSpan};

/// Where a piece starts, and what it is to those who leave from there.
#[derive(Clone, Copy, Debug)]
pub struct PieceStart {
    pub at: NodeId,
    pub departure: Departure,
}

/// The node where a piece's last step begins, and the one where it ends.
#[derive(Clone, Copy, Debug)]
pub struct PieceEnd {
    pub from: NodeId,
    pub at: NodeId,
}

/// The places that the piece passes, in order of travel.
pub fn places_of(alloc: Global, nodes: &[LineNode], span: PieceSpan) -> Result<Vec<Place>, NoMemory>
    requires ascends { span.name.index ≤ span.end }
    requires within { span.end < length nodes.now }
    ensures { IfOk result (λ v. v.items ≡ filter_map place_of (nodes_on span nodes.now)) }
{
    let passed = &nodes[span.name.index as usize..span.end as usize + 1];
    let mut places = located(alloc, passed)?;
    put_in_order(&mut places, span.name.dir);
    Ok(places)
}

/// Puts the places that stand in the way's order in order of travel.
fn put_in_order(places: &mut Vec<Place>, dir: Dir)
    ensures { places.new.items ≡ travelled dir places.old.items }
{
    match dir {
        Dir::Forward => {}
        Dir::Backward => places.reverse(),
    }
}

/// The places of those that lie somewhere.
fn located(alloc: Global, nodes: &[LineNode]) -> Result<Vec<Place>, NoMemory>
    ensures { IfOk result (λ v. v.items ≡ filter_map place_of nodes.now) }
{
    let mut places = Vec::with_capacity(alloc, nodes.len())?;
    for passed in nodes {
        if let Some(location) = passed.location {
            places.push(Place {
                node: passed.node,
                location,
            })?;
        }
    }
    Ok(places)
}

/// Where the piece starts.
pub fn start_of<M: World, P: Profile>(
    network: &Network<'_, M, P>,
    nodes: &[LineNode],
    span: PieceSpan,
) -> PieceStart
    requires piece { on network.now IsPiece (piece_of span) }
    requires ascends { span.name.index < span.end }
    requires within { span.end < length nodes.now }
    requires line { nodes.now ≡ map (made_on network.now line_node) (line_of (map_of network.now) span.name.way) }
    ensures leaves { on network.now IsDeparture result.at result.departure }
    ensures named { result.departure.piece ≡ span.name }
{
    let low = span.name.index as usize;
    let high = span.end as usize;
    match span.name.dir {
        Dir::Forward => leaving(span, nodes[low].node, span.name.index, nodes[low + 1].node),
        Dir::Backward => leaving(span, nodes[high].node, span.end - 1, nodes[high - 1].node),
    }
}

/// The piece's start at a node, where its first step has this position and ends at the other node.
fn leaving(span: PieceSpan, at: NodeId, index: u32, toward: NodeId) -> PieceStart
    ensures at { result.at ≡ at }
    ensures piece { result.departure.piece ≡ span.name }
    ensures first { result.departure.first ≡ record { way = span.name.way; index = index; dir = span.name.dir } }
    ensures toward { result.departure.toward ≡ toward }
{
    let first = Step {
        way: span.name.way,
        index,
        dir: span.name.dir,
    };
    PieceStart {
        at,
        departure: Departure {
            piece: span.name,
            first,
            toward,
        },
    }
}

/// Where the piece ends, and from where.
pub fn end_of<M: World, P: Profile>(
    network: &Network<'_, M, P>,
    nodes: &[LineNode],
    span: PieceSpan,
) -> PieceEnd
    requires ascends { span.name.index < span.end }
    requires within { span.end < length nodes.now }
    requires line { nodes.now ≡ map (made_on network.now line_node) (line_of (map_of network.now) span.name.way) }
    ensures { Arrives (map_of network.now) (piece_of span) result.from result.at }
{
    let low = span.name.index as usize;
    let high = span.end as usize;
    match span.name.dir {
        Dir::Forward => PieceEnd {
            from: nodes[high - 1].node,
            at: nodes[high].node,
        },
        Dir::Backward => PieceEnd {
            from: nodes[low + 1].node,
            at: nodes[low].node,
        },
    }
}
