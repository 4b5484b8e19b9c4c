//! Pieces with the nodes that they pass and their contexts.
ghost use Rattle.std.specs.Prelude.{◌≡◌, ◌≤◌, length, map, IfOk, IsTrue, true, Contains};
ghost use Rattle.std.specs.List.{All, AllByRecursion};
ghost use Rattle.road_model.specs.Lines.{line_of};
ghost use Rattle.road_model.specs.Pieces.{IsPiece};
ghost use Rattle.ordered_lists.specs.Orders.{Lists};
ghost use Rattle.road_model.specs.Orders.{names_cmp};
ghost use Rattle.road_model.specs.Blocks.{IsContextEntry, IsPieceEntry};
ghost use Rattle.road_model.specs.Format.{IsContextForm, IsPieceForm, begins_alone};
ghost use Rattle.road_model.specs.Networks.{on, made_on, map_of};
ghost use Rattle.way_lines.specs.RoadLines.{line_node};
ghost use Rattle.way_pieces.specs.Names.{Arrives, IsDeparture, IsSpanOn, piece_of};
ghost use Rattle.expanded_graph.specs.Bare.{IsBarePiece};
ghost use Rattle.expanded_graph.specs.Contexts.{IsBareContext};
ghost use Rattle.expanded_graph.specs.Intersections.{AreFree, IsIntersection};
ghost use Rattle.expanded_graph.specs.Marks.{AreMarks};
ghost use Rattle.expanded_graph.specs.Tables.{AreTables};

use crate::coming::Coming;
use crate::contexts::contexts_of;
use crate::intersections::Intersection;
use crate::marks::ZoneMarks;
use crate::places::{PieceEnd, PieceStart, end_of, places_of, start_of};
use crate::sourced::sourced_at;
use crate::tables::Tables;
use road_base::{NoMemory, NodeId};
use road_model::laws::{context_steps, name_order, one_name};
use road_model::{Context, Contexts, Network, Piece, Places, Profile, World};
use std::alloc::Global;
use way_lines::{NodeRules, RoadLine};
use way_pieces::PieceSpan;

/// The pieces of the way whose line this is, at these spans.
pub fn pieces_along<M: World, P: Profile>(
    alloc: Global,
    network: &Network<'_, M, P>,
    tables: &Tables,
    line: &RoadLine,
    spans: &[PieceSpan],
) -> Result<Vec<Piece>, NoMemory>
    requires tables { on network.now AreTables tables.now }
    requires serve { Contains tables.now.watched.ways.items line.now.road.way }
    requires line { line.now.nodes.items
        ≡ map (made_on network.now line_node) (line_of (map_of network.now) line.now.road.way) }
    requires short { length line.now.nodes.items ≤ 65535 }
    requires spans { All (on network.now IsSpanOn line.now.road.way) spans.now }
    ensures names { IfOk result (λ v. map (λ p. p.name) v.items ≡ map (λ s. s.name) spans.now) }
    ensures entries { IfOk result (λ v. All (on network.now IsPieceEntry line.now.road.way) v.items) }
    ensures forms { IfOk result (λ v. All (IsPieceForm true) v.items) }
{
    let marks = ZoneMarks::of(network, line.road.way);
    let mut pieces = Vec::with_capacity(alloc, spans.len())?;
    for span in spans {
        let piece = piece_at(alloc, network, tables, line, marks, *span)?;
        pieces.push(piece)?;
    }
    Ok(pieces)
}

/// The piece of the way at the span. The marks are those of the way.
fn piece_at<M: World, P: Profile>(
    alloc: Global,
    network: &Network<'_, M, P>,
    tables: &Tables,
    line: &RoadLine,
    marks: ZoneMarks,
    span: PieceSpan,
) -> Result<Piece, NoMemory>
    requires tables { on network.now AreTables tables.now }
    requires serve { Contains tables.now.watched.ways.items line.now.road.way }
    requires line { line.now.nodes.items
        ≡ map (made_on network.now line_node) (line_of (map_of network.now) line.now.road.way) }
    requires short { length line.now.nodes.items ≤ 65535 }
    requires marks { on network.now AreMarks line.now.road.way marks }
    requires span { on network.now IsSpanOn line.now.road.way span }
    ensures name { IfOk result (λ p. p.name ≡ span.name) }
    ensures entry { IfOk result (on network.now IsPieceEntry line.now.road.way) }
    ensures form { IfOk result (IsPieceForm true) }
{
    let nodes = line.nodes.as_slice();
    let places = places_of(alloc, nodes, span)?;
    let start = start_of(network, nodes, span);
    let end = end_of(network, nodes, span);
    let contexts = contexts_between(alloc, network, tables, span, start, end)?;
    Ok(Piece {
        name: span.name,
        end: span.end,
        zone: marks.toward(span.name.dir),
        places: Places::from_list(places),
        contexts: Contexts::from_list(contexts),
    })
}

/// The pieces of the way whose line this is, at these spans, without the sources of their contexts.
pub fn bare_pieces_along<M: World, P: Profile>(
    alloc: Global,
    network: &Network<'_, M, P>,
    tables: &Tables,
    line: &RoadLine,
    spans: &[PieceSpan],
) -> Result<Vec<Piece>, NoMemory>
    requires tables { on network.now AreTables tables.now }
    requires serve { Contains tables.now.watched.ways.items line.now.road.way }
    requires line { line.now.nodes.items
        ≡ map (made_on network.now line_node) (line_of (map_of network.now) line.now.road.way) }
    requires short { length line.now.nodes.items ≤ 65535 }
    requires spans { All (on network.now IsSpanOn line.now.road.way) spans.now }
    ensures names { IfOk result (λ v. map (λ p. p.name) v.items ≡ map (λ s. s.name) spans.now) }
    ensures entries { IfOk result (λ v. All (on network.now IsBarePiece line.now.road.way) v.items) }
    ensures forms { IfOk result (λ v. All (IsPieceForm true) v.items) }
{
    let marks = ZoneMarks::of(network, line.road.way);
    let mut pieces = Vec::with_capacity(alloc, spans.len())?;
    for span in spans {
        let piece = bare_piece_at(alloc, network, tables, line, marks, *span)?;
        pieces.push(piece)?;
    }
    Ok(pieces)
}

/// The piece of the way at the span, without the sources of its contexts. The marks are those of the way.
fn bare_piece_at<M: World, P: Profile>(
    alloc: Global,
    network: &Network<'_, M, P>,
    tables: &Tables,
    line: &RoadLine,
    marks: ZoneMarks,
    span: PieceSpan,
) -> Result<Piece, NoMemory>
    requires tables { on network.now AreTables tables.now }
    requires serve { Contains tables.now.watched.ways.items line.now.road.way }
    requires line { line.now.nodes.items
        ≡ map (made_on network.now line_node) (line_of (map_of network.now) line.now.road.way) }
    requires short { length line.now.nodes.items ≤ 65535 }
    requires marks { on network.now AreMarks line.now.road.way marks }
    requires span { on network.now IsSpanOn line.now.road.way span }
    ensures name { IfOk result (λ p. p.name ≡ span.name) }
    ensures entry { IfOk result (on network.now IsBarePiece line.now.road.way) }
    ensures form { IfOk result (IsPieceForm true) }
{
    context_steps(&network.profile);
    let nodes = line.nodes.as_slice();
    let places = places_of(alloc, nodes, span)?;
    let end = end_of(network, nodes, span);
    let contexts = contexts_at(alloc, network, tables, span, end)?;
    Ok(Piece {
        name: span.name,
        end: span.end,
        zone: marks.toward(span.name.dir),
        places: Places::from_list(places),
        contexts: Contexts::from_list(contexts),
    })
}

/// The contexts with their sources of the piece of a way that the tables serve, where it starts and ends so.
fn contexts_between<M: World, P: Profile>(
    alloc: Global,
    network: &Network<'_, M, P>,
    tables: &Tables,
    span: PieceSpan,
    start: PieceStart,
    end: PieceEnd,
) -> Result<Vec<Context>, NoMemory>
    requires tables { on network.now AreTables tables.now }
    requires serve { Contains tables.now.watched.ways.items span.name.way }
    requires piece { on network.now IsPiece (piece_of span) }
    requires leaves { on network.now IsDeparture start.at start.departure }
    requires named { start.departure.piece ≡ span.name }
    requires arrives { Arrives (map_of network.now) (piece_of span) end.from end.at }
    ensures listed { IfOk result (λ v. Lists (λ c. c.before) names_cmp (on network.now IsContextEntry (piece_of span))
        v.items) }
    ensures alone { IfOk result (λ v. begins_alone v.items) }
    ensures forms { IfOk result (λ v. AllByRecursion (IsContextForm true) v.items) }
{
    name_order();
    one_name(&network.profile);
    context_steps(&network.profile);
    let bare = contexts_at(alloc, network, tables, span, end)?;
    let written = sourced_at(alloc, network, tables, start, bare)?;
    Ok(written)
}

/// The contexts without their sources of the piece of a way that the tables serve, where it ends so. What is to be
/// known of a node that isn't found among the intersections is found for this piece alone.
fn contexts_at<M: World, P: Profile>(
    alloc: Global,
    network: &Network<'_, M, P>,
    tables: &Tables,
    span: PieceSpan,
    end: PieceEnd,
) -> Result<Vec<Context>, NoMemory>
    requires tables { on network.now AreTables tables.now }
    requires serve { Contains tables.now.watched.ways.items span.name.way }
    requires piece { on network.now IsPiece (piece_of span) }
    requires arrives { Arrives (map_of network.now) (piece_of span) end.from end.at }
    ensures listed { IfOk result (λ v. Lists (λ c. c.before) names_cmp (on network.now IsBareContext (piece_of span))
        v.items) }
    ensures alone { IfOk result (λ v. begins_alone v.items) }
{
    if let Some(intersection) = tables.intersections.find(end.at) {
        return contexts_there(alloc, network, tables, intersection, span, end.from);
    }
    let departures = tables.pieces.departures(alloc, network, end.at)?;
    let rules = NodeRules::of(network, end.at);
    let intersection = Intersection {
        rules,
        departures: departures.as_slice(),
        is_free: false,
    };
    contexts_there(alloc, network, tables, intersection, span, end.from)
}

/// The contexts without their sources of the piece, which comes to the intersection from the node.
fn contexts_there<M: World, P: Profile>(
    alloc: Global,
    network: &Network<'_, M, P>,
    tables: &Tables,
    intersection: Intersection<'_>,
    span: PieceSpan,
    from: NodeId,
) -> Result<Vec<Context>, NoMemory>
    requires tables { on network.now AreTables tables.now }
    requires serve { Contains tables.now.watched.ways.items span.name.way }
    requires intersection { on network.now IsIntersection intersection }
    requires free { IsTrue intersection.is_free → on network.now AreFree tables.now.watched.states.automaton
        tables.now.watched.states.facts.items intersection.rules intersection.departures.now }
    requires piece { on network.now IsPiece (piece_of span) }
    requires arrives { Arrives (map_of network.now) (piece_of span) from intersection.rules.node }
    ensures listed { IfOk result (λ v. Lists (λ c. c.before) names_cmp (on network.now IsBareContext (piece_of span))
        v.items) }
    ensures alone { IfOk result (λ v. begins_alone v.items) }
{
    let coming = Coming {
        network,
        states: &tables.watched.states,
        endings: tables.watched.endings.as_slice(),
        intersection,
        span,
        from,
    };
    contexts_of(alloc, &coming)
}
