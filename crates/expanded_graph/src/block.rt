//! The block of a way.
ghost use Rattle.std.specs.Prelude.{◌≡◌, ◌≤◌, ◌+◌, [], length, map, IfOk, IsTrue, true, Contains};
ghost use Rattle.std.specs.List.{AllByRecursion};
ghost use Rattle.ordered_lists.specs.Orders.{rises};
ghost use Rattle.road_model.specs.Blocks.{IsBlock};
ghost use Rattle.road_model.specs.Format.{IsPieceForm, place_cmp};
ghost use Rattle.road_model.specs.Lines.{line_of};
ghost use Rattle.road_model.specs.Networks.{on, made_on, map_of};
ghost use Rattle.way_lines.specs.RoadLines.{line_node};
ghost use Rattle.way_pieces.specs.RoadPieces.{AreSpans};
ghost use Rattle.expanded_graph.specs.Bare.{IsBareBlock};
ghost use Rattle.expanded_graph.specs.Tables.{AreTables};

use crate::none_known::NoneKnown;
use crate::pieces::{bare_pieces_along, pieces_along};
use crate::tables::Tables;
use road_base::{NoMemory, Steps, WayId};
use road_model::laws::{name_order, one_name};
use road_model::{Block, Network, Pieces, Profile, World};
use std::alloc::Global;
use std::sync::ledger::Ledger;
use way_lines::RoadLine;
use way_pieces::{PieceSpan, WayPieces};

/// The block of the way: its pieces with their marks, nodes and locations, and contexts with arcs and sources. A way
/// that isn't visible or is no road has no pieces. Adds one to the counter, also where no memory is found.
pub fn build_block<M: World, P: Profile, L: Ledger>(
    alloc: Global,
    world: &M,
    profile: &P,
    way: WayId,
    steps: &mut Steps<L>,
) -> Result<Block, NoMemory>
    ensures block { IfOk result (IsBlock (M.objects world.now) (P.rules profile.now) way) }
    ensures form { IfOk result (λ b. AllByRecursion (IsPieceForm true) b.pieces
        × IsTrue (rises place_cmp (map (λ p. p.name) b.pieces))) }
    ensures tick { steps.new ≡ steps.old + 1 }
{
    steps.tick();
    block_alone(alloc, &Network::new(world, *profile), way)
}

/// The block of the way, built from tables for it alone.
pub fn block_alone<M: World, P: Profile>(
    alloc: Global,
    network: &Network<'_, M, P>,
    way: WayId,
) -> Result<Block, NoMemory>
    ensures block { IfOk result (on network.now IsBlock way) }
    ensures form { IfOk result (λ b. AllByRecursion (IsPieceForm true) b.pieces
        × IsTrue (rises place_cmp (map (λ p. p.name) b.pieces))) }
{
    let tables = Tables::of(alloc, network, &[way], &NoneKnown)?;
    block_of(alloc, network, &tables, way)
}

/// The block of one of the ways that the tables serve.
pub fn block_of<M: World, P: Profile>(
    alloc: Global,
    network: &Network<'_, M, P>,
    tables: &Tables,
    way: WayId,
) -> Result<Block, NoMemory>
    requires tables { on network.now AreTables tables.now }
    requires serve { Contains tables.now.watched.ways.items way }
    ensures block { IfOk result (on network.now IsBlock way) }
    ensures form { IfOk result (λ b. AllByRecursion (IsPieceForm true) b.pieces
        × IsTrue (rises place_cmp (map (λ p. p.name) b.pieces))) }
{
    if let Some(spans) = tables.pieces.spans_of(way) {
        return block_with(alloc, network, tables, way, spans);
    }
    let roads = tables.pieces.roads();
    let own = WayPieces::of(alloc, network, roads, roads.road(network, way))?;
    block_with(alloc, network, tables, way, own.spans.as_slice())
}

/// The block of the way with these pieces. Where it has some, its line is read, if it wasn't kept.
fn block_with<M: World, P: Profile>(
    alloc: Global,
    network: &Network<'_, M, P>,
    tables: &Tables,
    way: WayId,
    spans: &[PieceSpan],
) -> Result<Block, NoMemory>
    requires tables { on network.now AreTables tables.now }
    requires serve { Contains tables.now.watched.ways.items way }
    requires spans { on network.now AreSpans way spans.now }
    ensures block { IfOk result (on network.now IsBlock way) }
    ensures form { IfOk result (λ b. AllByRecursion (IsPieceForm true) b.pieces
        × IsTrue (rises place_cmp (map (λ p. p.name) b.pieces))) }
{
    one_name(&network.profile);
    if spans.is_empty() {
        return Ok(empty_block(alloc, way));
    }
    if let Some(line) = tables.pieces.line_of(way) {
        return block_along(alloc, network, tables, line, spans);
    }
    let road = tables.pieces.roads().road(network, way);
    let line = RoadLine::of(alloc, network, road)?;
    block_along(alloc, network, tables, &line, spans)
}

/// The block of the way with this line and these pieces.
fn block_along<M: World, P: Profile>(
    alloc: Global,
    network: &Network<'_, M, P>,
    tables: &Tables,
    line: &RoadLine,
    spans: &[PieceSpan],
) -> Result<Block, NoMemory>
    requires tables { on network.now AreTables tables.now }
    requires serve { Contains tables.now.watched.ways.items line.now.road.way }
    requires line { line.now.nodes.items
        ≡ map (made_on network.now line_node) (line_of (map_of network.now) line.now.road.way) }
    requires short { length line.now.nodes.items ≤ 65535 }
    requires spans { on network.now AreSpans line.now.road.way spans.now }
    ensures block { IfOk result (on network.now IsBlock line.now.road.way) }
    ensures form { IfOk result (λ b. AllByRecursion (IsPieceForm true) b.pieces
        × IsTrue (rises place_cmp (map (λ p. p.name) b.pieces))) }
{
    name_order();
    one_name(&network.profile);
    let pieces = pieces_along(alloc, network, tables, line, spans)?;
    Ok(Block {
        way: line.road.way,
        pieces: Pieces::from_list(pieces),
    })
}

/// The block of the way without its sources, built from tables for it alone.
pub fn bare_block_alone<M: World, P: Profile>(
    alloc: Global,
    network: &Network<'_, M, P>,
    way: WayId,
) -> Result<Block, NoMemory>
    ensures block { IfOk result (on network.now IsBareBlock way) }
    ensures form { IfOk result (λ b. AllByRecursion (IsPieceForm true) b.pieces
        × IsTrue (rises place_cmp (map (λ p. p.name) b.pieces))) }
{
    let tables = Tables::bare(alloc, network, &[way], &NoneKnown)?;
    bare_block_of(alloc, network, &tables, way)
}

/// The block without its sources of one of the ways that the tables serve.
pub fn bare_block_of<M: World, P: Profile>(
    alloc: Global,
    network: &Network<'_, M, P>,
    tables: &Tables,
    way: WayId,
) -> Result<Block, NoMemory>
    requires tables { on network.now AreTables tables.now }
    requires serve { Contains tables.now.watched.ways.items way }
    ensures block { IfOk result (on network.now IsBareBlock way) }
    ensures form { IfOk result (λ b. AllByRecursion (IsPieceForm true) b.pieces
        × IsTrue (rises place_cmp (map (λ p. p.name) b.pieces))) }
{
    if let Some(spans) = tables.pieces.spans_of(way) {
        return bare_block_with(alloc, network, tables, way, spans);
    }
    let roads = tables.pieces.roads();
    let own = WayPieces::of(alloc, network, roads, roads.road(network, way))?;
    bare_block_with(alloc, network, tables, way, own.spans.as_slice())
}

/// The block of the way with these pieces, without its sources. Where it has some, its line is read, if it wasn't kept.
fn bare_block_with<M: World, P: Profile>(
    alloc: Global,
    network: &Network<'_, M, P>,
    tables: &Tables,
    way: WayId,
    spans: &[PieceSpan],
) -> Result<Block, NoMemory>
    requires tables { on network.now AreTables tables.now }
    requires serve { Contains tables.now.watched.ways.items way }
    requires spans { on network.now AreSpans way spans.now }
    ensures block { IfOk result (on network.now IsBareBlock way) }
    ensures form { IfOk result (λ b. AllByRecursion (IsPieceForm true) b.pieces
        × IsTrue (rises place_cmp (map (λ p. p.name) b.pieces))) }
{
    if spans.is_empty() {
        return Ok(empty_block(alloc, way));
    }
    if let Some(line) = tables.pieces.line_of(way) {
        return bare_block_along(alloc, network, tables, line, spans);
    }
    let road = tables.pieces.roads().road(network, way);
    let line = RoadLine::of(alloc, network, road)?;
    bare_block_along(alloc, network, tables, &line, spans)
}

/// The block of the way with this line and these pieces, without its sources.
fn bare_block_along<M: World, P: Profile>(
    alloc: Global,
    network: &Network<'_, M, P>,
    tables: &Tables,
    line: &RoadLine,
    spans: &[PieceSpan],
) -> Result<Block, NoMemory>
    requires tables { on network.now AreTables tables.now }
    requires serve { Contains tables.now.watched.ways.items line.now.road.way }
    requires line { line.now.nodes.items
        ≡ map (made_on network.now line_node) (line_of (map_of network.now) line.now.road.way) }
    requires short { length line.now.nodes.items ≤ 65535 }
    requires spans { on network.now AreSpans line.now.road.way spans.now }
    ensures block { IfOk result (on network.now IsBareBlock line.now.road.way) }
    ensures form { IfOk result (λ b. AllByRecursion (IsPieceForm true) b.pieces
        × IsTrue (rises place_cmp (map (λ p. p.name) b.pieces))) }
{
    name_order();
    let pieces = bare_pieces_along(alloc, network, tables, line, spans)?;
    Ok(Block {
        way: line.road.way,
        pieces: Pieces::from_list(pieces),
    })
}

/// A block with no pieces. Takes no memory.
fn empty_block(alloc: Global, way: WayId) -> Block
    ensures { result ≡ record { way = way; pieces = [] } }
{
    Block {
        way,
        pieces: Pieces::from_list(Vec::new(alloc)),
    }
}
