//! Blocks, pieces, contexts, arcs and sources, as the file spells them.
ghost use Rattle.std.specs.Prelude.{◌≡◌, ◌++◌, ◌<◌, ◌^◌, length, FitsSigned, IsTrue, OnOk, OnErr};
ghost use Rattle.std.specs.Int.{w64};
ghost use Rattle.std.specs.List.{AllByRecursion};
ghost use Rattle.road_model.specs.Format.{dir_bytes, mark_bytes, name_bytes, place_bytes, arc_bytes, source_bytes};
ghost use Rattle.road_model.specs.Format.{sources_bytes, context_bytes, piece_bytes, block_bytes, NameFits, SourcesFit};
ghost use Rattle.road_model.specs.Format.{ContextFits, PieceFits, BlockFits, IsContextForm, IsPieceForm, IsBlockForm};

use crate::grammar::{Grammar, GraphFile};
use road_base::{Dir, Format, LittleEndian, NoMemory, put_all};
use road_model::{Block, Context, Names, Piece, PieceName, Place, Sources, TurnArc};

/// Appends the direction's byte. Where no memory is found nothing is appended.
fn put_dir(dir: Dir, out: &mut Vec<u8>) -> Result<(), NoMemory>
    ensures ok { OnOk result (out.new.items ≡ out.old.items ++ dir_bytes dir) }
    ensures err { OnErr result (out.new.items ≡ out.old.items) }
{
    (dir as u8).put(out)
}

/// Appends the mark, where marks are spelled. Where no memory is found nothing is appended.
fn put_mark<G: Grammar>(mark: bool, out: &mut Vec<u8>) -> Result<(), NoMemory>
    ensures ok { OnOk result (out.new.items ≡ out.old.items ++ mark_bytes G.sourced mark) }
    ensures err { OnErr result (out.new.items ≡ out.old.items) }
{
    if !G::is_sourced() {
        return Ok(());
    }
    u8::from(mark).put(out)
}

/// The bytes of the name: the way, the index, and the direction.
#[inline]
fn bytes_of_name(name: &PieceName) -> [u8; 13]
    ensures bytes { result ≡ name_bytes name.now }
    ensures fit { NameFits name.now }
{
    let way = name.way.0.to_le_bytes();
    let index = name.index.to_le_bytes();
    [
        way[0],
        way[1],
        way[2],
        way[3],
        way[4],
        way[5],
        way[6],
        way[7],
        index[0],
        index[1],
        index[2],
        index[3],
        name.dir as u8,
    ]
}

impl<G> Format<PieceName> for GraphFile<G> {
    ghost spelling = { name_bytes };

    ghost fits = { NameFits };

    fn put(name: &PieceName, out: &mut Vec<u8>) -> Result<(), NoMemory> {
        Ok(out.extend_from_slice(&bytes_of_name(name))?)
    }
}

/// The bytes of the place: the node, and where it is.
#[inline]
fn bytes_of_place(place: &Place) -> [u8; 16]
    ensures bytes { result ≡ place_bytes place.now }
    ensures fit { FitsSigned w64 place.now.node.0 }
{
    let node = place.node.0.to_le_bytes();
    let lon = place.location.lon.to_le_bytes();
    let lat = place.location.lat.to_le_bytes();
    [
        node[0], node[1], node[2], node[3], node[4], node[5], node[6], node[7], lon[0], lon[1],
        lon[2], lon[3], lat[0], lat[1], lat[2], lat[3],
    ]
}

impl<G> Format<Place> for GraphFile<G> {
    ghost spelling = { place_bytes };

    ghost fits = { λ x. FitsSigned w64 x.node.0 };

    fn put(place: &Place, out: &mut Vec<u8>) -> Result<(), NoMemory> {
        Ok(out.extend_from_slice(&bytes_of_place(place))?)
    }
}

/// The bytes of the arc: the name of its piece, and its length.
#[inline]
fn bytes_of_arc(arc: &TurnArc) -> [u8; 17]
    ensures bytes { result ≡ arc_bytes arc.now }
    ensures fit { NameFits arc.now.piece × (arc.now.length < 2 ^ 32) }
{
    let name = bytes_of_name(&arc.piece);
    let length = arc.length.to_le_bytes();
    [
        name[0], name[1], name[2], name[3], name[4], name[5], name[6], name[7], name[8], name[9],
        name[10], name[11], name[12], length[0], length[1], length[2], length[3],
    ]
}

impl<G> Format<TurnArc> for GraphFile<G> {
    ghost spelling = { arc_bytes };

    ghost fits = { λ a. NameFits a.piece × (a.length < 2 ^ 32) };

    fn put(arc: &TurnArc, out: &mut Vec<u8>) -> Result<(), NoMemory> {
        Ok(out.extend_from_slice(&bytes_of_arc(arc))?)
    }
}

/// The names of a source.
impl<G> Format<Names> for GraphFile<G> {
    ghost spelling = { source_bytes };

    ghost has_form = { λ s. length s < 2 ^ 32 };

    ghost fits = { AllByRecursion NameFits };

    fn put(source: &Names, out: &mut Vec<u8>) -> Result<(), NoMemory> {
        let names = source.items();
        (names.len() as u32).put(out)?;
        put_all::<GraphFile<G>, PieceName>(names, out)
    }
}

/// Sources; no bytes where none are spelled.
impl<G: Grammar> Format<Sources> for GraphFile<G> {
    ghost spelling = { sources_bytes G.sourced };

    ghost has_form = { λ ss. IsTrue G.sourced → AllByRecursion (λ s. length s < 2 ^ 32) ss };

    ghost fits = { λ ss. IsTrue G.sourced → SourcesFit ss };

    fn put(sources: &Sources, out: &mut Vec<u8>) -> Result<(), NoMemory> {
        if !G::is_sourced() {
            return Ok(());
        }
        let sources = sources.items();
        (sources.len() as u64).put(out)?;
        put_all::<GraphFile<G>, Names>(sources, out)
    }
}

impl<G: Grammar> Format<Context> for GraphFile<G> {
    ghost spelling = { context_bytes G.sourced };

    ghost has_form = { IsContextForm G.sourced };

    ghost fits = { ContextFits G.sourced };

    fn put(context: &Context, out: &mut Vec<u8>) -> Result<(), NoMemory> {
        let before = context.before.items();
        let arcs = context.arcs.items();
        (before.len() as u32 + 1).put(out)?;
        put_all::<GraphFile<G>, PieceName>(before, out)?;
        (arcs.len() as u64).put(out)?;
        put_all::<GraphFile<G>, TurnArc>(arcs, out)?;
        <GraphFile<G> as Format<Sources>>::put(&context.sources, out)
    }
}

impl<G: Grammar> Format<Piece> for GraphFile<G> {
    ghost spelling = { piece_bytes G.sourced };

    ghost has_form = { IsPieceForm G.sourced };

    ghost fits = { PieceFits G.sourced };

    fn put(piece: &Piece, out: &mut Vec<u8>) -> Result<(), NoMemory> {
        let contexts = piece.contexts.items();
        piece.name.index.put(out)?;
        piece.end.put(out)?;
        put_dir(piece.name.dir, out)?;
        put_mark::<G>(piece.zone, out)?;
        put_all::<GraphFile<G>, Place>(piece.places.items(), out)?;
        (contexts.len() as u64).put(out)?;
        put_all::<GraphFile<G>, Context>(contexts, out)
    }
}

impl<G: Grammar> Format<Block> for GraphFile<G> {
    ghost spelling = { block_bytes G.sourced };

    ghost has_form = { IsBlockForm G.sourced };

    ghost fits = { BlockFits G.sourced };

    fn put(block: &Block, out: &mut Vec<u8>) -> Result<(), NoMemory> {
        let pieces = block.pieces.items();
        block.way.0.put(out)?;
        (pieces.len() as u32).put(out)?;
        put_all::<GraphFile<G>, Piece>(pieces, out)
    }
}
