//! Pieces and blocks, read from the front of bytes.
ghost use Rattle.std.specs.Prelude.{◌≡◌, ◌↔◌, [], map, IsTrue, IfOk, IfErr};
ghost use Rattle.ordered_lists.specs.Orders.{rises};
ghost use Rattle.road_base.specs.Bytes.{joined};
ghost use Rattle.road_model.specs.Format.{piece_bytes, block_bytes, place_cmp};
ghost use Rattle.spelled_bytes.specs.Spelling.{AreSoMany};
ghost use Rattle.spelled_bytes.specs.Reading.{Begins, NoneBegins, IfMalformed};
ghost use Rattle.graph_file.specs.GraphReading.{IsPieceAt, IsWayBlock};
ghost use Rattle.graph_file.specs.OneSpelling.{block_one};

use crate::ascending::do_ascend;
use crate::extent::Extent;
use crate::grammar::{Grammar, GraphFile};
use road_base::WayId;
use road_model::{Block, Contexts, Piece, PieceName, Pieces, Place, Places};
use spelled_bytes::{Spell, Unread, read_all};
use std::alloc::Global;

/// Reads a piece of the way.
fn read_piece<G: Grammar>(alloc: Global, way: WayId, bytes: &[u8]) -> Result<(Piece, &[u8]), Unread>
    ensures found { IfOk result (λ x. Begins (piece_bytes G.sourced) (IsPieceAt G.sourced way) bytes.now x.0 x.1.now) }
    ensures malformed { IfErr result (λ e. IfMalformed e
        (NoneBegins (piece_bytes G.sourced) (IsPieceAt G.sourced way) bytes.now)) }
{
    let (extent, rest) = <Extent as Spell<GraphFile<G>>>::read(alloc, bytes)?;
    let count = (extent.end - extent.index + 1) as u64;
    let (places, rest) = read_all::<GraphFile<G>, Place>(alloc, count, rest)?;
    let (contexts, rest) = <Contexts as Spell<GraphFile<G>>>::read(alloc, rest)?;
    let piece = Piece {
        name: PieceName {
            way,
            index: extent.index,
            dir: extent.dir,
        },
        end: extent.end,
        zone: extent.zone,
        places: Places::from_list(places),
        contexts,
    };
    Ok((piece, rest))
}

/// Reads so many pieces of the way. Takes memory for those alone that it has read.
fn read_pieces<G: Grammar>(
    alloc: Global,
    way: WayId,
    count: u32,
    bytes: &[u8],
) -> Result<(Vec<Piece>, &[u8]), Unread>
    ensures found { IfOk result (λ x. Begins (joined (piece_bytes G.sourced))
        (AreSoMany (IsPieceAt G.sourced way) count) bytes.now x.0.items x.1.now) }
    ensures malformed { IfErr result (λ e. IfMalformed e
        (NoneBegins (joined (piece_bytes G.sourced)) (AreSoMany (IsPieceAt G.sourced way) count) bytes.now)) }
{
    let mut items = Vec::new(alloc);
    let mut rest = bytes;
    for _ in 0..count {
        let (item, after) = read_piece::<G>(alloc, way, rest)?;
        items.push(item)?;
        rest = after;
    }
    Ok((items, rest))
}

/// A block with pieces, which ascend.
impl<G: Grammar> Spell<GraphFile<G>> for Block {
    ghost spelling = { block_bytes G.sourced };

    ghost fits = { IsWayBlock G.sourced };

    ghost one = { block_one G.sourced };

    fn read(alloc: Global, bytes: &[u8]) -> Result<(Block, &[u8]), Unread> {
        let ((number, count), rest) = <(i64, u32) as Spell<GraphFile<G>>>::read(alloc, bytes)?;
        let way = WayId(number);
        let (list, rest) = read_pieces::<G>(alloc, way, count, rest)?;
        if !are_of_a_way(&list) {
            return Err(Unread::Malformed);
        }
        let pieces = Pieces::from_list(list);
        Ok((Block { way, pieces }, rest))
    }
}

/// There is a piece, and each comes before the next.
fn are_of_a_way(pieces: &[Piece]) -> bool
    ensures { IsTrue result ↔ ((pieces.now ≡ [] → ⊥) × IsTrue (rises place_cmp (map (λ p. p.name) pieces.now))) }
{
    are_some(pieces) && do_ascend::<Piece>(pieces)
}

fn are_some(pieces: &[Piece]) -> bool
    ensures { IsTrue result ↔ (pieces.now ≡ [] → ⊥) }
{
    match pieces {
        [_, ..] => true,
        [] => false,
    }
}
