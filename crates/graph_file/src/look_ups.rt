//! Pieces that are found by their names.
ghost use Rattle.std.specs.Prelude.{◌≡◌, map, option_copied, Some, IfSome, IfNone, IsTrue, Contains};
ghost use Rattle.road_base.specs.declared.ids.WayId.{WayId};
ghost use Rattle.road_model.specs.declared.lists.Piece.{Piece};
ghost use Rattle.road_model.specs.declared.blocks.Block.{Block};
ghost use Rattle.ordered_lists.specs.Orders.{rises};
ghost use Rattle.road_model.specs.Orders.{name_cmp, way_cmp};
ghost use Rattle.graph_file.specs.LookUps.{AreOrdered, HasNamed};

use road_base::WayId;
use road_model::laws::name_order;
use road_model::{Block, Piece, PieceName};
use std::cmp::Ordering;

/// The piece of this name, and None exactly where no block has one. Blocks ascend by way, and a block's pieces by name.
pub fn piece_named(blocks: &[Block], name: PieceName) -> Option<&Piece>
    requires ascend { IsTrue (rises way_cmp (map (λ b. b.way) blocks.now)) }
    requires ordered { AreOrdered blocks.now }
    ensures some { IfSome result (λ p. HasNamed blocks.now name p.now) }
    ensures only { (p : Piece) → HasNamed blocks.now name p → option_copied result ≡ Some p }
{
    match block_of(blocks, name.way) {
        Some(block) => piece_among(block.pieces.items(), name),
        None => None,
    }
}

fn block_of(blocks: &[Block], way: WayId) -> Option<&Block>
    requires { IsTrue (rises way_cmp (map (λ b. b.way) blocks.now)) }
    ensures among { IfSome result (λ b. Contains blocks.now b.now) }
    ensures way { IfSome result (λ b. b.now.way ≡ way) }
    ensures none { IfNone result ((b : Block) → Contains blocks.now b → b.way ≡ way → ⊥) }
{
    match blocks.binary_search_by_key(&way, |block| block.way) {
        Ok(at) => Some(&blocks[at]),
        Err(_) => None,
    }
}

fn piece_among(pieces: &[Piece], name: PieceName) -> Option<&Piece>
    requires { IsTrue (rises name_cmp (map (λ p. p.name) pieces.now)) }
    ensures among { IfSome result (λ p. Contains pieces.now p.now) }
    ensures named { IfSome result (λ p. p.now.name ≡ name) }
    ensures none { IfNone result ((p : Piece) → Contains pieces.now p → p.name ≡ name → ⊥) }
{
    name_order();
    match pieces.binary_search_by(|piece| compare(piece, name)) {
        Ok(at) => Some(&pieces[at]),
        Err(_) => None,
    }
}

/// How the piece stands to this name.
fn compare(piece: &Piece, name: PieceName) -> Ordering
    ensures { result ≡ name_cmp piece.now.name name }
{
    name_order();
    piece.name.cmp(&name)
}
