//! A context that is found in the blocks by its names.
ghost use Rattle.std.specs.Prelude.{◌≡◌, map, option_copied, Some, IfSome, IfNone, IsTrue, Contains};
ghost use Rattle.ordered_lists.specs.Orders.{rises};
ghost use Rattle.road_model.specs.declared.lists.Context.{Context};
ghost use Rattle.road_model.specs.declared.lists.Piece.{Piece};
ghost use Rattle.road_model.specs.Orders.{name_cmp, names_cmp};
ghost use Rattle.graph_blocks.specs.Lent.{map_of as block_map};
ghost use Rattle.context_search.specs.Marks.{At, at_of, key_of, contexts_at, contexts_over};
ghost use Rattle.context_search.specs.Listed.{AreInOrder, contexts_in};

use crate::spots::{Spot, by_names};
use graph_blocks::block_at;
use graph_blocks::laws::values_in_order;
use layered_maps::View;
use road_base::WayId;
use road_model::laws::name_order;
use road_model::{Block, Context, Piece, PieceName};
use std::cmp::Ordering;

/// The context of these names: that of the piece behind the pieces before it. None exactly where the blocks have no
/// such context. `laws::listed_contexts` says that the blocks of a graph are in the order that is asked for. Takes the
/// time of three searches, for the way's block, among its pieces and among the piece's contexts, and no memory.
pub fn spot_at<'a>(
    blocks: &View<'a, WayId, Block>,
    piece: PieceName,
    before: &[PieceName],
) -> Option<Spot<'a>>
    requires { AreInOrder (block_map blocks.now) }
    ensures listed { IfSome result (λ s. Contains (contexts_in (block_map blocks.now)) (at_of s)) }
    ensures named { IfSome result (λ s. key_of (at_of s) ≡ (piece, before.now)) }
    ensures none { IfNone result ((x : At) → Contains (contexts_in (block_map blocks.now)) x
        → key_of x ≡ (piece, before.now)
        → ⊥) }
{
    values_in_order();
    match block_at(blocks, piece.way) {
        Some(block) => spot_among(block.pieces.items(), piece, before),
        None => None,
    }
}

/// The context of these names among those of the pieces.
fn spot_among<'a>(pieces: &'a [Piece], name: PieceName, before: &[PieceName]) -> Option<Spot<'a>>
    requires pieces { IsTrue (rises name_cmp (map (λ p. p.name) pieces.now)) }
    requires contexts { (p : Piece) → Contains pieces.now p
        → IsTrue (rises names_cmp (map (λ c. c.before) p.contexts)) }
    ensures listed { IfSome result (λ s. Contains (contexts_over pieces.now) (at_of s)) }
    ensures named { IfSome result (λ s. key_of (at_of s) ≡ (name, before.now)) }
    ensures none { IfNone result ((x : At) → Contains (contexts_over pieces.now) x
        → key_of x ≡ (name, before.now)
        → ⊥) }
{
    match piece_among(pieces, name) {
        Some(piece) => spot_on(piece, before),
        None => None,
    }
}

/// The context of the piece behind the pieces of these names.
fn spot_on<'a>(piece: &'a Piece, before: &[PieceName]) -> Option<Spot<'a>>
    requires { IsTrue (rises names_cmp (map (λ c. c.before) piece.now.contexts)) }
    ensures listed { IfSome result (λ s. Contains (contexts_at piece.now) (at_of s)) }
    ensures named { IfSome result (λ s. key_of (at_of s) ≡ (piece.now.name, before.now)) }
    ensures none { IfNone result ((x : At) → Contains (contexts_at piece.now) x
        → key_of x ≡ (piece.now.name, before.now)
        → ⊥) }
{
    match context_among(piece.contexts.items(), before) {
        Some(context) => Some(Spot { piece, context }),
        None => None,
    }
}

/// The piece of this name among these.
fn piece_among(pieces: &[Piece], name: PieceName) -> Option<&Piece>
    requires { IsTrue (rises name_cmp (map (λ p. p.name) pieces.now)) }
    ensures among { IfSome result (λ p. Contains pieces.now p.now) }
    ensures named { IfSome result (λ p. p.now.name ≡ name) }
    ensures only { (p : Piece) → Contains pieces.now p → p.name ≡ name → option_copied result ≡ Some p }
{
    name_order();
    match pieces.binary_search_by(|piece| compare(piece, name)) {
        Ok(at) => Some(&pieces[at]),
        Err(_) => None,
    }
}

/// How the piece stands to this name.
fn compare(piece: &Piece, name: PieceName) -> Ordering
    ensures { result ≡ name_cmp piece.now.name name }
{
    name_order();
    piece.name.cmp(&name)
}

/// The context behind the pieces of these names, among these of one piece.
fn context_among<'a>(contexts: &'a [Context], before: &[PieceName]) -> Option<&'a Context>
    requires { IsTrue (rises names_cmp (map (λ c. c.before) contexts.now)) }
    ensures among { IfSome result (λ c. Contains contexts.now c.now) }
    ensures named { IfSome result (λ c. c.now.before ≡ before.now) }
    ensures none { IfNone result ((c : Context) → Contains contexts.now c → c.before ≡ before.now → ⊥) }
{
    name_order();
    match contexts.binary_search_by(|context| by_names(context.before.items(), before)) {
        Ok(at) => Some(&contexts[at]),
        Err(_) => None,
    }
}
