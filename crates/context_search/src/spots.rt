//! All contexts of a graph in their order, found by their names.
ghost use Rattle.std.specs.Prelude.{◌≡◌, ◌<◌, ◌++◌, length, map, IfOk, OnOk, IfSome, IfNone, IsTrue, Contains};
ghost use Rattle.std.specs.List.{HoldsAt};
ghost use Rattle.ordered_lists.specs.Orders.{rises};
ghost use Rattle.road_model.specs.Orders.{names_cmp};
ghost use Rattle.context_search.specs.Marks.{At, at_of, key_of, key_cmp, contexts_at, contexts_over, all_contexts};
ghost use Rattle.context_search.specs.Marks.{names_behind};

use layered_maps::Walk;
use road_base::{NoMemory, WayId};
use road_model::laws::name_order;
use road_model::{Block, Context, Piece, PieceName};
use std::alloc::Global;
use std::cmp::Ordering;

/// A context, and the piece that it ends with.
#[derive(Clone, Copy, Drop)]
pub struct Spot<'a> {
    pub piece: &'a Piece,
    pub context: &'a Context,
}

/// All contexts of the blocks that are left, in the order of the blocks, pieces and contexts.
pub fn spots_of<'a>(
    alloc: Global,
    blocks: Walk<'a, WayId, Block>,
) -> Result<Vec<Spot<'a>>, NoMemory>
    ensures { IfOk result (λ v. map at_of v.items ≡ all_contexts blocks.entry) }
{
    let mut spots = Vec::new(alloc);
    let mut rest = blocks;
    while let Some(block) = rest.next() {
        add_pieces(&mut spots, block.pieces.items())?;
    }
    Ok(spots)
}

/// Adds the contexts of the pieces.
fn add_pieces<'a>(spots: &mut Vec<Spot<'a>>, pieces: &'a [Piece]) -> Result<(), NoMemory>
    ensures { OnOk result (map at_of spots.new.items ≡ map at_of spots.old.items ++ contexts_over pieces.now) }
{
    for piece in pieces {
        add_contexts(spots, piece)?;
    }
    Ok(())
}

/// Adds the contexts of the piece.
fn add_contexts<'a>(spots: &mut Vec<Spot<'a>>, piece: &'a Piece) -> Result<(), NoMemory>
    ensures { OnOk result (map at_of spots.new.items ≡ map at_of spots.old.items ++ contexts_at piece.now) }
{
    for context in piece.contexts.items() {
        spots.push(Spot { piece, context })?;
    }
    Ok(())
}

/// Where the context of these names stands in the list: that of the piece behind the pieces before it. None exactly
/// where the list has no such context.
pub fn find_spot(spots: &[Spot<'_>], piece: PieceName, before: &[PieceName]) -> Option<usize>
    requires { IsTrue (rises key_cmp (map key_of (map at_of spots.now))) }
    ensures within { IfSome result (λ i. i < length spots.now) }
    ensures some { IfSome result (HoldsAt (λ s. key_of (at_of s) ≡ (piece, before.now)) spots.now) }
    ensures none { IfNone result ((x : At) → Contains (map at_of spots.now) x → key_of x ≡ (piece, before.now) → ⊥) }
{
    name_order();
    match spots.binary_search_by(|spot| compare(spot, piece, before)) {
        Ok(number) => Some(number),
        Err(_) => None,
    }
}

/// How the context stands to these names.
fn compare(spot: &Spot<'_>, piece: PieceName, before: &[PieceName]) -> Ordering
    ensures { result ≡ key_cmp (key_of (at_of spot.now)) (piece, before.now) }
{
    name_order();
    spot.piece
        .name
        .cmp(&piece)
        .then(by_names(spot.context.before.items(), before))
}

/// Compares lists of names by length, then name by name.
pub fn by_names(a: &[PieceName], b: &[PieceName]) -> Ordering
    ensures { result ≡ names_cmp a.now b.now }
{
    name_order();
    a.len().cmp(&b.len()).then(a.cmp(b))
}

/// Puts the last names of those before the piece and the piece's own in place of what the list had: as many as that,
/// or all of them.
pub fn put_names(names: &mut Vec<PieceName>, spot: &Spot<'_>, count: usize) -> Result<(), NoMemory>
    ensures { OnOk result (names.new.items ≡ names_behind (at_of spot.now) count) }
{
    names.clear();
    if count > 0 {
        let before = spot.context.before.items();
        let skipped = (before.len() + 1).saturating_sub(count);
        names.extend_from_slice(&before[skipped..])?;
        names.push(spot.piece.name)?;
    }
    Ok(())
}
