//! Whether blocks are equal, and whether they list the same pieces.
ghost use Rattle.std.specs.Prelude.{◌≡◌, ◌↔◌, IsTrue};
ghost use Rattle.change_apply.specs.Rebuilding.{listed};

use road_model::{Block, Context, Names, Piece, PieceName, Place, TurnArc};

/// Whether both blocks are equal. Takes the time of one run over both, up to the first difference.
pub fn same_block(a: &Block, b: &Block) -> bool
    ensures { IsTrue result ↔ (a.now ≡ b.now) }
{
    a.way == b.way && same_pieces(a.pieces.items(), b.pieces.items())
}

/// Whether both lists of pieces are equal.
fn same_pieces(a: &[Piece], b: &[Piece]) -> bool
    ensures { IsTrue result ↔ (a.now ≡ b.now) }
{
    if a.len() != b.len() {
        return false;
    }
    for at in 0..a.len() {
        if !same_piece(&a[at], &b[at]) {
            return false;
        }
    }
    true
}

/// Whether both lists have pieces of the same names and ends, in the same order. Takes the time of one run over both,
/// up to the first difference.
pub fn same_spans(a: &[Piece], b: &[Piece]) -> bool
    ensures { IsTrue result ↔ (listed a.now ≡ listed b.now) }
{
    if a.len() != b.len() {
        return false;
    }
    for at in 0..a.len() {
        if !same_span(&a[at], &b[at]) {
            return false;
        }
    }
    true
}

/// Whether both pieces are equal.
fn same_piece(a: &Piece, b: &Piece) -> bool
    ensures { IsTrue result ↔ (a.now ≡ b.now) }
{
    same_span(a, b)
        && a.zone == b.zone
        && same_places(a.places.items(), b.places.items())
        && same_contexts(a.contexts.items(), b.contexts.items())
}

/// Whether both pieces have the same name and end.
fn same_span(a: &Piece, b: &Piece) -> bool
    ensures { IsTrue result ↔ ((a.now.name ≡ b.now.name) × (a.now.end ≡ b.now.end)) }
{
    a.name == b.name && a.end == b.end
}

/// Whether both lists of places are equal.
fn same_places(a: &[Place], b: &[Place]) -> bool
    ensures { IsTrue result ↔ (a.now ≡ b.now) }
{
    a == b
}

/// Whether both lists of contexts are equal.
fn same_contexts(a: &[Context], b: &[Context]) -> bool
    ensures { IsTrue result ↔ (a.now ≡ b.now) }
{
    if a.len() != b.len() {
        return false;
    }
    for at in 0..a.len() {
        if !same_context(&a[at], &b[at]) {
            return false;
        }
    }
    true
}

/// Whether both contexts are equal.
fn same_context(a: &Context, b: &Context) -> bool
    ensures { IsTrue result ↔ (a.now ≡ b.now) }
{
    same_names(a.before.items(), b.before.items())
        && same_arcs(a.arcs.items(), b.arcs.items())
        && same_sources(a.sources.items(), b.sources.items())
}

/// Whether both lists of sources are equal.
fn same_sources(a: &[Names], b: &[Names]) -> bool
    ensures { IsTrue result ↔ (a.now ≡ b.now) }
{
    if a.len() != b.len() {
        return false;
    }
    for at in 0..a.len() {
        if !same_names(a[at].items(), b[at].items()) {
            return false;
        }
    }
    true
}

/// Whether both lists of names are equal.
fn same_names(a: &[PieceName], b: &[PieceName]) -> bool
    ensures { IsTrue result ↔ (a.now ≡ b.now) }
{
    a == b
}

/// Whether both lists of arcs are equal. Takes the time of one run over both, up to the first difference.
pub fn same_arcs(a: &[TurnArc], b: &[TurnArc]) -> bool
    ensures { IsTrue result ↔ (a.now ≡ b.now) }
{
    a == b
}
