//! The steps in which a piece is driven.
ghost use Rattle.std.specs.Prelude.{◌≡◌, ◌≢◌, ◌↔◌, IsTrue, IfOk, IfSome, IfNone, Contains};
ghost use Rattle.road_model.specs.Pieces.{IsPiece};
ghost use Rattle.way_pieces.specs.declared.spans.PieceSpan.{PieceSpan};
ghost use Rattle.way_pieces.specs.Names.{IsSpelling, NamesNone};

use crate::road_pieces::spans_of;
use crate::spans::PieceSpan;
use road_base::{Drive, NoMemory};
use road_model::{PieceName, Profile, World};
use std::alloc::Global;
use way_lines::add_steps;

/// The steps of the piece in order of travel, None exactly where there is no such piece.
pub fn spell<M: World, P: Profile>(
    alloc: Global,
    world: &M,
    profile: &P,
    piece: PieceName,
) -> Result<Option<Drive>, NoMemory>
    ensures some { let spells = IsSpelling (M.objects world.now) (P.rules profile.now) piece in
        IfOk result (λ answer. IfSome answer spells) }
    ensures none { let no_piece = NamesNone (M.objects world.now) (P.rules profile.now) piece in
        IfOk result (λ answer. IfNone answer no_piece) }
{
    let spans = spans_of(alloc, world, profile, piece.way)?;
    let Some(span) = span_named(spans.as_slice(), piece) else {
        return Ok(None);
    };
    let mut steps = Vec::new(alloc);
    add_steps(
        &mut steps,
        piece.way,
        piece.index,
        span.end - piece.index,
        piece.dir,
    )?;
    Ok(Some(Drive::from_list(steps)))
}

/// The span of that name, None exactly where there is none.
fn span_named(spans: &[PieceSpan], name: PieceName) -> Option<PieceSpan>
    ensures some { IfSome result (λ s. Contains spans.now s × (s.name ≡ name)) }
    ensures none { IfNone result ((s : PieceSpan) → Contains spans.now s → s.name ≢ name) }
{
    for span in spans {
        if is_named(*span, name) {
            return Some(*span);
        }
    }
    None
}

fn is_named(span: PieceSpan, name: PieceName) -> bool
    ensures { IsTrue result ↔ (span.name ≡ name) }
{
    span.name == name
}
