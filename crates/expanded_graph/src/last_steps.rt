//! Steps with which pieces end.
ghost use Rattle.std.specs.Prelude.{◌<◌};
ghost use Rattle.std.specs.List.{All};
ghost use Rattle.road_base.specs.Objects.{Objects};
ghost use Rattle.road_model.specs.Rules.{Rules};
ghost use Rattle.way_pieces.specs.RoadPieces.{AreSpans};
ghost use Rattle.expanded_graph.specs.Known.{IsLastOf, NamesEnd};

use road_base::{Dir, Step};
use road_model::PieceName;
use way_pieces::PieceSpan;

/// The name of the piece that the step ends, None exactly where it ends none. The spans are all of its way. Takes the
/// time of the logarithm of their number.
pub fn piece_ended_by(spans: &[PieceSpan], step: Step) -> Option<PieceName>
    requires { All (λ s. s.name.index < s.end) spans.now }
    ensures { (M : Objects) (P : Rules) → AreSpans M P step.way spans.now → NamesEnd M P step result }
{
    // Of the pieces that begin at or below the step's position only the last two may reach it: the same stretch,
    // forward and backward.
    let count = spans.partition_point(|span| span.name.index <= step.index);
    for span in &spans[count.saturating_sub(2)..count] {
        if last_step(*span) == step {
            return Some(span.name);
        }
    }
    None
}

/// The step with which the span ends.
pub fn last_step(span: PieceSpan) -> Step
    requires { span.name.index < span.end }
    ensures { IsLastOf span result }
{
    match span.name.dir {
        Dir::Forward => Step {
            way: span.name.way,
            index: span.end - 1,
            dir: Dir::Forward,
        },
        Dir::Backward => Step {
            way: span.name.way,
            index: span.name.index,
            dir: Dir::Backward,
        },
    }
}
