//! What answers a session.
ghost use Rattle.std.specs.Prelude.{◌≡◌, ◌⊎◌, ◌+◌, IfOk, OnOk, OnErr};
ghost use Rattle.road_base.specs.History.{History, HasObjects, kept as kept_number, with_change};
ghost use Rattle.road_base.specs.Objects.{Objects};
ghost use Rattle.session_input.specs.Texts.{text_of};
ghost use Rattle.session_answers.specs.Replies.{Replies, Costs, CostsAtMost};
ghost use Rattle.session_answers.specs.Said.{said};

use crate::reply::Reply;
use road_base::{Event, NoMemory, Sequence, Steps};
use session_input::Line;
use std::sync::ledger::Ledger;

/// Answers the lines of a session, and follows its changes. It stands for the history of the store, with something
/// beside it that lines may change, as what was pinned.
pub trait Answerer: Sized + Drop {
    /// What stands beside the history.
    ghost Beside: { Type 0 };
    /// What no line and no change alters, as the rules of a profile.
    ghost Fixed: { Type 0 };
    /// The part of the answerer that no line and no change alters.
    ghost fixed: { Self → Self.Fixed };
    /// What a line may be answered with.
    ghost replies: { Self.Fixed → Replies Self.Beside };
    /// How many blocks at most are built for a change.
    ghost costs: { Self.Fixed → Costs };
    /// It stands for this history, with this beside it.
    ghost stands: { Self → History → Self.Beside → Type 0 };

    /// The reply to a line outside a frame. The kept number is that of the last change.
    fn reply(&mut self, kept: Sequence, line: &Line<'_>) -> Result<Reply, NoMemory>
        ensures fixed { Self.fixed self.new ≡ Self.fixed self.old }
        ensures reply { IfOk result (λ r. (h : History) (b : Self.Beside)
            → Self.stands self.old h b
            → kept.0 ≡ kept_number h
            → (c : Self.Beside) × Self.replies (Self.fixed self.old) h b (text_of line.now) (said r) c
            × Self.stands self.new h c) };

    /// Follows a change under its number, which is the one behind that of the last change. Where no memory is found it
    /// stands for nothing more.
    fn follow<L: Ledger>(
        &mut self,
        number: Sequence,
        events: &[Event],
        steps: &mut Steps<L>,
    ) -> Result<(), NoMemory>
        ensures fixed { Self.fixed self.new ≡ Self.fixed self.old }
        ensures follows { OnOk result ((h : History) (b : Self.Beside)
            → Self.stands self.old h b
            → number.0 ≡ kept_number h + 1
            → Self.stands self.new (with_change h events.now) b) }
        ensures few { OnOk result ((h : History) (b : Self.Beside) (M : Objects)
            → Self.stands self.old h b
            → number.0 ≡ kept_number h + 1
            → HasObjects h M
            → CostsAtMost (Self.costs (Self.fixed self.old)) M events.now steps.old steps.new) }
        ensures failed { OnErr result ((h : History) (b : Self.Beside) (M : Objects)
            → Self.stands self.old h b
            → number.0 ≡ kept_number h + 1
            → HasObjects h M
            → (steps.new ≡ steps.old)
            ⊎ CostsAtMost (Self.costs (Self.fixed self.old)) M events.now steps.old steps.new) };
}
