//! One who follows a world while it changes, and answers questions about it.
ghost use Rattle.std.specs.Prelude.{◌≡◌, ◌⊎◌, ◌≤◌, ◌+◌, ◌++◌, ℕ, List, IfOk, OnOk, OnErr};
ghost use Rattle.road_base.specs.Objects.{Objects};
ghost use Rattle.road_base.specs.Applying.{IsApplied};
ghost use Rattle.road_base.specs.declared.event.Event.{Event};
ghost use Rattle.road_model.specs.declared.follower.Question.{Question};
ghost use Rattle.road_model.specs.Questions.{HasSteps};

use road_base::{Drive, Event, NoMemory, NodeId, Sequence, Steps};
use std::sync::ledger::Ledger;

/// What may be asked of a world: its graph, what state it is in, whether a drive is legal, and for a drive from one
/// node to another.
#[derive(Drop)]
pub enum Question {
    Graph,
    State,
    Drive(Drive),
    Reach(NodeId, NodeId),
}

/// One who stands for an object map, follows its changes, and answers questions about it. What changes never touch, as
/// the rules by which it answers, is its fixed part.
pub trait Follower: Sized + Drop {
    /// What fixed parts are.
    ghost Fixed: { Type 0 };

    /// The part that no change touches.
    ghost fixed: { Self → Fixed };

    /// The object map for which it stands.
    ghost objects: { Self → Objects };

    /// The replies that a question may get, by the fixed part, the object map and the number of its last change.
    ghost replies: { Fixed → Objects → ℕ → Question → List ℕ → Type 0 };

    /// By how much the counter may rise at most where these events are followed.
    ghost most: { Fixed → Objects → List Event → ℕ → Type 0 };

    /// One that stands for the same map. Refuses for want of memory alone.
    fn copy(&self) -> Result<Self, NoMemory>
        ensures objects { IfOk result (λ f. objects f ≡ objects self.now) }
        ensures fixed { IfOk result (λ f. fixed f ≡ fixed self.now) };

    /// Goes on to what the events leave of the map. Refuses for want of memory alone, and is then as it was.
    fn follow<L: Ledger>(&mut self, events: &[Event], steps: &mut Steps<L>) -> Result<(), NoMemory>
        ensures follows { OnOk result (IsApplied (objects self.old) events.now (objects self.new)) }
        ensures err { OnErr result (self.new ≡ self.old) }
        ensures fixed { fixed self.new ≡ fixed self.old }
        ensures few { (steps.new ≡ steps.old)
            ⊎ ((n : ℕ) × most (fixed self.old) (objects self.old) events.now n × (steps.new ≤ steps.old + n)) };

    /// Appends a reply to the question, asked after the change of that number. Refuses for want of memory alone, and
    /// appends nothing then.
    fn ask(&self, number: Sequence, question: &Question, out: &mut Vec<u8>) -> Result<(), NoMemory>
        requires { HasSteps question.now }
        ensures reply { OnOk result ((r : List ℕ)
            × replies (fixed self.now) (objects self.now) number.0 question.now r
            × (out.new.items ≡ out.old.items ++ r)) }
        ensures err { OnErr result (out.new.items ≡ out.old.items) };
}
