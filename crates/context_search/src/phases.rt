//! The phases in which a search goes along pieces, by their marks.
ghost use Rattle.std.specs.Prelude.{◌≡◌};
ghost use Rattle.context_search.specs.Phases.{PhaseRules, one_phase};

/// In which phases one goes along pieces, by whether a piece is marked as one of a zone. Phases are told apart by
/// numbers. No call takes memory.
pub trait Phases {
    /// What the phases answer.
    ghost rules: { Self → PhaseRules };

    /// The phase in which one starts with such a piece.
    fn start(&self, zone: bool) -> u8
        ensures { result ≡ (rules self.now).start zone };

    /// The phase in which one goes on from this phase by such a piece. None where one doesn't.
    fn go(&self, phase: u8, zone: bool) -> Option<u8>
        ensures { result ≡ (rules self.now).go phase zone };
}

/// One phase, in which one goes on by every piece.
#[derive(Clone, Copy, Drop)]
pub struct OnePhase;

impl Phases for OnePhase {
    ghost rules = { λ _. one_phase };

    fn start(&self, _zone: bool) -> u8 {
        0
    }

    fn go(&self, _phase: u8, _zone: bool) -> Option<u8> {
        Some(0)
    }
}
