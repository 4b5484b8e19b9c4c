//! Why a session doesn't go on.
ghost use Rattle.std.specs.Prelude.{◌≡◌};
ghost use Rattle.session.specs.Answering.{stop_of as stop_by};

use sequence_journal::JournalError;

/// Why a session doesn't go on.
#[derive(Clone, Copy, PartialEq, Eq, Debug)]
pub enum Stop {
    /// A call on the site failed.
    SiteFault,
    /// A limit is passed.
    Limit,
    NoMemory,
}

/// What a refusal of the journal comes to, where the number is the next one.
pub fn stop_of(error: JournalError) -> Stop
    ensures { result ≡ stop_by error }
{
    match error {
        JournalError::SiteFault => Stop::SiteFault,
        JournalError::TooLarge => Stop::Limit,
        _ => Stop::NoMemory,
    }
}
