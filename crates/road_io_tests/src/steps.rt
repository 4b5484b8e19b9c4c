//! Calls on a site, and what they answer.
ghost use Rattle.std.specs.Prelude.{◌≡◌, Ok, IsErr, MatchResult};

use road_io::{Failed, Which};

/// A call. A read has as much room as its text is long, which is what the buffer of dots holds behind it.
#[derive(Clone, Copy)]
pub enum DiskStep {
    Put(&'static str),
    Len(Which),
    Read(Which, u64, &'static str),
    Write(Which, u64, &'static str),
    Cut(Which, u64),
    Sync(Which),
}

/// What a call answers: the number, or 0 for none.
pub type Answer = Result<u64, Failed>;

/// The answer of a call that gives no number, with 0 for one.
pub fn without_number(answer: Result<(), Failed>) -> Answer
    ensures { MatchResult answer (λ _. result ≡ Ok 0) (λ _. IsErr result) }
{
    match answer {
        Ok(()) => Ok(0),
        Err(failed) => Err(failed),
    }
}

/// The answer of a read.
pub fn with_number(answer: Result<usize, Failed>) -> Answer
    ensures { MatchResult answer (λ n. result ≡ Ok n) (λ _. IsErr result) }
{
    match answer {
        Ok(n) => Ok(n as u64),
        Err(failed) => Err(failed),
    }
}
