//! A journal: which file it stands on, where the file's next gate is, and which change it keeps last.
ghost use Rattle.std.specs.Prelude.{◌≡◌, ◌≢◌, ◌↔◌, ◌+◌, true, false, IsOk, IfErr};
ghost use Rattle.sequence_journal.specs.declared.error.JournalError.TheVariants.{OutOfSequence};
ghost use Rattle.sequence_journal.specs.Adding.{IsNext};

use crate::error::JournalError;
use road_base::Sequence;
use road_io::Which;

/// A journal on one file of a site. After a fault of the site the journal is closed, and refuses every addition: load
/// the store again then. Whether a gate of its file is closed is another matter.
#[derive(Drop)]
pub struct Journal {
    pub(crate) file: Which,
    pub(crate) generation: u64,
    pub(crate) profile: u32,
    /// Where the next gate stands, or would stand.
    pub(crate) gate: u64,
    pub(crate) kept: Sequence,
    /// Whether the journal is closed.
    pub(crate) closed: bool,
}

impl Journal {
    /// The file that the journal stands on.
    pub fn file(&self) -> Which
        ensures { result ≡ self.now.file }
    {
        self.file
    }

    /// The generation of the file's base.
    pub fn generation(&self) -> u64
        ensures { result ≡ self.now.generation }
    {
        self.generation
    }

    /// The number of the profile that the file's base names.
    pub fn profile(&self) -> u32
        ensures { result ≡ self.now.profile }
    {
        self.profile
    }

    /// The number of the last change, or that of the base where no change came.
    pub fn kept(&self) -> Sequence
        ensures { result ≡ self.now.kept }
    {
        self.kept
    }

    /// Whether the journal is closed. Of gates it says nothing.
    pub fn closed(&self) -> bool
        ensures { result ≡ self.now.closed }
    {
        self.closed
    }

    /// Closes the journal, not a gate of its file, and changes nothing else.
    pub fn close(&mut self)
        ensures { self.new ≡ record self.old { closed = true } }
    {
        self.closed = true;
    }

    /// Refuses a number exactly where it isn't the kept one plus 1, and tells both. No number follows the last u64.
    pub fn check(&self, seq: Sequence) -> Result<(), JournalError>
        ensures ok { IsOk result ↔ IsNext self.now seq }
        ensures both { IfErr result (λ e. e ≡ OutOfSequence self.now.kept seq) }
    {
        if !follows(self.kept.0, seq.0) {
            return Err(JournalError::OutOfSequence {
                kept: self.kept,
                got: seq,
            });
        }
        Ok(())
    }
}

/// Whether a number is the one behind another. None is behind the last u64.
pub fn follows(before: u64, number: u64) -> bool
    ensures yes { result ≡ true → number ≡ before + 1 }
    ensures no { result ≡ false → number ≢ before + 1 }
{
    before < u64::MAX && number == before + 1
}
