//! The bytes of a file around the place where it is read.
ghost use Rattle.std.specs.Prelude.{◌≡◌, ◌⊎◌, ◌+◌, ◌<◌, ◌≤◌, ◌^◌, [], true, false, IfSome, IfErr, OnOk, length};
ghost use Rattle.sequence_journal.specs.declared.error.JournalError.TheVariants.{SiteFault, NoMemory as NoMemoryError};
ghost use Rattle.road_io.specs.Told.{Told};
ghost use Rattle.sequence_journal.specs.Journal.{CountsFaults};
ghost use Rattle.sequence_journal.specs.Windows.{Holds, Shows, seen};

use crate::error::JournalError;
use crate::parts::fill;
use road_io::{Site, Which};
use std::alloc::Global;

/// Bytes of a file from a place on.
#[derive(Drop)]
pub struct Window {
    from: u64,
    bytes: Vec<u8>,
}

impl Window {
    /// No byte of a file.
    pub fn new(alloc: Global) -> Window
        ensures { result.bytes.items ≡ [] }
    {
        Window {
            from: 0,
            bytes: Vec::new(alloc),
        }
    }

    /// Brings so many bytes of a file from a place on into the window, or as many as there are. Bytes that don't lie
    /// around the place are let go first, and no others than these are read.
    pub fn show<W: Site>(
        &mut self,
        alloc: Global,
        site: &mut W,
        file: Which,
        at: u64,
        size: usize,
    ) -> Result<(), JournalError>
        requires at_fits { at ≤ 2 ^ 41 }
        requires size_fits { size ≤ 2 ^ 41 }
        requires holds { IfSome (W.outside site.old) (Holds file self.old) }
        ensures told { Told (Shows file self.new at size result) (W.outside site.old) (W.outside site.new) }
        ensures holds { OnOk result (IfSome (W.outside site.new) (Holds file self.new)) }
        ensures before { OnOk result (self.new.from ≤ at) }
        ensures named { IfErr result (λ e. (e ≡ SiteFault) ⊎ (e ≡ NoMemoryError)) }
        ensures counts { CountsFaults (W.faults site.old) (W.faults site.new) result }
    {
        if covers(self.from, self.bytes.len(), at, size) {
            return Ok(());
        }
        self.bytes = Vec::new(alloc);
        let mut bytes = Vec::new(alloc);
        bytes.resize(size, 0)?;
        let n = fill(site, file, at, &mut bytes)?;
        bytes.truncate(n);
        self.from = at;
        self.bytes = bytes;
        Ok(())
    }

    /// The bytes from a place on, at most so many, that were shown.
    pub fn front(&self, at: u64, size: usize) -> &[u8]
        requires { self.now.from ≤ at }
        ensures { result.now ≡ seen self.now at size }
    {
        let skipped = (at - self.from) as usize;
        if skipped >= self.bytes.len() {
            return &[];
        }
        let behind = &self.bytes[skipped..];
        if behind.len() <= size {
            return behind;
        }
        &behind[..size]
    }
}

/// Whether bytes from a place on hold so many from another place on.
fn covers(from: u64, len: usize, at: u64, size: usize) -> bool
    requires { size ≤ 2 ^ 41 }
    ensures begins { result ≡ true → from ≤ at }
    ensures reaches { result ≡ true → at + size ≤ from + len }
{
    from <= at && at - from <= len as u64 && size as u64 <= len as u64 - (at - from)
}
