//! A site in memory.
ghost use Rattle.std.specs.Prelude.{◌≡◌, ◌≤◌, IfOk, OnErr, length};
ghost use Rattle.road_io.specs.Outside.{disk};
ghost use Rattle.road_io.specs.Memory.{outside_of};

use crate::call_log::CallLog;
use crate::copies::{copy_front, from_place};
use crate::memory_files::MemoryFiles;
use crate::{Bytes, Call, Entry, Failed, Site, Which};
use std::alloc::Global;
use std::marker::Model;

/// Two files and an output in memory, a record of all calls, and the numbers of the calls that are to fail, counted
/// from 0 over the calls that found memory. What it tells is what its record leads to. A call that is to fail is
/// recorded, and does nothing else. One that finds no memory has no number and isn't recorded, and does nothing else
/// either. An empty file stands for one that isn't there.
#[derive(Drop)]
pub struct MemorySite {
    alloc: Global,
    files: MemoryFiles,
    output: Vec<u8>,
    log: CallLog,
}

impl Model for MemorySite {
    ghost use Rattle.road_io.specs.Memory.{SiteState, IsKept};
    ghost use Rattle.road_io.specs.Replay.{replay, starting};

    ghost Value = { SiteState };

    ghost view = { λ s. record {
      opening_a = s.files.a.opening;
      opening_b = s.files.b.opening;
      calls = s.log.calls;
      fails = s.log.fails;
      faults = s.log.faults;
    } };

    ghost invariant = { λ s. IsKept s.files s.output.items
        (replay s.log.calls (starting s.files.a.opening s.files.b.opening)) };
}

impl MemorySite {
    ghost use Rattle.road_io.specs.Memory.{starting_site};

    /// Takes no memory. Nothing is pending on the files, and there is no output. The numbers may stand in any order.
    pub fn new(alloc: Global, a: Vec<u8>, b: Vec<u8>, fails: Vec<u64>) -> MemorySite
        ensures { result ≡ starting_site a.items b.items fails.items }
    {
        MemorySite {
            alloc,
            files: MemoryFiles::new(a, b),
            output: Vec::new(alloc),
            log: CallLog::new(alloc, fails),
        }
    }

    /// A file as it reads.
    pub fn file(&self, file: Which) -> &[u8]
        ensures { result.now ≡ (disk (outside_of self.now) file).reads }
    {
        self.files.bytes(file)
    }

    /// What has been put so far.
    pub fn output(&self) -> &[u8]
        ensures { result.now ≡ (outside_of self.now).output }
    {
        &self.output
    }

    /// The record of the calls in order, but for those that found no memory.
    pub fn calls(&self) -> &[Entry]
        ensures { result.now ≡ self.now.calls }
    {
        self.log.calls()
    }
}

impl Site for MemorySite {
    ghost use Rattle.std.specs.Prelude.{Some};

    ghost outside = { λ s. Some (outside_of s) };

    ghost faults = { λ s. s.faults };

    ghost use Rattle.road_io.specs.SoundDisks.{replay_sound};

    ghost sound = { λ s. replay_sound s.calls s.opening_a s.opening_b };

    ghost use Rattle.std.specs.Prelude.{IsErr, OnOk, drop, min};
    ghost use Rattle.road_io.specs.Told.{Counts};
    ghost use Rattle.road_io.specs.Calls.{Puts, TellsLen, GivesBytes, Writes, Cuts, Syncs};
    ghost use Rattle.road_io.specs.declared.entries.Call.TheVariants.{Put, FileLen, ReadAt, WriteAt, Cut, Sync};
    ghost use Rattle.road_io.specs.Memory.{CallIsToFail, after_call, FailsCall, ReadsAlike};

    fn put(&mut self, chunk: &[u8]) -> Result<(), Failed>
        ensures told { Puts chunk.now result (outside_of self.old) (outside_of self.new) }
        ensures counts { Counts self.old.faults self.new.faults result }

        ensures fails { CallIsToFail self.old → IsErr result }
        ensures ok { OnOk result (self.new ≡ after_call (Put chunk.now) self.old) }
        ensures err { OnErr result (FailsCall (Put chunk.now) self.old self.new) }
        ensures alike { OnErr result (ReadsAlike (outside_of self.old) (outside_of self.new)) }
    {
        let Ok(copy) = Bytes::copied(self.alloc, chunk) else {
            return Err(self.log.without_memory());
        };
        if self.log.make_room()? {
            return Err(self.log.enter_failed(Call::Put(copy)));
        }
        if self.output.extend_from_slice(chunk).is_err() {
            return Err(self.log.without_memory());
        }
        self.log.enter(Call::Put(copy));
        Ok(())
    }

    fn file_len(&mut self, file: Which) -> Result<u64, Failed>
        ensures told { TellsLen file result (outside_of self.old) (outside_of self.new) }
        ensures counts { Counts self.old.faults self.new.faults result }

        ensures fails { CallIsToFail self.old → IsErr result }
        ensures ok { OnOk result (self.new ≡ after_call (FileLen file) self.old) }
        ensures err { OnErr result (FailsCall (FileLen file) self.old self.new) }
    {
        self.log.note(Call::FileLen(file))?;
        Ok(self.files.bytes(file).len() as u64)
    }

    fn read_at(&mut self, file: Which, at: u64, buf: &mut [u8]) -> Result<usize, Failed>
        ensures fits { IfOk result (λ n. n ≤ length buf.old) }
        ensures told { GivesBytes file at buf.old buf.new result (outside_of self.old) (outside_of self.new) }
        ensures counts { Counts self.old.faults self.new.faults result }

        ensures fails { CallIsToFail self.old → IsErr result }
        ensures ok { OnOk result (self.new ≡ after_call (ReadAt file at (length buf.old)) self.old) }
        ensures err { OnErr result (FailsCall (ReadAt file at (length buf.old)) self.old self.new) }
        ensures most { IfOk result (λ n. n ≡ min (length buf.old)
            (length (drop at (disk (outside_of self.old) file).reads))) }
        ensures untouched { OnErr result (buf.new ≡ buf.old) }
    {
        let len = buf.len() as u64;
        self.log.note(Call::ReadAt { file, at, len })?;
        Ok(copy_front(buf, from_place(self.files.bytes(file), at)))
    }

    fn write_at(&mut self, file: Which, at: u64, chunk: &[u8]) -> Result<(), Failed>
        requires within { at ≤ length (disk (outside_of self.old) file).reads }
        ensures told { Writes file at chunk.now result (outside_of self.old) (outside_of self.new) }
        ensures counts { Counts self.old.faults self.new.faults result }

        ensures fails { CallIsToFail self.old → IsErr result }
        ensures ok { OnOk result (self.new ≡ after_call (WriteAt file at chunk.now) self.old) }
        ensures err { OnErr result (FailsCall (WriteAt file at chunk.now) self.old self.new) }
        ensures alike { OnErr result (ReadsAlike (outside_of self.old) (outside_of self.new)) }
    {
        let Ok(copy) = Bytes::copied(self.alloc, chunk) else {
            return Err(self.log.without_memory());
        };
        let call = Call::WriteAt {
            file,
            at,
            piece: copy,
        };
        if self.log.make_room()? {
            return Err(self.log.enter_failed(call));
        }
        if self
            .files
            .overwrite(self.alloc, file, at as usize, chunk)
            .is_err()
        {
            return Err(self.log.without_memory());
        }
        self.log.enter(call);
        Ok(())
    }

    fn cut(&mut self, file: Which, len: u64) -> Result<(), Failed>
        requires within { len ≤ length (disk (outside_of self.old) file).reads }
        ensures told { Cuts file len result (outside_of self.old) (outside_of self.new) }
        ensures counts { Counts self.old.faults self.new.faults result }

        ensures fails { CallIsToFail self.old → IsErr result }
        ensures ok { OnOk result (self.new ≡ after_call (Cut file len) self.old) }
        ensures err { OnErr result (FailsCall (Cut file len) self.old self.new) }
        ensures alike { OnErr result (ReadsAlike (outside_of self.old) (outside_of self.new)) }
    {
        if self.log.make_room()? {
            return Err(self.log.enter_failed(Call::Cut { file, len }));
        }
        if self.files.cut(self.alloc, file, len as usize).is_err() {
            return Err(self.log.without_memory());
        }
        self.log.enter(Call::Cut { file, len });
        Ok(())
    }

    fn sync(&mut self, file: Which) -> Result<(), Failed>
        ensures told { Syncs file result (outside_of self.old) (outside_of self.new) }
        ensures counts { Counts self.old.faults self.new.faults result }

        ensures fails { CallIsToFail self.old → IsErr result }
        ensures ok { OnOk result (self.new ≡ after_call (Sync file) self.old) }
        ensures err { OnErr result (FailsCall (Sync file) self.old self.new) }
    {
        self.log.note(Call::Sync(file))
    }
}
