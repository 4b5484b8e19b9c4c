//! A source in memory.
ghost use Rattle.std.specs.Prelude.{◌≡◌, ◌≤◌, ◌↔◌, IfOk, OnErr, IsErr, length, min};

use crate::copies::copy_front;
use crate::{Failed, Source};
use std::marker::Model;

/// Bytes in memory, and the numbers of the reads that are to fail, counted from 0.
#[derive(Drop)]
pub struct MemorySource {
    bytes: Vec<u8>,
    at: usize,
    fails: Vec<u64>,
    reads: u64,
    faults: u64,
}

impl Model for MemorySource {
    ghost use Rattle.std.specs.Prelude.{◌≤◌, drop, length};
    ghost use Rattle.road_io.specs.Memory.{SourceState};

    ghost Value = { SourceState };

    ghost view = { λ s. record {
      left = drop s.at s.bytes.items;
      fails = s.fails.items;
      reads = s.reads;
      faults = s.faults;
    } };

    ghost invariant = { λ s. s.at ≤ length s.bytes.items };
}

impl MemorySource {
    ghost use Rattle.road_io.specs.Memory.{starting_source};

    /// Takes no memory. The numbers may stand in any order.
    pub fn new(bytes: Vec<u8>, fails: Vec<u64>) -> MemorySource
        ensures { result ≡ starting_source bytes.items fails.items }
    {
        MemorySource {
            bytes,
            at: 0,
            fails,
            reads: 0,
            faults: 0,
        }
    }
}

impl Source for MemorySource {
    ghost use Rattle.std.specs.Prelude.{Some};

    ghost bytes_left = { λ s. Some s.left };

    ghost faults = { λ s. s.faults };

    ghost use Rattle.road_io.specs.Told.{Counts};
    ghost use Rattle.road_io.specs.Calls.{Takes};
    ghost use Rattle.road_io.specs.Memory.{ReadIsToFail, after_read};

    /// Fails exactly where its number is among those that are to fail, and gives all that there is room for else.
    fn read(&mut self, buf: &mut [u8]) -> Result<usize, Failed>
        ensures fits { IfOk result (λ n. n ≤ length buf.old) }
        ensures told { Takes buf.old buf.new result self.old.left self.new.left }
        ensures counts { Counts self.old.faults self.new.faults result }

        ensures fails { IsErr result ↔ ReadIsToFail self.old }
        ensures after { self.new ≡ after_read result self.old }
        ensures most { IfOk result (λ n. n ≡ min (length buf.old) (length self.old.left)) }
        ensures untouched { OnErr result (buf.new ≡ buf.old) }
    {
        let number = self.reads;
        self.reads = number.saturating_add(1);
        if self.fails.contains(&number) {
            self.faults = self.faults.saturating_add(1);
            return Err(Failed);
        }
        let n = copy_front(buf, &self.bytes[self.at..]);
        self.at += n;
        Ok(n)
    }
}
