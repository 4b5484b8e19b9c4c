//! What a site in memory keeps of its calls.
ghost use Rattle.std.specs.Prelude.{◌≡◌, ◌≤◌, ◌↔◌, true, Contains, OnOk, OnErr, IfOk, IsErr, length};
ghost use Rattle.road_io.specs.Told.{Counts};
ghost use Rattle.road_io.specs.Memory.{HasRoom, with_room, without_memory, noted, noted_failed, FailsNote};

use crate::{Call, Entry, Failed};
use std::alloc::Global;
use std::marker::Model;

/// The record of the calls, the numbers of those that are to fail, and how many failed.
#[derive(Drop)]
pub struct CallLog {
    calls: Vec<Entry>,
    fails: Vec<u64>,
    faults: u64,
}

impl Model for CallLog {
    ghost use Rattle.std.specs.Vec.{vec_capacity};
    ghost use Rattle.road_io.specs.Memory.{LogState};

    ghost Value = { LogState };

    ghost view = { λ l. record {
      calls = l.calls.items;
      room = vec_capacity l.calls;
      fails = l.fails.items;
      faults = l.faults;
    } };
}

fn is_among(numbers: &[u64], number: usize) -> bool
    ensures { result ≡ true ↔ Contains numbers.now number }
{
    numbers.contains(&(number as u64))
}

impl CallLog {
    ghost use Rattle.std.specs.Prelude.{[]};

    pub fn new(alloc: Global, fails: Vec<u64>) -> CallLog
        ensures calls { result.calls ≡ [] }
        ensures fails { result.fails ≡ fails.items }
        ensures faults { result.faults ≡ 0 }
    {
        CallLog {
            calls: Vec::new(alloc),
            fails,
            faults: 0,
        }
    }

    pub fn calls(&self) -> &[Entry]
        ensures { result.now ≡ self.now.calls }
    {
        &self.calls
    }

    /// A call that found no memory.
    pub fn without_memory(&mut self) -> Failed
        ensures state { self.new ≡ without_memory self.old }
        ensures never_falls { self.old.faults ≤ self.new.faults }
    {
        self.faults = self.faults.saturating_add(1);
        Failed
    }

    /// Takes the memory for one call more, and answers whether that call is to fail.
    pub fn make_room(&mut self) -> Result<bool, Failed>
        ensures room { OnOk result (HasRoom self.new) }
        ensures ok { OnOk result (self.new ≡ with_room self.new.room self.old) }
        ensures fails { IfOk result (λ fails. fails ≡ true ↔ Contains self.old.fails (length self.old.calls)) }
        ensures err { OnErr result (self.new ≡ with_room self.new.room (without_memory self.old)) }
        ensures counts { Counts self.old.faults self.new.faults result }
    {
        let is_to_fail = is_among(&self.fails, self.calls.len());
        if self.calls.reserve(1).is_err() {
            return Err(self.without_memory());
        }
        Ok(is_to_fail)
    }

    /// A call that answered Ok.
    pub fn enter(&mut self, call: Call)
        requires { HasRoom self.old }
        ensures { self.new ≡ with_room self.new.room (noted call self.old) }
    {
        self.calls
            .push(Entry {
                call,
                failed: false,
            })
            .unwrap();
    }

    /// A call that was to fail.
    pub fn enter_failed(&mut self, call: Call) -> Failed
        requires { HasRoom self.old }
        ensures state { self.new ≡ with_room self.new.room (noted_failed call self.old) }
        ensures never_falls { self.old.faults ≤ self.new.faults }
    {
        self.calls.push(Entry { call, failed: true }).unwrap();
        self.faults = self.faults.saturating_add(1);
        Failed
    }

    /// A call that needs no memory but that of its entry.
    pub fn note(&mut self, call: Call) -> Result<(), Failed>
        ensures fails { Contains self.old.fails (length self.old.calls) → IsErr result }
        ensures ok { OnOk result (self.new ≡ with_room self.new.room (noted call self.old)) }
        ensures err { OnErr result (FailsNote call self.old self.new) }
        ensures counts { Counts self.old.faults self.new.faults result }
    {
        if self.make_room()? {
            return Err(self.enter_failed(call));
        }
        self.enter(call);
        Ok(())
    }
}
