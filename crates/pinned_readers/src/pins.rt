//! Which readers are pinned, and at which numbers.
ghost use Rattle.std.specs.Prelude.{◌≡◌, ◌↔◌, IsTrue, nat_eq, OnOk, OnErr};
ghost use Rattle.std.specs.Option.{option_map};
ghost use Rattle.std.specs.List.{list_any};
ghost use Rattle.std.specs.Ordering.{nat_cmp};
ghost use Rattle.std.specs.BTreeMap.{values, IsOrdered};
ghost use Rattle.std.specs.FinMap.{empty, get, insert, remove, len};
ghost use Rattle.pinned_readers.specs.PinnedRuns.{IsPinnedNumber};

use road_base::{NoMemory, Sequence};
use std::alloc::Global;
use std::collections::BTreeMap;
use std::marker::Model;

/// The readers that are pinned, each with the number of the change behind which it is.
#[derive(Drop)]
pub struct PinTable {
    by_reader: BTreeMap<u32, Sequence>,
}

impl Model for PinTable {
    ghost use Rattle.std.specs.Coded.{coded_ℕ};
    ghost use Rattle.std.specs.FinMap.{code};
    ghost use Rattle.pinned_readers.specs.PinnedRuns.{Pins};

    ghost Value = { Pins };

    ghost coded = { code coded_ℕ coded_ℕ };

    ghost use Rattle.pinned_readers.specs.Tables.{pins_in};

    ghost view = { λ t. pins_in t.by_reader };
}

impl PinTable {
    /// No reader is pinned. Takes no memory.
    pub fn new(alloc: Global) -> PinTable
        ensures { result ≡ empty }
    {
        PinTable {
            by_reader: BTreeMap::new(alloc),
        }
    }

    /// How many readers are pinned.
    pub fn len(&self) -> usize
        ensures { result ≡ len self.now }
    {
        self.by_reader.len()
    }

    /// The number at which the reader is pinned.
    pub fn get(&self, reader: u32) -> Option<Sequence>
        ensures { option_map (λ n. n.0) result ≡ get self.now reader }
    {
        self.by_reader.get(&reader).copied()
    }

    /// Whether some reader is pinned at the number. Goes through all of them.
    pub fn has_number(&self, number: Sequence) -> bool
        ensures { IsTrue result ↔ IsPinnedNumber self.now number.0 }
    {
        has_value(&self.by_reader, number)
    }

    /// Pins the reader at the number.
    pub fn insert(&mut self, reader: u32, number: Sequence) -> Result<(), NoMemory>
        ensures ok { OnOk result (self.new ≡ insert self.old reader number.0) }
        ensures err { OnErr result (self.new ≡ self.old) }
    {
        self.by_reader.insert(reader, number)?;
        Ok(())
    }

    /// Releases the reader, if it is pinned.
    pub fn remove(&mut self, reader: u32)
        ensures { self.new ≡ remove self.old reader }
    {
        let _ = self.by_reader.remove(&reader);
    }
}

/// Whether some entry has the number.
fn has_value(by_reader: &BTreeMap<u32, Sequence>, number: Sequence) -> bool
    ensures any { result ≡ list_any (λ n. nat_eq n.0 number.0) (values by_reader.now) }
    ensures ordered { IsOrdered nat_cmp by_reader.now }
{
    by_reader.values().any(|n| *n == number)
}
