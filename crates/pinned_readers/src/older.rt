//! The followers that stay behind for readers.
ghost use Rattle.std.specs.Prelude.{◌≡◌, ◌<◌, ◌^◌, OnOk, OnErr, IfErr};
ghost use Rattle.std.specs.Option.{option_copied};
ghost use Rattle.std.specs.FinMap.{empty, get, insert, remove, len};

use road_base::Sequence;
use std::alloc::Global;
use std::collections::BTreeMap;
use std::marker::Model;

/// Followers by the numbers of their last changes.
#[derive(Drop)]
pub struct OlderStates<F> {
    by_number: BTreeMap<Sequence, F>,
}

impl<F> Model for OlderStates<F> {
    ghost use Rattle.std.specs.Coded.{coded_ℕ};
    ghost use Rattle.std.specs.Ordering.{nat_cmp};
    ghost use Rattle.std.specs.FinMap.{FinMap, code};

    ghost Value = { FinMap nat_cmp F };

    ghost coded = { code coded_ℕ F.code };

    ghost use Rattle.pinned_readers.specs.Tables.{older_in};

    ghost view = { λ s. older_in s.by_number };
}

impl<F: Drop> OlderStates<F> {
    /// None. Takes no memory.
    pub fn new(alloc: Global) -> OlderStates<F>
        ensures { result ≡ empty }
    {
        OlderStates {
            by_number: BTreeMap::new(alloc),
        }
    }

    /// How many there are.
    pub fn len(&self) -> usize
        ensures count { result ≡ len self.now }
        ensures small { result < 2 ^ 63 }
    {
        self.by_number.len()
    }

    /// The one at the number.
    pub fn get(&self, number: Sequence) -> Option<&F>
        ensures { option_copied result ≡ get self.now number.0 }
    {
        self.by_number.get(&number)
    }

    /// Keeps one at the number, or gives it back where no memory is found.
    pub fn insert(&mut self, number: Sequence, follower: F) -> Result<(), F>
        ensures ok { OnOk result (self.new ≡ insert self.old number.0 follower) }
        ensures err { OnErr result (self.new ≡ self.old) }
        ensures back { IfErr result (λ f. f ≡ follower) }
    {
        match self.by_number.insert(number, follower) {
            Ok(_) => Ok(()),
            Err(failed) => Err(failed.value.1),
        }
    }

    /// Drops the one at the number, if there is one.
    pub fn remove(&mut self, number: Sequence)
        ensures { self.new ≡ remove self.old number.0 }
    {
        let _ = self.by_number.remove(&number);
    }
}
