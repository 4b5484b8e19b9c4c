//! What has changed over a floor, gone over in the order of the keys.
ghost use Rattle.std.specs.Prelude.{◌≡◌, ◌≤◌, true, false, Some, cond, length, map, option_copied};
ghost use Rattle.std.specs.List.Sorted.{IsPartitionedBy, IsPartitionPoint};
ghost use Rattle.std.specs.Ordering.{is_lt};
ghost use Rattle.std.specs.FinMap.{IsAntisymmetric};
ghost use Rattle.layered_maps.specs.Layers.{laid, pair, values_of, Rise};
ghost use Rattle.layered_maps.specs.Maps.{from_key};
ghost use Rattle.layered_maps.specs.Walks.{AllRise, behind_key, first_at, first_key, lower_of, run_at, run_pairs};
ghost use Rattle.layered_maps.specs.Walks.{IsTaken};

use crate::entry_run::{Entry, EntryRun};
use std::marker::Model;
use std::rc::Rc;

/// Entries of some runs, ascending by key: of a key that several have, that of the first one. Contracts see those that
/// are left.
#[derive(Drop)]
pub struct Changes<'a, K: Ord + Copy, V: Drop> {
    /// What is left of each run.
    runs: [&'a [Entry<K, V>]; 8],
    /// The least key that is left.
    least: Option<K>,
}

impl<'a, K: Ord + Copy, V: Drop> Model for Changes<'a, K, V> {
    ghost use Rattle.std.specs.Prelude.{◌≡◌, List, map};
    ghost use Rattle.layered_maps.specs.Layers.{laid};
    ghost use Rattle.layered_maps.specs.Walks.{AllRise, first_key, run_pairs};

    ghost Value = { List (K × V) };

    ghost view = { λ c. laid K.cmp (map run_pairs c.runs) };

    ghost invariant = { λ c. AllRise K.cmp (map run_pairs c.runs)
        × (c.least ≡ first_key (laid K.cmp (map run_pairs c.runs))) };
}

impl<'a, K: Ord + Copy, V: Drop> Changes<'a, K, V> {
    /// The entries of these runs.
    pub fn of(runs: &'a [Rc<EntryRun<K, V>>]) -> Changes<'a, K, V>
        requires { length runs.now ≤ 8 }
        ensures { result ≡ laid K.cmp (values_of runs.now) }
    {
        let runs = [
            entries_of(runs, 0),
            entries_of(runs, 1),
            entries_of(runs, 2),
            entries_of(runs, 3),
            entries_of(runs, 4),
            entries_of(runs, 5),
            entries_of(runs, 6),
            entries_of(runs, 7),
        ];
        let least = least_of(&runs);
        Changes { runs, least }
    }

    /// The entries of these runs at keys that aren't below this one. Takes the time of a search in each.
    pub fn from(runs: &'a [Rc<EntryRun<K, V>>], key: K) -> Changes<'a, K, V>
        requires exact { IsAntisymmetric K.cmp }
        requires few { length runs.now ≤ 8 }
        ensures { result ≡ from_key K.cmp key (laid K.cmp (values_of runs.now)) }
    {
        let mut changes = Changes::of(runs);
        changes.pass(key);
        changes
    }

    /// Leaves the entries at keys that aren't below this one.
    fn pass(&mut self, key: K)
        requires { IsAntisymmetric K.cmp }
        ensures { self.new ≡ from_key K.cmp key self.old }
    {
        pass_below(&mut self.runs, key);
        self.least = least_of(&self.runs);
    }

    /// The key of the first entry.
    pub fn key(&self) -> Option<K>
        ensures key { result ≡ first_key self.now }
        ensures rising { Rise K.cmp self.now }
    {
        self.least
    }

    /// Takes off the first entry, and answers its value. The key is its own. Takes the time of a few steps for each
    /// run.
    pub fn take(&mut self, key: K) -> Option<&'a V>
        requires exact { IsAntisymmetric K.cmp }
        requires key { first_key self.old ≡ Some key }
        ensures { IsTaken key (option_copied result) self.old self.new }
    {
        let value = found(&self.runs, key);
        take_key(&mut self.runs, key);
        self.least = least_of(&self.runs);
        value
    }
}

/// The entries of the run at this place, and none where there is no run.
fn entries_of<K: Ord + Copy, V: Drop>(runs: &[Rc<EntryRun<K, V>>], place: usize) -> &[Entry<K, V>]
    ensures pairs { run_pairs result ≡ run_at place (values_of runs.now) }
    ensures rising { Rise K.cmp (run_pairs result) }
{
    match runs.get(place) {
        Some(run) => run.entries(),
        None => &[],
    }
}

/// The least key of all runs.
fn least_of<K: Ord + Copy, V: Drop>(runs: &[&[Entry<K, V>]]) -> Option<K>
    requires { AllRise K.cmp (map run_pairs runs.now) }
    ensures { result ≡ first_key (laid K.cmp (map run_pairs runs.now)) }
{
    match runs.split_first() {
        None => None,
        Some((first, behind)) => lower(key_of(first), least_of(behind)),
    }
}

/// The lower one of both keys, where there are two.
fn lower<K: Ord + Copy>(first: Option<K>, second: Option<K>) -> Option<K>
    ensures { result ≡ lower_of K.cmp first second }
{
    match first {
        None => second,
        Some(own) => Some(lower_with(own, second)),
    }
}

/// This key, or the other one, where there is one that isn't above it.
fn lower_with<K: Ord + Copy>(own: K, second: Option<K>) -> K
    ensures { Some result ≡ lower_of K.cmp (Some own) second }
{
    match second {
        None => own,
        Some(other) => lower_key(own, other),
    }
}

/// This key, if it is below the other one, and else that.
fn lower_key<K: Ord + Copy>(own: K, other: K) -> K
    ensures { result ≡ cond (is_lt (K.cmp own other)) own other }
{
    if own.cmp(&other).is_lt() { own } else { other }
}

/// The key of the first entry.
fn key_of<K: Copy, V>(entries: &[Entry<K, V>]) -> Option<K>
    ensures { result ≡ first_key (map pair entries.now) }
{
    Some(entries.first()?.key)
}

/// The value of the first run whose first entry has the key.
fn found<'a, K: Ord + Copy, V: Drop>(runs: &[&'a [Entry<K, V>]], key: K) -> Option<&'a V>
    ensures { option_copied result ≡ first_at K.cmp key (map run_pairs runs.now) }
{
    let (first, behind) = runs.split_first()?;
    match first.first() {
        Some(entry) if entry.key.cmp(&key).is_eq() => Some(&entry.value),
        _ => found(behind, key),
    }
}

/// Takes the key's entry off each run that begins with it.
fn take_key<K: Ord + Copy, V: Drop>(runs: &mut [&[Entry<K, V>]; 8], key: K)
    ensures { map run_pairs runs.new ≡ map (behind_key K.cmp key) (map run_pairs runs.old) }
{
    for at in 0..8 {
        runs[at] = behind(runs[at], key);
    }
}

/// Takes the entries of lower keys off each run.
fn pass_below<K: Ord + Copy, V: Drop>(runs: &mut [&[Entry<K, V>]; 8], key: K)
    requires { AllRise K.cmp (map run_pairs runs.old) }
    ensures { map run_pairs runs.new ≡ map (from_key K.cmp key) (map run_pairs runs.old) }
{
    for at in 0..8 {
        runs[at] = entries_from(runs[at], key);
    }
}

/// The entries of keys that aren't below this one. Takes the time of a search.
fn entries_from<K: Ord + Copy, V: Drop>(entries: &[Entry<K, V>], key: K) -> &[Entry<K, V>]
    requires { Rise K.cmp (map pair entries.now) }
    ensures { map pair result.now ≡ from_key K.cmp key (map pair entries.now) }
{
    let from = count_below(entries, key);
    &entries[from..]
}

/// How many entries of lower keys there are. Takes the time of a search.
fn count_below<K: Ord + Copy, V: Drop>(entries: &[Entry<K, V>], key: K) -> usize
    requires { IsPartitionedBy (λ e. is_lt (K.cmp e.key key)) entries.now }
    ensures point { IsPartitionPoint (λ e. is_lt (K.cmp e.key key) ≡ true) (λ e. is_lt (K.cmp e.key key) ≡ false)
        entries.now result }
    ensures bound { result ≤ length entries.now }
{
    entries.partition_point(|entry| entry.key.cmp(&key).is_lt())
}

/// The entries without the first one, if that has the key.
fn behind<K: Ord + Copy, V: Drop>(entries: &[Entry<K, V>], key: K) -> &[Entry<K, V>]
    ensures { map pair result.now ≡ behind_key K.cmp key (map pair entries.now) }
{
    match entries.split_first() {
        Some((first, behind)) if first.key.cmp(&key).is_eq() => behind,
        _ => entries,
    }
}
