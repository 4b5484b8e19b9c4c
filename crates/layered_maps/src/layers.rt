//! Entries that stand over others, in runs that maps share.
ghost use Rattle.std.specs.Prelude.{◌≡◌, ◌<◌, ◌≤◌, ◌∷◌, [], IfOk, length, option_copied};
ghost use Rattle.std.specs.FinMap.{find};
ghost use Rattle.layered_maps.specs.Filters.{AreMarked};
ghost use Rattle.layered_maps.specs.Layers.{laid, put_all, values_of};

use crate::entry_run::EntryRun;
use crate::filter::Marks;
use crate::sharing::{shared, stacked, takes_in};
use ordered_lists::Slotted;
use std::alloc::{AllocError, Global};
use std::marker::Model;
use std::rc::Rc;

/// What is put is merged with a run of at most so many entries.
const SMALL: usize = 64;
/// The filter is made anew where so many keys are marked beside those of the entries,
const FEW: usize = 2_048;
/// and where there are many entries, such a share of their number.
const SHARE: usize = 8;

/// A map from keys to values. It never changes: what puts entries makes another map in its place, which shares with it
/// the runs that weren't merged with them. Behind each run stands one that is more than eight times as large, as of
/// when the former was made, so that there are few, at most eight, and an entry is seldom copied. A filter of 128 KiB,
/// by which the map tells most keys that it doesn't have, is shared by the maps of which one was made from the other:
/// it is copied where an entry is put whose key isn't marked in it.
#[derive(Drop)]
pub struct Layers<K: Ord + Copy + Slotted, V: Drop> {
    /// The entries of a run stand in the place of those behind it.
    runs: Vec<Rc<EntryRun<K, V>>>,
    /// At the numbers of the keys.
    marks: Marks,
}

impl<K: Ord + Copy + Slotted, V: Drop> Model for Layers<K, V> {
    ghost use Rattle.std.specs.Prelude.{List, length, ◌≤◌};
    ghost use Rattle.layered_maps.specs.Layers.{laid, values_of};
    ghost use Rattle.layered_maps.specs.Filters.{AreMarked};

    ghost Value = { List (K × V) };

    ghost view = { λ m. laid K.cmp (values_of m.runs.items) };

    ghost invariant = { λ m. AreMarked K.cmp K.number (laid K.cmp (values_of m.runs.items)) m.marks
        × (length m.runs.items ≤ 8) };
}

impl<K: Ord + Copy + Slotted, V: Drop> Layers<K, V> {
    ghost use Rattle.layered_maps.specs.Layers.{Rise};

    /// No entries. Takes no memory.
    pub fn new(alloc: Global) -> Layers<K, V>
        ensures { result ≡ [] }
    {
        Layers {
            runs: Vec::new(alloc),
            marks: Marks::new(),
        }
    }

    /// The runs, at most eight: the entries of each stand in the place of those behind it.
    pub fn runs(&self) -> &[Rc<EntryRun<K, V>>]
        ensures laid { laid K.cmp (values_of result.now) ≡ self.now }
        ensures few { length result.now ≤ 8 }
        ensures rising { Rise K.cmp self.now }
    {
        self.runs.as_slice()
    }

    /// How many entries the runs have.
    pub fn len(&self) -> usize {
        count(self.runs.as_slice())
    }

    /// All entries in one run, of each key the first one. Takes the time of a merge of all runs, the last ones first.
    pub fn merged(&self, alloc: Global) -> Result<EntryRun<K, V>, AllocError>
        ensures entries { IfOk result (λ r. r ≡ self.now) }
        ensures rising { IfOk result (λ r. Rise K.cmp self.now) }
    {
        all_of(alloc, self.runs.as_slice())
    }

    /// The value of the key, and None exactly where the key has none. Where it has none this takes one or two tests,
    /// unless both slots of its number are marked for other keys; else the time of a search in each run. Takes no
    /// memory.
    pub fn get(&self, key: K) -> Option<&V>
        ensures { option_copied result ≡ find K.cmp key self.now }
    {
        if self.marks.has(key.number()) {
            found(self.runs.as_slice(), key)
        } else {
            None
        }
    }

    /// Marks the key in the filter of this map itself, if no other map shares it: maps that are made of this one then
    /// share it also where they have an entry of the key. The map stays the same.
    pub fn mark(&mut self, alloc: Global, key: K) -> Result<(), AllocError>
        ensures { self.new ≡ self.old }
    {
        self.marks.mark(alloc, key.number())
    }

    /// Makes the filter anew, of the keys of the entries alone, where many others are marked in it. The map stays the
    /// same. Takes the time of a run over the entries, in the long run that of a few steps for each key that is marked.
    pub fn clean(&mut self, alloc: Global) -> Result<(), AllocError>
        ensures { self.new ≡ self.old }
    {
        let entries = self.len();
        let others = self.marks.count().saturating_sub(entries);
        if others > FEW.max(entries / SHARE) {
            self.marks = marked(alloc, self.runs.as_slice())?;
        }
        Ok(())
    }

    /// The same map, shared. Takes a list of at most eight reference counts.
    pub fn share(&self, alloc: Global) -> Result<Layers<K, V>, AllocError>
        ensures { IfOk result (λ m. m ≡ self.now) }
    {
        let runs = shared(alloc, self.runs.as_slice())?;
        let marks = self.marks.share()?;
        Ok(Layers { runs, marks })
    }

    /// The later entries, and these at all other keys. Takes the time of a merge of small runs; and in the long run,
    /// for each entry that is put, that of eight steps a run.
    pub fn with(&self, alloc: Global, later: EntryRun<K, V>) -> Result<Layers<K, V>, AllocError>
        ensures { IfOk result (λ m. m ≡ put_all K.cmp later self.now) }
    {
        if later.len() == 0 {
            return self.share(alloc);
        }
        let marks = later.marked(alloc, self.marks.share()?)?;
        let runs = over(alloc, later, self.runs.as_slice())?;
        Ok(Layers { runs, marks })
    }
}

/// How many entries the runs have.
fn count<K: Ord + Copy, V: Drop>(runs: &[Rc<EntryRun<K, V>>]) -> usize {
    let mut all: usize = 0;
    for run in runs {
        all = all.saturating_add(run.len());
    }
    all
}

/// The entries of these runs in one.
fn all_of<K: Ord + Copy, V: Drop>(
    alloc: Global,
    runs: &[Rc<EntryRun<K, V>>],
) -> Result<EntryRun<K, V>, AllocError>
    ensures { IfOk result (λ r. r ≡ laid K.cmp (values_of runs.now)) }
{
    match runs.split_first() {
        None => Ok(EntryRun::of(Vec::new(alloc))),
        Some((first, behind)) => first.merged(alloc, &all_of(alloc, behind)?),
    }
}

/// Marks at the numbers of the keys of all runs.
fn marked<K: Ord + Copy + Slotted, V: Drop>(
    alloc: Global,
    runs: &[Rc<EntryRun<K, V>>],
) -> Result<Marks, AllocError>
    ensures { IfOk result (λ m. AreMarked K.cmp K.number (laid K.cmp (values_of runs.now)) m) }
{
    match runs.split_first() {
        None => Ok(Marks::new()),
        Some((first, behind)) => first.marked(alloc, marked(alloc, behind)?),
    }
}

/// The value of the key in the first run that has one.
fn found<K: Ord + Copy, V: Drop>(runs: &[Rc<EntryRun<K, V>>], key: K) -> Option<&V>
    ensures { option_copied result ≡ find K.cmp key (laid K.cmp (values_of runs.now)) }
{
    match runs.split_first() {
        None => None,
        Some((first, behind)) => match first.get(key) {
            Some(value) => Some(value),
            None => found(behind, key),
        },
    }
}

/// The later entries before these runs. They are merged with the first ones, as long as these are small, or not much
/// larger than what they are merged with, or as many as there may be.
fn over<K: Ord + Copy, V: Drop>(
    alloc: Global,
    later: EntryRun<K, V>,
    runs: &[Rc<EntryRun<K, V>>],
) -> Result<Vec<Rc<EntryRun<K, V>>>, AllocError>
    requires { length runs.now ≤ 8 }
    ensures laid { IfOk result (λ l. laid K.cmp (values_of l.items)
        ≡ put_all K.cmp later (laid K.cmp (values_of runs.now))) }
    ensures few { IfOk result (λ l. length l.items ≤ 8) }
{
    match runs.split_first() {
        Some((first, behind)) if takes_in(later.len(), first.len(), SMALL, runs.len()) => {
            let merged = later.merged(alloc, first)?;
            over(alloc, merged, behind)
        }
        _ => stacked(alloc, later, runs),
    }
}
