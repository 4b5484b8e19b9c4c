//! Lists that stand in the place of others, in runs that maps share.
ghost use Rattle.std.specs.Prelude.{◌≡◌, ◌++◌, [], ℤ, IfOk, OnOk, Contains, option_copied};
ghost use Rattle.std.specs.FinMap.{IsAntisymmetric, find};
ghost use Rattle.layered_maps.specs.Filters.{IsMarked};
ghost use Rattle.layered_maps.specs.Layers.{values_of};
ghost use Rattle.layered_maps.specs.Lists.{lists_in};

use crate::filter::Marks;
use crate::list_run::ListRun;
use crate::sharing::{shared, stacked, takes_in};
use ordered_lists::{Numbered, Slotted};
use std::alloc::{AllocError, Global};
use std::marker::Model;
use std::rc::Rc;

/// What is put is merged with a run that has at most so many keys and values.
const SMALL: usize = 256;

/// A map from keys to lists of values. It never changes: what puts lists makes another map in its place, which shares
/// with it the runs that weren't merged with them. Behind each run stands one that is more than eight times as
/// large, as of when the former was made, so that there are few, and a list is seldom copied.
#[derive(Drop)]
pub struct ListLayers<K: Ord + Copy + Numbered + Slotted, V: Copy + Drop> {
    /// The lists of a run stand in the place of those behind it.
    runs: Vec<Rc<ListRun<K, V>>>,
    /// At the numbers of all keys.
    marks: Marks,
}

impl<K: Ord + Copy + Numbered + Slotted, V: Copy + Drop> Model for ListLayers<K, V> {
    ghost use Rattle.std.specs.Prelude.{List};
    ghost use Rattle.layered_maps.specs.Filters.{AreMarked};
    ghost use Rattle.layered_maps.specs.Layers.{values_of};
    ghost use Rattle.layered_maps.specs.Lists.{lists_in};

    ghost Value = { List (K × List V) };

    ghost view = { λ r. lists_in (values_of r.runs.items) };

    ghost invariant = { λ r. AreMarked K.cmp K.number (lists_in (values_of r.runs.items)) r.marks };
}

impl<K: Ord + Copy + Numbered + Slotted, V: Copy + Drop> ListLayers<K, V> {
    /// No lists. Takes no memory.
    pub fn new(alloc: Global) -> ListLayers<K, V>
        ensures { result ≡ [] }
    {
        ListLayers {
            runs: Vec::new(alloc),
            marks: Marks::new(),
        }
    }

    /// The list of the key, and None exactly where the key has none. Where it has none this takes one or two tests,
    /// unless its number's slots are marked for other keys; else the time of a search in each run. Takes no memory.
    pub fn get(&self, key: K) -> Option<&[V]>
        requires { IsAntisymmetric K.cmp }
        ensures { option_copied result ≡ find K.cmp key self.now }
    {
        if self.marks.has(Slotted::number(&key)) {
            found(self.runs.as_slice(), key)
        } else {
            None
        }
    }

    /// The same map, shared.
    pub fn share(&self, alloc: Global) -> Result<ListLayers<K, V>, AllocError>
        ensures { IfOk result (λ r. r ≡ self.now) }
    {
        let runs = shared(alloc, self.runs.as_slice())?;
        let marks = self.marks.share()?;
        Ok(ListLayers { runs, marks })
    }

    /// Marks the keys in the filter of this map itself, if no other map shares it, so that `with` copies none for lists
    /// of these keys. The map stays the same.
    pub fn mark(&mut self, alloc: Global, keys: &[K]) -> Result<(), AllocError>
        ensures { self.new ≡ self.old }
    {
        mark(alloc, keys, &mut self.marks)
    }

    /// The later lists, and these at all other keys. Takes the time of a merge of small lists; and in the long run, for
    /// each value that is put, that of eight steps a run.
    pub fn with(&self, alloc: Global, later: ListRun<K, V>) -> Result<ListLayers<K, V>, AllocError>
        requires { IsAntisymmetric K.cmp }
        ensures { IfOk result (λ r. (k : K) → find K.cmp k r ≡ find K.cmp k (later ++ self.now)) }
    {
        let marks = marked(alloc, &self.marks, later.keys())?;
        let runs = over(alloc, later, self.runs.as_slice())?;
        Ok(ListLayers { runs, marks })
    }
}

/// The list of the key in the first run that has one.
fn found<K: Ord + Copy + Numbered, V: Copy + Drop>(
    runs: &[Rc<ListRun<K, V>>],
    key: K,
) -> Option<&[V]>
    requires { IsAntisymmetric K.cmp }
    ensures { option_copied result ≡ find K.cmp key (lists_in (values_of runs.now)) }
{
    for run in runs {
        if let Some(list) = run.get(key) {
            return Some(list);
        }
    }
    None
}

/// The later lists before these runs. They are merged with the first ones, as long as these are small, or not much
/// larger than what they are merged with, or as many as there may be.
fn over<K: Ord + Copy + Numbered, V: Copy + Drop>(
    alloc: Global,
    later: ListRun<K, V>,
    runs: &[Rc<ListRun<K, V>>],
) -> Result<Vec<Rc<ListRun<K, V>>>, AllocError>
    requires { IsAntisymmetric K.cmp }
    ensures { IfOk result (λ l. (k : K)
        → find K.cmp k (lists_in (values_of l.items)) ≡ find K.cmp k (later ++ lists_in (values_of runs.now))) }
{
    match runs.split_first() {
        Some((first, behind)) if takes_in(later.size(), first.size(), SMALL, runs.len()) => {
            let merged = first.with(alloc, &later)?;
            over(alloc, merged, behind)
        }
        _ => stacked(alloc, later.ranged(alloc), runs),
    }
}

/// Marks the numbers of these keys as well.
fn mark<K: Copy + Slotted>(alloc: Global, keys: &[K], marks: &mut Marks) -> Result<(), AllocError>
    ensures { (number : ℤ) → IsMarked marks.old number → IsMarked marks.new number }
{
    for key in keys {
        marks.mark(alloc, key.number())?;
    }
    Ok(())
}

/// These marks, at the numbers of these keys as well.
fn marked<K: Copy + Slotted>(alloc: Global, marks: &Marks, keys: &[K]) -> Result<Marks, AllocError>
    ensures own { IfOk result (λ m. (k : K) → Contains keys.now k → IsMarked m (K.number k)) }
    ensures others { IfOk result (λ m. (number : ℤ) → IsMarked marks.now number → IsMarked m number) }
{
    let mut more = marks.share()?;
    for key in keys {
        more = more.with(alloc, key.number())?;
    }
    Ok(more)
}
