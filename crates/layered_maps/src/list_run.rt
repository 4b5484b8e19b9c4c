//! Lists of values, each at a key, side by side in memory.
ghost use Rattle.std.specs.Prelude.{◌≡◌, ◌↔◌, ◌⊎◌, ◌++◌, ◌∷◌, [], List, IfOk, OnOk, IsTrue, Contains, length, map};
ghost use Rattle.std.specs.Prelude.{option_copied};
ghost use Rattle.std.specs.FinMap.{IsAntisymmetric, find};
ghost use Rattle.std.specs.declared.cmp.Ordering.TheVariants.{Less};
ghost use Rattle.ordered_lists.specs.Orders.{rises};
ghost use Rattle.layered_maps.specs.Lists.{list_or_none};

use crate::pair_list::first_near;
use ordered_lists::{Groups, Numbered, Ranges};
use std::alloc::{AllocError, Global};
use std::marker::Model;

/// Lists of values, each at its key. Contracts see the keys with their lists, ascending. The ranges of the keys'
/// numbers tell where a search begins, if anything: they are no part of what the lists are.
#[derive(Drop)]
pub struct ListRun<K: Ord + Copy + Numbered, V: Copy + Drop> {
    /// Each once, ascending.
    keys: Vec<K>,
    /// One for each key.
    lists: Groups<V>,
    ranges: Ranges,
}

impl<K: Ord + Copy + Numbered, V: Copy + Drop> Model for ListRun<K, V> {
    ghost use Rattle.std.specs.Prelude.{◌≡◌, List, length, IsTrue};
    ghost use Rattle.std.specs.List.{zip};
    ghost use Rattle.ordered_lists.specs.Orders.{rises};

    ghost Value = { List (K × List V) };

    ghost view = { λ l. zip l.keys.items l.lists };

    ghost invariant = { λ l. (length l.lists ≡ length l.keys.items) × IsTrue (rises K.cmp l.keys.items) };
}

impl<K: Ord + Copy + Numbered, V: Copy + Drop> ListRun<K, V> {
    /// No lists. Takes no memory.
    pub fn new(alloc: Global) -> ListRun<K, V>
        ensures { result ≡ [] }
    {
        ListRun {
            keys: Vec::new(alloc),
            lists: Groups::new(alloc),
            ranges: Ranges::new(alloc),
        }
    }

    /// The same lists, with the ranges of their keys. Takes the time of one run over these.
    pub fn ranged(self, alloc: Global) -> ListRun<K, V>
        ensures { result ≡ self }
    {
        let ListRun { keys, lists, .. } = self;
        let ranges = Ranges::of(alloc, keys.as_slice());
        ListRun {
            keys,
            lists,
            ranges,
        }
    }

    /// How many lists there are.
    pub fn len(&self) -> usize
        ensures { result ≡ length self.now }
    {
        self.keys.len()
    }

    /// How many keys and values there are.
    pub fn size(&self) -> usize {
        self.keys.len().saturating_add(self.lists.items().len())
    }

    /// The keys, ascending.
    pub fn keys(&self) -> &[K]
        ensures { result.now ≡ map (λ p. p.0) self.now }
    {
        self.keys.as_slice()
    }

    /// The list of the key, and None exactly where it has none. Takes the time of a search: a few steps of it where the
    /// ranges were found, and the keys' numbers are spread evenly.
    pub fn get(&self, key: K) -> Option<&[V]>
        requires { IsAntisymmetric K.cmp }
        ensures { option_copied result ≡ find K.cmp key self.now }
    {
        let at = self.ranges.place(self.keys.as_slice(), key.number());
        self.get_near(key, at)
    }

    /// The same. Where the first key that isn't below this one stands at this place, no search is made.
    fn get_near(&self, key: K, at: usize) -> Option<&[V]>
        requires { IsAntisymmetric K.cmp }
        ensures { option_copied result ≡ find K.cmp key self.now }
    {
        let keys = self.keys.as_slice();
        let place = first_near(keys, key, at.min(keys.len()));
        if place < keys.len() && keys[place].cmp(&key).is_eq() {
            Some(self.lists.at(place))
        } else {
            None
        }
    }

    /// Adds a list, at a key above all others.
    pub fn push(&mut self, key: K, list: &[V]) -> Result<(), AllocError>
        requires { (p : K × List V) → Contains self.old p → K.cmp p.0 key ≡ Less }
        ensures { OnOk result (self.new ≡ self.old ++ (key, list.now) ∷ []) }
    {
        let before = self.keys.len();
        self.keys.push(key)?;
        match self.lists.push(list) {
            Ok(()) => Ok(()),
            Err(_) => {
                self.keys.truncate(before);
                Err(AllocError)
            }
        }
    }

    /// The later lists, and these at all other keys, without ranges. Takes the time of a merge.
    pub fn with(&self, alloc: Global, later: &ListRun<K, V>) -> Result<ListRun<K, V>, AllocError>
        requires { IsAntisymmetric K.cmp }
        ensures { IfOk result (λ l. (k : K) → find K.cmp k l ≡ find K.cmp k (later.now ++ self.now)) }
    {
        let keys = merged(alloc, self.keys.as_slice(), later.keys.as_slice())?;
        let lists = self.merged_lists(alloc, later, keys.as_slice())?;
        Ok(ListRun {
            keys,
            lists,
            ranges: Ranges::new(alloc),
        })
    }

    /// For each of the keys its list: the later one, if there is one.
    fn merged_lists(
        &self,
        alloc: Global,
        later: &ListRun<K, V>,
        keys: &[K],
    ) -> Result<Groups<V>, AllocError>
        requires { IsAntisymmetric K.cmp }
        ensures { IfOk result (λ l. l ≡ map (λ k. list_or_none (find K.cmp k (later.now ++ self.now))) keys.now) }
    {
        let values = self
            .lists
            .items()
            .len()
            .saturating_add(later.lists.items().len());
        let mut lists = Groups::with_capacity(alloc, keys.len(), values)?;
        let mut own = 0;
        let mut come = 0;
        for key in keys {
            own = self.next_near(*key, own);
            come = later.next_near(*key, come);
            lists.push(self.newest(later, *key, own, come))?;
        }
        Ok(lists)
    }

    /// The place behind this one, if the key there is below this one.
    fn next_near(&self, key: K, at: usize) -> usize {
        match self.keys.as_slice().get(at) {
            Some(other) if other.cmp(&key).is_lt() => at.saturating_add(1),
            _ => at,
        }
    }

    /// The list of the key, the later one, if there is one; and no values where there is none. It is looked for at
    /// these places first.
    fn newest<'a>(&'a self, later: &'a ListRun<K, V>, key: K, own: usize, come: usize) -> &'a [V]
        requires { IsAntisymmetric K.cmp }
        ensures { result.now ≡ list_or_none (find K.cmp key (later.now ++ self.now)) }
    {
        match later.get_near(key, come) {
            Some(list) => list,
            None => match self.get_near(key, own) {
                Some(list) => list,
                None => &[],
            },
        }
    }
}

/// The keys of both lists, each once, ascending. Both ascend, so that this takes the time of their merge.
fn merged<K: Ord + Copy>(alloc: Global, first: &[K], second: &[K]) -> Result<Vec<K>, AllocError>
    requires { IsAntisymmetric K.cmp }
    ensures ascending { IfOk result (λ r. IsTrue (rises K.cmp r.items)) }
    ensures exactly { IfOk result (λ r. (k : K) → Contains r.items k ↔ (Contains first.now k ⊎ Contains second.now k)) }
{
    let mut keys = Vec::with_capacity(alloc, first.len().saturating_add(second.len()))?;
    keys.extend_from_slice(first)?;
    keys.extend_from_slice(second)?;
    keys.sort()?;
    keys.dedup();
    Ok(keys)
}
