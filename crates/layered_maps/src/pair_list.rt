//! Pairs of a key and a value that never change, in which the values of a key lie side by side.
ghost use Rattle.std.specs.Prelude.{◌≡◌, ◌↔◌, ◌<◌, ◌≤◌, ◌-◌, true, false, IfOk, IsTrue, Contains, length, map};
ghost use Rattle.std.specs.Prelude.{take, drop, slice_index_or};
ghost use Rattle.std.specs.List.{AllWithin};
ghost use Rattle.std.specs.List.Sorted.{IsPartitionedBy, IsPartitionPoint};
ghost use Rattle.std.specs.Ordering.{is_le, is_lt};
ghost use Rattle.std.specs.FinMap.{IsAntisymmetric};
ghost use Rattle.ordered_lists.specs.Orders.{Lists, rises};
ghost use Rattle.layered_maps.specs.Lists.{pair_cmp};

use ordered_lists::{Numbered, Ranges};
use std::alloc::{AllocError, Global};
use std::marker::Model;

/// Pairs, ascending by key and then by value, none of them twice. The ranges of the keys' numbers tell where a search
/// begins, if anything: they are no part of what the pairs are.
#[derive(Drop)]
pub struct PairList<K: Ord + Copy + Numbered, V: Ord + Copy> {
    keys: Vec<K>,
    values: Vec<V>,
    ranges: Ranges,
}

impl<K: Ord + Copy + Numbered, V: Ord + Copy> Model for PairList<K, V> {
    ghost use Rattle.std.specs.Prelude.{◌≡◌, List, length, IsTrue};
    ghost use Rattle.std.specs.List.{zip};
    ghost use Rattle.ordered_lists.specs.Orders.{rises};
    ghost use Rattle.layered_maps.specs.Lists.{pair_cmp};

    ghost Value = { List (K × V) };

    ghost view = { λ i. zip i.keys.items i.values.items };

    ghost invariant = { λ i. (length i.values.items ≡ length i.keys.items)
        × IsTrue (rises (pair_cmp K.cmp V.cmp) (zip i.keys.items i.values.items)) };
}

impl<K: Ord + Copy + Numbered, V: Ord + Copy> PairList<K, V> {
    /// The pairs, each once.
    pub fn of(alloc: Global, pairs: Vec<(K, V)>) -> Result<PairList<K, V>, AllocError>
        requires keys { IsAntisymmetric K.cmp }
        requires values { IsAntisymmetric V.cmp }
        ensures { IfOk result (λ i. (p : K × V) → Contains i p ↔ Contains pairs.items p) }
    {
        let mut pairs = pairs;
        put_in_order(&mut pairs);
        let keys = firsts(alloc, pairs.as_slice())?;
        let values = seconds(alloc, pairs.as_slice())?;
        let ranges = Ranges::of(alloc, keys.as_slice());
        Ok(PairList {
            keys,
            values,
            ranges,
        })
    }

    /// The values of a key, ascending. Takes the time of a search, and of the values.
    pub fn at(&self, key: K) -> &[V]
        requires { IsAntisymmetric K.cmp }
        ensures { Lists (λ v. v) V.cmp (λ v. Contains self.now (key, v)) result.now }
    {
        let keys = self.keys.as_slice();
        let low = first_near(keys, key, self.ranges.place(keys, key.number()));
        let high = end_from(keys, low, key);
        part(self.values.as_slice(), low, high)
    }
}

/// The first position at which a key stands that isn't below this one.
fn first_from<K: Ord + Copy>(keys: &[K], key: K) -> usize
    requires { IsPartitionedBy (λ a. is_lt (K.cmp a key)) keys.now }
    ensures point { IsPartitionPoint (λ a. is_lt (K.cmp a key) ≡ true) (λ a. is_lt (K.cmp a key) ≡ false) keys.now
        result }
    ensures bound { result ≤ length keys.now }
{
    keys.partition_point(|other| other.cmp(&key).is_lt())
}

/// The first position at which a key stands that isn't below this one. Where it is the one given, the keys around it
/// show so, and no search is made.
pub fn first_near<K: Ord + Copy>(keys: &[K], key: K, at: usize) -> usize
    requires parted { IsPartitionedBy (λ a. is_lt (K.cmp a key)) keys.now }
    requires at { at ≤ length keys.now }
    ensures point { IsPartitionPoint (λ a. is_lt (K.cmp a key) ≡ true) (λ a. is_lt (K.cmp a key) ≡ false) keys.now
        result }
    ensures bound { result ≤ length keys.now }
{
    if ends_below(keys, at, key) && !is_below(keys, at, key) {
        at
    } else {
        first_from(keys, key)
    }
}

/// Whether the last of the first keys, of which there are so many, is below this one. True where there are none.
fn ends_below<K: Ord + Copy>(keys: &[K], count: usize, key: K) -> bool
    requires count { count ≤ length keys.now }
    requires parted { IsPartitionedBy (λ a. is_lt (K.cmp a key)) keys.now }
    ensures { IsTrue result → AllWithin (λ a. is_lt (K.cmp a key) ≡ true) keys.now 0 count }
{
    count == 0 || is_below(keys, count - 1, key)
}

/// Whether there is a key at the position, and it is below this one.
fn is_below<K: Ord + Copy>(keys: &[K], at: usize, key: K) -> bool
    ensures within { IsTrue result → at < length keys.now }
    ensures below { (d : K) → at < length keys.now → result ≡ is_lt (K.cmp (slice_index_or keys.now at d) key) }
{
    at < keys.len() && keys[at].cmp(&key).is_lt()
}

/// Each pair once, ascending.
fn put_in_order<K: Ord + Copy, V: Ord + Copy>(pairs: &mut Vec<(K, V)>)
    requires keys { IsAntisymmetric K.cmp }
    requires values { IsAntisymmetric V.cmp }
    ensures ascending { IsTrue (rises (pair_cmp K.cmp V.cmp) pairs.new.items) }
    ensures exactly { (p : K × V) → Contains pairs.new.items p ↔ Contains pairs.old.items p }
{
    pairs.sort_unstable();
    pairs.dedup();
}

/// The first position from `low` on at which a key above this one stands. The keys of one node or way lie side by
/// side and most often are few, so they are gone through.
fn end_from<K: Ord + Copy>(keys: &[K], low: usize, key: K) -> usize
    requires { low ≤ length keys.now }
    ensures from { low ≤ result }
    ensures bound { result ≤ length keys.now }
    ensures upto { AllWithin (λ a. is_le (K.cmp a key) ≡ true) keys.now low result }
    ensures next { (d : K) → result < length keys.now → is_le (K.cmp (slice_index_or keys.now result d) key) ≡ false }
{
    for at in low..keys.len() {
        if !keys[at].cmp(&key).is_le() {
            return at;
        }
    }
    keys.len()
}

fn firsts<K: Copy, V: Copy>(alloc: Global, pairs: &[(K, V)]) -> Result<Vec<K>, AllocError>
    ensures { IfOk result (λ v. v.items ≡ map (λ p. p.0) pairs.now) }
{
    pairs.iter().map(|pair| pair.0).collect(alloc)
}

fn seconds<K: Copy, V: Copy>(alloc: Global, pairs: &[(K, V)]) -> Result<Vec<V>, AllocError>
    ensures { IfOk result (λ v. v.items ≡ map (λ p. p.1) pairs.now) }
{
    pairs.iter().map(|pair| pair.1).collect(alloc)
}

fn part<V>(values: &[V], low: usize, high: usize) -> &[V]
    requires rising { low ≤ high }
    requires within { high ≤ length values.now }
    ensures { result.now ≡ take (high - low) (drop low values.now) }
{
    &values[low..high]
}
