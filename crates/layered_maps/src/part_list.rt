//! Lists of values in parts, of which those that are the same are shared.
ghost use Rattle.std.specs.Prelude.{◌≡◌, ◌<◌, ◌+◌, ℕ, Some, IfOk, IsTrue, IsFalse, length};
ghost use Rattle.std.specs.Prelude.{option_copied, slice_get, slice_set};

use crate::chunk::{item_at, tail};
use crate::parting::parted;
use crate::trunk::{Trunk, own_leaf};
use ordered_lists::Keyed;
use std::alloc::{AllocError, Global};
use std::marker::Model;

/// A list is long above so many values.
const LONG: usize = 1_048_576;

/// How many values a leaf of a long list has: it takes some 70 bytes beside them.
const LARGE_LEAF: usize = 32;

/// How many one of another list has: where somebody else shares it, a change of one value copies so many.
const SMALL_LEAF: usize = 4;

/// Values in leaves of the same size, which stand in branches. Contracts see the list of the values. Lists that were
/// made of one another share the leaves and branches that are the same.
#[derive(Drop)]
pub struct PartList<V: Drop> {
    leaves: Trunk<V>,
    /// How many values each leaf has, but the last one, which may have fewer.
    size: usize,
    len: usize,
}

impl<V: Drop> Model for PartList<V> {
    ghost use Rattle.std.specs.Prelude.{◌≡◌, ◌<◌, List, length};
    ghost use Rattle.layered_maps.specs.PartLists.{AreFull, joined};

    ghost Value = { List V };

    ghost view = { λ l. joined l.leaves };

    ghost invariant = { λ l. (0 < l.size) × AreFull l.size l.leaves × (l.len ≡ length (joined l.leaves)) };
}

impl<V: Drop> PartList<V> {
    /// These values. They are moved, not copied.
    pub fn of(alloc: Global, list: Vec<V>) -> Result<PartList<V>, AllocError>
        ensures { IfOk result (λ l. l ≡ list.items) }
    {
        let len = list.len();
        let size = leaf_size(len);
        let parts = parted(alloc, list, size)?;
        let leaves = Trunk::of(alloc, parts)?;
        Ok(PartList { leaves, size, len })
    }

    /// How many values there are.
    pub fn len(&self) -> usize
        ensures { result ≡ length self.now }
    {
        self.len
    }

    /// The value at the position, and None where there is none.
    pub fn get(&self, at: usize) -> Option<&V>
        ensures { option_copied result ≡ slice_get self.now at }
    {
        match self.leaves.leaf(at / self.size) {
            Some(leaf) => item_at(leaf.items(), at % self.size),
            None => None,
        }
    }

    /// Values from the position on, which lie side by side: those of its leaf.
    pub fn run(&self, at: usize) -> &[V]
        ensures { (k : ℕ) (x : V) → slice_get result.now k ≡ Some x → slice_get self.now (at + k) ≡ Some x }
    {
        match self.leaves.leaf(at / self.size) {
            Some(leaf) => tail(leaf.items(), at % self.size),
            None => &[],
        }
    }

    /// An equal value. Takes a reference count for each branch.
    pub fn share(&self, alloc: Global) -> Result<PartList<V>, AllocError>
        ensures { IfOk result (λ l. l ≡ self.now) }
    {
        let leaves = self.leaves.share(alloc)?;
        Ok(PartList {
            leaves,
            size: self.size,
            len: self.len,
        })
    }

    /// Puts the value in the place of the one at this position, where nobody else shares its leaf or its branch, and
    /// answers whether it did: else nothing changes. Takes no memory.
    pub fn put(&mut self, at: usize, value: V) -> bool
        ensures put { IsTrue result → self.new ≡ slice_set self.old at value }
        ensures none { IsFalse result → self.new ≡ self.old }
    {
        self.leaves.put(at / self.size, at % self.size, value)
    }
}

/// Sees to it that nobody else shares the leaf of the position, if there is one, nor its branch: where somebody does,
/// this list takes a copy of it, of the leaf with copies of its values. Where no memory is found the list is the same
/// too.
pub fn own_at<K, V: Keyed<K>>(
    alloc: Global,
    list: &mut PartList<V>,
    at: usize,
) -> Result<(), AllocError>
    ensures { list.new ≡ list.old }
{
    let leaf = at / list.size;
    own_leaf::<K, V>(alloc, &mut list.leaves, leaf)
}

/// How many values a leaf has in a list of so many.
fn leaf_size(len: usize) -> usize
    ensures { 0 < result }
{
    if len > LONG { LARGE_LEAF } else { SMALL_LEAF }
}
