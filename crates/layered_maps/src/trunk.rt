//! Leaves, which lists share in branches.
ghost use Rattle.std.specs.Prelude.{◌≡◌, ◌<◌, ◌++◌, IfOk, OnOk, IsTrue, IsFalse, length, option_copied};
ghost use Rattle.std.specs.Prelude.{slice_get, slice_set};
ghost use Rattle.layered_maps.specs.Layers.{values_of};
ghost use Rattle.layered_maps.specs.PartLists.{IsPutIn};

use crate::chunk::{Chunk, item_at};
use crate::parting::parted;
use crate::sharing::shared;
use ordered_lists::Keyed;
use std::alloc::{AllocError, Global};
use std::marker::Model;
use std::rc::Rc;

/// How many leaves a branch has.
const LEAVES_A_BRANCH: usize = 64;

/// Leaves, which lists may share.
type Branch<V> = Rc<Chunk<Rc<Chunk<V>>>>;

/// Leaves, in branches of so many. Contracts see the list of the leaves, each as the list of its values.
#[derive(Drop)]
pub struct Trunk<V: Drop> {
    branches: Vec<Branch<V>>,
}

impl<V: Drop> Model for Trunk<V> {
    ghost use Rattle.std.specs.Prelude.{List};
    ghost use Rattle.layered_maps.specs.PartLists.{AreFull, joined, leaf_lists};

    ghost Value = { List (List V) };

    ghost view = { λ t. joined (leaf_lists t.branches.items) };

    ghost invariant = { λ t. AreFull 64 (leaf_lists t.branches.items) };
}

impl<V: Drop> Trunk<V> {
    /// These leaves.
    pub fn of(alloc: Global, leaves: Vec<Rc<Chunk<V>>>) -> Result<Trunk<V>, AllocError>
        ensures { IfOk result (λ t. t ≡ values_of leaves.items) }
    {
        let branches = parted(alloc, leaves, LEAVES_A_BRANCH)?;
        Ok(Trunk { branches })
    }

    /// The leaf at the position, and None where there is none.
    pub fn leaf(&self, at: usize) -> Option<&Chunk<V>>
        ensures { option_copied result ≡ slice_get self.now at }
    {
        match item_at(self.branches.as_slice(), at / LEAVES_A_BRANCH) {
            Some(branch) => leaf_of(branch.items(), at % LEAVES_A_BRANCH),
            None => None,
        }
    }

    /// An equal value. Takes a reference count for each branch.
    pub fn share(&self, alloc: Global) -> Result<Trunk<V>, AllocError>
        ensures { IfOk result (λ t. t ≡ self.now) }
    {
        let branches = shared(alloc, self.branches.as_slice())?;
        Ok(Trunk { branches })
    }

    /// Puts the value in the place of the one at this position of this leaf, where nobody else shares the leaf or its
    /// branch, and answers whether it did: else nothing changes. Takes no memory.
    pub fn put(&mut self, leaf: usize, at: usize, value: V) -> bool
        ensures put { IsTrue result → IsPutIn leaf at value self.old self.new }
        ensures none { IsFalse result → self.new ≡ self.old }
    {
        match self.branches.get_mut(leaf / LEAVES_A_BRANCH) {
            Some(branch) => put_in_branch(branch, leaf % LEAVES_A_BRANCH, at, value),
            None => false,
        }
    }
}

/// Sees to it that nobody else shares the leaf at the position, if there is one, nor its branch: where somebody does,
/// this list takes a copy of it. Where no memory is found the list is the same too.
pub fn own_leaf<K, V: Keyed<K>>(
    alloc: Global,
    trunk: &mut Trunk<V>,
    at: usize,
) -> Result<(), AllocError>
    ensures { trunk.new ≡ trunk.old }
{
    match trunk.branches.get_mut(at / LEAVES_A_BRANCH) {
        Some(branch) => own_in_branch::<K, V>(alloc, branch, at % LEAVES_A_BRANCH),
        None => Ok(()),
    }
}

/// The leaf of a branch at the position, and None where there is none.
fn leaf_of<V: Drop>(branch: &[Rc<Chunk<V>>], at: usize) -> Option<&Chunk<V>>
    ensures { option_copied result ≡ slice_get (values_of branch.now) at }
{
    match item_at(branch, at) {
        Some(leaf) => Some(leaf),
        None => None,
    }
}

/// The same of the leaf at a position of this branch.
fn own_in_branch<K, V: Keyed<K>>(
    alloc: Global,
    branch: &mut Branch<V>,
    at: usize,
) -> Result<(), AllocError>
    ensures { values_of branch.new.value ≡ values_of branch.old.value }
{
    if Rc::strong_count(branch) > 1 {
        let leaves = shared(alloc, branch.items())?;
        *branch = Rc::new(alloc, Chunk::of(leaves))?;
    }
    match Rc::get_mut(branch) {
        Some(leaves) => own_among::<K, V>(alloc, leaves, at),
        None => Ok(()),
    }
}

/// The same of the leaf at a position among these.
fn own_among<K, V: Keyed<K>>(
    alloc: Global,
    leaves: &mut Chunk<Rc<Chunk<V>>>,
    at: usize,
) -> Result<(), AllocError>
    ensures { values_of leaves.new ≡ values_of leaves.old }
{
    match leaves.items.get_mut(at) {
        Some(leaf) => own::<K, V>(alloc, leaf),
        None => Ok(()),
    }
}

/// The same of a leaf.
fn own<K, V: Keyed<K>>(alloc: Global, leaf: &mut Rc<Chunk<V>>) -> Result<(), AllocError>
    ensures { leaf.new.value ≡ leaf.old.value }
{
    if Rc::strong_count(leaf) > 1 {
        let values = copies::<K, V>(alloc, leaf.items())?;
        *leaf = Rc::new(alloc, Chunk::of(values))?;
    }
    Ok(())
}

/// Copies of the values.
fn copies<K, V: Keyed<K>>(alloc: Global, values: &[V]) -> Result<Vec<V>, AllocError>
    ensures { IfOk result (λ l. l.items ≡ values.now) }
{
    let mut list = Vec::with_capacity(alloc, values.len())?;
    add_copies::<K, V>(values, &mut list)?;
    Ok(list)
}

/// Adds copies of the values.
fn add_copies<K, V: Keyed<K>>(values: &[V], list: &mut Vec<V>) -> Result<(), AllocError>
    ensures { OnOk result (list.new.items ≡ list.old.items ++ values.now) }
{
    for value in values {
        list.push(value.duplicate()?)?;
    }
    Ok(())
}

/// Puts the value in the place of the one at this position of this leaf of the branch, where nobody else shares either,
/// and answers whether it did.
fn put_in_branch<V: Drop>(branch: &mut Branch<V>, leaf: usize, at: usize, value: V) -> bool
    ensures put { IsTrue result → IsPutIn leaf at value (values_of branch.old.value) (values_of branch.new.value) }
    ensures none { IsFalse result → values_of branch.new.value ≡ values_of branch.old.value }
{
    match Rc::get_mut(branch) {
        Some(leaves) => put_among(leaves, leaf, at, value),
        None => false,
    }
}

/// The same of a leaf among these.
fn put_among<V: Drop>(leaves: &mut Chunk<Rc<Chunk<V>>>, leaf: usize, at: usize, value: V) -> bool
    ensures put { IsTrue result → IsPutIn leaf at value (values_of leaves.old) (values_of leaves.new) }
    ensures none { IsFalse result → values_of leaves.new ≡ values_of leaves.old }
{
    match leaves.items.get_mut(leaf) {
        Some(leaf) => put_in_leaf(leaf, at, value),
        None => false,
    }
}

/// The same of a leaf.
fn put_in_leaf<V: Drop>(leaf: &mut Rc<Chunk<V>>, at: usize, value: V) -> bool
    ensures within { IsTrue result → at < length leaf.old.value }
    ensures put { IsTrue result → leaf.new.value ≡ slice_set leaf.old.value at value }
    ensures none { IsFalse result → leaf.new.value ≡ leaf.old.value }
{
    match Rc::get_mut(leaf) {
        Some(values) => values.put(at, value),
        None => false,
    }
}
