//! Lists of values at keys, which share what they have in common.
ghost use Rattle.std.specs.Prelude.{◌≡◌, ◌↔◌, ◌++◌, [], IfOk, Contains};
ghost use Rattle.std.specs.FinMap.{IsAntisymmetric, find};
ghost use Rattle.ordered_lists.specs.Orders.{Lists};
ghost use Rattle.layered_maps.specs.Lists.{Ascend, Has, floor_list};

use crate::list_layers::ListLayers;
use crate::list_run::ListRun;
use crate::pair_list::PairList;
use ordered_lists::{Numbered, Slotted};
use std::alloc::{AllocError, Global};
use std::marker::Model;
use std::rc::Rc;

/// Keys with values. Contracts see the pairs as they were made, the floor, and the lists that stand in their place at
/// the keys where something has changed since. The floor never changes: lists change their length, and come into it
/// only where it is made anew.
#[derive(Drop)]
pub struct LayeredLists<K: Ord + Copy + Numbered + Slotted, V: Ord + Copy + Drop> {
    alloc: Global,
    floor: Option<Rc<PairList<K, V>>>,
    layers: ListLayers<K, V>,
}

impl<K: Ord + Copy + Numbered + Slotted, V: Ord + Copy + Drop> Model for LayeredLists<K, V> {
    ghost use Rattle.layered_maps.specs.Lists.{Held, Ascend, floor_list};

    ghost Value = { Held K V };

    ghost view = { λ l. (floor_list l.floor, l.layers) };

    ghost invariant = { λ l. Ascend K.cmp V.cmp l.layers };
}

impl<K: Ord + Copy + Numbered + Slotted, V: Ord + Copy + Drop> LayeredLists<K, V> {
    /// No values. Takes no memory.
    pub fn new(alloc: Global) -> LayeredLists<K, V>
        ensures { result ≡ ([], []) }
    {
        LayeredLists {
            alloc,
            floor: None,
            layers: ListLayers::new(alloc),
        }
    }

    /// The pairs, each once. Takes the time of a sort, and about two bytes a pair for the ranges of the keys.
    pub fn of(alloc: Global, pairs: Vec<(K, V)>) -> Result<LayeredLists<K, V>, AllocError>
        requires keys { IsAntisymmetric K.cmp }
        requires values { IsAntisymmetric V.cmp }
        ensures { IfOk result (λ i. (k : K) (v : V) → Has K.cmp i k v ↔ Contains pairs.items (k, v)) }
    {
        let list = PairList::of(alloc, pairs)?;
        let floor = Rc::new(alloc, list)?;
        let layers = ListLayers::new(alloc);
        Ok(LayeredLists {
            alloc,
            floor: Some(floor),
            layers,
        })
    }

    /// The values of a key, ascending. Takes a test or two where nothing has changed at the key, and a search; no
    /// memory.
    pub fn at(&self, key: K) -> &[V]
        requires { IsAntisymmetric K.cmp }
        ensures { Lists (λ v. v) V.cmp (λ v. Has K.cmp self.now key v) result.now }
    {
        match self.layers.get(key) {
            Some(values) => values,
            None => values_in(&self.floor, key),
        }
    }

    /// An equal value, which shares all with this one. Takes some reference counts, and a list of at most eight.
    pub fn share(&self) -> Result<LayeredLists<K, V>, AllocError>
        ensures { IfOk result (λ i. i ≡ self.now) }
    {
        let floor = shared_floor(&self.floor)?;
        let layers = self.layers.share(self.alloc)?;
        Ok(LayeredLists {
            alloc: self.alloc,
            floor,
            layers,
        })
    }

    /// With these lists in the place of those of their keys, which are marked here first. This value stays the same.
    /// Takes the time of a merge of small lists; and in the long run, for each value that is put, that of eight steps a
    /// layer.
    pub fn with(&mut self, lists: ListRun<K, V>) -> Result<LayeredLists<K, V>, AllocError>
        requires keys { IsAntisymmetric K.cmp }
        requires ascend { Ascend K.cmp V.cmp lists }
        ensures same { self.new ≡ self.old }
        ensures floor { IfOk result (λ i. i.0 ≡ self.old.0) }
        ensures lists { IfOk result (λ i. (k : K) → find K.cmp k i.1 ≡ find K.cmp k (lists ++ self.old.1)) }
    {
        if lists.len() == 0 {
            return self.share();
        }
        self.layers.mark(self.alloc, lists.keys())?;
        let floor = shared_floor(&self.floor)?;
        let layers = self.layers.with(self.alloc, lists)?;
        Ok(LayeredLists {
            alloc: self.alloc,
            floor,
            layers,
        })
    }
}

/// The values of a key in the floor, ascending.
fn values_in<K: Ord + Copy + Numbered, V: Ord + Copy + Drop>(
    floor: &Option<Rc<PairList<K, V>>>,
    key: K,
) -> &[V]
    requires { IsAntisymmetric K.cmp }
    ensures { Lists (λ v. v) V.cmp (λ v. Contains (floor_list floor.now) (key, v)) result.now }
{
    match floor {
        None => &[],
        Some(floor) => floor.at(key),
    }
}

/// The same floor, shared.
fn shared_floor<K: Ord + Copy + Numbered, V: Ord + Copy + Drop>(
    floor: &Option<Rc<PairList<K, V>>>,
) -> Result<Option<Rc<PairList<K, V>>>, AllocError>
    ensures { IfOk result (λ f. floor_list f ≡ floor_list floor.now) }
{
    match floor {
        None => Ok(None),
        Some(floor) => Ok(Some(floor.clone()?)),
    }
}
