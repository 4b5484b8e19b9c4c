//! Maps that are lent.
ghost use Rattle.std.specs.Prelude.{◌≡◌, IfSome, IsTrue, map, option_copied};
ghost use Rattle.std.specs.FinMap.{IsAntisymmetric, find};
ghost use Rattle.ordered_lists.specs.Orders.{rises};
ghost use Rattle.layered_maps.specs.Maps.{AreKeyed, from_key, keyed, layer_pairs, over};

use crate::changes::Changes;
use crate::items::Items;
use crate::keyed_search::{all_values, value_between, values_from};
use crate::layers::Layers;
use crate::places::KeyPlaces;
use crate::walk::Walk;
use ordered_lists::{Keyed, Kinded, Slotted};
use std::marker::Model;

/// A map, lent: the list of its floor, and what lies over that. Contracts see the pairs of keys and values, ascending.
/// Where the keys of the list may stand is no part of what the map is.
#[derive(Drop)]
pub struct View<'a, K: Ord + Copy + Slotted + Kinded, V: Keyed<K>> {
    items: Items<'a, V>,
    places: Option<&'a KeyPlaces>,
    layers: Option<&'a Layers<K, Option<V>>>,
}

impl<'a, K: Ord + Copy + Slotted + Kinded, V: Keyed<K>> Model for View<'a, K, V> {
    ghost use Rattle.std.specs.Prelude.{List, IsTrue, map, option_copied};
    ghost use Rattle.ordered_lists.specs.Orders.{rises};
    ghost use Rattle.layered_maps.specs.Maps.{AreKeyed, keyed, layer_pairs, over};

    ghost Value = { List (K × V) };

    ghost view = { λ v. over K.cmp (layer_pairs (option_copied v.layers)) (map (keyed V.key) v.items) };

    ghost invariant = { λ v. IsTrue (rises K.cmp (map V.key v.items))
        × AreKeyed V.key K.cmp (layer_pairs (option_copied v.layers)) };
}

impl<'a, K: Ord + Copy + Slotted + Kinded, V: Keyed<K>> View<'a, K, V> {
    /// The map of a list in which the keys rise.
    pub fn of_list(list: &'a [V]) -> View<'a, K, V>
        requires { IsTrue (rises K.cmp (map V.key list.now)) }
        ensures { result ≡ map (keyed V.key) list.now }
    {
        View {
            items: Items::of_slice(list),
            places: None,
            layers: None,
        }
    }

    /// These layers over a list in which the keys rise, with where they may stand in it.
    pub(crate) fn over(
        items: Items<'a, V>,
        places: Option<&'a KeyPlaces>,
        layers: &'a Layers<K, Option<V>>,
    ) -> View<'a, K, V>
        requires ascending { IsTrue (rises K.cmp (map V.key items)) }
        requires keyed { AreKeyed V.key K.cmp layers.now }
        ensures { result ≡ over K.cmp layers.now (map (keyed V.key) items.entry) }
    {
        View {
            items,
            places,
            layers: Some(layers),
        }
    }

    /// The value of the key, and None exactly where the key has none. Takes no memory.
    pub fn get(&self, key: K) -> Option<&'a V>
        requires { IsAntisymmetric K.cmp }
        ensures value { option_copied result ≡ find K.cmp key self.now }
        ensures key { IfSome (option_copied result) (λ v. V.key v ≡ key) }
    {
        match changed_in(self.layers, key) {
            Some(change) => standing(change),
            None => value_between(
                &self.items,
                key,
                Slotted::number(&key),
                part_of(self.places, key),
            ),
        }
    }

    /// How many values there are, nearly: those of the floor. Nothing is promised.
    pub fn room(&self) -> usize {
        self.items.len()
    }

    /// All values, ascending by key. Takes no memory.
    pub fn walk(&self) -> Walk<'a, K, V>
        requires { IsAntisymmetric K.cmp }
        ensures pairs { map (keyed V.key) result ≡ self.now }
        ensures rising { IsTrue (rises K.cmp (map V.key result)) }
    {
        Walk::new(changes_of(self.layers), all_values::<K, V>(&self.items))
    }

    /// The values of keys that aren't below this one, ascending by key. Takes the time of a search in the floor and in
    /// each layer, and no memory.
    pub fn walk_from(&self, key: K) -> Walk<'a, K, V>
        requires { IsAntisymmetric K.cmp }
        ensures { map (keyed V.key) result ≡ from_key K.cmp key self.now }
    {
        Walk::new(
            changes_from(self.layers, key),
            values_from(&self.items, key),
        )
    }
}

/// What has changed at the key, if there are layers and it is told there.
fn changed_in<'a, K: Ord + Copy + Slotted, V: Drop>(
    layers: Option<&'a Layers<K, V>>,
    key: K,
) -> Option<&'a V>
    ensures { option_copied result ≡ find K.cmp key (layer_pairs (option_copied layers.entry)) }
{
    match layers {
        Some(layers) => layers.get(key),
        None => None,
    }
}

/// What has changed, and nothing where no layers are.
fn changes_of<'a, K: Ord + Copy + Slotted, V: Drop>(
    layers: Option<&'a Layers<K, V>>,
) -> Changes<'a, K, V>
    ensures { result ≡ layer_pairs (option_copied layers.entry) }
{
    match layers {
        Some(layers) => Changes::of(layers.runs()),
        None => Changes::of(&[]),
    }
}

/// What has changed at keys that aren't below this one, and nothing where no layers are.
fn changes_from<'a, K: Ord + Copy + Slotted, V: Drop>(
    layers: Option<&'a Layers<K, V>>,
    key: K,
) -> Changes<'a, K, V>
    requires { IsAntisymmetric K.cmp }
    ensures { result ≡ from_key K.cmp key (layer_pairs (option_copied layers.entry)) }
{
    match layers {
        Some(layers) => Changes::from(layers.runs(), key),
        None => Changes::of(&[]),
    }
}

/// The value of a change, if it has one.
fn standing<V>(change: &Option<V>) -> Option<&V>
    ensures { option_copied result ≡ change.now }
{
    match change {
        Some(value) => Some(value),
        None => None,
    }
}

/// Between which positions of the list the key's value may stand.
fn part_of<K: Copy + Slotted + Kinded>(places: Option<&KeyPlaces>, key: K) -> (usize, usize) {
    match places {
        Some(places) => places.part_of(key.kind(), Slotted::number(&key)),
        None => (0, 0),
    }
}
