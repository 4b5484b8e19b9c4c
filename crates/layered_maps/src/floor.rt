//! The list over which a map's changes lie.
ghost use Rattle.std.specs.Prelude.{◌≡◌, ◌<◌, None, IfOk, IfSome, IfNone, IsTrue, IsFalse, drop, length, map};
ghost use Rattle.std.specs.Prelude.{option_copied};
ghost use Rattle.std.specs.FinMap.{IsAntisymmetric, find};
ghost use Rattle.std.specs.List.{HoldsAt};
ghost use Rattle.ordered_lists.specs.Orders.{rises};
ghost use Rattle.layered_maps.specs.Maps.{keyed, replaced, replaced_by};

use crate::items::Items;
use crate::keyed_search::{place_between, place_near, value_between};
use crate::part_list::{PartList, own_at};
use crate::places::KeyPlaces;
use ordered_lists::{Keyed, Kinded, Slotted};
use std::alloc::{AllocError, Global};
use std::marker::{Model, PhantomData};
use std::rc::Rc;

/// Values, ascending by key, none of them twice, and where their keys may stand. Floors that were made of one another
/// share the parts of their lists that are the same, and the places, since none has other keys than the others.
#[derive(Drop)]
pub struct Floor<K: Ord + Copy + Slotted + Kinded, V: Keyed<K>> {
    alloc: Global,
    list: PartList<V>,
    places: Rc<KeyPlaces>,
    keys: PhantomData<K>,
}

impl<K: Ord + Copy + Slotted + Kinded, V: Keyed<K>> Model for Floor<K, V> {
    ghost use Rattle.std.specs.Prelude.{List, map, IsTrue};
    ghost use Rattle.ordered_lists.specs.Orders.{rises};
    ghost use Rattle.layered_maps.specs.Maps.{keyed};

    ghost Value = { List (K × V) };

    ghost view = { λ g. map (keyed V.key) g.list };

    ghost invariant = { λ g. IsTrue (rises K.cmp (map V.key g.list)) };
}

impl<K: Ord + Copy + Slotted + Kinded, V: Keyed<K>> Floor<K, V> {
    /// These values. They are moved, not copied. Takes about two bytes a value for the places of their keys, if there
    /// is so much memory, three for the parts of a list of more than 1,048,576 values, 18 for those of another, and the
    /// time of a run over them.
    pub fn of(alloc: Global, list: Vec<V>) -> Result<Floor<K, V>, AllocError>
        requires { IsTrue (rises K.cmp (map V.key list.items)) }
        ensures { IfOk result (λ f. f ≡ map (keyed V.key) list.items) }
    {
        let places = Rc::new(alloc, KeyPlaces::of(alloc, list.as_slice()))?;
        let list = PartList::of(alloc, list)?;
        Ok(Floor {
            alloc,
            list,
            places,
            keys: PhantomData,
        })
    }

    /// The values, ascending by key.
    pub fn items(&self) -> Items<'_, V>
        ensures values { map (keyed V.key) result ≡ self.now }
        ensures ascending { IsTrue (rises K.cmp (map V.key result)) }
    {
        Items::of_parts(&self.list)
    }

    /// Where the keys may stand.
    pub fn places(&self) -> &KeyPlaces {
        &self.places
    }

    /// The value of the key, and None exactly where the key has none. Takes the time of a search in the list, or of a
    /// few steps where the numbers of the keys are spread evenly; and no memory.
    pub fn get(&self, key: K) -> Option<&V>
        requires { IsAntisymmetric K.cmp }
        ensures { option_copied result ≡ find K.cmp key self.now }
    {
        let number = Slotted::number(&key);
        value_between(
            &self.items(),
            key,
            number,
            self.places.part_of(key.kind(), number),
        )
    }

    /// Sees to it that nobody else shares what `replace_all` changes for a value of the key. The floor stays the same.
    pub fn own(&mut self, key: K) -> Result<(), AllocError>
        requires { IsAntisymmetric K.cmp }
        ensures { self.new ≡ self.old }
    {
        let items = Items::of_parts(&self.list);
        match place_in(&items, &self.places, key) {
            Some(place) => own_at::<K, V>(self.alloc, &mut self.list, place),
            None => Ok(()),
        }
    }

    /// An equal value, which shares all leaves and branches with this one. Takes a reference count for each branch.
    pub fn share(&self) -> Result<Floor<K, V>, AllocError>
        ensures { IfOk result (λ f. f ≡ self.now) }
    {
        let list = self.list.share(self.alloc)?;
        Ok(Floor {
            alloc: self.alloc,
            list,
            places: self.places.clone()?,
            keys: PhantomData,
        })
    }

    /// Puts each of the values in the place of its key's, where there is one, the last of them first, until one comes
    /// to what somebody else shares; and answers how many are left then. Takes no memory.
    pub fn replace_all(&mut self, values: Vec<V>) -> usize
        requires { IsAntisymmetric K.cmp }
        ensures { self.new ≡ replaced_by V.key K.cmp (drop result values.items) self.old }
    {
        let mut values = values;
        while let Some(value) = values.pop() {
            if !self.replace(value) {
                return values.len() + 1;
            }
        }
        0
    }

    /// Puts the value in the place of its key's, where there is one, and answers whether it did, or needn't: where
    /// somebody else shares what would change nothing changes.
    fn replace(&mut self, value: V) -> bool
        requires { IsAntisymmetric K.cmp }
        ensures replaced { IsTrue result → self.new ≡ replaced V.key K.cmp value self.old }
        ensures same { IsFalse result → self.new ≡ self.old }
    {
        let key = value.key();
        let items = Items::of_parts(&self.list);
        match place_in(&items, &self.places, key) {
            Some(place) => self.list.put(place, value),
            None => true,
        }
    }
}

/// The position of the key's value in the list, and None exactly where the list has none. It most often stands where
/// these places tell.
fn place_in<K: Ord + Copy + Slotted + Kinded, V: Keyed<K>>(
    list: &Items<'_, V>,
    places: &KeyPlaces,
    key: K,
) -> Option<usize>
    requires ascending { IsTrue (rises K.cmp (map V.key list.now)) }
    requires exact { IsAntisymmetric K.cmp }
    ensures within { IfSome result (λ i. i < length list.now) }
    ensures found { IfSome result (HoldsAt (λ v. V.key v ≡ key) list.now) }
    ensures none { IfNone result (find K.cmp key (map (keyed V.key) list.now) ≡ None) }
{
    let number = Slotted::number(&key);
    let at = place_between(list, number, places.part_of(key.kind(), number));
    place_near(list, key, at)
}
