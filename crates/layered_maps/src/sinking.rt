//! What comes into a map's floor.
ghost use Rattle.std.specs.Prelude.{◌≡◌, Some, IfOk, drop, filter, is_some, map};
ghost use Rattle.std.specs.FinMap.{IsAntisymmetric};
ghost use Rattle.std.specs.Option.{option_to_list};
ghost use Rattle.layered_maps.specs.Layers.{pair, put_all, Rise};
ghost use Rattle.layered_maps.specs.Maps.{AreKeyed, floor_pairs, over, replaced_by, sinks, stays, sunk, sunk_of};
ghost use Rattle.layered_maps.specs.Sinking.{IsSinking};

use crate::entry_run::{Entry, EntryRun};
use crate::floor::Floor;
use crate::layers::Layers;
use ordered_lists::{Keyed, Kinded, Slotted};
use std::alloc::{AllocError, Global};
use std::rc::Rc;

/// Values that come into a floor, and what lies over it then.
#[derive(Drop)]
pub struct Sinking<K: Ord + Copy + Slotted + Kinded, V: Keyed<K>> {
    pub layers: Layers<K, Option<V>>,
    /// Each in the place of its key's, the last one first.
    pub values: Vec<V>,
}

/// Sees to it that nobody else shares what values of this run change in the floor: its list of branches, the branches
/// of their leaves, and the leaves. What others share is copied. The floor stays the same. Takes a look-up for each
/// value, and where a value comes to what others share copies of its leaf's values, or some reference counts.
pub fn own_places<K: Ord + Copy + Slotted + Kinded, V: Keyed<K>>(
    alloc: Global,
    run: &EntryRun<K, Option<V>>,
    floor: &mut Option<Rc<Floor<K, V>>>,
) -> Result<(), AllocError>
    requires { IsAntisymmetric K.cmp }
    ensures { floor_pairs floor.new ≡ floor_pairs floor.old }
{
    match floor {
        Some(floor) => own_all(alloc, run.entries(), floor),
        None => Ok(()),
    }
}

/// The same of entries and a floor.
fn own_all<K: Ord + Copy + Slotted + Kinded, V: Keyed<K>>(
    alloc: Global,
    entries: &[Entry<K, Option<V>>],
    floor: &mut Rc<Floor<K, V>>,
) -> Result<(), AllocError>
    requires { IsAntisymmetric K.cmp }
    ensures { floor.new.value ≡ floor.old.value }
{
    for entry in entries {
        let value: &Option<V> = &entry.value;
        if value.is_some() {
            own_place(alloc, entry.key, floor)?;
        }
    }
    Ok(())
}

/// The same of a key.
fn own_place<K: Ord + Copy + Slotted + Kinded, V: Keyed<K>>(
    alloc: Global,
    key: K,
    floor: &mut Rc<Floor<K, V>>,
) -> Result<(), AllocError>
    requires { IsAntisymmetric K.cmp }
    ensures { floor.new.value ≡ floor.old.value }
{
    if Rc::strong_count(floor) > 1 {
        if floor.get(key).is_none() {
            return Ok(());
        }
        *floor = Rc::new(alloc, floor.share()?)?;
    }
    match Rc::get_mut(floor) {
        Some(own) => own.own(key),
        None => Ok(()),
    }
}

/// What is told of a run that comes over these layers: the values of keys that stand in the floor, and in no layer,
/// come into the floor, and all others stay over it. None where no value comes into it. Takes two look-ups for each
/// entry, and a copy of each value that comes into the floor.
pub fn split<K: Ord + Copy + Slotted + Kinded, V: Keyed<K>>(
    alloc: Global,
    run: &EntryRun<K, Option<V>>,
    layers: &Layers<K, Option<V>>,
    floor: &Option<Rc<Floor<K, V>>>,
) -> Result<Option<Sinking<K, V>>, AllocError>
    requires exact { IsAntisymmetric K.cmp }
    requires run { AreKeyed V.key K.cmp run.now }
    requires layers { AreKeyed V.key K.cmp layers.now }
    requires floor { Rise K.cmp (floor_pairs floor.now) }
    ensures { IfOk result (λ s. IsSinking V.key K.cmp s (put_all K.cmp run.now layers.now) (floor_pairs floor.now)) }
{
    match floor {
        Some(floor) => split_over(alloc, run, layers, floor),
        None => Ok(None),
    }
}

/// The same of a floor.
fn split_over<K: Ord + Copy + Slotted + Kinded, V: Keyed<K>>(
    alloc: Global,
    run: &EntryRun<K, Option<V>>,
    layers: &Layers<K, Option<V>>,
    floor: &Floor<K, V>,
) -> Result<Option<Sinking<K, V>>, AllocError>
    requires exact { IsAntisymmetric K.cmp }
    requires run { AreKeyed V.key K.cmp run.now }
    requires layers { AreKeyed V.key K.cmp layers.now }
    requires floor { Rise K.cmp floor.now }
    ensures { IfOk result (λ s. IsSinking V.key K.cmp s (put_all K.cmp run.now layers.now) floor.now) }
{
    let (rest, values) = split_entries(alloc, run.entries(), layers, floor)?;
    if values.is_empty() {
        return Ok(None);
    }
    let layers = layers.with(alloc, EntryRun::of(rest))?;
    Ok(Some(Sinking { layers, values }))
}

/// The entries that stay over the floor, with their values shared, and copies of the values that come into it.
fn split_entries<K: Ord + Copy + Slotted + Kinded, V: Keyed<K>>(
    alloc: Global,
    entries: &[Entry<K, Option<V>>],
    layers: &Layers<K, Option<V>>,
    floor: &Floor<K, V>,
) -> Result<(Vec<Entry<K, Option<V>>>, Vec<V>), AllocError>
    requires { IsAntisymmetric K.cmp }
    ensures rest { IfOk result (λ r.
        map pair r.0.items ≡ filter (stays K.cmp layers.now floor.now) (map pair entries.now)) }
    ensures values { IfOk result (λ r. r.1.items ≡ sunk K.cmp layers.now floor.now (map pair entries.now)) }
{
    let mut rest = Vec::new(alloc);
    let mut values = Vec::new(alloc);
    for entry in entries {
        match sunk_value(entry, layers, floor)? {
            Some(value) => values.push(value)?,
            None => rest.push(entry.share()?)?,
        }
    }
    Ok((rest, values))
}

/// A copy of the entry's value, if that comes into the floor.
fn sunk_value<K: Ord + Copy + Slotted + Kinded, V: Keyed<K>>(
    entry: &Entry<K, Option<V>>,
    layers: &Layers<K, Option<V>>,
    floor: &Floor<K, V>,
) -> Result<Option<V>, AllocError>
    requires { IsAntisymmetric K.cmp }
    ensures some { IfOk result (λ v. is_some v ≡ sinks K.cmp layers.now floor.now (pair entry.now)) }
    ensures value { IfOk result (λ v.
        option_to_list v ≡ sunk_of (sinks K.cmp layers.now floor.now (pair entry.now)) entry.now.value.value) }
{
    let value: &Option<V> = &entry.value;
    let Some(value) = value else {
        return Ok(None);
    };
    if layers.get(entry.key).is_some() || floor.get(entry.key).is_none() {
        return Ok(None);
    }
    Ok(Some(value.duplicate()?))
}

/// The floor and what lies over it: what they come to, where nobody else shares what changes in the floor, and else
/// these layers, over a floor in which some of the values may stand too. Takes no memory.
pub fn sink<K: Ord + Copy + Slotted + Kinded, V: Keyed<K>>(
    floor: Option<Rc<Floor<K, V>>>,
    layers: Layers<K, Option<V>>,
    sinking: Option<Sinking<K, V>>,
) -> (Option<Rc<Floor<K, V>>>, Layers<K, Option<V>>)
    requires exact { IsAntisymmetric K.cmp }
    requires keyed { AreKeyed V.key K.cmp layers }
    requires floor { Rise K.cmp (floor_pairs floor) }
    requires sinking { IsSinking V.key K.cmp sinking layers (floor_pairs floor) }
    ensures keyed { AreKeyed V.key K.cmp result.1 }
    ensures rising { Rise K.cmp (floor_pairs result.0) }
    ensures same { over K.cmp result.1 (floor_pairs result.0) ≡ over K.cmp layers (floor_pairs floor) }
{
    match (floor, sinking) {
        (Some(floor), Some(sinking)) => sink_into(floor, layers, sinking),
        (floor, _) => (floor, layers),
    }
}

/// The same of a floor, and values that come into it.
fn sink_into<K: Ord + Copy + Slotted + Kinded, V: Keyed<K>>(
    floor: Rc<Floor<K, V>>,
    layers: Layers<K, Option<V>>,
    sinking: Sinking<K, V>,
) -> (Option<Rc<Floor<K, V>>>, Layers<K, Option<V>>)
    requires exact { IsAntisymmetric K.cmp }
    requires keyed { AreKeyed V.key K.cmp layers }
    requires floor { Rise K.cmp floor.value }
    requires sinking { IsSinking V.key K.cmp (Some sinking) layers floor.value }
    ensures keyed { AreKeyed V.key K.cmp result.1 }
    ensures rising { Rise K.cmp (floor_pairs result.0) }
    ensures same { over K.cmp result.1 (floor_pairs result.0) ≡ over K.cmp layers floor.value }
{
    let (floor, left) = replace_all(floor, sinking.values);
    if left == 0 {
        (Some(floor), sinking.layers)
    } else {
        (Some(floor), layers)
    }
}

/// The floor with these values in the place of its own, the last of them first, until one comes to what somebody else
/// shares; and how many are left then.
fn replace_all<K: Ord + Copy + Slotted + Kinded, V: Keyed<K>>(
    floor: Rc<Floor<K, V>>,
    values: Vec<V>,
) -> (Rc<Floor<K, V>>, usize)
    requires { IsAntisymmetric K.cmp }
    ensures { result.0.value ≡ replaced_by V.key K.cmp (drop result.1 values.items) floor.value }
{
    let mut floor = floor;
    let left = match Rc::get_mut(&mut floor) {
        Some(own) => own.replace_all(values),
        None => values.len(),
    };
    (floor, left)
}
