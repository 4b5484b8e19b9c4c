//! Maps that share what they have in common.
ghost use Rattle.std.specs.Prelude.{◌≡◌, [], IfOk, IfSome, IsTrue, map, option_copied};
ghost use Rattle.std.specs.FinMap.{IsAntisymmetric, find};
ghost use Rattle.ordered_lists.specs.Orders.{rises};
ghost use Rattle.layered_maps.specs.Layers.{Rise};
ghost use Rattle.layered_maps.specs.Maps.{AreKeyed, change_pair, changed_by, floor_pairs, keyed, over};

use crate::change::Change;
use crate::change_lists::{entries_of, mark_keys};
use crate::entry_run::EntryRun;
use crate::floor::Floor;
use crate::items::Items;
use crate::layers::Layers;
use crate::prepared::Prepared;
use crate::sinking::{Sinking, own_places, sink, split};
use crate::view::View;
use ordered_lists::{Keyed, Kinded, Slotted};
use std::alloc::{AllocError, Global};
use std::marker::Model;
use std::rc::Rc;

/// Values, each at its key. Contracts see the pairs of keys and values, ascending.
///
/// The floor is a list of values; what changes comes into it, where it has the key, and lies over it else, in at most
/// eight layers. Maps that are made of one another share the parts of the floor that are the same, and the layers that
/// weren't merged.
#[derive(Drop)]
pub struct LayeredMap<K: Ord + Copy + Slotted + Kinded, V: Keyed<K>> {
    alloc: Global,
    floor: Option<Rc<Floor<K, V>>>,
    layers: Layers<K, Option<V>>,
    /// What `commit` makes of the floor and of the layers. None where that is what they are.
    sinking: Option<Sinking<K, V>>,
}

impl<K: Ord + Copy + Slotted + Kinded, V: Keyed<K>> Model for LayeredMap<K, V> {
    ghost use Rattle.std.specs.Prelude.{List};

    ghost Value = { List (K × V) };

    ghost use Rattle.layered_maps.specs.Layers.{Rise};
    ghost use Rattle.layered_maps.specs.Maps.{AreKeyed, floor_pairs, over};
    ghost use Rattle.layered_maps.specs.Sinking.{IsSinking};

    ghost view = { λ m. over K.cmp m.layers (floor_pairs m.floor) };

    ghost invariant = { λ m. Rise K.cmp (floor_pairs m.floor) × AreKeyed V.key K.cmp m.layers
        × IsSinking V.key K.cmp m.sinking m.layers (floor_pairs m.floor) };
}

impl<K: Ord + Copy + Slotted + Kinded, V: Keyed<K>> LayeredMap<K, V> {
    /// No values. Takes no memory.
    pub fn new(alloc: Global) -> LayeredMap<K, V>
        ensures { result ≡ [] }
    {
        LayeredMap {
            alloc,
            floor: None,
            layers: Layers::new(alloc),
            sinking: None,
        }
    }

    /// These values, whose keys rise. They are moved, not copied. Takes seven bytes a value in a list of more than
    /// 1,048,576, 20 in another, and the time of a run over them.
    pub fn of(list: Vec<V>) -> Result<LayeredMap<K, V>, AllocError>
        requires { IsTrue (rises K.cmp (map V.key list.items)) }
        ensures { IfOk result (λ m. m ≡ map (keyed V.key) list.items) }
    {
        let alloc = *list.allocator();
        let floor = Floor::of(alloc, list)?;
        let floor = Rc::new(alloc, floor)?;
        Ok(LayeredMap {
            alloc,
            floor: Some(floor),
            layers: Layers::new(alloc),
            sinking: None,
        })
    }

    /// The map, lent. Takes no memory.
    pub fn view(&self) -> View<'_, K, V>
        ensures { result ≡ self.now }
    {
        match &self.floor {
            None => View::over(Items::of_slice(&[]), None, &self.layers),
            Some(floor) => View::over(floor.items(), Some(floor.places()), &self.layers),
        }
    }

    /// The value of the key, and None exactly where the key has none. A key at which nothing has changed is most often
    /// told by one or two tests in a filter; else each layer is searched. Then the floor is asked, in the logarithm of
    /// its length, or in a few steps where numbers of keys are spread evenly. Takes no memory.
    pub fn get(&self, key: K) -> Option<&V>
        requires { IsAntisymmetric K.cmp }
        ensures value { option_copied result ≡ find K.cmp key self.now }
        ensures key { IfSome (option_copied result) (λ v. V.key v ≡ key) }
    {
        self.view().get(key)
    }

    /// An equal value. Takes some reference counts and a list of at most eight, since all else is shared.
    pub fn share(&self) -> Result<LayeredMap<K, V>, AllocError>
        ensures { IfOk result (λ m. m ≡ self.now) }
    {
        let floor = shared_floor(&self.floor)?;
        let layers = self.layers.share(self.alloc)?;
        Ok(LayeredMap {
            alloc: self.alloc,
            floor,
            layers,
            sinking: None,
        })
    }

    /// Finds what the changes leave, whose keys rise. The map stays as it is, but that the keys are marked in its
    /// filter, and that it takes copies of those parts of its floor that others share and in which values of these keys
    /// stand. Takes three look-ups for each change. The changes of other keys are put into a layer of less than 64
    /// entries, which is copied, and merged with the one behind it as that grows, so that each is copied with eight
    /// others at most once for each layer.
    pub fn prepare(&mut self, changes: Vec<Change<K, V>>) -> Result<Prepared<K, V>, AllocError>
        requires exact { IsAntisymmetric K.cmp }
        requires rising { Rise K.cmp (map (change_pair V.key) changes.items) }
        ensures same { self.new ≡ self.old }
        ensures before { IfOk result (λ p. p.before ≡ self.old) }
        ensures after { IfOk result (λ p. p.after ≡ changed_by V.key K.cmp changes.items self.old) }
    {
        mark_keys(self.alloc, changes.as_slice(), &mut self.layers)?;
        let run = EntryRun::of(entries_of(self.alloc, changes)?);
        let prepared = self.prepared(run)?;
        Ok(prepared)
    }

    /// The same of changes in two lists, in each of which the keys rise: those of the second one come behind those of
    /// the first. Takes the time of a run over both lists more.
    pub fn prepare_both(
        &mut self,
        first: Vec<Change<K, V>>,
        second: Vec<Change<K, V>>,
    ) -> Result<Prepared<K, V>, AllocError>
        requires exact { IsAntisymmetric K.cmp }
        requires first { Rise K.cmp (map (change_pair V.key) first.items) }
        requires second { Rise K.cmp (map (change_pair V.key) second.items) }
        ensures same { self.new ≡ self.old }
        ensures before { IfOk result (λ p. p.before ≡ self.old) }
        ensures after { IfOk result (λ p. p.after
            ≡ changed_by V.key K.cmp second.items (changed_by V.key K.cmp first.items self.old)) }
    {
        mark_keys(self.alloc, first.as_slice(), &mut self.layers)?;
        mark_keys(self.alloc, second.as_slice(), &mut self.layers)?;
        let first = EntryRun::of(entries_of(self.alloc, first)?);
        let second = EntryRun::of(entries_of(self.alloc, second)?);
        let run = second.merged(self.alloc, &first)?;
        let prepared = self.prepared(run)?;
        Ok(prepared)
    }

    /// Leaves what was prepared, whatever this map was before. Takes a look-up for each value that comes into the
    /// floor, and no memory.
    pub fn commit(&mut self, prepared: Prepared<K, V>)
        requires { IsAntisymmetric K.cmp }
        ensures { self.new ≡ prepared.after }
    {
        *self = LayeredMap::new(self.alloc);
        *self = prepared.into_after().sunk();
    }

    /// What these entries leave. The map stays the same.
    fn prepared(&mut self, run: EntryRun<K, Option<V>>) -> Result<Prepared<K, V>, AllocError>
        requires exact { IsAntisymmetric K.cmp }
        requires keyed { AreKeyed V.key K.cmp run }
        ensures same { self.new ≡ self.old }
        ensures before { IfOk result (λ p. p.before ≡ self.old) }
        ensures after { IfOk result (λ p. p.after ≡ over K.cmp run self.old) }
    {
        self.own(&run)?;
        let after = self.with(run)?;
        Ok(Prepared::new(self.share()?, after))
    }

    /// The same map, in which nobody else shares what values of this run change in the floor.
    fn own(&mut self, run: &EntryRun<K, Option<V>>) -> Result<(), AllocError>
        requires { IsAntisymmetric K.cmp }
        ensures { self.new ≡ self.old }
    {
        own_places(self.alloc, run, &mut self.floor)
    }

    /// What these entries leave, beside this map.
    fn with(&self, run: EntryRun<K, Option<V>>) -> Result<LayeredMap<K, V>, AllocError>
        requires exact { IsAntisymmetric K.cmp }
        requires keyed { AreKeyed V.key K.cmp run }
        ensures { IfOk result (λ m. m ≡ over K.cmp run self.now) }
    {
        let sinking = split(self.alloc, &run, &self.layers, &self.floor)?;
        let floor = shared_floor(&self.floor)?;
        let layers = self.layers.with(self.alloc, run)?;
        Ok(LayeredMap {
            alloc: self.alloc,
            floor,
            layers,
            sinking,
        })
    }

    /// The same map. What was prepared comes into the floor, where nobody else shares what changes in it.
    fn sunk(self) -> LayeredMap<K, V>
        requires { IsAntisymmetric K.cmp }
        ensures { result ≡ self }
    {
        let LayeredMap {
            alloc,
            floor,
            layers,
            sinking,
        } = self;
        let (floor, layers) = sink(floor, layers, sinking);
        LayeredMap {
            alloc,
            floor,
            layers,
            sinking: None,
        }
    }
}

/// The same floor, shared.
fn shared_floor<K: Ord + Copy + Slotted + Kinded, V: Keyed<K>>(
    floor: &Option<Rc<Floor<K, V>>>,
) -> Result<Option<Rc<Floor<K, V>>>, AllocError>
    ensures { IfOk result (λ f. floor_pairs f ≡ floor_pairs floor.now) }
{
    match floor {
        None => Ok(None),
        Some(floor) => Ok(Some(floor.clone()?)),
    }
}
