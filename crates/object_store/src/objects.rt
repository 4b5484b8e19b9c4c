//! The objects of a map, which changes follow.
ghost use Rattle.std.specs.Prelude.{◌≡◌, IfOk, OnOk, OnErr, IfSome, IsTrue, map, filter, option_copied};
ghost use Rattle.std.specs.Prelude.{◌++◌, ◌∷◌, []};
ghost use Rattle.std.specs.FinMap.{empty, entries, get, is_sorted};
ghost use Rattle.std.specs.Option.{option_map};
ghost use Rattle.road_base.specs.Applying.{IsApplied, entry_of};
ghost use Rattle.road_base.specs.Objects.{Objects as ObjectMap, key_cmp};
ghost use Rattle.road_model.specs.Links.{AreChanged};
ghost use Rattle.object_store.specs.Keeping.{objects_in, puts, stands};

use crate::base::Base;
use crate::changes::changed_keys;
use crate::fresh::Fresh;
use crate::standing::standing;
use layered_maps::{Change, LayeredMap, Prepared, Walk};
use road_base::laws::key_order;
use road_base::{Event, Key, Keys, NoMemory};
use std::alloc::Global;
use std::marker::Model;
use std::rc::Rc;

/// An object map: to each key that was named its version, and its visible body or a deletion.
#[derive(Drop)]
pub struct Objects {
    alloc: Global,
    map: LayeredMap<Key, Event>,
}

impl Model for Objects {
    ghost use Rattle.std.specs.Prelude.{IsTrue};
    ghost use Rattle.std.specs.FinMap.{is_sorted};
    ghost use Rattle.road_base.specs.Objects.{Objects as ObjectMap, key_cmp};
    ghost use Rattle.object_store.specs.Codes.{coded_objects};
    ghost use Rattle.object_store.specs.Keeping.{objects_in};

    ghost Value = { ObjectMap };

    ghost coded = { coded_objects };

    ghost view = { λ o. objects_in o.map };

    ghost invariant = { λ o. IsTrue (is_sorted key_cmp o.map) };
}

impl Objects {
    ghost use Rattle.object_store.specs.Listed.{pair_of, is_any, AreEntriesOf, IsInOrder};

    /// No objects. Takes no memory.
    pub fn new(alloc: Global) -> Objects
        ensures { result ≡ empty }
    {
        Objects {
            alloc,
            map: LayeredMap::new(alloc),
        }
    }

    /// What the events leave of no objects. They are moved, not copied.
    pub fn of(events: Vec<Event>) -> Result<Objects, NoMemory>
        ensures { IfOk result (λ o. IsApplied empty events.items o) }
    {
        Objects::of_base(Base::of(events)?)
    }

    /// The objects that are listed. The entries are moved, not copied.
    pub fn of_base(base: Base) -> Result<Objects, NoMemory>
        ensures { IfOk result (λ o. o ≡ base) }
    {
        key_order();
        let list = base.into_items();
        let alloc = *list.allocator();
        let map = LayeredMap::of(list)?;
        Ok(Objects { alloc, map })
    }

    /// The key's entry, as an event. None exactly where the key has no entry. Takes no memory.
    pub fn get(&self, key: Key) -> Option<&Event>
        ensures entry { option_map entry_of (option_copied result) ≡ get self.now key }
        ensures key { IfSome (option_copied result) (λ e. e.key ≡ key) }
    {
        key_order();
        self.map.get(key)
    }

    /// All entries as events, in key order, gone over one by one. Takes no memory.
    pub fn walk(&self) -> Walk<'_, Key, Event>
        ensures entries { entries self.now ≡ map pair_of result }
        ensures exactly { AreEntriesOf is_any self.now result }
        ensures in_order { IsInOrder result }
    {
        key_order();
        self.map.view().walk()
    }

    /// The keys whose visible body the events would change, ascending.
    pub fn changed(&self, events: &[Event]) -> Result<Keys, NoMemory>
        ensures { IfOk result (λ keys. (N : ObjectMap)
            → IsApplied self.now events.now N
            → AreChanged self.now N keys) }
    {
        key_order();
        let events = standing(self.alloc, events)?;
        let keys = changed_keys(self.alloc, self, events.as_slice())?;
        Ok(keys)
    }

    /// Finds what the events leave: of each key the first one of the greatest version, its entry here before all of
    /// them. The objects stay as they are.
    pub fn prepare(&mut self, events: &[Event]) -> Result<Fresh, NoMemory>
        ensures same { self.new ≡ self.old }
        ensures before { IfOk result (λ f. f.before ≡ self.old) }
        ensures after { IfOk result (λ f. IsApplied self.old events.now f.after) }
    {
        key_order();
        let list = standing(self.alloc, events)?;
        let keys = changed_keys(self.alloc, self, list.as_slice())?;
        let after = self.after(list)?;
        Ok(Fresh::new(self.copy()?, after, keys))
    }

    /// Leaves what the events leave for which the change was prepared. Takes a look-up for each entry that changes, and
    /// no memory: where nobody else shares what lies below the changes, they come in the place of its own entries.
    pub fn commit(&mut self, fresh: Fresh)
        requires { fresh.before ≡ self.now }
        ensures { self.new ≡ fresh.after }
    {
        key_order();
        *self = Objects::new(self.alloc);
        let none = LayeredMap::new(self.alloc);
        let after = fresh.into_objects().into_map();
        let prepared = Prepared::new(none, after);
        self.map.commit(prepared);
    }

    /// Applies the events: of each key the first one of the greatest version stands, its entry here before all of
    /// them. Answers the keys whose visible body changed, ascending. Where no memory is found nothing changes.
    pub fn apply(&mut self, events: &[Event]) -> Result<Keys, NoMemory>
        ensures applied { OnOk result (IsApplied self.old events.now self.new) }
        ensures keys { IfOk result (λ keys. AreChanged self.old self.new keys) }
        ensures err { OnErr result (self.new ≡ self.old) }
    {
        let fresh = self.prepare(events)?;
        let keys = fresh.keys().copy()?;
        self.commit(fresh);
        Ok(keys)
    }

    /// An equal value. Takes a few reference counts and a list of at most eight, since all else is shared.
    pub fn copy(&self) -> Result<Objects, NoMemory>
        ensures { IfOk result (λ o. o ≡ self.now) }
    {
        let map = self.map.share()?;
        Ok(Objects {
            alloc: self.alloc,
            map,
        })
    }

    /// All entries, listed. Copies all of them.
    pub fn listed(&self) -> Result<Rc<Base>, NoMemory>
        ensures { IfOk result (λ b. b.value ≡ self.now) }
    {
        key_order();
        let list = walked(self.alloc, self.map.view().room(), self.walk())?;
        Ok(Rc::new(self.alloc, Base::in_order(list))?)
    }

    /// Copies of all entries as events, in key order.
    pub fn events(&self) -> Result<Vec<Event>, NoMemory>
        ensures { IfOk result (λ v. map pair_of v.items ≡ entries self.now) }
    {
        walked(self.alloc, self.map.view().room(), self.walk())
    }

    /// What the events leave, which are in key order. The objects stay as they are.
    fn after(&mut self, events: Vec<Event>) -> Result<Objects, NoMemory>
        requires { IsInOrder events.items }
        ensures same { self.new ≡ self.old }
        ensures after { IfOk result (λ o. IsApplied self.old events.items o) }
    {
        key_order();
        let changes = self.changes_of(events)?;
        let prepared = self.map.prepare(changes)?;
        let map = prepared.into_after();
        Ok(Objects {
            alloc: self.alloc,
            map,
        })
    }

    /// The events that stand where they come to the entries of their keys, as changes, in their order.
    fn changes_of(&self, events: Vec<Event>) -> Result<Vec<Change<Key, Event>>, NoMemory>
        ensures { IfOk result (λ c. c.items ≡ puts (filter (stands self.now) events.items)) }
    {
        let mut changes = Vec::new(self.alloc);
        for event in events {
            self.add_change(event, &mut changes)?;
        }
        Ok(changes)
    }

    /// Adds the event as a change, if it stands where it comes to its key's entry.
    fn add_change(
        &self,
        event: Event,
        changes: &mut Vec<Change<Key, Event>>,
    ) -> Result<(), NoMemory>
        ensures { OnOk result
            (changes.new.items ≡ changes.old.items ++ puts (filter (stands self.now) (event ∷ []))) }
    {
        if self.lacks(&event) {
            changes.push(Change::Put(event))?;
        }
        Ok(())
    }

    /// Whether the event stands where it comes to its key's entry.
    fn lacks(&self, event: &Event) -> bool
        ensures { result ≡ stands self.now event.now }
    {
        match self.get(event.key) {
            None => true,
            Some(entry) => entry.version < event.version,
        }
    }

    /// What keeps the entries, alone.
    fn into_map(self) -> LayeredMap<Key, Event>
        ensures objects { objects_in result ≡ self }
        ensures rising { IsTrue (is_sorted key_cmp result) }
    {
        self.map
    }
}

/// Copies of the events that are left to go over, in their order.
fn walked(alloc: Global, room: usize, walk: Walk<'_, Key, Event>) -> Result<Vec<Event>, NoMemory>
    ensures { IfOk result (λ v. v.items ≡ walk.entry) }
{
    let mut list = Vec::with_capacity(alloc, room)?;
    let mut rest = walk;
    while let Some(event) = rest.next() {
        add_copy(event, &mut list)?;
    }
    Ok(list)
}

/// Puts a copy of the event behind the others.
fn add_copy(event: &Event, list: &mut Vec<Event>) -> Result<(), NoMemory>
    ensures { OnOk result (list.new.items ≡ list.old.items ++ event.now ∷ []) }
{
    list.push(event.copy()?)?;
    Ok(())
}
