//! A change of objects, found and not made yet.
ghost use Rattle.std.specs.Prelude.{◌≡◌, ◌↔◌, None, Some, IfSome, option_copied, Contains};
ghost use Rattle.std.specs.FinMap.{get};
ghost use Rattle.road_base.specs.Applying.{entry_of};
ghost use Rattle.road_base.specs.Objects.{visible};
ghost use Rattle.road_base.specs.declared.ids.Key.{Key};
ghost use Rattle.road_model.specs.Links.{AreChanged};

use crate::objects::Objects;
use road_base::{Event, Key, Keys};
use std::marker::Model;

/// What events leave of objects, beside them: contracts see the objects before and after, and the keys whose visible
/// body differs.
#[derive(Drop)]
pub struct Fresh {
    before: Objects,
    after: Objects,
    keys: Keys,
}

impl Model for Fresh {
    ghost use Rattle.road_model.specs.Links.{AreChanged};
    ghost use Rattle.object_store.specs.Following.{Following, IsLeft, coded_following};

    ghost Value = { Following };

    ghost coded = { coded_following };

    ghost view = { λ f. record { before = f.before; after = f.after; keys = f.keys } };

    ghost invariant = { λ f. IsLeft f.before f.after × AreChanged f.before f.after f.keys };
}

impl Fresh {
    ghost use Rattle.object_store.specs.Following.{IsLeft};

    pub(crate) fn new(before: Objects, after: Objects, keys: Keys) -> Fresh
        requires left { IsLeft before after }
        requires keys { AreChanged before after keys }
        ensures before { result.before ≡ before }
        ensures after { result.after ≡ after }
    {
        Fresh {
            before,
            after,
            keys,
        }
    }

    /// The key's new entry, as an event. None exactly where the events leave the key's entry as it is. Takes no memory.
    pub fn get(&self, key: Key) -> Option<&Event>
        ensures same { (option_copied result ≡ None) ↔ (get self.now.after key ≡ get self.now.before key) }
        ensures entry { IfSome (option_copied result) (λ e. get self.now.after key ≡ Some (entry_of e)) }
        ensures key { IfSome (option_copied result) (λ e. e.key ≡ key) }
    {
        match (self.before.get(key), self.after.get(key)) {
            (Some(old), Some(new)) if old.version == new.version => None,
            (_, new) => new,
        }
    }

    /// The objects before.
    pub fn before(&self) -> &Objects
        ensures { result.now ≡ self.now.before }
    {
        &self.before
    }

    /// The objects after.
    pub fn after(&self) -> &Objects
        ensures { result.now ≡ self.now.after }
    {
        &self.after
    }

    /// The keys whose visible body differs, ascending.
    pub fn keys(&self) -> &Keys
        ensures keys { result.now ≡ self.now.keys }
        ensures differ { AreChanged self.now.before self.now.after self.now.keys }
        ensures same { (k : Key)
            → ¬ (Contains self.now.keys k)
            → visible self.now.before k ≡ visible self.now.after k }
    {
        &self.keys
    }

    /// The objects after, alone.
    pub(crate) fn into_objects(self) -> Objects
        ensures { result ≡ self.after }
    {
        self.after
    }
}
