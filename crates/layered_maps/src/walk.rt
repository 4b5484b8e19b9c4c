//! The values of a map, gone over in the order of their keys.
ghost use Rattle.std.specs.Prelude.{◌≡◌, IfSome, IfNone, IsTrue, map, option_copied};
ghost use Rattle.std.specs.FinMap.{IsAntisymmetric};
ghost use Rattle.ordered_lists.specs.Orders.{rises};
ghost use Rattle.layered_maps.specs.Maps.{keyed, over};
ghost use Rattle.layered_maps.specs.Walks.{IsDue, IsNext, IsNotDue, behind_key};

use crate::changes::Changes;
use crate::items::Rest;
use ordered_lists::Keyed;
use std::marker::Model;

/// The values of a map, ascending by key. Contracts see those that are left. Each step takes one comparison where
/// nothing has changed, and a few for each layer where something has.
#[derive(Drop)]
pub struct Walk<'a, K: Ord + Copy, V: Keyed<K>> {
    changes: Changes<'a, K, Option<V>>,
    /// What is left of the floor.
    rest: Rest<'a, V>,
}

impl<'a, K: Ord + Copy, V: Keyed<K>> Model for Walk<'a, K, V> {
    ghost use Rattle.std.specs.Prelude.{List, IsTrue, map};
    ghost use Rattle.std.specs.FinMap.{IsAntisymmetric};
    ghost use Rattle.ordered_lists.specs.Orders.{rises};
    ghost use Rattle.layered_maps.specs.Maps.{keyed, over};

    ghost Value = { List V };

    ghost view = { λ w. map (λ p. p.1) (over K.cmp w.changes (map (keyed V.key) w.rest)) };

    ghost invariant = { λ w. IsTrue (rises K.cmp (map V.key w.rest)) × IsAntisymmetric K.cmp };
}

impl<'a, K: Ord + Copy, V: Keyed<K>> Walk<'a, K, V> {
    /// What has changed, over what stands below.
    pub fn new(changes: Changes<'a, K, Option<V>>, rest: Rest<'a, V>) -> Walk<'a, K, V>
        requires exact { IsAntisymmetric K.cmp }
        requires ascending { IsTrue (rises K.cmp (map V.key rest)) }
        ensures { result ≡ map (λ p. p.1) (over K.cmp changes.entry (map (keyed V.key) rest.entry)) }
    {
        Walk { changes, rest }
    }

    /// The next value, and None where none is left.
    pub fn next(&mut self) -> Option<&'a V>
        ensures { IsNext (option_copied result) self.old self.new }
    {
        while let Some(key) = due(self.changes.key(), &self.rest) {
            self.rest = behind(&self.rest, key);
            match self.changes.take(key) {
                Some(Some(value)) => return Some(value),
                Some(None) => {}
                None => return None,
            }
        }
        match self.rest.split() {
            None => None,
            Some((value, behind)) => {
                self.rest = behind;
                Some(value)
            }
        }
    }
}

/// The least key that has changed, if no value of a lower key stands in the floor.
fn due<K: Ord + Copy, V: Keyed<K>>(least: Option<K>, rest: &Rest<'_, V>) -> Option<K>
    ensures some { IfSome result (λ k. IsDue V.key K.cmp least k rest.now) }
    ensures none { IfNone result (IsNotDue V.key K.cmp least rest.now) }
{
    let key = least?;
    match rest.first() {
        Some(value) if value.key().cmp(&key).is_lt() => None,
        _ => Some(key),
    }
}

/// The values without the first one, if that has the key.
fn behind<'a, K: Ord + Copy, V: Keyed<K>>(values: &Rest<'a, V>, key: K) -> Rest<'a, V>
    ensures { map (keyed V.key) result ≡ behind_key K.cmp key (map (keyed V.key) values.now) }
{
    match values.split() {
        Some((first, behind)) if first.key().cmp(&key).is_eq() => behind,
        _ => values.again(),
    }
}
