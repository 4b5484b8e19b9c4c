//! A change of a map, found and not made yet.
ghost use Rattle.std.specs.Prelude.{◌≡◌};

use crate::layered_map::LayeredMap;
use crate::view::View;
use ordered_lists::{Keyed, Kinded, Slotted};
use std::marker::Model;

/// What changes leave of a map, beside it: contracts see the pairs before and after.
#[derive(Drop)]
pub struct Prepared<K: Ord + Copy + Slotted + Kinded, V: Keyed<K>> {
    before: LayeredMap<K, V>,
    after: LayeredMap<K, V>,
}

impl<K: Ord + Copy + Slotted + Kinded, V: Keyed<K>> Model for Prepared<K, V> {
    ghost use Rattle.layered_maps.specs.Exchanges.{Exchange};

    ghost Value = { Exchange K V };

    ghost view = { λ p. record { before = p.before; after = p.after } };
}

impl<K: Ord + Copy + Slotted + Kinded, V: Keyed<K>> Prepared<K, V> {
    pub fn new(before: LayeredMap<K, V>, after: LayeredMap<K, V>) -> Prepared<K, V>
        ensures before { result.before ≡ before }
        ensures after { result.after ≡ after }
    {
        Prepared { before, after }
    }

    /// The map before, lent.
    pub fn before(&self) -> View<'_, K, V>
        ensures { result ≡ self.now.before }
    {
        self.before.view()
    }

    /// The map after.
    pub fn after(&self) -> &LayeredMap<K, V>
        ensures { result.now ≡ self.now.after }
    {
        &self.after
    }

    /// The map after, alone.
    pub fn into_after(self) -> LayeredMap<K, V>
        ensures { result ≡ self.after }
    {
        self.after
    }
}
