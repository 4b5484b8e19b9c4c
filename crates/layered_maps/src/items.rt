//! Lists that are lent.
ghost use Rattle.std.specs.Prelude.{◌≡◌, ◌≤◌, ◌+◌, ◌∷◌, [], ℕ, Some, IfSome, IfNone, drop, length, option_copied};
ghost use Rattle.std.specs.Prelude.{slice_get};

use crate::chunk::{item_at, tail};
use crate::part_list::PartList;
use std::marker::Model;

/// A list, lent: one in parts, or one whose items lie side by side.
#[derive(Drop)]
pub struct Items<'a, V: Drop> {
    /// Empty where there are parts.
    list: &'a [V],
    parts: Option<&'a PartList<V>>,
}

impl<'a, V: Drop> Model for Items<'a, V> {
    ghost use Rattle.std.specs.Prelude.{List, option_copied};
    ghost use Rattle.layered_maps.specs.PartLists.{lent_list};

    ghost Value = { List V };

    ghost view = { λ s. lent_list s.list.now (option_copied s.parts) };
}

impl<'a, V: Drop> Items<'a, V> {
    /// Items that lie side by side.
    pub fn of_slice(list: &'a [V]) -> Items<'a, V>
        ensures { result ≡ list.now }
    {
        Items { list, parts: None }
    }

    /// Those of a list in parts.
    pub fn of_parts(parts: &'a PartList<V>) -> Items<'a, V>
        ensures { result ≡ parts.now }
    {
        Items {
            list: &[],
            parts: Some(parts),
        }
    }

    /// The same list, lent once more.
    pub fn again(&self) -> Items<'a, V>
        ensures { result ≡ self.now }
    {
        Items {
            list: self.list,
            parts: self.parts,
        }
    }

    /// How many items there are.
    pub fn len(&self) -> usize
        ensures { result ≡ length self.now }
    {
        match self.parts {
            None => self.list.len(),
            Some(parts) => parts.len(),
        }
    }

    /// The item at the position, and None where there is none.
    pub fn get(&self, at: usize) -> Option<&'a V>
        ensures { option_copied result ≡ slice_get self.now at }
    {
        match self.parts {
            None => item_at(self.list, at),
            Some(parts) => parts.get(at),
        }
    }

    /// Items from the position on, which lie side by side.
    pub fn run(&self, at: usize) -> &'a [V]
        ensures { (k : ℕ) (x : V) → slice_get result.now k ≡ Some x → slice_get self.now (at + k) ≡ Some x }
    {
        match self.parts {
            None => tail(self.list, at),
            Some(parts) => parts.run(at),
        }
    }
}

/// The items of a list from a position on.
#[derive(Drop)]
pub struct Rest<'a, V: Drop> {
    items: Items<'a, V>,
    at: usize,
}

impl<'a, V: Drop> Model for Rest<'a, V> {
    ghost use Rattle.std.specs.Prelude.{◌≤◌, List, drop, length};

    ghost Value = { List V };

    ghost view = { λ r. drop r.at r.items };

    ghost invariant = { λ r. r.at ≤ length r.items };
}

impl<'a, V: Drop> Rest<'a, V> {
    /// Those from this position on.
    pub fn of(items: Items<'a, V>, at: usize) -> Rest<'a, V>
        requires { at ≤ length items }
        ensures { result ≡ drop at items.entry }
    {
        Rest { items, at }
    }

    /// The first item.
    pub fn first(&self) -> Option<&'a V>
        ensures { option_copied result ≡ slice_get self.now 0 }
    {
        self.items.get(self.at)
    }

    /// The first item, and those behind it; None where there is none.
    pub fn split(&self) -> Option<(&'a V, Rest<'a, V>)>
        ensures some { IfSome result (λ s. self.now ≡ s.0.now ∷ s.1) }
        ensures none { IfNone result (self.now ≡ []) }
    {
        if self.at >= self.items.len() {
            return None;
        }
        match self.items.get(self.at) {
            Some(first) => Some((first, Rest::of(self.items.again(), self.at + 1))),
            None => None,
        }
    }

    /// The same items.
    pub fn again(&self) -> Rest<'a, V>
        ensures { result ≡ self.now }
    {
        Rest {
            items: self.items.again(),
            at: self.at,
        }
    }
}
