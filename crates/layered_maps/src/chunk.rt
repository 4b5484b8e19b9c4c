//! Items that lie side by side, as a part of a list that others share.
ghost use Rattle.std.specs.Prelude.{◌≡◌, ◌<◌, IfSome, IsTrue, IsFalse, drop, length, option_copied, slice_get};
ghost use Rattle.std.specs.Prelude.{slice_set};

use std::marker::Model;

/// Items side by side. Contracts see their list.
#[derive(Drop)]
pub struct Chunk<T: Drop> {
    pub items: Vec<T>,
}

impl<T: Drop> Model for Chunk<T> {
    ghost use Rattle.std.specs.Prelude.{List};

    ghost Value = { List T };

    ghost view = { λ p. p.items.items };
}

impl<T: Drop> Chunk<T> {
    /// These items.
    pub fn of(items: Vec<T>) -> Chunk<T>
        ensures { result ≡ items.items }
    {
        Chunk { items }
    }

    /// The items.
    pub fn items(&self) -> &[T]
        ensures { result.now ≡ self.now }
    {
        self.items.as_slice()
    }

    /// Puts the item in the place of the one at this position, and answers whether there is such a position: else
    /// nothing changes. Takes no memory.
    pub fn put(&mut self, at: usize, item: T) -> bool
        ensures within { IsTrue result → at < length self.old }
        ensures put { IsTrue result → self.new ≡ slice_set self.old at item }
        ensures none { IsFalse result → self.new ≡ self.old }
    {
        if at >= self.items.len() {
            return false;
        }
        self.items[at] = item;
        true
    }
}

/// The item at the position, and None where there is none.
pub fn item_at<T>(items: &[T], at: usize) -> Option<&T>
    ensures item { option_copied result ≡ slice_get items.now at }
    ensures within { IfSome result (λ x. at < length items.now) }
{
    if at < items.len() {
        Some(&items[at])
    } else {
        None
    }
}

/// The items from the position on, and none where there is no such position.
pub fn tail<T>(items: &[T], from: usize) -> &[T]
    ensures { result.now ≡ drop from items.now }
{
    if from < items.len() {
        &items[from..]
    } else {
        &[]
    }
}
