//! A list that takes eight bytes where it stands.
ghost use Rattle.std.specs.Prelude.{◌≡◌, [], IfOk, IfSome, IfNone};

use crate::NoMemory;
use std::marker::Model;

/// Items in order, in a vector of their own; where there are none nothing is taken. Contracts see the list.
#[derive(Drop)]
pub struct BoxedList<T: Drop> {
    held: Option<Box<Vec<T>>>,
}

impl<T: Drop> Model for BoxedList<T> {
    ghost use Rattle.std.specs.Prelude.{List};
    ghost use Rattle.road_base.specs.Lists.{boxed_items};

    ghost Value = { List T };

    ghost view = { λ l. boxed_items l.held };
}

impl<T: Drop> BoxedList<T> {
    /// No items. Takes no memory.
    pub fn new() -> BoxedList<T>
        ensures { result ≡ [] }
    {
        BoxedList { held: None }
    }

    /// These items.
    pub fn of(list: Vec<T>) -> Result<BoxedList<T>, NoMemory>
        ensures { IfOk result (λ l. l ≡ list.items) }
    {
        if list.is_empty() {
            return Ok(BoxedList { held: None });
        }
        let held = Box::new(*list.allocator(), list)?;
        Ok(BoxedList { held: Some(held) })
    }

    /// The vector that holds the items, if there are any.
    pub fn held(&self) -> Option<&Vec<T>>
        ensures some { IfSome result (λ v. v.now.items ≡ self.now) }
        ensures none { IfNone result (self.now ≡ []) }
    {
        match &self.held {
            Some(list) => Some(list),
            None => None,
        }
    }

    /// In order.
    #[inline]
    pub fn items(&self) -> &[T]
        ensures { result.now ≡ self.now }
    {
        match &self.held {
            Some(list) => list.as_slice(),
            None => &[],
        }
    }
}

impl<T: Copy + Drop> BoxedList<T> {
    /// An equal value.
    pub fn copy(&self) -> Result<BoxedList<T>, NoMemory>
        ensures { IfOk result (λ l. l ≡ self.now) }
    {
        match &self.held {
            Some(list) => BoxedList::of(Vec::from_slice(*list.allocator(), list.as_slice())?),
            None => Ok(BoxedList::new()),
        }
    }
}
