//! Groups of items in one list.
ghost use Rattle.std.specs.Prelude.{◌≡◌, ◌<◌, ◌≤◌, ◌-◌, ◌++◌, ◌∷◌, [], length, take, drop, slice_get, Some, OnOk};
ghost use Rattle.std.specs.Prelude.{OnErr, IfOk};
ghost use Rattle.std.specs.List.{flat_map};
ghost use Rattle.ordered_lists.specs.Groups.{groups_of, AreEnds, start_at};

use std::alloc::{AllocError, Global};
use std::marker::Model;

/// Groups of items, one behind the other in one list. Contracts see the list of groups.
#[derive(Drop)]
pub struct Groups<T: Copy + Drop> {
    items: Vec<T>,
    ends: Vec<usize>,
}

impl<T: Copy + Drop> Model for Groups<T> {
    ghost use Rattle.std.specs.Prelude.{List};
    ghost use Rattle.ordered_lists.specs.Groups.{groups_of, AreEnds};

    ghost Value = { List (List T) };

    ghost view = { λ g. groups_of 0 g.items.items g.ends.items };

    ghost invariant = { λ g. AreEnds 0 g.items.items g.ends.items };
}

impl<T: Copy + Drop> Groups<T> {
    /// No groups. Takes no memory.
    pub fn new(alloc: Global) -> Groups<T>
        ensures { result ≡ [] }
    {
        Groups {
            items: Vec::new(alloc),
            ends: Vec::new(alloc),
        }
    }

    /// No groups. The memory for so many groups, and so many items in all, is taken at once.
    pub fn with_capacity(
        alloc: Global,
        groups: usize,
        items: usize,
    ) -> Result<Groups<T>, AllocError>
        ensures { IfOk result (λ g. g ≡ []) }
    {
        let items = Vec::with_capacity(alloc, items)?;
        let ends = Vec::with_capacity(alloc, groups)?;
        Ok(Groups { items, ends })
    }

    /// How many groups there are.
    pub fn len(&self) -> usize
        ensures { result ≡ length self.now }
    {
        self.ends.len()
    }

    /// The items of all groups, one group behind the other.
    pub fn items(&self) -> &[T]
        ensures { result.now ≡ flat_map (λ group. group) self.now }
    {
        self.items.as_slice()
    }

    /// The items of the group at this place.
    pub fn at(&self, place: usize) -> &[T]
        requires { place < length self.now }
        ensures { slice_get self.now place ≡ Some result.now }
    {
        group_in(self.items.as_slice(), self.ends.as_slice(), place)
    }

    /// Adds a group behind the others. Where no memory is found nothing is added.
    pub fn push(&mut self, group: &[T]) -> Result<(), AllocError>
        ensures ok { OnOk result (self.new ≡ self.old ++ group.now ∷ []) }
        ensures err { OnErr result (self.new ≡ self.old) }
    {
        let before = self.items.len();
        self.items.extend_from_slice(group)?;
        match self.ends.push(self.items.len()) {
            Ok(()) => Ok(()),
            Err(_) => {
                self.items.truncate(before);
                Err(AllocError)
            }
        }
    }
}

/// The items of the group at a place, of groups with these ends.
fn group_in<'a, T>(items: &'a [T], ends: &[usize], place: usize) -> &'a [T]
    requires ends { AreEnds 0 items.now ends.now }
    requires place { place < length ends.now }
    ensures { slice_get (groups_of 0 items.now ends.now) place ≡ Some result.now }
{
    part(items, start_of(ends, place), ends[place])
}

/// Where the group at a place begins.
fn start_of(ends: &[usize], place: usize) -> usize
    requires { place ≤ length ends.now }
    ensures { result ≡ start_at 0 ends.now place }
{
    if place == 0 { 0 } else { ends[place - 1] }
}

fn part<T>(items: &[T], from: usize, end: usize) -> &[T]
    requires rising { from ≤ end }
    requires within { end ≤ length items.now }
    ensures { result.now ≡ take (end - from) (drop from items.now) }
{
    &items[from..end]
}
