//! Numbers at the contexts of a graph, in their order.
ghost use Rattle.std.specs.Prelude.{◌≡◌, slice_get};

use std::marker::Model;

/// A number or nothing for each context of a graph, in the order of the graph. Contracts see the list of them.
#[derive(Drop)]
pub struct Potentials {
    list: Vec<Option<u128>>,
}

impl Model for Potentials {
    ghost use Rattle.std.specs.Prelude.{ℕ, List, Option};

    ghost Value = { List (Option ℕ) };

    ghost view = { λ l. l.list.items };
}

impl Potentials {
    /// Takes no memory.
    pub fn from_list(list: Vec<Option<u128>>) -> Potentials
        ensures { result ≡ list.items }
    {
        Potentials { list }
    }

    /// What stands at the place, None exactly past the end. Takes no memory.
    pub fn get(&self, place: usize) -> Option<Option<u128>>
        ensures { result ≡ slice_get self.now place }
    {
        self.list.get(place).copied()
    }

    /// In the order of the graph.
    pub fn items(&self) -> &[Option<u128>]
        ensures { result.now ≡ self.now }
    {
        self.list.as_slice()
    }
}
