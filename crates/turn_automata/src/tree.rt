//! Lists of steps that share their beginnings.
ghost use Rattle.std.specs.Prelude.{◌≡◌, ◌<◌, List, [], ◌∷◌, ◌++◌, length, IfOk, OnOk, IfSome, IfNone, Contains};
ghost use Rattle.road_base.specs.declared.ids.Step.{Step};
ghost use Rattle.turn_automata.specs.Trees.{Stands, IsGrownBy, IsClosed};

use crate::edges::Edge;
use indexmap::IndexSet;
use road_base::{NoMemory, Step};
use std::alloc::Global;
use std::marker::Model;

/// Lists of steps, each grown from another by one step, numbered in the order of their coming. The empty list has the
/// number 0, and the edge with the index k leads to the list with the number k + 1. Contracts see the lists.
#[derive(Drop)]
pub struct Tree {
    edges: IndexSet<Edge>,
}

impl Model for Tree {
    ghost use Rattle.std.specs.Prelude.{List};
    ghost use Rattle.road_base.specs.declared.ids.Step.{Step};
    ghost use Rattle.turn_automata.specs.Trees.{lists_of, IsTree};

    ghost Value = { List (List Step) };

    ghost view = { λ t. lists_of t.edges.keys };

    ghost invariant = { λ t. IsTree t.edges.keys };
}

impl Tree {
    /// The empty list alone. Takes no memory.
    pub fn new(alloc: Global) -> Tree
        ensures { result ≡ [] ∷ [] }
    {
        Tree {
            edges: IndexSet::new(alloc),
        }
    }

    /// How many lists there are.
    pub fn len(&self) -> usize
        ensures { result ≡ length self.now }
    {
        self.edges.len() + 1
    }

    /// A law: each list is there once, and with it all that it begins with.
    pub fn closed(&self)
        ensures { IsClosed self.now }
    {
        let _edges = &self.edges;
    }

    /// The number of the list that is this one with the step behind it, None where it isn't there.
    pub fn child(&self, list: usize, step: Step) -> Option<usize>
        ensures within { IfSome result (λ child. child < length self.now) }
        ensures some { IfSome result (λ child. (p : List Step) → Stands self.now list p
            → Stands self.now child (p ++ step ∷ [])) }
        ensures none { IfNone result ((p : List Step) → Stands self.now list p → Contains self.now (p ++ step ∷ [])
            → ⊥) }
    {
        let edge = Edge { from: list, step };
        let index = self.edges.get_index_of(&edge)?;
        // The length of a set is below 2^63, so the sum fits.
        let edges = self.edges.len();
        prove!(index < edges);
        Some(index + 1)
    }

    /// The list from which this one grew, and its last step.
    pub fn edge(&self, list: usize) -> (usize, Step)
        requires grown { 0 < list }
        requires within { list < length self.now }
        ensures less { result.0 < list }
        ensures is { (p : List Step) → Stands self.now result.0 p → Stands self.now list (p ++ result.1 ∷ []) }
    {
        let edge = self.edges[list - 1];
        (edge.from, edge.step)
    }

    /// The number of the list that is this one with the step behind it, which joins the others where it is new.
    pub fn add(&mut self, list: usize, step: Step) -> Result<usize, NoMemory>
        requires { list < length self.old }
        ensures number { IfOk result (λ child. (p : List Step) → Stands self.old list p
            → Stands self.new child (p ++ step ∷ [])) }
        ensures grown { OnOk result ((p : List Step) → Stands self.old list p
            → IsGrownBy self.old (p ++ step ∷ []) self.new) }
    {
        let (index, _) = self.edges.insert_full(Edge { from: list, step })?;
        // The length of a set is below 2^63, so the sum fits.
        let edges = self.edges.len();
        prove!(index < edges);
        Ok(index + 1)
    }
}

/// How many steps the list has, one by one.
pub fn list_len(tree: &Tree, list: usize) -> usize
    requires { list < length tree.now }
    ensures { (p : List Step) → Stands tree.now list p → result ≡ length p }
{
    tree.closed();
    let mut rest = list;
    let mut len = 0;
    while rest > 0 {
        let (from, _) = tree.edge(rest);
        rest = from;
        len += 1;
    }
    len
}
