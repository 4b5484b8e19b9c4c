//! The longest list of a tree that ends the steps driven.
ghost use Rattle.std.specs.Prelude.{◌≡◌, ◌<◌, ◌≤◌, List, [], ◌∷◌, ◌++◌, length, IfOk};
ghost use Rattle.road_base.specs.declared.ids.Step.{Step};
ghost use Rattle.turn_automata.specs.Trees.{Stands, Rises, IsClosed};
ghost use Rattle.turn_automata.specs.FailureLinks.{IsLongestIn, AreFailureLinks, Descends};

use crate::tree::Tree;
use road_base::{NoMemory, Step};
use std::alloc::Global;

/// The longest list of the tree that ends the given list with the step behind it. `links` need hold no more than the
/// lists up to the given one. Takes one look-up for each list on its failure links, at most as many as the list has
/// steps.
pub fn longest(tree: &Tree, links: &[usize], list: usize, step: Step) -> usize
    requires within { list < length links.now }
    requires descends { Descends links.now }
    ensures within { result < length tree.now }
    ensures longest { AreFailureLinks tree.now links.now → (p : List Step) → Stands tree.now list p
        → IsLongestIn tree.now (p ++ step ∷ []) result }
{
    tree.closed();
    let mut end = list;
    while end > 0 {
        if let Some(child) = tree.child(end, step) {
            return child;
        }
        end = links[end];
    }
    begun(tree, step)
}

/// The list of the step alone, or the empty one.
fn begun(tree: &Tree, step: Step) -> usize
    ensures within { result < length tree.now }
    ensures longest { IsLongestIn tree.now (step ∷ []) result }
{
    tree.closed();
    match tree.child(0, step) {
        Some(child) => child,
        None => 0,
    }
}

/// For each list of the tree the longest shorter one that ends it. The lists must rise in length.
pub fn failure_links_of(alloc: Global, tree: &Tree) -> Result<Vec<usize>, NoMemory>
    requires { Rises tree.now }
    ensures len { IfOk result (λ v. length v.items ≡ length tree.now) }
    ensures descends { IfOk result (λ v. Descends v.items) }
    ensures links { IfOk result (λ v. AreFailureLinks tree.now v.items) }
{
    tree.closed();
    let mut links = Vec::new(alloc);
    links.push(0)?;
    for list in 1..tree.len() {
        let link = failure_link_of(tree, links.as_slice(), list);
        links.push(link)?;
    }
    Ok(links)
}

fn failure_link_of(tree: &Tree, links: &[usize], list: usize) -> usize
    requires next { length links.now ≡ list }
    requires grown { 0 < list }
    requires within { list < length tree.now }
    requires rises { Rises tree.now }
    requires descends { Descends links.now }
    requires links { AreFailureLinks tree.now links.now }
    ensures less { result < list }
    ensures longest { (x : Step) (d : List Step) → Stands tree.now list (x ∷ d) → IsLongestIn tree.now d result }
{
    tree.closed();
    let (from, by) = tree.edge(list);
    if from == 0 {
        0
    } else {
        longest(tree, links, links[from], by)
    }
}
