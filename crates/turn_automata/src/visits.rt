//! All steps of all words, by the lists of the steps before them.
ghost use Rattle.std.specs.Prelude.{◌≡◌, ◌+◌, ◌<◌, ◌↔◌, List, length, IfOk, OnOk, IfSome, IfNone, Contains, drop};
ghost use Rattle.road_base.specs.declared.ids.Step.{Step};
ghost use Rattle.turn_automata.specs.Trees.{IsClosed, Rises};
ghost use Rattle.turn_automata.specs.Watched.{IsWatchable};
ghost use Rattle.turn_automata.specs.Visits.{IsVisit, IsNext, IsLast, AreVisits, AreFirst, AreFollowed};
ghost use Rattle.turn_automata.specs.Work.{work};

use crate::tree::Tree;
use restrictions::Word;
use road_base::NoMemory;
use std::alloc::Global;

/// A step of a word: which word, how many steps stand before the step, and the number of these steps' list.
#[derive(Clone, Copy, Drop)]
pub struct Visit {
    pub word: usize,
    pub depth: usize,
    pub state: usize,
}

/// The proper prefixes of words, and all visits of the words' steps.
#[derive(Drop)]
pub struct Reading {
    pub tree: Tree,
    pub visits: Vec<Visit>,
}

/// Reads the words side by side, so that the tree's lists rise in length.
pub fn read_words(alloc: Global, words: &[Word]) -> Result<Reading, NoMemory>
    ensures lists { IfOk result (λ r. (p : List Step) → Contains r.tree p ↔ IsWatchable words.now p) }
    ensures closed { IfOk result (λ r. IsClosed r.tree) }
    ensures rises { IfOk result (λ r. Rises r.tree) }
    ensures visits { IfOk result (λ r. AreVisits words.now r.tree r.visits.items) }
{
    let mut tree = Tree::new(alloc);
    let mut visits = first_visits(alloc, words)?;
    let mut at = 0;
    while at < visits.len() {
        follow(words, &mut tree, &mut visits, at)?;
        at += 1;
    }
    tree.closed();
    Ok(Reading { tree, visits })
}

fn first_visits(alloc: Global, words: &[Word]) -> Result<Vec<Visit>, NoMemory>
    ensures { IfOk result (λ v. AreFirst words.now v.items (length words.now)) }
{
    let mut visits = Vec::new(alloc);
    for word in 0..words.len() {
        add_first(words, word, &mut visits)?;
    }
    Ok(visits)
}

fn add_first(words: &[Word], word: usize, visits: &mut Vec<Visit>) -> Result<(), NoMemory>
    requires within { word < length words.now }
    requires before { AreFirst words.now visits.old.items word }
    ensures { OnOk result (AreFirst words.now visits.new.items (word + 1)) }
{
    if words[word].steps.items().is_empty() {
        return Ok(());
    }
    visits.push(Visit {
        word,
        depth: 0,
        state: 0,
    })?;
    Ok(())
}

/// Adds the visit of the step behind the one that the visit with this number is of.
fn follow(
    words: &[Word],
    tree: &mut Tree,
    visits: &mut Vec<Visit>,
    at: usize,
) -> Result<(), NoMemory>
    requires within { at < length visits.old.items }
    requires before { AreFollowed words.now tree.old visits.old.items at }
    ensures followed { OnOk result (AreFollowed words.now tree.new visits.new.items (at + 1)) }
    ensures less { OnOk result (work words.now (drop (at + 1) visits.new.items) < work words.now
        (drop at visits.old.items)) }
{
    match next_of(words, tree, visits[at])? {
        Some(next) => {
            visits.push(next)?;
            Ok(())
        }
        None => Ok(()),
    }
}

/// The visit of the step behind, None where there is none.
fn next_of(words: &[Word], tree: &mut Tree, visit: Visit) -> Result<Option<Visit>, NoMemory>
    requires { IsVisit words.now tree.old visit }
    ensures none { IfOk result (λ next. IfNone next (IsLast words.now visit × (tree.new ≡ tree.old))) }
    ensures some { IfOk result (λ next. IfSome next (IsNext words.now tree.old visit tree.new)) }
{
    let steps = words[visit.word].steps.items();
    let depth = visit.depth + 1;
    if depth == steps.len() {
        return Ok(None);
    }
    let state = tree.add(visit.state, steps[visit.depth])?;
    Ok(Some(Visit {
        word: visit.word,
        depth,
        state,
    }))
}
