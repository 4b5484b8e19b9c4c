//! Which steps the words stop behind which lists.
ghost use Rattle.std.specs.Prelude.{◌≡◌, ℕ, ◌<◌, ◌+◌, ◌↔◌, List, [], ◌∷◌, ◌++◌, length, true, false, IfOk, OnOk};
ghost use Rattle.std.specs.Prelude.{IsTrue, Some, slice_get, Contains};
ghost use Rattle.road_base.specs.declared.ids.Step.{Step};
ghost use Rattle.restrictions.specs.declared.word_list.Word.{Word};
ghost use Rattle.turn_automata.specs.Trees.{Stands, IsClosed};
ghost use Rattle.turn_automata.specs.FailureLinks.{Descends};
ghost use Rattle.turn_automata.specs.Watched.{NoIn, Stops};
ghost use Rattle.turn_automata.specs.Visits.{AreVisits};
ghost use Rattle.turn_automata.specs.declared.visits.Visit.{Visit};
ghost use Rattle.turn_automata.specs.Turns.{AreMarked, AreTurns, StopsAt, IsWatching};

use crate::tree::Tree;
use crate::visits::Visit;
use restrictions::Word;
use road_base::{NoMemory, Step};
use std::alloc::Global;
use std::collections::BTreeSet;

/// By the numbers of lists: the steps with which a No word ends, those that an Only word demands, and the lists behind
/// which some step is demanded.
#[derive(Drop)]
pub struct Turns {
    pub ends: BTreeSet<(usize, Step)>,
    pub demanded: BTreeSet<(usize, Step)>,
    pub demanding: BTreeSet<usize>,
}

impl Turns {
    /// Whether the words stop the step behind this list itself, not looking at what ends it.
    fn stop_at(&self, list: usize, step: Step) -> bool
        ensures { (W : List Word) (ps : List (List Step)) (p : List Step) → AreTurns W ps self.now → Stands ps list p
            → IsTrue result ↔ StopsAt W p step }
    {
        if self.ends.contains(&(list, step)) {
            return true;
        }
        if !self.demanding.contains(&list) {
            return false;
        }
        !self.demanded.contains(&(list, step))
    }
}

/// Whether the words stop the step behind this list. Takes three look-ups for each list on its failure links.
pub fn stops(turns: &Turns, links: &[usize], list: usize, step: Step) -> bool
    requires within { list < length links.now }
    requires descends { Descends links.now }
    ensures { (W : List Word) (ps : List (List Step)) → IsWatching W ps links.now turns.now → (NoIn W [] → ⊥)
        → (p : List Step) → Stands ps list p → IsTrue result ↔ Stops W p step }
{
    let mut end = list;
    while end > 0 {
        if turns.stop_at(end, step) {
            return true;
        }
        end = links[end];
    }
    turns.stop_at(0, step)
}

/// The turns of all words.
pub fn turns_of(
    alloc: Global,
    words: &[Word],
    tree: &Tree,
    visits: &[Visit],
) -> Result<Turns, NoMemory>
    requires { AreVisits words.now tree.now visits.now }
    ensures { IfOk result (λ t. AreTurns words.now tree.now t) }
{
    tree.closed();
    let mut turns = Turns {
        ends: BTreeSet::new(alloc),
        demanded: BTreeSet::new(alloc),
        demanding: BTreeSet::new(alloc),
    };
    for visit in visits {
        mark(words, *visit, &mut turns)?;
    }
    Ok(turns)
}

fn mark(words: &[Word], visit: Visit, turns: &mut Turns) -> Result<(), NoMemory>
    requires within { visit.word < length words.now }
    requires inside { (w : Word) → slice_get words.now visit.word ≡ Some w → visit.depth < length w.steps }
    ensures { OnOk result ((vs : List Visit) → AreMarked words.now vs turns.old
        → AreMarked words.now (vs ++ visit ∷ []) turns.new) }
{
    let word = &words[visit.word];
    if word.only {
        mark_only(word, visit, turns)
    } else {
        mark_no(word, visit, turns)
    }
}

/// Marks the step if it ends the No word.
fn mark_no(word: &Word, visit: Visit, turns: &mut Turns) -> Result<(), NoMemory>
    requires no { word.now.only ≡ false }
    requires inside { visit.depth < length word.now.steps }
    ensures { OnOk result ((W : List Word) (vs : List Visit) → slice_get W visit.word ≡ Some word.now
        → AreMarked W vs turns.old → AreMarked W (vs ++ visit ∷ []) turns.new) }
{
    let steps = word.steps.items();
    if visit.depth + 1 < steps.len() {
        return Ok(());
    }
    turns.ends.insert((visit.state, steps[visit.depth]))?;
    Ok(())
}

/// Marks the step if the Only word demands it.
fn mark_only(word: &Word, visit: Visit, turns: &mut Turns) -> Result<(), NoMemory>
    requires only { word.now.only ≡ true }
    requires inside { visit.depth < length word.now.steps }
    ensures { OnOk result ((W : List Word) (vs : List Visit) → slice_get W visit.word ≡ Some word.now
        → AreMarked W vs turns.old → AreMarked W (vs ++ visit ∷ []) turns.new) }
{
    if visit.depth < word.binding as usize {
        return Ok(());
    }
    let steps = word.steps.items();
    turns.demanded.insert((visit.state, steps[visit.depth]))?;
    turns.demanding.insert(visit.state)?;
    Ok(())
}
