//! The automaton of a list of words.
ghost use Rattle.std.specs.Prelude.{◌≡◌, ◌↔◌, ◌<◌, List, [], ◌∷◌, ◌++◌, length, false, None, IfOk, IfSome, IsTrue};
ghost use Rattle.std.specs.Prelude.{Contains};
ghost use Rattle.road_base.specs.declared.ids.Step.{Step};
ghost use Rattle.turn_automata.specs.Trees.{IsClosed};
ghost use Rattle.turn_automata.specs.Watched.{IsWatchable, NoIn, Stops};
ghost use Rattle.turn_automata.specs.Machines.{StandsFor, Watches};

use crate::failure_links::{failure_links_of, longest};
use crate::tree::{Tree, list_len};
use crate::turns::{Turns, stops, turns_of};
use crate::visits::{Reading, read_words};
use restrictions::{Word, WordList};
use road_base::{NoMemory, Step};
use std::alloc::Global;
use std::marker::Model;

/// A state of an automaton, by its number. It stands for a proper prefix of a word, or for no steps.
#[derive(Clone, Copy, Debug, PartialEq, Eq)]
pub struct State(pub usize);

/// Watches for words. Contracts see the words, and the list of steps for which each state stands.
#[derive(Drop)]
pub struct Automaton {
    words: WordList,
    tree: Tree,
    links: Vec<usize>,
    turns: Turns,
    stopped: bool,
}

impl Model for Automaton {
    ghost use Rattle.turn_automata.specs.Machines.{Machine, IsMachine};

    ghost Value = { Machine };

    ghost view = { λ a. record { words = a.words; states = a.tree } };

    ghost invariant = { λ a. IsMachine a.words a.tree a.links.items a.turns a.stopped };
}

impl Automaton {
    /// The automaton of any words, also of such as have no steps, one step, or the binding length 0.
    pub fn of(alloc: Global, words: &WordList) -> Result<Automaton, NoMemory>
        ensures { IfOk result (λ a. a.words ≡ words.now) }
    {
        let list = words.items();
        let Reading { tree, visits } = read_words(alloc, list)?;
        let links = failure_links_of(alloc, &tree)?;
        let turns = turns_of(alloc, list, &tree, visits.as_slice())?;
        let stopped = has_empty_no(list);
        let words = words.copy()?;
        Ok(Automaton {
            words,
            tree,
            links,
            turns,
            stopped,
        })
    }

    /// The words that it watches for.
    pub fn words(&self) -> &WordList
        ensures { result.now ≡ self.now.words }
    {
        &self.words
    }

    /// How many states there are. The first one, with the number 0, stands for no steps.
    pub fn len(&self) -> usize
        ensures { result ≡ length self.now.states }
    {
        self.tree.len()
    }

    /// The number of the state whose list is this one's without its last step, and that step.
    pub fn edge(&self, state: usize) -> (usize, Step)
        requires grown { 0 < state }
        requires within { state < length self.now.states }
        ensures less { result.0 < state }
        ensures is { (p : List Step) → StandsFor self.now result.0 p → StandsFor self.now state (p ++ result.1 ∷ []) }
    {
        self.tree.edge(state)
    }

    /// The states stand for the proper prefixes of the words and for no steps, each for another list. Does nothing.
    pub fn closed(&self)
        ensures closed { IsClosed self.now.states }
        ensures lists { (p : List Step) → Contains self.now.states p ↔ IsWatchable self.now.words p }
    {
        let _tree = &self.tree;
    }

    /// The state after this step alone. Takes no memory.
    pub fn start(&self, step: Step) -> State
        ensures state { Watches self.now result.0 (step ∷ []) }
        ensures known { result.0 < length self.now.states }
    {
        State(longest(&self.tree, self.links.as_slice(), 0, step))
    }

    /// The state after one more step, None exactly where the words stop it: where a No word ends with the step, or some
    /// step must come and this one isn't one that must. The state must be one of this automaton's. Takes no memory.
    pub fn go(&self, state: State, step: Step) -> Option<State>
        requires { state.0 < length self.now.states }
        ensures none { (p : List Step) → StandsFor self.now state.0 p → (result ≡ None) ↔ Stops self.now.words p step }
        ensures some { IfSome result (λ next. (p : List Step) → StandsFor self.now state.0 p
            → Watches self.now next.0 (p ++ step ∷ [])) }
        ensures stopped { (d : List Step) → Watches self.now state.0 d → (result ≡ None) ↔ Stops self.now.words d step }
        ensures driven { IfSome result (λ next. (d : List Step) → Watches self.now state.0 d
            → Watches self.now next.0 (d ++ step ∷ [])) }
        ensures known { IfSome result (λ next. next.0 < length self.now.states) }
    {
        if self.stopped || stops(&self.turns, self.links.as_slice(), state.0, step) {
            return None;
        }
        Some(State(longest(&self.tree, self.links.as_slice(), state.0, step)))
    }

    /// How many steps the state's list has. Takes time of the order of their number.
    pub fn watched_len(&self, state: State) -> usize
        requires { state.0 < length self.now.states }
        ensures { (p : List Step) → StandsFor self.now state.0 p → result ≡ length p }
    {
        list_len(&self.tree, state.0)
    }
}

/// Whether a No word has no steps.
fn has_empty_no(words: &[Word]) -> bool
    ensures { IsTrue result ↔ NoIn words.now [] }
{
    for word in words {
        if is_empty_no(word) {
            return true;
        }
    }
    false
}

fn is_empty_no(word: &Word) -> bool
    ensures { IsTrue result ↔ ((word.now.only ≡ false) × (word.now.steps ≡ [])) }
{
    !word.only && word.steps.items().is_empty()
}
