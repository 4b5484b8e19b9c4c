//! The rules that speak of words.
ghost use Rattle.std.specs.Prelude.{◌≡◌, ◌↔◌, ◌<◌, ◌≤◌, ◌-◌, ◌∷◌, ◌++◌, [], List, length, take, drop, Contains};
ghost use Rattle.std.specs.Prelude.{IfSome, IfNone, IsTrue};
ghost use Rattle.road_base.specs.declared.ids.Step.{Step};
ghost use Rattle.restrictions.specs.declared.word_list.Word.{Word};
ghost use Rattle.turn_automata.specs.Machines.{Watches};
ghost use Rattle.turn_automata.specs.Watched.{Must, Stops};
ghost use Rattle.drive_judging.specs.DriveWords.{AreInWordOrder, steps_cmp};
ghost use Rattle.drive_judging.specs.Judging.{Demands, DemandsNext, EndsDriven, IsLeastIf, IsWordRule, LeavesIn};
ghost use Rattle.drive_judging.specs.Judging.{LeavesBehind, WordWith, lesser};

use crate::verdict::Rule;
use restrictions::Word;
use road_base::{RelationId, Step};
use std::cmp::Ordering;
use turn_automata::{Automaton, State};

/// The first rule on words that the step breaks, where the words stop it. The state is that of the steps before, and
/// the words are sorted by their steps.
///
/// Compares each No word once with the end of the steps. Where none ends there, a search finds for each length up to
/// that of the state the words that begin with so many of the last steps, and these are looked at twice.
pub fn word_rule(automaton: &Automaton, state: State, before: &[Step], step: Step) -> Rule
    requires known { state.0 < length automaton.now.states }
    requires watches { Watches automaton.now state.0 before.now }
    requires stops { Stops automaton.now.words before.now step }
    requires sorted { AreInWordOrder automaton.now.words }
    ensures { IsWordRule automaton.now.words before.now step result }
{
    if let Some(relation) = least_no(automaton.words().items(), before, step) {
        return Rule::No(relation);
    }
    let Some(relation) = least_only(automaton, state, before, step) else {
        unreachable!()
    };
    Rule::Only(relation)
}

/// The least relation with a No word that ends the steps before and this one.
fn least_no(words: &[Word], before: &[Step], step: Step) -> Option<RelationId>
    ensures { IsLeastIf (WordWith words.now (EndsDriven before.now step)) result }
{
    let mut least = None;
    for word in words {
        least = lesser(least, no_of(word, before, step));
    }
    least
}

/// The word's relation, if it is a No word that ends the steps before and this one.
fn no_of(word: &Word, before: &[Step], step: Step) -> Option<RelationId>
    ensures some { IfSome result (λ r. (r ≡ word.now.relation) × EndsDriven before.now step word.now) }
    ensures none { IfNone result (EndsDriven before.now step word.now → ⊥) }
{
    if !word.only && ends_driven(word.steps.items(), before, step) {
        Some(word.relation)
    } else {
        None
    }
}

/// Whether the steps before and this one end with the word.
fn ends_driven(word: &[Step], before: &[Step], step: Step) -> bool
    ensures { IsTrue result ↔ ((front : List Step) × (before.now ++ step ∷ [] ≡ front ++ word.now)) }
{
    match word.split_last() {
        Some((last, start)) => *last == step && before.ends_with(start),
        None => true,
    }
}

/// The least relation with an Only word that binds the end of the steps before, while none demands the step there.
fn least_only(
    automaton: &Automaton,
    state: State,
    before: &[Step],
    step: Step,
) -> Option<RelationId>
    requires known { state.0 < length automaton.now.states }
    requires watches { Watches automaton.now state.0 before.now }
    requires sorted { AreInWordOrder automaton.now.words }
    ensures { IsLeastIf (LeavesIn automaton.now.words before.now step) result }
{
    let words = automaton.words().items();
    let longest = automaton.watched_len(state);
    let mut least = None;
    for count in 0..longest + 1 {
        let driven = &before[before.len() - count..];
        least = lesser(
            least,
            least_left(beginning_with(words, driven), driven, step),
        );
    }
    least
}

/// Those of the words, which are sorted by their steps, that begin with these.
fn beginning_with<'a>(words: &'a [Word], driven: &[Step]) -> &'a [Word]
    requires { AreInWordOrder words.now }
    ensures { (w : Word) → Contains result.now w
        ↔ (Contains words.now w × ((rest : List Step) × (w.steps ≡ driven.now ++ rest))) }
{
    let low = words.partition_point(|word| compare_front(word, driven).is_lt());
    let high = words.partition_point(|word| compare_front(word, driven).is_le());
    part(words, low, high)
}

/// Those from the one place up to the other.
fn part(words: &[Word], low: usize, high: usize) -> &[Word]
    requires rising { low ≤ high }
    requires within { high ≤ length words.now }
    ensures { result.now ≡ take (high - low) (drop low words.now) }
{
    &words[low..high]
}

/// How the word's first steps, as many as are driven or all, compare with the driven ones.
fn compare_front(word: &Word, driven: &[Step]) -> Ordering
    ensures { result ≡ steps_cmp (take (length driven.now) word.now.steps) driven.now }
{
    let steps = word.steps.items();
    let count = driven.len().min(steps.len());
    steps[..count].cmp(driven)
}

/// The least relation with an Only word that binds behind these steps, if none demands the step there.
fn least_left(words: &[Word], driven: &[Step], step: Step) -> Option<RelationId>
    ensures { IsLeastIf (LeavesBehind words.now driven.now step) result }
{
    if demands(words, driven, step) {
        None
    } else {
        least_bound(words, driven)
    }
}

/// Whether an Only word demands the step behind these.
fn demands(words: &[Word], driven: &[Step], step: Step) -> bool
    ensures { IsTrue result ↔ Must words.now driven.now step }
{
    for word in words {
        if demands_step(word, driven, step) {
            return true;
        }
    }
    false
}

/// Whether it is an Only word that demands the step behind these.
fn demands_step(word: &Word, driven: &[Step], step: Step) -> bool
    ensures { IsTrue result ↔ DemandsNext driven.now word.now step }
{
    match demanded(word, driven) {
        Some(next) => next == step,
        None => false,
    }
}

/// The least relation with an Only word that demands a step behind these.
fn least_bound(words: &[Word], driven: &[Step]) -> Option<RelationId>
    ensures { IsLeastIf (WordWith words.now (Demands driven.now)) result }
{
    let mut least = None;
    for word in words {
        least = lesser(least, bound_of(word, driven));
    }
    least
}

/// The word's relation, if it is an Only word that demands a step behind these.
fn bound_of(word: &Word, driven: &[Step]) -> Option<RelationId>
    ensures some { IfSome result (λ r. (r ≡ word.now.relation) × Demands driven.now word.now) }
    ensures none { IfNone result (Demands driven.now word.now → ⊥) }
{
    match demanded(word, driven) {
        Some(_) => Some(word.relation),
        None => None,
    }
}

/// The step that the word demands behind these, if it is an Only word that does.
fn demanded(word: &Word, driven: &[Step]) -> Option<Step>
    ensures some { IfSome result (DemandsNext driven.now word.now) }
    ensures none { IfNone result (Demands driven.now word.now → ⊥) }
{
    if word.only && word.binding as usize <= driven.len() {
        next_behind(word.steps.items(), driven)
    } else {
        None
    }
}

/// The step behind these, if they begin the word and it goes on.
fn next_behind(word: &[Step], driven: &[Step]) -> Option<Step>
    ensures some { IfSome result (λ next. (rest : List Step) × (word.now ≡ driven.now ++ next ∷ rest)) }
    ensures none { IfNone result ((next : Step) (rest : List Step) → word.now ≡ driven.now ++ next ∷ rest → ⊥) }
{
    if !word.starts_with(driven) {
        return None;
    }
    match word.get(driven.len()) {
        Some(next) => Some(*next),
        None => None,
    }
}

/// The lesser of the relations, if there is any.
fn lesser(one: Option<RelationId>, other: Option<RelationId>) -> Option<RelationId>
    ensures { result ≡ lesser one other }
{
    match (one, other) {
        (Some(a), Some(b)) => { if a <= b { Some(a) } else { Some(b) } }
        (Some(a), None) => Some(a),
        (None, b) => b,
    }
}
