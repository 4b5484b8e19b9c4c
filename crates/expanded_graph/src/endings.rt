//! The states in which contexts of two pieces or more end, found by the pieces with which they end.
ghost use Rattle.std.specs.Prelude.{◌≡◌, ◌<◌, ◌≤◌, ◌-◌, ◌↔◌, length, filter, take, drop, Some, IfOk, OnOk};
ghost use Rattle.std.specs.Prelude.{IsTrue, false, slice_index_or};
ghost use Rattle.std.specs.List.Sorted.{IsSortedByKey, IsStableByKey};
ghost use Rattle.road_model.specs.declared.lists.PieceName.{PieceName};
ghost use Rattle.road_model.specs.Orders.{name_cmp};
ghost use Rattle.expanded_graph.specs.declared.endings.Ending.{Ending as EndingOf};
ghost use Rattle.expanded_graph.specs.Contexts.{IsEnding, AreEndings, EndsWithName, same_name};

use crate::states::States;
use road_base::NoMemory;
use road_model::PieceName;
use road_model::laws::name_order;
use std::alloc::Global;

/// A state in which a context may end, and the piece that it ends with.
#[derive(Clone, Copy, Debug)]
pub struct Ending {
    pub piece: PieceName,
    pub state: usize,
}

/// The states in which contexts may end, by the piece with which they end, and those of a piece by their numbers. Takes
/// the time to look at each state, and to sort those.
pub fn endings_of(alloc: Global, states: &States) -> Result<Vec<Ending>, NoMemory>
    requires { length states.now.facts.items ≡ length states.now.automaton.states }
    ensures { IfOk result (λ v. AreEndings states.now.automaton states.now.facts.items v.items) }
{
    name_order();
    states.automaton.closed();
    let mut endings = Vec::new(alloc);
    for number in 1..states.facts.len() {
        if let Some(piece) = piece_ended(states, number) {
            endings.push(Ending {
                piece,
                state: number,
            })?;
        }
    }
    put_in_order(&mut endings)?;
    Ok(endings)
}

/// The piece that a context may end with in the state with this number.
fn piece_ended(states: &States, number: usize) -> Option<PieceName>
    requires count { length states.now.facts.items ≡ length states.now.automaton.states }
    requires grown { 0 < number }
    requires within { number < length states.now.facts.items }
    ensures { (n : PieceName) → (result ≡ Some n) ↔ (IsEnding states.now.automaton states.now.facts.items n.way number
        × EndsWithName states.now.facts.items number n) }
{
    states.automaton.closed();
    let facts = states.facts[number];
    let (before, _) = states.automaton.edge(number);
    if before == 0 {
        return None;
    }
    if !facts.is_legal {
        return None;
    }
    facts.ends
}

/// By piece. Those of one piece keep their order.
fn put_in_order(endings: &mut Vec<Ending>) -> Result<(), NoMemory>
    ensures sorted { OnOk result (IsSortedByKey (λ e. e.piece) name_cmp endings.new.items) }
    ensures stable { OnOk result (IsStableByKey (λ e. e.piece) name_cmp endings.old.items endings.new.items) }
{
    name_order();
    endings.sort_by_key(|ending| ending.piece)?;
    Ok(())
}

/// Those that end with the piece. Takes the time of the logarithm of their number.
pub fn endings_with(endings: &[Ending], piece: PieceName) -> &[Ending]
    requires { IsSortedByKey (λ e. e.piece) name_cmp endings.now }
    ensures { result.now ≡ filter (λ e. same_name e.piece piece) endings.now }
{
    name_order();
    let low = endings.partition_point(|ending| ending.piece.cmp(&piece).is_lt());
    if is_apart(endings, low, piece) {
        return part(endings, low, low);
    }
    let high = endings.partition_point(|ending| ending.piece.cmp(&piece).is_le());
    part(endings, low, high)
}

/// Whether no ending is at the position, or one with another piece.
fn is_apart(endings: &[Ending], at: usize, piece: PieceName) -> bool
    ensures { IsTrue result → (d : EndingOf) → at < length endings.now
        → same_name (slice_index_or endings.now at d).piece piece ≡ false }
{
    name_order();
    if at >= endings.len() {
        return true;
    }
    !endings[at].piece.cmp(&piece).is_eq()
}

/// Those from the one position on, below the other.
fn part(endings: &[Ending], low: usize, high: usize) -> &[Ending]
    requires rising { low ≤ high }
    requires within { high ≤ length endings.now }
    ensures { result.now ≡ take (high - low) (drop low endings.now) }
{
    &endings[low..high]
}
