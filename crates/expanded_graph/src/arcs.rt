//! What may follow a context at the intersection where it ends.
ghost use Rattle.std.specs.Prelude.{◌≡◌, ◌+◌, ◌<◌, ◌^◌, ℕ, List, [], ◌∷◌, ◌++◌, length, slice_get, Contains};
ghost use Rattle.std.specs.Prelude.{Some, IfOk, IfSome, IfNone, IsTrue};
ghost use Rattle.road_base.specs.declared.ids.NodeId.{NodeId};
ghost use Rattle.road_base.specs.declared.ids.Step.{Step};
ghost use Rattle.road_model.specs.declared.lists.TurnArc.{TurnArc};
ghost use Rattle.road_model.specs.Pieces.{Span};
ghost use Rattle.ordered_lists.specs.Orders.{Lists};
ghost use Rattle.road_model.specs.Orders.{name_cmp};
ghost use Rattle.road_model.specs.Blocks.{IsArcEntry};
ghost use Rattle.turn_automata.specs.Machines.{StandsFor};
ghost use Rattle.expanded_graph.specs.declared.states.StateFacts.{StateFacts};
ghost use Rattle.expanded_graph.specs.Coming.{IsComing, IsReachedIn};
ghost use Rattle.expanded_graph.specs.Contexts.{IsReached};
ghost use Rattle.expanded_graph.specs.Intersections.{IsIntersection, AreFree, may_follow};
ghost use Rattle.road_model.specs.Networks.{on};

use crate::coming::Coming;
use crate::intersections::Intersection;
use crate::states::States;
use road_base::{NoMemory, NodeId};
use road_model::laws::{
    context_goes_on, context_target, contexts, name_order, one_name, steps_depart, words_on_ways,
};
use road_model::{Network, Profile, TurnArc, World};
use std::alloc::Global;
use turn_automata::State;
use turn_automata::laws::{watched_decides, watched_grows};
use way_pieces::Departure;

/// Room for so many arcs is taken at once. Most nodes have fewer departures, and of many at a node few may follow.
const FEW: usize = 8;

/// The arcs of the contexts in the state that come to the intersection, ascending by name.
pub fn arcs_at<M: World, P: Profile>(
    alloc: Global,
    coming: &Coming<'_, M, P>,
    state: State,
) -> Result<Vec<TurnArc>, NoMemory>
    requires coming { IsComing coming.now }
    requires state { state.0 < length coming.now.states.now.automaton.states }
    ensures { IfOk result (λ v. (c : List Span) → IsReachedIn coming.now state.0 c
        → Lists (λ a. a.piece) name_cmp (on coming.now.network.now IsArcEntry c) v.items) }
{
    name_order();
    one_name(&coming.network.profile);
    contexts(&coming.network.profile);
    steps_depart(&coming.network.profile);
    context_goes_on(&coming.network.profile);
    let departures = coming.intersection.departures;
    let mut arcs = Vec::with_capacity(alloc, departures.len().min(FEW))?;
    for departure in departures {
        if let Some(arc) = arc_by(coming, state, *departure) {
            arcs.push(arc)?;
        }
    }
    Ok(arcs)
}

/// The arc by the departure: none where it may not follow at the intersection, or a restriction forbids it.
pub fn arc_by<M: World, P: Profile>(
    coming: &Coming<'_, M, P>,
    state: State,
    departure: Departure,
) -> Option<TurnArc>
    requires coming { IsComing coming.now }
    requires state { state.0 < length coming.now.states.now.automaton.states }
    requires departure { Contains coming.now.intersection.departures.now departure }
    ensures named { IfSome result (λ a. a.piece ≡ departure.piece) }
    ensures arc { IfSome result (λ a. (c : List Span) → IsReachedIn coming.now state.0 c
        → on coming.now.network.now IsArcEntry c a) }
    ensures none { IfNone result ((c : List Span) (a : TurnArc)
        → IsReachedIn coming.now state.0 c
        → on coming.now.network.now IsArcEntry c a
        → a.piece ≡ departure.piece
        → ⊥) }
{
    name_order();
    one_name(&coming.network.profile);
    steps_depart(&coming.network.profile);
    context_goes_on(&coming.network.profile);
    if !may_follow(&coming.intersection, coming.from, departure) {
        return None;
    }
    if state.0 == 0 && coming.intersection.is_free {
        return Some(arc_alone(departure));
    }
    arc_ahead(
        coming.network,
        coming.states,
        &coming.intersection,
        state,
        departure,
    )
}

/// The arc by the departure to its piece alone.
pub fn arc_alone(departure: Departure) -> TurnArc
    ensures { result ≡ record { piece = departure.piece; length = 1 } }
{
    TurnArc {
        piece: departure.piece,
        length: 1,
    }
}

/// Whether arcs lead by all departures to their pieces alone, from contexts in the first state that may go on by them
/// at the intersection. Where it is false they may still do so.
pub fn are_free<M: World, P: Profile>(
    network: &Network<'_, M, P>,
    states: &States,
    intersection: &Intersection<'_>,
) -> bool
    requires count { length states.now.facts.items ≡ length states.now.automaton.states }
    requires intersection { on network.now IsIntersection intersection.now }
    ensures { IsTrue result → on network.now AreFree states.now.automaton states.now.facts.items
        intersection.now.rules intersection.now.departures.now }
{
    let departures = intersection.departures;
    for departure in departures {
        if !is_free(network, states, intersection, *departure) {
            return false;
        }
    }
    true
}

/// Whether an arc leads by the departure to its piece alone, from contexts in the first state that may go on by it.
fn is_free<M: World, P: Profile>(
    network: &Network<'_, M, P>,
    states: &States,
    intersection: &Intersection<'_>,
    departure: Departure,
) -> bool
    requires count { length states.now.facts.items ≡ length states.now.automaton.states }
    requires intersection { on network.now IsIntersection intersection.now }
    requires departure { Contains intersection.now.departures.now departure }
    ensures { IsTrue result → (u : NodeId) (c : List Span) → IsTrue (may_follow intersection.now u departure)
        → on network.now IsReached states.now.automaton states.now.facts.items 0 u intersection.now.rules.node c
        → on network.now IsArcEntry c (record { piece = departure.piece; length = 1 }) }
{
    states.automaton.closed();
    match arc_ahead(network, states, intersection, State(0), departure) {
        Some(arc) => arc.length == 1,
        None => false,
    }
}

/// The arc by the departure from a context in the state that may go on by it at the intersection: none where a
/// restriction forbids it.
pub fn arc_ahead<M: World, P: Profile>(
    network: &Network<'_, M, P>,
    states: &States,
    intersection: &Intersection<'_>,
    state: State,
    departure: Departure,
) -> Option<TurnArc>
    requires count { length states.now.facts.items ≡ length states.now.automaton.states }
    requires intersection { on network.now IsIntersection intersection.now }
    requires state { state.0 < length states.now.automaton.states }
    requires departure { Contains intersection.now.departures.now departure }
    ensures named { IfSome result (λ a. a.piece ≡ departure.piece) }
    ensures arc { IfSome result (λ a. (u : NodeId) (c : List Span)
        → IsTrue (may_follow intersection.now u departure)
        → on network.now IsReached states.now.automaton states.now.facts.items state.0 u
        intersection.now.rules.node c
        → on network.now IsArcEntry c a) }
    ensures none { IfNone result ((u : NodeId) (c : List Span) (a : TurnArc)
        → on network.now IsReached states.now.automaton states.now.facts.items state.0 u
        intersection.now.rules.node c
        → on network.now IsArcEntry c a
        → a.piece ≡ departure.piece
        → ⊥) }
{
    name_order();
    one_name(&network.profile);
    steps_depart(&network.profile);
    words_on_ways(&network.profile);
    context_goes_on(&network.profile);
    context_target(&network.profile);
    watched_decides();
    watched_grows();
    states.automaton.closed();
    let Some(next) = states.automaton.go(state, departure.first) else {
        return None;
    };
    let length = target_len(states, next);
    Some(TurnArc {
        piece: departure.piece,
        length,
    })
}

/// Whether who comes from the node `from` may go on by the departure: back there where one may turn round, which is
/// at a place to turn, where nothing goes through and at a dead end, and elsewhere where the node isn't shut.
pub fn may_follow(intersection: &Intersection<'_>, from: NodeId, departure: Departure) -> bool
    ensures { result ≡ may_follow intersection.now from departure }
{
    if departure.toward == from {
        intersection
            .rules
            .may_turn(intersection.departures.len() == 1)
    } else {
        !intersection.rules.is_shut
    }
}

/// How many pieces the context has to which an arc leads, where its first step leaves the automaton in this state: the
/// arc's piece, and those that the steps before spell.
fn target_len(states: &States, state: State) -> u32
    requires count { length states.now.facts.items ≡ length states.now.automaton.states }
    requires state { state.0 < length states.now.automaton.states }
    ensures alone { StandsFor states.now.automaton state.0 [] → result ≡ 1 }
    ensures longer { (b : List Step) (x : Step) (k : ℕ) (f : StateFacts)
        → StandsFor states.now.automaton state.0 (b ++ x ∷ [])
        → StandsFor states.now.automaton k b
        → slice_get states.now.facts.items k ≡ Some f
        → f.pieces + 1 < 2 ^ 32
        → result ≡ f.pieces + 1 }
{
    states.automaton.closed();
    if state.0 == 0 {
        return 1;
    }
    let (before, _) = states.automaton.edge(state.0);
    states.facts[before].pieces.saturating_add(1)
}
