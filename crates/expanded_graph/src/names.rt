//! The names of the pieces that a context has before its last one.
ghost use Rattle.std.specs.Prelude.{◌≡◌, ◌<◌, List, [], ◌∷◌, ◌++◌, length, map, IfOk};
ghost use Rattle.road_base.specs.declared.ids.WayId.{WayId};
ghost use Rattle.road_base.specs.declared.ids.Step.{Step};
ghost use Rattle.road_model.specs.Networks.{on};
ghost use Rattle.road_model.specs.Pieces.{Span, IsPiece};
ghost use Rattle.road_model.specs.Contexts.{Every};
ghost use Rattle.road_model.specs.Turning.{HasTurnSteps};
ghost use Rattle.road_model.specs.Blocks.{name_of};
ghost use Rattle.turn_automata.specs.Machines.{StandsFor};
ghost use Rattle.expanded_graph.specs.States.{AreStates};

use crate::states::States;
use road_base::NoMemory;
use road_model::laws::context_steps;
use road_model::{Network, PieceName, Profile, World};
use std::alloc::Global;
use turn_automata::State;

/// The names of the pieces whose last steps stand in the state's list before its last step, in order of travel.
pub fn names_before<M: World, P: Profile>(
    alloc: Global,
    network: &Network<'_, M, P>,
    states: &States,
    state: State,
) -> Result<Vec<PieceName>, NoMemory>
    requires count { length states.now.facts.items ≡ length states.now.automaton.states }
    requires grown { 0 < state.0 }
    requires state { state.0 < length states.now.automaton.states }
    ensures { IfOk result (λ v. (w : WayId) (before : List Span) (p : Span) (q : List Step)
        → on network.now AreStates w states.now.automaton.words states.now.automaton.states states.now.facts.items
        → Every (on network.now IsPiece) (before ++ p ∷ [])
        → HasTurnSteps (before ++ p ∷ []) q
        → StandsFor states.now.automaton state.0 q
        → v.items ≡ map name_of before) }
{
    context_steps(&network.profile);
    states.automaton.closed();
    let mut names = Vec::new(alloc);
    let (before, _) = states.automaton.edge(state.0);
    let mut at = before;
    while at > 0 {
        if let Some(name) = states.facts[at].ends {
            names.push(name)?;
        }
        let (before, _) = states.automaton.edge(at);
        at = before;
    }
    names.reverse();
    Ok(names)
}
