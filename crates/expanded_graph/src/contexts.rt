//! The contexts of a piece with their arcs: the piece alone, and behind other pieces those that begin a word of a
//! restriction.
ghost use Rattle.std.specs.Prelude.{◌≡◌, [], map, IfOk, OnOk, IsTrue};
ghost use Rattle.std.specs.List.{IsDistinct};
ghost use Rattle.std.specs.List.Sorted.{IsPermutation};
ghost use Rattle.std.specs.Ordering.{eq_by_cmp};
ghost use Rattle.ordered_lists.specs.Orders.{Lists, rises};
ghost use Rattle.road_model.specs.Orders.{names_cmp};
ghost use Rattle.road_model.specs.Format.{begins_alone};
ghost use Rattle.way_pieces.specs.Names.{piece_of};
ghost use Rattle.expanded_graph.specs.Coming.{IsComing};
ghost use Rattle.expanded_graph.specs.Contexts.{IsBareContext, IsEnding, EndsWithName, IsContextIn, HasContexts};
ghost use Rattle.road_model.specs.Networks.{on};

use crate::arcs::arcs_at;
use crate::coming::Coming;
use crate::endings::endings_with;
use crate::last_steps::last_step;
use crate::names::names_before;
use road_base::NoMemory;
use road_model::laws::{context_steps, drive_grows, name_order, one_name};
use road_model::{Arcs, Context, Names, Profile, Sources, World};
use std::alloc::Global;
use std::cmp::Ordering;
use turn_automata::State;

/// The contexts of the piece that comes to an intersection, by length and names, without their sources.
pub fn contexts_of<M: World, P: Profile>(
    alloc: Global,
    coming: &Coming<'_, M, P>,
) -> Result<Vec<Context>, NoMemory>
    requires { IsComing coming.now }
    ensures listed { IfOk result (λ v. Lists (λ c. c.before) names_cmp
        (on coming.now.network.now IsBareContext (piece_of coming.now.span)) v.items) }
    ensures alone { IfOk result (λ v. begins_alone v.items) }
{
    name_order();
    one_name(&coming.network.profile);
    let mut contexts = all_contexts(alloc, coming)?;
    put_in_order(&mut contexts)?;
    Ok(contexts)
}

/// The contexts of the piece in any order: the piece alone, and one in each of the states in which it ends one. Only
/// the endings with the piece are looked at.
fn all_contexts<M: World, P: Profile>(
    alloc: Global,
    coming: &Coming<'_, M, P>,
) -> Result<Vec<Context>, NoMemory>
    requires { IsComing coming.now }
    ensures { IfOk result (λ v. on coming.now.network.now HasContexts (piece_of coming.now.span) v.items) }
{
    name_order();
    one_name(&coming.network.profile);
    context_steps(&coming.network.profile);
    coming.states.automaton.closed();
    let here = endings_with(coming.endings, coming.span.name);
    let mut contexts = Vec::with_capacity(alloc, here.len() + 1)?;
    let alone = context_alone(alloc, coming)?;
    contexts.push(alone)?;
    for ending in here {
        let context = context_in(alloc, coming, State(ending.state))?;
        contexts.push(context)?;
    }
    Ok(contexts)
}

/// The context of the piece alone.
fn context_alone<M: World, P: Profile>(
    alloc: Global,
    coming: &Coming<'_, M, P>,
) -> Result<Context, NoMemory>
    requires { IsComing coming.now }
    ensures entry { IfOk result (on coming.now.network.now IsBareContext (piece_of coming.now.span)) }
    ensures alone { IfOk result (λ e. e.before ≡ []) }
{
    drive_grows(&coming.network.profile);
    let state = coming.states.automaton.start(last_step(coming.span));
    let arcs = arcs_at(alloc, coming, state)?;
    Ok(Context {
        before: Names::from_list(Vec::new(alloc)),
        arcs: Arcs::from_list(arcs),
        sources: Sources::from_list(Vec::new(alloc)),
    })
}

/// The context of the piece that ends in the state.
fn context_in<M: World, P: Profile>(
    alloc: Global,
    coming: &Coming<'_, M, P>,
    state: State,
) -> Result<Context, NoMemory>
    requires coming { IsComing coming.now }
    requires ending { IsEnding coming.now.states.now.automaton coming.now.states.now.facts.items
        coming.now.span.name.way state.0 }
    requires named { EndsWithName coming.now.states.now.facts.items state.0 coming.now.span.name }
    ensures { IfOk result (on coming.now.network.now IsContextIn coming.now.states.now.automaton
        (piece_of coming.now.span) state.0) }
{
    one_name(&coming.network.profile);
    context_steps(&coming.network.profile);
    coming.states.automaton.closed();
    let names = names_before(alloc, coming.network, coming.states, state)?;
    let arcs = arcs_at(alloc, coming, state)?;
    Ok(Context {
        before: Names::from_list(names),
        arcs: Arcs::from_list(arcs),
        sources: Sources::from_list(Vec::new(alloc)),
    })
}

/// Sorts contexts of different names by length and names.
fn put_in_order(contexts: &mut Vec<Context>) -> Result<(), NoMemory>
    requires { IsDistinct (eq_by_cmp names_cmp) (map (λ c. c.before) contexts.old.items) }
    ensures ascending { OnOk result (IsTrue (rises names_cmp (map (λ c. c.before) contexts.new.items))) }
    ensures same { OnOk result (IsPermutation contexts.old.items contexts.new.items) }
{
    name_order();
    contexts.sort_by(|a, b| by_names(&a.before, &b.before))?;
    Ok(())
}

/// Compares lists of names by length, then name by name.
pub fn by_names(a: &Names, b: &Names) -> Ordering
    ensures { result ≡ names_cmp a.now b.now }
{
    name_order();
    a.items()
        .len()
        .cmp(&b.items().len())
        .then(a.items().cmp(b.items()))
}
