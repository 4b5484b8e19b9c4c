//! The arcs that lead to the contexts of a piece, found from the contexts that come to the node where it starts.
ghost use Rattle.std.specs.Prelude.{
  ◌≡◌,
  ◌≤◌,
  ◌<◌,
  ◌-◌,
  List,
  [],
  ◌∷◌,
  ◌++◌,
  length,
  map,
  drop,
  Contains,
  IfOk,
  OnOk,
  IsTrue,
};
ghost use Rattle.road_model.specs.Pieces.{Span, IsPiece};
ghost use Rattle.road_model.specs.Blocks.{name_of};
ghost use Rattle.road_model.specs.Networks.{on};
ghost use Rattle.way_pieces.specs.Names.{IsArrival, piece_of};
ghost use Rattle.expanded_graph.specs.Coming.{IsComing, IsReachedIn};
ghost use Rattle.expanded_graph.specs.Intersections.{AreFree, IsIntersection, may_follow};
ghost use Rattle.expanded_graph.specs.Contexts.{IsEnding, EndsWithName};
ghost use Rattle.expanded_graph.specs.Arrivals.{AreComing};
ghost use Rattle.expanded_graph.specs.Onward.{IsOnward};
ghost use Rattle.expanded_graph.specs.Sources.{AreLeading, EndsIn, Gains, IsLeadingOf, IsLeadingBehind};
ghost use Rattle.expanded_graph.specs.Watched.{IsPlainPiece};
ghost use Rattle.expanded_graph.specs.Tables.{AreTables};

use crate::arcs::{arc_ahead, arc_alone, arc_by, may_follow};
use crate::arrivals::ToldArrival;
use crate::coming::Coming;
use crate::endings::endings_with;
use crate::intersections::{Confluence, Intersection};
use crate::last_steps::last_step;
use crate::names::names_before;
use crate::states::States;
use crate::tables::Tables;
use crate::watched::WatchedWays;
use road_base::NoMemory;
use road_model::laws::{context_steps, contexts, drive_grows, name_order, one_name, steps_depart};
use road_model::{Names, Network, PieceName, Profile, TurnArc, World};
use std::alloc::Global;
use turn_automata::State;
use way_pieces::{Arrival, Departure};

/// An arc to a context of a piece: the names that the context has before the piece, and the names of the context from
/// which the arc comes.
#[derive(Drop)]
pub struct Leading {
    pub before: Names,
    pub source: Names,
}

/// The arcs by the departure, in any order. Those from plain arrivals are found by one step of the automaton for all of
/// them.
pub fn leading_by<M: World, P: Profile>(
    alloc: Global,
    network: &Network<'_, M, P>,
    tables: &Tables,
    meeting: Confluence<'_>,
    departure: Departure,
) -> Result<Vec<Leading>, NoMemory>
    requires tables { on network.now AreTables tables.now }
    requires intersection { on network.now IsIntersection meeting.intersection }
    requires arrivals { on network.now AreComing tables.now.watched.states.automaton
        tables.now.watched.states.facts.items meeting.intersection.rules.node meeting.arrivals.now }
    requires free { IsTrue meeting.intersection.is_free → on network.now AreFree tables.now.watched.states.automaton
        tables.now.watched.states.facts.items meeting.intersection.rules meeting.intersection.departures.now }
    requires departure { Contains meeting.intersection.departures.now departure }
    ensures { IfOk result (λ v. on network.now AreLeading departure.piece v.items) }
{
    one_name(&network.profile);
    let states = &tables.watched.states;
    let intersection = meeting.intersection;
    let onward = onward_by(network, states, intersection, departure);
    let arrivals = meeting.arrivals;
    let mut list = Vec::with_capacity(alloc, arrivals.len())?;
    for incoming in arrivals {
        add_arrival(
            alloc,
            &mut list,
            network,
            tables,
            intersection,
            incoming.told(),
            onward,
        )?;
    }
    Ok(list)
}

/// A departure, and the arc by it from contexts in the first state that may go on so, if there is one.
#[derive(Clone, Copy)]
pub struct Onward {
    pub departure: Departure,
    pub arc: Option<TurnArc>,
}

/// The departure with the arc by it from contexts in the first state.
fn onward_by<M: World, P: Profile>(
    network: &Network<'_, M, P>,
    states: &States,
    intersection: Intersection<'_>,
    departure: Departure,
) -> Onward
    requires count { length states.now.facts.items ≡ length states.now.automaton.states }
    requires intersection { on network.now IsIntersection intersection }
    requires free { IsTrue intersection.is_free → on network.now AreFree states.now.automaton states.now.facts.items
        intersection.rules intersection.departures.now }
    requires departure { Contains intersection.departures.now departure }
    ensures departure { result.departure ≡ departure }
    ensures is { on network.now IsOnward states.now.automaton states.now.facts.items intersection.entry result }
{
    states.automaton.closed();
    if intersection.is_free {
        return Onward {
            departure,
            arc: Some(arc_alone(departure)),
        };
    }
    Onward {
        departure,
        arc: arc_ahead(network, states, &intersection, State(0), departure),
    }
}

/// Adds the arcs by the departure from the contexts of the piece that comes: none where who comes may not go on so.
fn add_arrival<M: World, P: Profile>(
    alloc: Global,
    list: &mut Vec<Leading>,
    network: &Network<'_, M, P>,
    tables: &Tables,
    intersection: Intersection<'_>,
    told: ToldArrival,
    onward: Onward,
) -> Result<(), NoMemory>
    requires tables { on network.now AreTables tables.now }
    requires intersection { on network.now IsIntersection intersection }
    requires free { IsTrue intersection.is_free → on network.now AreFree tables.now.watched.states.automaton
        tables.now.watched.states.facts.items intersection.rules intersection.departures.now }
    requires arrival { on network.now IsArrival intersection.rules.node told.arrival }
    requires plain { IsTrue told.is_plain → on network.now IsPlainPiece tables.now.watched.states.automaton
        tables.now.watched.states.facts.items (piece_of told.arrival.span) }
    requires departure { Contains intersection.departures.now onward.departure }
    requires onward { on network.now IsOnward tables.now.watched.states.automaton
        tables.now.watched.states.facts.items intersection onward }
    ensures { OnOk result ((p : Span) → on network.now IsPiece p → onward.departure.piece ≡ name_of p
        → Gains (on network.now IsLeadingBehind (piece_of told.arrival.span) p)
        list.old.items list.new.items) }
{
    name_order();
    one_name(&network.profile);
    steps_depart(&network.profile);
    let arrival = told.arrival;
    if !may_follow(&intersection, arrival.from, onward.departure) {
        return Ok(());
    }
    if told.is_plain {
        return add_plain(alloc, list, network, tables, intersection, arrival, onward);
    }
    add_from(
        alloc,
        list,
        network,
        tables,
        intersection,
        arrival,
        onward.departure,
    )
}

/// Adds the arc by the departure from the piece that comes, which is plain and may go on so, if there is one.
fn add_plain<M: World, P: Profile>(
    alloc: Global,
    list: &mut Vec<Leading>,
    network: &Network<'_, M, P>,
    tables: &Tables,
    intersection: Intersection<'_>,
    arrival: Arrival,
    onward: Onward,
) -> Result<(), NoMemory>
    requires intersection { on network.now IsIntersection intersection }
    requires arrival { on network.now IsArrival intersection.rules.node arrival }
    requires plain { on network.now IsPlainPiece tables.now.watched.states.automaton
        tables.now.watched.states.facts.items (piece_of arrival.span) }
    requires departure { Contains intersection.departures.now onward.departure }
    requires follows { IsTrue (may_follow intersection arrival.from onward.departure) }
    requires onward { on network.now IsOnward tables.now.watched.states.automaton
        tables.now.watched.states.facts.items intersection onward }
    ensures { OnOk result ((p : Span) → on network.now IsPiece p → onward.departure.piece ≡ name_of p
        → Gains (on network.now IsLeadingBehind (piece_of arrival.span) p) list.old.items list.new.items) }
{
    one_name(&network.profile);
    contexts(&network.profile);
    let Some(arc) = onward.arc else {
        return Ok(());
    };
    let source = Names::one(alloc, arrival.span.name);
    let before = last_names(alloc, source.items(), arc.length as usize - 1)?;
    list.push(Leading { before, source })?;
    Ok(())
}

/// Adds the arcs by the departure from the contexts of the piece that arrives. Where the tables don't serve its way,
/// the states on it are found for this call alone.
fn add_from<M: World, P: Profile>(
    alloc: Global,
    list: &mut Vec<Leading>,
    network: &Network<'_, M, P>,
    tables: &Tables,
    intersection: Intersection<'_>,
    arrival: Arrival,
    departure: Departure,
) -> Result<(), NoMemory>
    requires tables { on network.now AreTables tables.now }
    requires intersection { on network.now IsIntersection intersection }
    requires free { IsTrue intersection.is_free → on network.now AreFree tables.now.watched.states.automaton
        tables.now.watched.states.facts.items intersection.rules intersection.departures.now }
    requires arrival { on network.now IsArrival intersection.rules.node arrival }
    requires departure { Contains intersection.departures.now departure }
    ensures { OnOk result ((p : Span) → on network.now IsPiece p → departure.piece ≡ name_of p
        → Gains (on network.now IsLeadingBehind (piece_of arrival.span) p) list.old.items list.new.items) }
{
    let Arrival { span, from } = arrival;
    if tables.serve(span.name.way) {
        let coming = Coming {
            network,
            states: &tables.watched.states,
            endings: tables.watched.endings.as_slice(),
            intersection,
            span,
            from,
        };
        return add_behind(alloc, list, &coming, departure);
    }
    let ways = [span.name.way];
    let own = WatchedWays::of(alloc, network, &tables.pieces, ways.to_vec(alloc)?)?;
    let coming = Coming {
        network,
        states: &own.states,
        endings: own.endings.as_slice(),
        intersection: Intersection {
            is_free: false,
            ..intersection
        },
        span,
        from,
    };
    add_behind(alloc, list, &coming, departure)
}

/// Adds the arcs by the departure from the contexts of the piece that comes: from the piece alone, and from each of the
/// states in which contexts end with it.
fn add_behind<M: World, P: Profile>(
    alloc: Global,
    list: &mut Vec<Leading>,
    coming: &Coming<'_, M, P>,
    departure: Departure,
) -> Result<(), NoMemory>
    requires coming { IsComing coming.now }
    requires departure { Contains coming.now.intersection.departures.now departure }
    ensures { OnOk result ((p : Span) → on coming.now.network.now IsPiece p → departure.piece ≡ name_of p
        → Gains (on coming.now.network.now IsLeadingBehind (piece_of coming.now.span) p)
        list.old.items list.new.items) }
{
    one_name(&coming.network.profile);
    context_steps(&coming.network.profile);
    drive_grows(&coming.network.profile);
    coming.states.automaton.closed();
    let name = coming.span.name;
    let alone = coming.states.automaton.start(last_step(coming.span));
    add_arc(
        alloc,
        list,
        coming,
        alone,
        Names::one(alloc, name),
        departure,
    )?;
    let here = endings_with(coming.endings, name);
    for ending in here {
        add_in(alloc, list, coming, State(ending.state), departure)?;
    }
    Ok(())
}

/// Adds the arc by the departure from the context that ends in the state with the piece that comes, if there is one.
fn add_in<M: World, P: Profile>(
    alloc: Global,
    list: &mut Vec<Leading>,
    coming: &Coming<'_, M, P>,
    state: State,
    departure: Departure,
) -> Result<(), NoMemory>
    requires coming { IsComing coming.now }
    requires departure { Contains coming.now.intersection.departures.now departure }
    requires ending { IsEnding coming.now.states.now.automaton coming.now.states.now.facts.items
        coming.now.span.name.way state.0 }
    requires named { EndsWithName coming.now.states.now.facts.items state.0 coming.now.span.name }
    ensures { OnOk result ((p : Span) (before : List Span) → on coming.now.network.now IsPiece p
        → departure.piece ≡ name_of p
        → on coming.now.network.now EndsIn coming.now.states.now.automaton.states (piece_of coming.now.span)
        state.0 before
        → Gains (on coming.now.network.now IsLeadingOf (before ++ piece_of coming.now.span ∷ []) p)
        list.old.items list.new.items) }
{
    one_name(&coming.network.profile);
    context_steps(&coming.network.profile);
    coming.states.automaton.closed();
    let mut names = names_before(alloc, coming.network, coming.states, state)?;
    names.push(coming.span.name)?;
    add_arc(
        alloc,
        list,
        coming,
        state,
        Names::from_list(names),
        departure,
    )?;
    Ok(())
}

/// Adds the arc by the departure from the context of these names, which is in the state, if there is one.
fn add_arc<M: World, P: Profile>(
    alloc: Global,
    list: &mut Vec<Leading>,
    coming: &Coming<'_, M, P>,
    state: State,
    names: Names,
    departure: Departure,
) -> Result<(), NoMemory>
    requires coming { IsComing coming.now }
    requires state { state.0 < length coming.now.states.now.automaton.states }
    requires departure { Contains coming.now.intersection.departures.now departure }
    requires reached { (c : List Span) × IsReachedIn coming.now state.0 c × (names ≡ map name_of c) }
    ensures { OnOk result ((c : List Span) (p : Span) → IsReachedIn coming.now state.0 c → names ≡ map name_of c
        → on coming.now.network.now IsPiece p → departure.piece ≡ name_of p
        → Gains (on coming.now.network.now IsLeadingOf c p) list.old.items list.new.items) }
{
    one_name(&coming.network.profile);
    contexts(&coming.network.profile);
    if let Some(arc) = arc_by(coming, state, departure) {
        let before = last_names(alloc, names.items(), arc.length as usize - 1)?;
        list.push(Leading {
            before,
            source: names,
        })?;
    }
    Ok(())
}

/// So many of the names, the last ones.
fn last_names(alloc: Global, names: &[PieceName], count: usize) -> Result<Names, NoMemory>
    requires { count ≤ length names.now }
    ensures { IfOk result (λ l. l ≡ drop (length names.now - count) names.now) }
{
    match &names[names.len() - count..] {
        [] => Ok(Names::from_list(Vec::new(alloc))),
        [name] => Ok(Names::one(alloc, *name)),
        last => Ok(Names::from_list(last.to_vec(alloc)?)),
    }
}
