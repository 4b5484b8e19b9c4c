//! The states in which one may be on ways, and what is known of each.
ghost use Rattle.std.specs.Prelude.{◌≡◌, ◌<◌, ◌∷◌, ◌++◌, [], List, length, false, None, Contains, IfOk};
ghost use Rattle.std.specs.Option.{option_to_list};
ghost use Rattle.road_base.specs.declared.ids.Step.{Step};
ghost use Rattle.turn_automata.specs.Machines.{StandsFor};
ghost use Rattle.road_base.specs.declared.ids.WayId.{WayId};
ghost use Rattle.road_model.specs.Networks.{on};
ghost use Rattle.road_model.specs.Words.{IsWord};
ghost use Rattle.restrictions.specs.declared.word_list.Word.{Word};
ghost use Rattle.way_pieces.specs.RoadPieces.{AreRoadPieces};
ghost use Rattle.expanded_graph.specs.Near.{AreWordsNear};
ghost use Rattle.expanded_graph.specs.Known.{NamesEnd, IsKnown, AreKnown, AreAllShort, IsDriven};
ghost use Rattle.expanded_graph.specs.States.{AreStates};

use crate::last_steps::piece_ended_by;
use crate::words::words_near;
use road_base::{NoMemory, Step, WayId};
use road_model::laws::{context_steps, drive_grows, drive_parts, words_on_ways};
use road_model::{Network, PieceName, Profile, World};
use std::alloc::Global;
use turn_automata::{Automaton, State};
use way_lines::{drivable, pass};
use way_pieces::{RoadPieces, WayPieces};

/// What is known of a state: whether its steps may be driven, the piece that its last step ends, and how many pieces
/// its steps spell.
#[derive(Clone, Copy, Debug)]
pub struct StateFacts {
    pub is_legal: bool,
    pub ends: Option<PieceName>,
    pub pieces: u32,
}

/// The automaton of the words that matter on ways, and what is known of its states.
#[derive(Drop)]
pub struct States {
    pub automaton: Automaton,
    pub facts: Vec<StateFacts>,
}

impl States {
    /// The states on these ways. Takes the time of the words near them and of their automaton, a few look-ups for each
    /// state, and the time to cut the ways on which states' last steps lie that aren't found among the pieces.
    pub fn of<M: World, P: Profile>(
        alloc: Global,
        network: &Network<'_, M, P>,
        pieces: &RoadPieces,
        ways: &[WayId],
    ) -> Result<States, NoMemory>
        requires { on network.now AreRoadPieces pieces.now }
        ensures count { IfOk result (λ s. length s.facts.items ≡ length s.automaton.states) }
        ensures states { IfOk result (λ s. (w : WayId) → Contains ways.now w
            → on network.now AreStates w s.automaton.words s.automaton.states s.facts.items) }
    {
        words_on_ways(&network.profile);
        context_steps(&network.profile);
        let automaton = automaton_near(alloc, network, ways)?;
        automaton.closed();
        let facts = state_facts(alloc, network, pieces, &automaton)?;
        Ok(States { automaton, facts })
    }
}

/// The automaton of the words near these ways.
fn automaton_near<M: World, P: Profile>(
    alloc: Global,
    network: &Network<'_, M, P>,
    ways: &[WayId],
) -> Result<Automaton, NoMemory>
    ensures words { IfOk result (λ a. (u : Word) → Contains a.words u
        → on network.now IsWord u.relation u.only u.binding u.steps) }
    ensures near { IfOk result (λ a. (w : WayId) → Contains ways.now w
        → on network.now AreWordsNear w a.words) }
{
    let words = words_near(alloc, network, ways)?;
    Automaton::of(alloc, &words)
}

/// What is known of each state. The pieces that their steps end are looked for among the given ones; the ways that
/// have none there are cut first.
fn state_facts<M: World, P: Profile>(
    alloc: Global,
    network: &Network<'_, M, P>,
    pieces: &RoadPieces,
    automaton: &Automaton,
) -> Result<Vec<StateFacts>, NoMemory>
    requires short { AreAllShort automaton.now.states }
    requires pieces { on network.now AreRoadPieces pieces.now }
    ensures count { IfOk result (λ v. length v.items ≡ length automaton.now.states) }
    ensures known { IfOk result (λ v. on network.now AreKnown automaton.now v.items) }
{
    let further = pieces_apart(alloc, network, pieces, automaton)?;
    facts_of(alloc, network, pieces, &further, automaton)
}

/// The ways of states' last steps that aren't found among the pieces, cut into pieces.
fn pieces_apart<M: World, P: Profile>(
    alloc: Global,
    network: &Network<'_, M, P>,
    pieces: &RoadPieces,
    automaton: &Automaton,
) -> Result<RoadPieces, NoMemory>
    ensures { IfOk result (on network.now AreRoadPieces) }
{
    let others = ways_apart(alloc, pieces, automaton)?;
    RoadPieces::of(alloc, network, others.as_slice())
}

/// The ways of states' last steps that aren't found among the pieces, each once, ascending.
fn ways_apart(
    alloc: Global,
    pieces: &RoadPieces,
    automaton: &Automaton,
) -> Result<Vec<WayId>, NoMemory> {
    let mut ways = Vec::new(alloc);
    for state in 1..automaton.len() {
        let (_, step) = automaton.edge(state);
        if pieces.spans_of(step.way).is_none() {
            ways.push(step.way)?;
        }
    }
    ways.sort_unstable();
    ways.dedup();
    Ok(ways)
}

/// What is known of each state. The pieces that their steps end are looked for among those of both.
fn facts_of<M: World, P: Profile>(
    alloc: Global,
    network: &Network<'_, M, P>,
    pieces: &RoadPieces,
    further: &RoadPieces,
    automaton: &Automaton,
) -> Result<Vec<StateFacts>, NoMemory>
    requires short { AreAllShort automaton.now.states }
    requires pieces { on network.now AreRoadPieces pieces.now }
    requires further { on network.now AreRoadPieces further.now }
    ensures count { IfOk result (λ v. length v.items ≡ length automaton.now.states) }
    ensures known { IfOk result (λ v. on network.now AreKnown automaton.now v.items) }
{
    automaton.closed();
    let mut facts = Vec::with_capacity(alloc, automaton.len())?;
    facts.push(at_rest())?;
    for state in 1..automaton.len() {
        let (before, step) = automaton.edge(state);
        let ends = ended_piece(alloc, network, pieces, further, step)?;
        let fact = fact_of(network, automaton, facts.as_slice(), before, step, ends);
        facts.push(fact)?;
    }
    Ok(facts)
}

/// The name of the piece that the step ends, None exactly where it ends none. Where its way isn't found among the
/// pieces of either it is cut for this call alone.
fn ended_piece<M: World, P: Profile>(
    alloc: Global,
    network: &Network<'_, M, P>,
    pieces: &RoadPieces,
    further: &RoadPieces,
    step: Step,
) -> Result<Option<PieceName>, NoMemory>
    requires pieces { on network.now AreRoadPieces pieces.now }
    requires further { on network.now AreRoadPieces further.now }
    ensures { IfOk result (on network.now NamesEnd step) }
{
    if let Some(spans) = pieces.spans_of(step.way) {
        return Ok(piece_ended_by(spans, step));
    }
    if let Some(spans) = further.spans_of(step.way) {
        return Ok(piece_ended_by(spans, step));
    }
    let roads = pieces.roads();
    let own = WayPieces::of(alloc, network, roads, roads.road(network, step.way))?;
    Ok(piece_ended_by(own.spans.as_slice(), step))
}

/// What is known of the state of no steps.
fn at_rest() -> StateFacts
    ensures legal { result.is_legal ≡ false }
    ensures ends { result.ends ≡ None }
    ensures pieces { result.pieces ≡ 0 }
{
    StateFacts {
        is_legal: false,
        ends: None,
        pieces: 0,
    }
}

/// What is known of the state that grew from the state before by the step.
fn fact_of<M: World, P: Profile>(
    network: &Network<'_, M, P>,
    automaton: &Automaton,
    facts: &[StateFacts],
    before: usize,
    step: Step,
    ends: Option<PieceName>,
) -> StateFacts
    requires short { AreAllShort automaton.now.states }
    requires within { before < length facts.now }
    requires state { before < length automaton.now.states }
    requires known { on network.now AreKnown automaton.now facts.now }
    requires ends { on network.now NamesEnd step ends }
    ensures { (p : List Step) → StandsFor automaton.now before p
        → on network.now IsKnown automaton.now.words (p ++ step ∷ []) result }
{
    StateFacts {
        is_legal: is_legal(network, automaton, facts, before, step),
        ends,
        pieces: facts[before].pieces + count(ends),
    }
}

/// How many names there are.
fn count(ends: Option<PieceName>) -> u32
    ensures { result ≡ length (option_to_list ends) }
{
    match ends {
        Some(_) => 1,
        None => 0,
    }
}

/// Whether the steps of the state before and this one behind them may be driven.
fn is_legal<M: World, P: Profile>(
    network: &Network<'_, M, P>,
    automaton: &Automaton,
    facts: &[StateFacts],
    before: usize,
    step: Step,
) -> bool
    requires within { before < length facts.now }
    requires state { before < length automaton.now.states }
    requires known { on network.now AreKnown automaton.now facts.now }
    ensures { (p : List Step) → StandsFor automaton.now before p
        → on network.now IsDriven automaton.now.words (p ++ step ∷ []) result }
{
    automaton.closed();
    words_on_ways(&network.profile);
    drive_grows(&network.profile);
    drive_parts(&network.profile);
    if !drivable(network.world, &network.profile, step) {
        return false;
    }
    if before == 0 {
        return true;
    }
    let (_, last) = automaton.edge(before);
    if !facts[before].is_legal {
        return false;
    }
    if !pass(network.world, &network.profile, last, step) {
        return false;
    }
    automaton.go(State(before), step).is_some()
}
