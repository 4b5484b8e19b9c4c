//! Nodes where pieces start or end, with what is to be known of them.
ghost use Rattle.std.specs.Prelude.{◌≡◌, List, length, true, slice_get, Some, IfOk, IfSome, IsTrue};
ghost use Rattle.road_model.specs.Networks.{on};
ghost use Rattle.road_base.specs.Objects.{Objects};
ghost use Rattle.road_model.specs.Rules.{Rules};
ghost use Rattle.turn_automata.specs.Machines.{Machine};
ghost use Rattle.way_pieces.specs.RoadPieces.{AreRoadPieces};
ghost use Rattle.expanded_graph.specs.declared.states.StateFacts.{StateFacts};
ghost use Rattle.expanded_graph.specs.Arrivals.{AreComing};
ghost use Rattle.expanded_graph.specs.Intersections.{IsIntersection, AreIntersections};
ghost use Rattle.expanded_graph.specs.Intersections.{AreFree, AreFreeAll, AreLeavingAll, AreComingAll};
ghost use Rattle.expanded_graph.specs.Watched.{AreWatched};

use crate::arcs::are_free;
use crate::arrivals::{Incoming, told_apart};
use crate::watched::WatchedWays;
use ordered_lists::{Groups, Ranges};
use road_base::{NoMemory, NodeId};
use road_model::{Network, Profile, World};
use std::alloc::Global;
use way_lines::NodeRules;
use way_pieces::{Departure, RoadPieces};

/// How many pieces leave a node, and how many come to it, as a guess.
const PIECES: usize = 4;

/// Memory for so many departures at most is taken at once, and for as many arrivals. Where there are more it doubles,
/// so that those of a whole map take no more than without the guess.
const MOST_ROOM: usize = 4096;

/// A node where pieces start or end: what its tags say, what leaves it, and whether it is free: who comes there in the
/// first state finds an arc to the piece alone by each departure that may follow. One that isn't said to be free may be
/// so.
#[derive(Clone, Copy)]
pub struct Intersection<'a> {
    pub rules: NodeRules,
    pub departures: &'a [Departure],
    pub is_free: bool,
}

/// An intersection, and what comes to it.
#[derive(Clone, Copy)]
pub struct Confluence<'a> {
    pub intersection: Intersection<'a>,
    pub arrivals: &'a [Incoming],
}

/// Nodes where pieces start or end, each asked once: what their tags say, what leaves them, and what comes to them,
/// where that is kept. One of them is found in the time of a short search.
#[derive(Drop)]
pub struct Intersections {
    rules: Vec<NodeRules>,
    ranges: Ranges,
    departures: Groups<Departure>,
    free: Vec<bool>,
    arrivals: Groups<Incoming>,
}

impl Intersections {
    /// These nodes, in any order, with what leaves them and what comes to them. The ways there are looked for among
    /// the pieces; those that come are told apart by the words near the watched ways.
    pub fn of<M: World, P: Profile>(
        alloc: Global,
        network: &Network<'_, M, P>,
        pieces: &RoadPieces,
        watched: &WatchedWays,
        nodes: &[NodeId],
    ) -> Result<Intersections, NoMemory>
        requires pieces { on network.now AreRoadPieces pieces.now }
        requires watched { on network.now AreWatched watched.now }
        ensures { IfOk result (on network.now AreIntersections watched.now.states.automaton
            watched.now.states.facts.items) }
    {
        let left = Intersections::left(alloc, network, pieces, watched, nodes)?;
        let arrivals = coming_at(alloc, network, pieces, watched, left.rules.as_slice())?;
        let Intersections {
            rules,
            ranges,
            departures,
            free,
            ..
        } = left;
        Ok(Intersections {
            rules,
            ranges,
            departures,
            free,
            arrivals,
        })
    }

    /// These nodes, in any order, with what leaves them alone.
    pub fn left<M: World, P: Profile>(
        alloc: Global,
        network: &Network<'_, M, P>,
        pieces: &RoadPieces,
        watched: &WatchedWays,
        nodes: &[NodeId],
    ) -> Result<Intersections, NoMemory>
        requires pieces { on network.now AreRoadPieces pieces.now }
        requires watched { on network.now AreWatched watched.now }
        ensures { IfOk result (on network.now AreIntersections watched.now.states.automaton
            watched.now.states.facts.items) }
    {
        let (rules, departures) = leaving_at(alloc, network, pieces, nodes)?;
        let free = free_at(alloc, network, watched, rules.as_slice(), &departures)?;
        let ranges = Ranges::of(alloc, rules.as_slice());
        Ok(Intersections {
            rules,
            ranges,
            departures,
            free,
            arrivals: Groups::new(alloc),
        })
    }

    /// What is known of the node and of what leaves it, if it is found among them.
    pub fn find(&self, node: NodeId) -> Option<Intersection<'_>>
        ensures node { IfSome result (λ i. i.rules.node ≡ node) }
        ensures is { IfSome result (λ i. (M : Objects) (P : Rules) (m : Machine) (facts : List StateFacts)
            → AreIntersections M P m facts self.now
            → IsIntersection M P i) }
        ensures free { IfSome result (λ i. (M : Objects) (P : Rules) (m : Machine) (facts : List StateFacts)
            → AreIntersections M P m facts self.now
            → IsTrue i.is_free
            → AreFree M P m facts i.rules i.departures.now) }
    {
        let at = self.ranges.find(self.rules.as_slice(), node.0)?;
        let rules = self.rules[at];
        if rules.node != node || at >= self.departures.len() {
            return None;
        }
        Some(Intersection {
            rules,
            departures: self.departures.at(at),
            is_free: is_free_at(self.free.as_slice(), at),
        })
    }

    /// What is known of the node, of what leaves it and of what comes to it, if that is kept and found.
    pub fn find_meeting(&self, node: NodeId) -> Option<Confluence<'_>>
        ensures node { IfSome result (λ i. i.intersection.rules.node ≡ node) }
        ensures is { IfSome result (λ i. (M : Objects) (P : Rules) (m : Machine) (facts : List StateFacts)
            → AreIntersections M P m facts self.now
            → IsIntersection M P i.intersection
            × AreComing M P m facts i.intersection.rules.node i.arrivals.now) }
        ensures free { IfSome result (λ i. (M : Objects) (P : Rules) (m : Machine) (facts : List StateFacts)
            → AreIntersections M P m facts self.now
            → IsTrue i.intersection.is_free
            → AreFree M P m facts i.intersection.rules i.intersection.departures.now) }
    {
        let at = self.ranges.find(self.rules.as_slice(), node.0)?;
        let rules = self.rules[at];
        if rules.node != node || at >= self.departures.len() || at >= self.arrivals.len() {
            return None;
        }
        let intersection = Intersection {
            rules,
            departures: self.departures.at(at),
            is_free: is_free_at(self.free.as_slice(), at),
        };
        Some(Confluence {
            intersection,
            arrivals: self.arrivals.at(at),
        })
    }
}

/// What the tags of these nodes say, each once, and what leaves them.
fn leaving_at<M: World, P: Profile>(
    alloc: Global,
    network: &Network<'_, M, P>,
    pieces: &RoadPieces,
    nodes: &[NodeId],
) -> Result<(Vec<NodeRules>, Groups<Departure>), NoMemory>
    requires { on network.now AreRoadPieces pieces.now }
    ensures leaving { IfOk result (λ r. on network.now AreLeavingAll r.0.items r.1) }
    ensures count { IfOk result (λ r. length r.0.items ≡ length r.1) }
{
    let mut nodes = nodes.to_vec(alloc)?;
    nodes.sort_unstable();
    nodes.dedup();
    let mut rules = Vec::with_capacity(alloc, nodes.len())?;
    let room = nodes.len().saturating_mul(PIECES).min(MOST_ROOM);
    let mut departures = Groups::with_capacity(alloc, nodes.len(), room)?;
    for node in nodes.as_slice() {
        rules.push(NodeRules::of(network, *node))?;
        let leaving = pieces.departures(alloc, network, *node)?;
        departures.push(leaving.as_slice())?;
    }
    Ok((rules, departures))
}

/// Which of the nodes are free for those that come there in the first state.
fn free_at<M: World, P: Profile>(
    alloc: Global,
    network: &Network<'_, M, P>,
    watched: &WatchedWays,
    rules: &[NodeRules],
    departures: &Groups<Departure>,
) -> Result<Vec<bool>, NoMemory>
    requires watched { on network.now AreWatched watched.now }
    requires leaving { on network.now AreLeavingAll rules.now departures.now }
    requires count { length rules.now ≡ length departures.now }
    ensures { IfOk result (λ v. on network.now AreFreeAll watched.now.states.automaton watched.now.states.facts.items
        rules.now departures.now v.items) }
{
    let mut free = Vec::with_capacity(alloc, rules.len())?;
    for at in 0..rules.len() {
        let here = rules[at];
        let intersection = Intersection {
            rules: here,
            departures: departures.at(at),
            is_free: false,
        };
        free.push(are_free(network, &watched.states, &intersection))?;
    }
    Ok(free)
}

/// Whether the list says so of the node at the place.
fn is_free_at(free: &[bool], at: usize) -> bool
    ensures { IsTrue result → slice_get free.now at ≡ Some true }
{
    if at >= free.len() {
        return false;
    }
    free[at]
}

/// What comes to the nodes.
fn coming_at<M: World, P: Profile>(
    alloc: Global,
    network: &Network<'_, M, P>,
    pieces: &RoadPieces,
    watched: &WatchedWays,
    rules: &[NodeRules],
) -> Result<Groups<Incoming>, NoMemory>
    requires pieces { on network.now AreRoadPieces pieces.now }
    requires watched { on network.now AreWatched watched.now }
    ensures { IfOk result (on network.now AreComingAll watched.now.states.automaton watched.now.states.facts.items
        rules.now) }
{
    let room = rules.len().saturating_mul(PIECES).min(MOST_ROOM);
    let mut arrivals = Groups::with_capacity(alloc, rules.len(), room)?;
    for known in rules {
        let told = told_at(alloc, network, pieces, watched, known.node)?;
        arrivals.push(told.as_slice())?;
    }
    Ok(arrivals)
}

/// What comes to the node.
fn told_at<M: World, P: Profile>(
    alloc: Global,
    network: &Network<'_, M, P>,
    pieces: &RoadPieces,
    watched: &WatchedWays,
    node: NodeId,
) -> Result<Vec<Incoming>, NoMemory>
    requires pieces { on network.now AreRoadPieces pieces.now }
    requires watched { on network.now AreWatched watched.now }
    ensures { IfOk result (λ v. on network.now AreComing watched.now.states.automaton
        watched.now.states.facts.items node v.items) }
{
    let coming = pieces.arrivals(alloc, network, node)?;
    let told = told_apart(alloc, network, watched, node, coming.as_slice())?;
    Ok(told)
}
