//! The pieces that come to a node, and those among them of which the words say nothing.
ghost use Rattle.std.specs.Prelude.{◌≡◌, map, IfOk, IsTrue, Contains, false};
ghost use Rattle.ordered_lists.specs.Orders.{Lists};
ghost use Rattle.road_model.specs.Orders.{name_cmp};
ghost use Rattle.road_model.specs.Networks.{on};
ghost use Rattle.way_pieces.specs.Names.{IsArrival};
ghost use Rattle.expanded_graph.specs.declared.arrivals.Incoming.{Incoming};
ghost use Rattle.expanded_graph.specs.Arrivals.{AreComing, arrival_of};
ghost use Rattle.expanded_graph.specs.Watched.{AreWatched};

use crate::watched::WatchedWays;
use road_base::{Dir, NoMemory, NodeId, WayId};
use road_model::{Network, PieceName, Profile, World};
use std::alloc::Global;
use way_pieces::{Arrival, PieceSpan};

/// A piece that comes to a node from another, and whether it is plain: its only context is the piece alone, and no word
/// begins with its last step. A piece that isn't said to be plain may be so.
#[derive(Clone, Copy, Debug)]
pub struct Incoming {
    pub way: WayId,
    pub from: NodeId,
    pub index: u32,
    pub end: u32,
    pub dir: Dir,
    pub is_plain: bool,
}

impl Incoming {
    fn of(arrival: Arrival, is_plain: bool) -> Incoming
        ensures arrival { arrival_of result ≡ arrival }
        ensures plain { result.is_plain ≡ is_plain }
    {
        let Arrival { span, from } = arrival;
        Incoming {
            way: span.name.way,
            from,
            index: span.name.index,
            end: span.end,
            dir: span.name.dir,
            is_plain,
        }
    }

    /// The name of the piece.
    pub fn name(&self) -> PieceName
        ensures { result ≡ (arrival_of self.now).span.name }
    {
        PieceName {
            way: self.way,
            index: self.index,
            dir: self.dir,
        }
    }

    /// The piece with both its positions, the node from which it comes, and whether it is plain.
    pub fn told(self) -> ToldArrival
        ensures { result ≡ record { arrival = arrival_of self; is_plain = self.is_plain } }
    {
        let span = PieceSpan {
            name: self.name(),
            end: self.end,
        };
        let arrival = Arrival {
            span,
            from: self.from,
        };
        ToldArrival {
            arrival,
            is_plain: self.is_plain,
        }
    }
}

/// An arrival, and whether it is said to be plain.
#[derive(Clone, Copy, Debug)]
pub struct ToldArrival {
    pub arrival: Arrival,
    pub is_plain: bool,
}

/// These arrivals at the node, of which the plain ones are told apart.
pub fn told_apart<M: World, P: Profile>(
    alloc: Global,
    network: &Network<'_, M, P>,
    watched: &WatchedWays,
    node: NodeId,
    arrivals: &[Arrival],
) -> Result<Vec<Incoming>, NoMemory>
    requires watched { on network.now AreWatched watched.now }
    requires arrivals { Lists (λ a. a.span.name) name_cmp (on network.now IsArrival node) arrivals.now }
    ensures { IfOk result (λ v. on network.now AreComing watched.now.states.automaton
        watched.now.states.facts.items node v.items) }
{
    let mut list = Vec::with_capacity(alloc, arrivals.len())?;
    for arrival in arrivals {
        list.push(Incoming::of(*arrival, watched.is_plain(network, arrival.span)))?;
    }
    Ok(list)
}

/// These arrivals, of which none is said to be plain.
pub fn not_told_apart(alloc: Global, arrivals: &[Arrival]) -> Result<Vec<Incoming>, NoMemory>
    ensures arrivals { IfOk result (λ v. map arrival_of v.items ≡ arrivals.now) }
    ensures none { IfOk result (λ v. (c : Incoming) → Contains v.items c → c.is_plain ≡ false) }
{
    let mut list = Vec::with_capacity(alloc, arrivals.len())?;
    for arrival in arrivals {
        list.push(Incoming::of(*arrival, false))?;
    }
    Ok(list)
}
