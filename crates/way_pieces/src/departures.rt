//! The pieces that leave a node.
ghost use Rattle.std.specs.Prelude.{IfOk};
ghost use Rattle.ordered_lists.specs.Orders.{Lists};
ghost use Rattle.road_model.specs.Orders.{name_cmp};
ghost use Rattle.way_pieces.specs.Names.{IsDeparture};

use crate::road_pieces::RoadPieces;
use road_base::{NoMemory, NodeId, Step};
use road_model::{Network, PieceName, Profile, World};
use std::alloc::Global;

/// A piece that leaves a node: its name, its first step, and the node where that step ends.
#[derive(Clone, Copy, Debug, PartialEq, Eq)]
pub struct Departure {
    pub piece: PieceName,
    pub first: Step,
    pub toward: NodeId,
}

/// The pieces whose first step leaves the node, each once, ascending by name.
pub fn departures_from<M: World, P: Profile>(
    alloc: Global,
    world: &M,
    profile: &P,
    node: NodeId,
) -> Result<Vec<Departure>, NoMemory>
    ensures { let departs = IsDeparture (M.objects world.now) (P.rules profile.now) node in
        IfOk result (λ v. Lists (λ d. d.piece) name_cmp departs v.items) }
{
    let network = Network::new(world, *profile);
    let none_cut = RoadPieces::of(alloc, &network, &[])?;
    none_cut.departures(alloc, &network, node)
}
