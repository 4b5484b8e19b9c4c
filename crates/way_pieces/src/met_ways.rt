//! The ways that are to be cut, and where their pieces come from.
ghost use Rattle.std.specs.Prelude.{◌≡◌, map, IfOk};
ghost use Rattle.std.specs.List.{All};
ghost use Rattle.road_base.specs.Objects.{Objects};
ghost use Rattle.road_model.specs.Rules.{Rules};
ghost use Rattle.road_model.specs.Blocks.{ListsPieces};
ghost use Rattle.way_pieces.specs.Known.{AreKnown};
ghost use Rattle.road_model.specs.Networks.{on};
ghost use Rattle.way_lines.specs.RoadLines.{IsRoad, AreRoads};
ghost use Rattle.way_pieces.specs.RoadPieces.{IsMetWay};

use crate::known::KnownBlocks;
use crate::listed::listed_road;
use road_base::{NoMemory, WayId};
use road_model::{Block, Network, Profile, World};
use std::alloc::{AllocError, Global};
use way_lines::{Road, Roads};

/// Where the pieces of a way come from.
#[derive(Clone, Copy)]
pub enum PieceSource<'a> {
    /// It is an own way: it is cut, and its line kept.
    Own,
    /// The block lists them.
    Listed(&'a Block),
    /// It is cut, and its line let go.
    Cut,
}

/// The directions of a way, and where its pieces come from.
#[derive(Clone, Copy)]
pub struct MetWay<'a> {
    pub road: Road,
    pub source: PieceSource<'a>,
}

impl<'a> MetWay<'a> {
    /// The way, which is one of the own ways or a neighbour. The tags of a neighbour are asked only where no block is
    /// known that tells its directions.
    fn of<M: World, P: Profile, K: KnownBlocks>(
        network: &Network<'_, M, P>,
        way: WayId,
        is_own: bool,
        known: &'a K,
    ) -> MetWay<'a>
        requires known { on network.now AreKnown (K.blocks known.now) }
        ensures way { result.road.way ≡ way }
        ensures is { on network.now IsMetWay result }
    {
        if is_own {
            return MetWay {
                road: Road::of(network, way),
                source: PieceSource::Own,
            };
        }
        match known.known(way) {
            Some(block) => MetWay {
                road: road_of(network, way, block),
                source: PieceSource::Listed(block),
            },
            None => MetWay {
                road: Road::of(network, way),
                source: PieceSource::Cut,
            },
        }
    }
}

/// The directions of the way whose pieces the block lists.
fn road_of<M: World, P: Profile>(network: &Network<'_, M, P>, way: WayId, block: &Block) -> Road
    requires { on network.now ListsPieces way block.now }
    ensures way { result.way ≡ way }
    ensures directions { on network.now IsRoad result }
{
    match listed_road(way, block) {
        Some(road) => road,
        None => Road::of(network, way),
    }
}

/// The ways, in their order. The own ways are told apart where both lists ascend, and the ways have all own ones among
/// them: one of the own ways that comes out of turn, and those behind it, count as neighbours.
pub fn met_ways<'a, M: World, P: Profile, K: KnownBlocks>(
    alloc: Global,
    network: &Network<'_, M, P>,
    ways: &[WayId],
    own: &[WayId],
    known: &'a K,
) -> Result<Vec<MetWay<'a>>, NoMemory>
    requires known { on network.now AreKnown (K.blocks known.now) }
    ensures are { IfOk result (λ v. All (on network.now IsMetWay) v.items) }
    ensures ways { IfOk result (λ v. map (λ m. m.road.way) v.items ≡ ways.now) }
{
    let mut met = Vec::with_capacity(alloc, ways.len())?;
    let mut left = own;
    for way in ways {
        let rest = rest_behind(left, *way);
        met.push(MetWay::of(network, *way, rest.is_some(), known))?;
        left = rest.unwrap_or(left);
    }
    Ok(met)
}

/// What stands behind the way, where the list begins with it.
fn rest_behind(ways: &[WayId], way: WayId) -> Option<&[WayId]> {
    match ways {
        [first, rest @ ..] if *first == way => Some(rest),
        _ => None,
    }
}

/// The directions of the ways.
pub fn roads_of(alloc: Global, met: &[MetWay<'_>]) -> Result<Roads, NoMemory>
    ensures are { IfOk result (λ r. (M : Objects) (P : Rules) → All (IsMetWay M P) met.now → AreRoads M P r) }
    ensures roads { IfOk result (λ r. r.roads.items ≡ map (λ m. m.road) met.now) }
{
    Ok(Roads::from_list(alloc, roads_in(alloc, met)?))
}

fn roads_in(alloc: Global, met: &[MetWay<'_>]) -> Result<Vec<Road>, AllocError>
    ensures { IfOk result (λ v. v.items ≡ map (λ m. m.road) met.now) }
{
    met.iter().map(|way| way.road).collect(alloc)
}
