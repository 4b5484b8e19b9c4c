//! What is found once before blocks are built.
ghost use Rattle.std.specs.Prelude.{◌≡◌, ◌↔◌, ◌⊎◌, IfOk, IsTrue, Contains};
ghost use Rattle.road_base.specs.declared.ids.WayId.{WayId};
ghost use Rattle.way_pieces.specs.Known.{AreKnown};
ghost use Rattle.road_model.specs.Networks.{on};
ghost use Rattle.expanded_graph.specs.Tables.{AreTables};

use crate::intersections::Intersections;
use crate::watched::WatchedWays;
use ordered_lists::leave_once;
use road_base::{NoMemory, WayId};
use road_model::laws::name_order;
use road_model::{Network, Profile, World};
use std::alloc::Global;
use touched_ways::ways_met;
use way_pieces::{KnownBlocks, RoadPieces};

/// What the blocks of ways are built from: the pieces of ways, the ways near which words are watched for, and the nodes
/// where pieces start or end. The watched ways are those whose blocks are asked for, and, where their sources are, all
/// that meet them, since the contexts of these are sources. Nothing is added while blocks are built: a way that isn't
/// among those whose pieces are known is cut whenever it is met.
#[derive(Drop)]
pub struct Tables {
    pub pieces: RoadPieces,
    pub watched: WatchedWays,
    pub intersections: Intersections,
}

impl Tables {
    /// For blocks of these ways, ascending. They are cut into pieces, each of them once and its line kept, and the
    /// nodes where these pieces start or end are asked what leaves them and what comes there. Of the ways that meet
    /// them those are cut whose blocks aren't known.
    pub fn of<M: World, P: Profile, K: KnownBlocks>(
        alloc: Global,
        network: &Network<'_, M, P>,
        ways: &[WayId],
        known: &K,
    ) -> Result<Tables, NoMemory>
        requires known { on network.now AreKnown (K.blocks known.now) }
        ensures are { IfOk result (on network.now AreTables) }
        ensures ways { IfOk result (λ t. (w : WayId) → Contains ways.now w → Contains t.watched.ways.items w) }
    {
        let met = ways_met(alloc, network.world, ways)?;
        let pieces = RoadPieces::around(alloc, network, met.items(), ways, known)?;
        let served = both(alloc, ways, met.items())?;
        let watched = WatchedWays::of(alloc, network, &pieces, served)?;
        let intersections = Intersections::of(alloc, network, &pieces, &watched, pieces.ends())?;
        Ok(Tables {
            pieces,
            watched,
            intersections,
        })
    }

    /// For blocks of these ways, ascending, without their sources: the nodes aren't asked what comes there, and words
    /// are watched for near these ways alone.
    pub fn bare<M: World, P: Profile, K: KnownBlocks>(
        alloc: Global,
        network: &Network<'_, M, P>,
        ways: &[WayId],
        known: &K,
    ) -> Result<Tables, NoMemory>
        requires known { on network.now AreKnown (K.blocks known.now) }
        ensures are { IfOk result (on network.now AreTables) }
        ensures ways { IfOk result (λ t. t.watched.ways.items ≡ ways.now) }
    {
        let met = ways_met(alloc, network.world, ways)?;
        let pieces = RoadPieces::around(alloc, network, met.items(), ways, known)?;
        let own = ways.to_vec(alloc)?;
        let watched = WatchedWays::of(alloc, network, &pieces, own)?;
        let intersections = Intersections::left(alloc, network, &pieces, &watched, pieces.ends())?;
        Ok(Tables {
            pieces,
            watched,
            intersections,
        })
    }

    /// For blocks of all roads, where these are they: none but them is cut into pieces, and each of them once.
    pub fn of_all<M: World, P: Profile>(
        alloc: Global,
        network: &Network<'_, M, P>,
        ways: &[WayId],
    ) -> Result<Tables, NoMemory>
        ensures are { IfOk result (on network.now AreTables) }
        ensures ways { IfOk result (λ t. t.watched.ways.items ≡ ways.now) }
    {
        let pieces = RoadPieces::of(alloc, network, ways)?;
        let served = ways.to_vec(alloc)?;
        let watched = WatchedWays::of(alloc, network, &pieces, served)?;
        let intersections = Intersections::of(alloc, network, &pieces, &watched, pieces.ends())?;
        let pieces = pieces.without_starts(alloc);
        Ok(Tables {
            pieces,
            watched,
            intersections,
        })
    }

    /// Whether blocks of the way are built from these. Where it is false it may still stand among the ways.
    pub fn serve(&self, way: WayId) -> bool
        ensures { IsTrue result → Contains self.now.watched.ways.items way }
    {
        self.watched.have(way)
    }
}

/// These ways and the others, each once, ascending.
fn both(alloc: Global, ways: &[WayId], others: &[WayId]) -> Result<Vec<WayId>, NoMemory>
    ensures { IfOk result (λ v. (w : WayId) → Contains v.items w ↔ (Contains ways.now w ⊎ Contains others.now w)) }
{
    name_order();
    let mut list = ways.to_vec(alloc)?;
    list.extend_from_slice(others)?;
    leave_once(&mut list);
    Ok(list)
}
