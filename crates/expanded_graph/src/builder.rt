//! What builds the blocks of ways one after another.
ghost use Rattle.std.specs.Prelude.{◌≡◌, ◌+◌, map, IfOk, IsTrue, true};
ghost use Rattle.std.specs.List.{AllByRecursion};
ghost use Rattle.ordered_lists.specs.Orders.{rises};
ghost use Rattle.road_model.specs.Blocks.{IsBlock};
ghost use Rattle.way_pieces.specs.Known.{AreKnown};
ghost use Rattle.expanded_graph.specs.Bare.{IsBareBlock};
ghost use Rattle.road_model.specs.Format.{IsPieceForm, place_cmp};
ghost use Rattle.road_model.specs.Networks.{on};

use crate::block::{bare_block_alone, bare_block_of, block_alone, block_of};
use crate::tables::Tables;
use road_base::{NoMemory, Steps, WayId};
use road_model::{Block, Network, Profile, World};
use std::alloc::Global;
use std::marker::Model;
use std::sync::ledger::Ledger;
use way_pieces::KnownBlocks;

/// Builds the blocks of ways, in one world and for one profile. What they have in common is found when it is made.
#[derive(Drop)]
pub struct GraphBuilder<'a, M: World, P: Profile> {
    alloc: Global,
    network: Network<'a, M, P>,
    tables: Tables,
}

impl<'a, M: World, P: Profile> Model for GraphBuilder<'a, M, P> {
    ghost use Rattle.road_model.specs.Networks.{on};
    ghost use Rattle.expanded_graph.specs.Pair.{Pair};
    ghost use Rattle.expanded_graph.specs.Tables.{AreTables};

    ghost Value = { Pair M P };

    ghost view = { λ b. record { world = b.network.world.now; profile = b.network.profile } };

    ghost invariant = { λ b. on b.network AreTables b.tables };
}

impl<'a, M: World, P: Profile> GraphBuilder<'a, M, P> {
    /// For the blocks of these ways, ascending. They are cut into pieces, each once, and their lines are kept. The ways
    /// that meet them are cut where their blocks aren't known; else their pieces are those that the blocks list. A
    /// block of any other way is built as well, but what it needs is then found for it alone.
    pub fn of<K: KnownBlocks>(
        alloc: Global,
        world: &'a M,
        profile: P,
        ways: &[WayId],
        known: &K,
    ) -> Result<GraphBuilder<'a, M, P>, NoMemory>
        requires known { AreKnown (M.objects world.now) (P.rules profile) (K.blocks known.now) }
        ensures { IfOk result (λ b. b ≡ record { world = world.now; profile = profile }) }
    {
        let network = Network::new(world, profile);
        let tables = Tables::of(alloc, &network, ways, known)?;
        Ok(GraphBuilder {
            alloc,
            network,
            tables,
        })
    }

    /// For the blocks of these ways, ascending, without their sources. They are cut into pieces as by `of`, but nothing
    /// is found of what comes to the nodes where pieces start, nor of the words near the ways that meet these alone. A
    /// block with its sources, or one of any other way, is built as well, but what it needs is then found for it alone.
    pub fn bare<K: KnownBlocks>(
        alloc: Global,
        world: &'a M,
        profile: P,
        ways: &[WayId],
        known: &K,
    ) -> Result<GraphBuilder<'a, M, P>, NoMemory>
        requires known { AreKnown (M.objects world.now) (P.rules profile) (K.blocks known.now) }
        ensures { IfOk result (λ b. b ≡ record { world = world.now; profile = profile }) }
    {
        let network = Network::new(world, profile);
        let tables = Tables::bare(alloc, &network, ways, known)?;
        Ok(GraphBuilder {
            alloc,
            network,
            tables,
        })
    }

    /// For the blocks of all roads of the world, where these are they, ascending: no other way is cut into pieces, and
    /// no line is kept.
    pub fn of_all(
        alloc: Global,
        world: &'a M,
        profile: P,
        ways: &[WayId],
    ) -> Result<GraphBuilder<'a, M, P>, NoMemory>
        ensures { IfOk result (λ b. b ≡ record { world = world.now; profile = profile }) }
    {
        let network = Network::new(world, profile);
        let tables = Tables::of_all(alloc, &network, ways)?;
        Ok(GraphBuilder {
            alloc,
            network,
            tables,
        })
    }

    /// The profile for which it builds.
    pub fn profile(&self) -> P
        ensures { result ≡ self.now.profile }
    {
        self.network.profile
    }

    /// The block of the way: its pieces with their marks, nodes and locations, and contexts with arcs and sources. A
    /// way that isn't visible or is no road has no pieces. Adds one to the counter, also where no memory is found.
    pub fn block<L: Ledger>(&self, way: WayId, steps: &mut Steps<L>) -> Result<Block, NoMemory>
        ensures block { IfOk result (IsBlock (M.objects self.now.world) (P.rules self.now.profile) way) }
        ensures form { IfOk result (λ b. AllByRecursion (IsPieceForm true) b.pieces
            × IsTrue (rises place_cmp (map (λ p. p.name) b.pieces))) }
        ensures tick { steps.new ≡ steps.old + 1 }
    {
        steps.tick();
        if self.tables.serve(way) {
            return block_of(self.alloc, &self.network, &self.tables, way);
        }
        block_alone(self.alloc, &self.network, way)
    }

    /// The block of the way without the sources of its contexts, which list none. A way that isn't visible or is no
    /// road has no pieces. Adds one to the counter, also where no memory is found.
    pub fn bare_block<L: Ledger>(&self, way: WayId, steps: &mut Steps<L>) -> Result<Block, NoMemory>
        ensures block { IfOk result (IsBareBlock (M.objects self.now.world) (P.rules self.now.profile) way) }
        ensures form { IfOk result (λ b. AllByRecursion (IsPieceForm true) b.pieces
            × IsTrue (rises place_cmp (map (λ p. p.name) b.pieces))) }
        ensures tick { steps.new ≡ steps.old + 1 }
    {
        steps.tick();
        if self.tables.serve(way) {
            return bare_block_of(self.alloc, &self.network, &self.tables, way);
        }
        bare_block_alone(self.alloc, &self.network, way)
    }
}
