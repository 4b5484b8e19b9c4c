//! What follows changes.
ghost use Rattle.std.specs.Prelude.{◌≡◌, ◌+◌, ◌≤◌, List, length, map, true, IfOk, OnOk, OnErr};
ghost use Rattle.std.specs.List.{AllByRecursion};
ghost use Rattle.std.specs.FinMap.{empty, find, get, values};
ghost use Rattle.road_base.specs.declared.ids.WayId.{WayId as WayNumber};
ghost use Rattle.road_base.specs.Objects.{Objects};
ghost use Rattle.road_base.specs.Applying.{IsApplied};
ghost use Rattle.road_model.specs.Highways.{highways};
ghost use Rattle.road_model.specs.Links.{AreTouched};
ghost use Rattle.road_model.specs.BlockMap.{AreBlocksOf};
ghost use Rattle.road_model.specs.Blocks.{IsRoadBlock};
ghost use Rattle.road_model.specs.Format.{IsBlockForm};
ghost use Rattle.ordered_lists.specs.Orders.{Lists};
ghost use Rattle.road_model.specs.Orders.{way_cmp};
ghost use Rattle.layered_maps.specs.Layers.{Rise};
ghost use Rattle.layered_maps.specs.Maps.{change_pair, changed_by};
ghost use Rattle.graph_blocks.specs.Lent.{map_of};
ghost use Rattle.change_apply.specs.Engines.{AreKept, BuildsTouched, Touches};
ghost use Rattle.change_apply.specs.Rebuilding.{way_of};

use crate::building::{build, rebuild_around};
use crate::changes::{BlockChanges, changes_of};
use crate::touching::{close_to, touched_by};
use back_references::{Indexed, Next, Prepared};
use graph_blocks::RoadBlocks;
use graph_blocks::laws::values_in_order;
use road_base::laws::one_map;
use road_base::{Event, NoMemory, Steps};
use road_model::laws::name_order;
use road_model::{Network, Profile};
use std::alloc::Global;
use std::marker::Model;
use std::sync::ledger::Ledger;
use touched_ways::laws::some_touched_ways;

/// What a change cost.
#[derive(Clone, Copy, PartialEq, Eq, Debug)]
pub struct Report {
    /// How many ways it touched.
    pub touched: u64,
    /// How many blocks were built.
    pub rebuilt: u64,
}

/// A world with the blocks of all its ways with pieces.
#[derive(Drop)]
pub struct Engine<P: Profile> {
    alloc: Global,
    profile: P,
    world: Indexed,
    blocks: RoadBlocks,
}

impl<P: Profile> Model for Engine<P> {
    ghost use Rattle.std.specs.FinMap.{get};
    ghost use Rattle.graph_blocks.specs.Lent.{map_of};
    ghost use Rattle.change_apply.specs.Engines.{AreKept, Followed, coded_followed};

    ghost Value = { Followed P };

    ghost coded = { coded_followed P.code };

    ghost view = { λ e. record { profile = e.profile; world = e.world } };

    ghost invariant = { λ e. AreKept e.world (P.rules e.profile) (get (map_of e.blocks)) };
}

impl<P: Profile> Engine<P> {
    /// What the events leave of no objects, of each object the first one of the greatest version, with its blocks. The
    /// events are moved, not copied. No more blocks are built than there are visible ways with the key `highway`.
    pub fn load<L: Ledger>(
        alloc: Global,
        profile: P,
        events: Vec<Event>,
        steps: &mut Steps<L>,
    ) -> Result<Engine<P>, NoMemory>
        ensures loaded { IfOk result (λ e. IsApplied empty events.items e.world) }
        ensures profile { IfOk result (λ e. e.profile ≡ profile) }
        ensures built { (objects : Objects)
            → IsApplied empty events.items objects
            → steps.new ≤ steps.old + length (highways objects) }
    {
        one_map();
        let world = Indexed::of(alloc, events)?;
        let blocks = build(alloc, &world, profile, steps)?;
        Ok(Engine {
            alloc,
            profile,
            world,
            blocks,
        })
    }

    /// An equal value, which shares all with this one, so that a change of the one leaves the other as it was. Takes
    /// some reference counts, and lists of at most eight.
    pub fn copy(&self) -> Result<Engine<P>, NoMemory>
        ensures { IfOk result (λ e. e ≡ self.now) }
    {
        let world = self.world.copy()?;
        let blocks = self.blocks.share()?;
        Ok(Engine {
            alloc: self.alloc,
            profile: self.profile,
            world,
            blocks,
        })
    }

    /// Applies the events: of each key the first one of the greatest version stands, its entry here before all of
    /// them. The blocks are then those of what the events left: one is built for each way whose block they may alter,
    /// and all others stay. It tells how many were built. Where no memory is found nothing changes.
    pub fn follow<L: Ledger>(
        &mut self,
        events: &[Event],
        steps: &mut Steps<L>,
    ) -> Result<u64, NoMemory>
        ensures applied { OnOk result (IsApplied self.old.world events.now self.new.world) }
        ensures profile { self.new.profile ≡ self.old.profile }
        ensures err { OnErr result (self.new ≡ self.old) }
        ensures rebuilt { IfOk result (λ r. steps.new ≡ steps.old + r) }
        ensures built { BuildsTouched self.old.world events.now steps.old steps.new }
    {
        one_map();
        name_order();
        some_touched_ways();
        let prepared = self.world.prepare(events)?;
        let network = Network::new(&self.world, self.profile);
        let (changes, count) = rebuild_after(self.alloc, &network, &self.blocks, &prepared, steps)?;
        let exchange = self.blocks.prepare_both(changes.near, changes.later)?;
        self.world.commit(prepared);
        self.blocks.commit(exchange);
        Ok(count)
    }

    /// The same as `follow`, and tells also how many ways the events touch, which takes the time of finding these and
    /// of finding what the events leave once more.
    pub fn apply<L: Ledger>(
        &mut self,
        events: &[Event],
        steps: &mut Steps<L>,
    ) -> Result<Report, NoMemory>
        ensures applied { OnOk result (IsApplied self.old.world events.now self.new.world) }
        ensures profile { self.new.profile ≡ self.old.profile }
        ensures err { OnErr result (self.new ≡ self.old) }
        ensures touched { IfOk result (λ r. (ways : List WayNumber)
            → AreTouched self.old.world self.new.world ways
            → r.touched ≡ length ways) }
        ensures rebuilt { IfOk result (λ r. steps.new ≡ steps.old + r.rebuilt) }
        ensures few { IfOk result (λ r. r.rebuilt ≤ r.touched) }
        ensures ways { OnOk result (Touches self.old.world events.now) }
        ensures built { BuildsTouched self.old.world events.now steps.old steps.new }
    {
        some_touched_ways();
        let touched = self.count_touched(events)?;
        let rebuilt = self.follow(events, steps)?;
        Ok(Report { touched, rebuilt })
    }

    /// How many ways the events touch.
    fn count_touched(&self, events: &[Event]) -> Result<u64, NoMemory>
        ensures { IfOk result (λ n. (after : Objects) (ways : List WayNumber)
            → IsApplied self.now.world events.now after
            → AreTouched self.now.world after ways
            → n ≡ length ways) }
    {
        one_map();
        name_order();
        let mut world = self.world.copy()?;
        let prepared = world.prepare(events)?;
        let touched = touched_by(self.alloc, &world, &prepared)?;
        Ok(touched.items().len() as u64)
    }

    /// The profile.
    pub fn profile(&self) -> P
        ensures { result ≡ self.now.profile }
    {
        self.profile
    }

    /// The objects.
    pub fn world(&self) -> &Indexed
        ensures { result.now ≡ self.now.world }
    {
        &self.world
    }

    /// The blocks of all ways with pieces, in the form in which a graph file holds them, and ascending by way as those
    /// of the graph are listed. Takes no memory.
    pub fn blocks(&self) -> &RoadBlocks
        ensures blocks { AreBlocksOf self.now.world (P.rules self.now.profile) (map_of result.now) }
        ensures listed { Lists (λ b. b.way) way_cmp (IsRoadBlock self.now.world (P.rules self.now.profile))
            (values (map_of result.now)) }
        ensures forms { AllByRecursion (IsBlockForm true) (values (map_of result.now)) }
    {
        values_in_order();
        &self.blocks
    }
}

/// Builds the blocks that the prepared change alters, and finds what changes of those that stand, and how many were
/// built.
fn rebuild_after<P: Profile, L: Ledger>(
    alloc: Global,
    network: &Network<'_, Indexed, P>,
    blocks: &RoadBlocks,
    prepared: &Prepared,
    steps: &mut Steps<L>,
) -> Result<(BlockChanges, u64), NoMemory>
    requires before { prepared.now.before ≡ network.now.world.now }
    requires kept { AreKept network.now.world.now (P.rules network.now.profile) (get (map_of blocks.now)) }
    ensures near { IfOk result (λ r. Rise way_cmp (map (change_pair way_of) r.0.near.items)) }
    ensures later { IfOk result (λ r. Rise way_cmp (map (change_pair way_of) r.0.later.items)) }
    ensures kept { IfOk result (λ r. AreKept prepared.now.after (P.rules network.now.profile)
        (λ w. find way_cmp w
        (changed_by way_of way_cmp r.0.later.items (changed_by way_of way_cmp r.0.near.items blocks.now)))) }
    ensures count { IfOk result (λ r. steps.new ≡ steps.old + r.1) }
    ensures few { (ways : List WayNumber)
        → AreTouched network.now.world.now prepared.now.after ways
        → steps.new ≤ steps.old + length ways }
{
    name_order();
    let close = close_to(alloc, network.world, prepared)?;
    let next = Next::of(network.world, prepared);
    let rebuilt = rebuild_around(alloc, network, &next, &close, blocks, steps)?;
    let count = rebuilt.count;
    let changes = changes_of(alloc, blocks, rebuilt)?;
    Ok((changes, count))
}
