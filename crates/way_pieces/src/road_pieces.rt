//! Roads cut into pieces.
ghost use Rattle.std.specs.Prelude.{◌≡◌, ◌≤◌, length, map, IfOk, IfSome, OnOk};
ghost use Rattle.road_base.specs.declared.ids.WayId.{WayId};
ghost use Rattle.road_base.specs.Objects.{Objects};
ghost use Rattle.road_model.specs.Rules.{Rules};
ghost use Rattle.road_model.specs.Blocks.{ListsPieces};
ghost use Rattle.way_pieces.specs.Known.{AreKnown};
ghost use Rattle.ordered_lists.specs.Orders.{Lists};
ghost use Rattle.road_model.specs.Orders.{name_cmp};
ghost use Rattle.road_model.specs.Networks.{on};
ghost use Rattle.way_lines.specs.RoadLines.{AreRoads, IsRoad, IsRoadLine};
ghost use Rattle.way_pieces.specs.Names.{IsDeparture, IsArrival};
ghost use Rattle.way_pieces.specs.Arrivals.{arriving, IsComingOver};
ghost use Rattle.way_pieces.specs.Departures.{IsOver, Gains};
ghost use Rattle.way_pieces.specs.RoadPieces.{AreSpans, AreStarts, AreStops, AreWayPieces, IsLineOf};
ghost use Rattle.way_pieces.specs.RoadPieces.{IsCutRoad, IsMetWay, AreRoadPieces};

use crate::arrivals::Arrival;
use crate::at_nodes::{AtNode, add_items, put_in_order, standing_at};
use crate::departures::Departure;
use crate::known::KnownBlocks;
use crate::listed::{spans_in, starts_in, stops_in};
use crate::met_ways::{MetWay, PieceSource, met_ways, roads_of};
use crate::spans::{PieceSpan, spans_along};
use crate::starts::starts_of;
use crate::stops::stops_of;
use junctions::junctions_along;
use ordered_lists::Groups;
use road_base::{NoMemory, NodeId, WayId};
use road_model::laws::{name_order, number_order, roads_refer};
use road_model::{Block, Network, Profile, World};
use std::alloc::Global;
use way_lines::{LineNode, Road, RoadLine, Roads};

/// The pieces of a way by their names, and where they start and end by the nodes there.
#[derive(Drop)]
pub struct WayPieces {
    pub spans: Vec<PieceSpan>,
    pub starts: Vec<AtNode<Departure>>,
    pub stops: Vec<AtNode<Arrival>>,
}

impl WayPieces {
    /// The pieces of the way whose directions these are. Its line is read once.
    pub fn of<M: World, P: Profile>(
        alloc: Global,
        network: &Network<'_, M, P>,
        roads: &Roads,
        road: Road,
    ) -> Result<WayPieces, NoMemory>
        requires roads { on network.now AreRoads roads.now }
        requires road { on network.now IsRoad road }
        ensures { IfOk result (on network.now AreWayPieces road.way) }
    {
        let line = RoadLine::of(alloc, network, road)?;
        WayPieces::along(alloc, network, roads, &line)
    }

    /// The pieces of the way whose line this is.
    pub fn along<M: World, P: Profile>(
        alloc: Global,
        network: &Network<'_, M, P>,
        roads: &Roads,
        line: &RoadLine,
    ) -> Result<WayPieces, NoMemory>
        requires roads { on network.now AreRoads roads.now }
        requires line { on network.now IsRoadLine line.now }
        requires short { length line.now.nodes.items ≤ 65535 }
        ensures { IfOk result (on network.now AreWayPieces line.now.road.way) }
    {
        name_order();
        number_order();
        let junctions = junctions_along(alloc, network, roads, line)?;
        let spans = spans_along(alloc, network, line, junctions.as_slice())?;
        let mut starts = starts_of(alloc, line.nodes.as_slice(), spans.as_slice())?;
        put_in_order(&mut starts)?;
        let mut stops = stops_of(alloc, line.nodes.as_slice(), spans.as_slice())?;
        put_in_order(&mut stops)?;
        Ok(WayPieces {
            spans,
            starts,
            stops,
        })
    }

    /// The pieces of the way that the block lists.
    pub fn listed(alloc: Global, block: &Block) -> Result<WayPieces, NoMemory>
        ensures { IfOk result (λ p. (M : Objects) (P : Rules) (w : WayId)
            → ListsPieces M P w block.now
            → AreWayPieces M P w p) }
    {
        let spans = spans_in(alloc, block)?;
        let starts = starts_in(alloc, block)?;
        let stops = stops_in(alloc, block)?;
        Ok(WayPieces {
            spans,
            starts,
            stops,
        })
    }
}

/// The pieces of the way, each once, by position and forward before backward.
pub fn spans_of<M: World, P: Profile>(
    alloc: Global,
    world: &M,
    profile: &P,
    way: WayId,
) -> Result<Vec<PieceSpan>, NoMemory>
    ensures { IfOk result (λ v. AreSpans (M.objects world.now) (P.rules profile.now) way v.items) }
{
    let network = Network::new(world, *profile);
    let roads = Roads::new(alloc);
    let pieces = WayPieces::of(alloc, &network, &roads, Road::of(&network, way))?;
    Ok(pieces.spans)
}

/// Adds the nodes where the pieces of the way start and end whose line these nodes are. The pieces ascend.
fn add_ends(
    ends: &mut Vec<NodeId>,
    nodes: &[LineNode],
    spans: &[PieceSpan],
) -> Result<(), NoMemory> {
    let mut next = 0;
    for span in spans {
        next = add_end(ends, nodes, span.name.index, next)?;
        next = add_end(ends, nodes, span.end, next)?;
    }
    Ok(())
}

/// Adds the node at the position, unless the position is below the next one that is to be added. Answers the next one
/// after that.
fn add_end(
    ends: &mut Vec<NodeId>,
    nodes: &[LineNode],
    position: u32,
    next: u32,
) -> Result<u32, NoMemory> {
    if position < next {
        return Ok(next);
    }
    if let Some(end) = nodes.get(position as usize) {
        ends.push(end.node)?;
    }
    Ok(position.saturating_add(1))
}

/// How many pieces a way has that is yet to be cut, as a guess.
const PIECES: usize = 8;

/// How many pieces the ways have: those that blocks list, and a guess for each way that is yet to be cut.
fn guessed_pieces(ways: &[MetWay<'_>]) -> usize {
    let mut count: usize = 0;
    for way in ways {
        let pieces = match way.source {
            PieceSource::Listed(block) => block.pieces.items().len(),
            PieceSource::Own | PieceSource::Cut => PIECES,
        };
        count = count.saturating_add(pieces);
    }
    count
}

/// A way that was cut into pieces, and its line, where that is kept.
#[derive(Drop)]
struct CutRoad {
    pieces: WayPieces,
    line: Option<RoadLine>,
}

impl CutRoad {
    /// The way, and its line where it is one of the own ways.
    fn of<M: World, P: Profile>(
        alloc: Global,
        network: &Network<'_, M, P>,
        roads: &Roads,
        met: &MetWay<'_>,
    ) -> Result<CutRoad, NoMemory>
        requires roads { on network.now AreRoads roads.now }
        requires met { on network.now IsMetWay met.now }
        ensures { IfOk result (on network.now IsCutRoad met.now.road.way) }
    {
        let pieces = match met.source {
            PieceSource::Own => return CutRoad::own(alloc, network, roads, met.road),
            PieceSource::Listed(block) => WayPieces::listed(alloc, block)?,
            PieceSource::Cut => WayPieces::of(alloc, network, roads, met.road)?,
        };
        Ok(CutRoad { pieces, line: None })
    }

    /// The way whose directions these are, with its line.
    fn own<M: World, P: Profile>(
        alloc: Global,
        network: &Network<'_, M, P>,
        roads: &Roads,
        road: Road,
    ) -> Result<CutRoad, NoMemory>
        requires roads { on network.now AreRoads roads.now }
        requires road { on network.now IsRoad road }
        ensures { IfOk result (on network.now IsCutRoad road.way) }
    {
        let line = RoadLine::of(alloc, network, road)?;
        let pieces = WayPieces::along(alloc, network, roads, &line)?;
        Ok(CutRoad {
            pieces,
            line: Some(line),
        })
    }

    /// Adds the nodes where the pieces of the way start and end, where its line is kept.
    fn add_own_ends(&self, ends: &mut Vec<NodeId>) -> Result<(), NoMemory> {
        match &self.line {
            Some(line) => add_ends(ends, line.nodes.as_slice(), self.pieces.spans.as_slice()),
            None => Ok(()),
        }
    }
}

/// Roads with their pieces, each once. The pieces of one of them are found in the time of a short search, where they
/// were given in ascending order.
#[derive(Drop)]
pub struct RoadPieces {
    roads: Roads,
    spans: Groups<PieceSpan>,
    starts: Groups<AtNode<Departure>>,
    stops: Groups<AtNode<Arrival>>,
    ends: Vec<NodeId>,
    lines: Vec<Option<RoadLine>>,
}

impl RoadPieces {
    /// These ways, cut into pieces. One that isn't visible or is no road has none. No lines are kept.
    pub fn of<M: World, P: Profile>(
        alloc: Global,
        network: &Network<'_, M, P>,
        ways: &[WayId],
    ) -> Result<RoadPieces, NoMemory>
        ensures are { IfOk result (on network.now AreRoadPieces) }
        ensures ways { IfOk result (λ p. map (λ x. x.way) p.roads.roads.items ≡ ways.now) }
    {
        let roads = Roads::of(alloc, network, ways)?;
        let mut spans = Groups::new(alloc);
        let mut starts = Groups::new(alloc);
        let mut stops = Groups::new(alloc);
        let mut ends = Vec::new(alloc);
        for road in roads.items() {
            let line = RoadLine::of(alloc, network, *road)?;
            let pieces = WayPieces::along(alloc, network, &roads, &line)?;
            spans.push(pieces.spans.as_slice())?;
            starts.push(pieces.starts.as_slice())?;
            stops.push(pieces.stops.as_slice())?;
            add_ends(&mut ends, line.nodes.as_slice(), pieces.spans.as_slice())?;
        }
        Ok(RoadPieces {
            roads,
            spans,
            starts,
            stops,
            ends,
            lines: Vec::new(alloc),
        })
    }

    /// Own ways, and those that meet them, their neighbours; both lists ascend, and `met` has them all. The own ways
    /// are cut, and their lines are kept. A neighbour whose block is known isn't cut: its pieces are those that the
    /// block lists, and where it lists any, they tell in which directions it is open. The others are cut, but their
    /// lines let go.
    pub fn around<M: World, P: Profile, K: KnownBlocks>(
        alloc: Global,
        network: &Network<'_, M, P>,
        met: &[WayId],
        own: &[WayId],
        known: &K,
    ) -> Result<RoadPieces, NoMemory>
        requires known { on network.now AreKnown (K.blocks known.now) }
        ensures are { IfOk result (on network.now AreRoadPieces) }
        ensures ways { IfOk result (λ p. map (λ x. x.way) p.roads.roads.items ≡ met.now) }
    {
        let ways = met_ways(alloc, network, met, own, known)?;
        let roads = roads_of(alloc, ways.as_slice())?;
        let pieces = guessed_pieces(ways.as_slice());
        let mut spans = Groups::with_capacity(alloc, met.len(), pieces)?;
        let mut starts = Groups::with_capacity(alloc, met.len(), pieces)?;
        let mut stops = Groups::with_capacity(alloc, met.len(), pieces)?;
        let mut ends = Vec::with_capacity(alloc, own.len().saturating_mul(PIECES))?;
        let mut lines = Vec::with_capacity(alloc, met.len())?;
        for way in ways.as_slice() {
            let cut = CutRoad::of(alloc, network, &roads, way)?;
            spans.push(cut.pieces.spans.as_slice())?;
            starts.push(cut.pieces.starts.as_slice())?;
            stops.push(cut.pieces.stops.as_slice())?;
            cut.add_own_ends(&mut ends)?;
            lines.push(cut.line)?;
        }
        Ok(RoadPieces {
            roads,
            spans,
            starts,
            stops,
            ends,
            lines,
        })
    }

    /// The directions of these ways.
    pub fn roads(&self) -> &Roads
        ensures { result.now ≡ self.now.roads }
    {
        &self.roads
    }

    /// The nodes where the pieces of the own ways start and end, or those of all ways where none are told apart; in
    /// no order, some more than once.
    pub fn ends(&self) -> &[NodeId] {
        self.ends.as_slice()
    }

    /// The same roads and pieces; where these start and end, and the lines, are let go: what leaves a node or comes to
    /// it is then cut for each call.
    pub fn without_starts(self, alloc: Global) -> RoadPieces
        ensures are { (M : Objects) (P : Rules) → AreRoadPieces M P self → AreRoadPieces M P result }
        ensures roads { result.roads ≡ self.roads }
    {
        let RoadPieces { roads, spans, .. } = self;
        RoadPieces {
            roads,
            spans,
            starts: Groups::new(alloc),
            stops: Groups::new(alloc),
            ends: Vec::new(alloc),
            lines: Vec::new(alloc),
        }
    }

    /// The pieces of the way, if it is found among these.
    pub fn spans_of(&self, way: WayId) -> Option<&[PieceSpan]>
        ensures { IfSome result (λ spans. (M : Objects) (P : Rules)
            → AreRoadPieces M P self.now
            → AreSpans M P way spans.now) }
    {
        let at = self.roads.position_of(way)?;
        if at >= self.spans.len() {
            return None;
        }
        Some(self.spans.at(at))
    }

    /// The line of the way, if it is found among those whose lines were kept.
    pub fn line_of(&self, way: WayId) -> Option<&RoadLine>
        ensures { IfSome result (λ line. (M : Objects) (P : Rules)
            → AreRoadPieces M P self.now
            → IsLineOf M P way line.now) }
    {
        let at = self.roads.position_of(way)?;
        if at >= self.lines.len() {
            return None;
        }
        self.lines[at].as_ref()
    }

    /// Where the pieces of the way start, by node, if it is found among these.
    fn starts_of(&self, way: WayId) -> Option<&[AtNode<Departure>]>
        ensures { IfSome result (λ starts. (M : Objects) (P : Rules)
            → AreRoadPieces M P self.now
            → AreStarts M P way starts.now) }
    {
        let at = self.roads.position_of(way)?;
        if at >= self.starts.len() {
            return None;
        }
        Some(self.starts.at(at))
    }

    /// Where the pieces of the way end, by node, if it is found among these.
    fn stops_of(&self, way: WayId) -> Option<&[AtNode<Arrival>]>
        ensures { IfSome result (λ stops. (M : Objects) (P : Rules)
            → AreRoadPieces M P self.now
            → AreStops M P way stops.now) }
    {
        let at = self.roads.position_of(way)?;
        if at >= self.stops.len() {
            return None;
        }
        Some(self.stops.at(at))
    }

    /// The pieces whose first step leaves the node, each once, ascending by name. A way at the node that isn't found
    /// among these is cut for this call alone.
    pub fn departures<M: World, P: Profile>(
        &self,
        alloc: Global,
        network: &Network<'_, M, P>,
        node: NodeId,
    ) -> Result<Vec<Departure>, NoMemory>
        requires { on network.now AreRoadPieces self.now }
        ensures { IfOk result (λ v. Lists (λ d. d.piece) name_cmp (on network.now IsDeparture node) v.items) }
    {
        roads_refer(&network.profile);
        let mut departures = Vec::new(alloc);
        for way in network.world.ways_at(node) {
            self.add_over(alloc, &mut departures, network, *way, node)?;
        }
        Ok(departures)
    }

    /// Adds the departures from the node over the way.
    fn add_over<M: World, P: Profile>(
        &self,
        alloc: Global,
        departures: &mut Vec<Departure>,
        network: &Network<'_, M, P>,
        way: WayId,
        node: NodeId,
    ) -> Result<(), NoMemory>
        requires { on network.now AreRoadPieces self.now }
        ensures { OnOk result (Gains (λ d. d.piece) (on network.now IsOver node way)
            departures.old.items departures.new.items) }
    {
        if let Some(starts) = self.starts_of(way) {
            return add_items(departures, standing_at(starts, node));
        }
        let own = WayPieces::of(alloc, network, &self.roads, self.roads.road(network, way))?;
        add_items(departures, standing_at(own.starts.as_slice(), node))
    }

    /// The pieces that end at the node, each once, ascending by name. A way at the node that isn't found among these is
    /// cut for this call alone.
    pub fn arrivals<M: World, P: Profile>(
        &self,
        alloc: Global,
        network: &Network<'_, M, P>,
        node: NodeId,
    ) -> Result<Vec<Arrival>, NoMemory>
        requires { on network.now AreRoadPieces self.now }
        ensures { IfOk result (λ v. Lists (λ a. a.span.name) name_cmp (on network.now IsArrival node) v.items) }
    {
        roads_refer(&network.profile);
        let mut arrivals = Vec::new(alloc);
        for way in network.world.ways_at(node) {
            self.add_coming(alloc, &mut arrivals, network, *way, node)?;
        }
        Ok(arrivals)
    }

    /// Adds the arrivals at the node over the way.
    fn add_coming<M: World, P: Profile>(
        &self,
        alloc: Global,
        arrivals: &mut Vec<Arrival>,
        network: &Network<'_, M, P>,
        way: WayId,
        node: NodeId,
    ) -> Result<(), NoMemory>
        requires { on network.now AreRoadPieces self.now }
        ensures { OnOk result (Gains arriving (on network.now IsComingOver node way)
            arrivals.old.items arrivals.new.items) }
    {
        if let Some(stops) = self.stops_of(way) {
            return add_items(arrivals, standing_at(stops, node));
        }
        let own = WayPieces::of(alloc, network, &self.roads, self.roads.road(network, way))?;
        add_items(arrivals, standing_at(own.stops.as_slice(), node))
    }
}
