//! The contexts of a piece with their sources, found at the node where it starts.
ghost use Rattle.std.specs.Prelude.{◌≡◌, map, IfOk, IsTrue, Contains};
ghost use Rattle.ordered_lists.specs.Orders.{Lists};
ghost use Rattle.road_model.specs.Pieces.{Span, IsPiece};
ghost use Rattle.road_model.specs.Orders.{names_cmp};
ghost use Rattle.road_model.specs.Blocks.{IsContextEntry, name_of};
ghost use Rattle.road_model.specs.Format.{begins_alone};
ghost use Rattle.road_model.specs.Networks.{on};
ghost use Rattle.way_pieces.specs.Names.{IsDeparture};
ghost use Rattle.expanded_graph.specs.Arrivals.{AreComing};
ghost use Rattle.expanded_graph.specs.Contexts.{IsBareContext};
ghost use Rattle.expanded_graph.specs.Intersections.{AreFree, IsIntersection};
ghost use Rattle.expanded_graph.specs.Tables.{AreTables};

use crate::arrivals::not_told_apart;
use crate::attached::with_sources;
use crate::intersections::{Confluence, Intersection};
use crate::places::PieceStart;
use crate::plain::{are_plain, plain_sources, with_first};
use crate::sources::leading_by;
use crate::tables::Tables;
use road_base::NoMemory;
use road_model::laws::{contexts, name_order, one_name, steps_depart};
use road_model::{Context, Network, Profile, World};
use std::alloc::Global;
use way_lines::NodeRules;
use way_pieces::Departure;

/// The contexts of the piece that starts so, each with its sources. What is to be known of a node that isn't found
/// among the intersections is found for this piece alone.
pub fn sourced_at<M: World, P: Profile>(
    alloc: Global,
    network: &Network<'_, M, P>,
    tables: &Tables,
    start: PieceStart,
    bare: Vec<Context>,
) -> Result<Vec<Context>, NoMemory>
    requires tables { on network.now AreTables tables.now }
    requires start { on network.now IsDeparture start.at start.departure }
    requires alone { begins_alone bare.items }
    ensures listed { IfOk result (λ v. (p : Span) → on network.now IsPiece p → start.departure.piece ≡ name_of p
        → Lists (λ c. c.before) names_cmp (on network.now IsBareContext p) bare.items
        → Lists (λ c. c.before) names_cmp (on network.now IsContextEntry p) v.items) }
    ensures names { IfOk result (λ v. map (λ c. c.before) v.items ≡ map (λ c. c.before) bare.items) }
{
    if let Some(meeting) = tables.intersections.find_meeting(start.at) {
        return sourced_by(alloc, network, tables, meeting, start.departure, bare);
    }
    let departures = tables.pieces.departures(alloc, network, start.at)?;
    let coming = tables.pieces.arrivals(alloc, network, start.at)?;
    let arrivals = not_told_apart(alloc, coming.as_slice())?;
    let rules = NodeRules::of(network, start.at);
    let intersection = Intersection {
        rules,
        departures: departures.as_slice(),
        is_free: false,
    };
    let meeting = Confluence {
        intersection,
        arrivals: arrivals.as_slice(),
    };
    sourced_by(alloc, network, tables, meeting, start.departure, bare)
}

/// The contexts of the piece that leaves so, each with its sources. Where the node is free and all that may go on are
/// plain, the sources are these pieces, and nothing is sorted.
fn sourced_by<M: World, P: Profile>(
    alloc: Global,
    network: &Network<'_, M, P>,
    tables: &Tables,
    meeting: Confluence<'_>,
    departure: Departure,
    bare: Vec<Context>,
) -> Result<Vec<Context>, NoMemory>
    requires tables { on network.now AreTables tables.now }
    requires intersection { on network.now IsIntersection meeting.intersection }
    requires arrivals { on network.now AreComing tables.now.watched.states.automaton
        tables.now.watched.states.facts.items meeting.intersection.rules.node meeting.arrivals.now }
    requires free { IsTrue meeting.intersection.is_free → on network.now AreFree tables.now.watched.states.automaton
        tables.now.watched.states.facts.items meeting.intersection.rules meeting.intersection.departures.now }
    requires departure { Contains meeting.intersection.departures.now departure }
    requires alone { begins_alone bare.items }
    ensures listed { IfOk result (λ v. (p : Span) → on network.now IsPiece p → departure.piece ≡ name_of p
        → Lists (λ c. c.before) names_cmp (on network.now IsBareContext p) bare.items
        → Lists (λ c. c.before) names_cmp (on network.now IsContextEntry p) v.items) }
    ensures names { IfOk result (λ v. map (λ c. c.before) v.items ≡ map (λ c. c.before) bare.items) }
{
    name_order();
    one_name(&network.profile);
    contexts(&network.profile);
    steps_depart(&network.profile);
    if meeting.intersection.is_free && are_plain(&meeting, departure) {
        let sources = plain_sources(alloc, &meeting, departure)?;
        return Ok(with_first(bare, sources));
    }
    let leading = leading_by(alloc, network, tables, meeting, departure)?;
    let written = with_sources(alloc, network, bare, leading)?;
    Ok(written)
}
