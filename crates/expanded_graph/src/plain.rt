//! The sources of pieces to which arcs lead from plain pieces alone.
ghost use Rattle.std.specs.Prelude.{◌≡◌, map, IfOk, IsTrue, Contains};
ghost use Rattle.road_model.specs.Format.{begins_alone};
ghost use Rattle.expanded_graph.specs.declared.arrivals.Incoming.{Incoming as IncomingPiece};
ghost use Rattle.expanded_graph.specs.Intersections.{may_follow};
ghost use Rattle.expanded_graph.specs.Plain.{first_sourced, going_on, named_alone};

use crate::arcs::may_follow;
use crate::intersections::Confluence;
use road_base::NoMemory;
use road_model::{Context, Names, Sources};
use std::alloc::Global;
use way_pieces::Departure;

/// Whether all that may go on by the departure are said to be plain.
pub fn are_plain(meeting: &Confluence<'_>, departure: Departure) -> bool
    ensures { IsTrue result → (c : IncomingPiece) → Contains meeting.now.arrivals.now c
        → IsTrue (may_follow meeting.now.intersection c.from departure)
        → IsTrue c.is_plain }
{
    let arrivals = meeting.arrivals;
    for incoming in arrivals {
        if !incoming.is_plain && may_follow(&meeting.intersection, incoming.from, departure) {
            return false;
        }
    }
    true
}

/// The pieces that may go on by the departure, each as the context of it alone, in their order.
pub fn plain_sources(
    alloc: Global,
    meeting: &Confluence<'_>,
    departure: Departure,
) -> Result<Vec<Names>, NoMemory>
    ensures { IfOk result (λ v. v.items
        ≡ map named_alone (going_on meeting.now.intersection departure meeting.now.arrivals.now)) }
{
    let arrivals = meeting.arrivals;
    let mut list = Vec::with_capacity(alloc, arrivals.len())?;
    for incoming in arrivals {
        if may_follow(&meeting.intersection, incoming.from, departure) {
            list.push(Names::one(alloc, incoming.name()))?;
        }
    }
    Ok(list)
}

/// The contexts, of which the first gets the sources.
pub fn with_first(contexts: Vec<Context>, sources: Vec<Names>) -> Vec<Context>
    requires { begins_alone contexts.items }
    ensures { result.items ≡ first_sourced sources.items contexts.items }
{
    let mut list = contexts;
    list[0].sources = Sources::from_list(sources);
    list
}
