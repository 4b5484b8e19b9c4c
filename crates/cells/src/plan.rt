//! The cells of the nodes of a map.
ghost use Rattle.std.specs.Prelude.{◌≡◌, ◌∷◌, [], List, IfOk, OnOk};
ghost use Rattle.road_base.specs.declared.event.Event.{Event as EventValue};
ghost use Rattle.bounded_input.specs.Streaming.{TakesMore};
ghost use Rattle.cells.specs.declared.command.Command.TheVariants.{Plan};
ghost use Rattle.cells.specs.Made.{IsPlan, place_of};
ghost use Rattle.cells.specs.Planning.{CountsPlaces};
ghost use Rattle.cells.specs.Replies.{Prepares, CountsReads};

use crate::texts::cells_text;
use bounded_input::{TakesEvents, stream_events};
use cell_plan::{PlaceCounts, PlanRule, plan};
use last_words::{Failure, LastWords, Status, refuse_input};
use opl_lexer::Mode;
use road_base::{Body, Event, Location, NoMemory};
use road_io::Source;
use std::alloc::Global;

/// Counts the places of nodes.
#[derive(Drop)]
struct PlaceCounter {
    counts: PlaceCounts,
}

/// Where the body is, if it is a located node's.
pub fn place_of(body: &Body) -> Option<Location>
    ensures { result ≡ place_of body.now }
{
    match body {
        Body::Node(node) => node.location,
        _ => None,
    }
}

impl PlaceCounter {
    ghost use Rattle.cells.specs.Planning.{CountsPlaces};

    /// Counts the place of the event, if it is a located node's.
    fn count(&mut self, event: &Event) -> Result<(), NoMemory>
        ensures { OnOk result
            (TakesMore (CountsPlaces self.old) (CountsPlaces self.new) (event.now ∷ [])) }
    {
        match place_of(&event.body) {
            Some(place) => self.counts.add(place),
            None => Ok(()),
        }
    }

    /// Counts the places of these events.
    fn count_all(&mut self, events: &[Event]) -> Result<(), NoMemory>
        ensures { OnOk result (TakesMore (CountsPlaces self.old) (CountsPlaces self.new) events.now) }
    {
        for event in events {
            self.count(event)?;
        }
        Ok(())
    }
}

impl TakesEvents for PlaceCounter {
    ghost use Rattle.cells.specs.Planning.{CountsPlaces};

    ghost has_taken = { CountsPlaces };

    fn take_all(&mut self, events: Vec<Event>) -> Result<(), NoMemory> {
        self.count_all(&events)
    }
}

/// The cells of the nodes on the source: a line for each. The text is read once and not kept. It touches no site.
pub fn plan_cells<S: Source>(
    alloc: Global,
    rule: PlanRule,
    source: &mut S,
) -> Result<LastWords, Failure>
    ensures prepares { Prepares (Plan rule) result (S.bytes_left source.old) (S.bytes_left source.new) }
    ensures reads { CountsReads (S.faults source.old) (S.faults source.new) result }
{
    let mut counter = PlaceCounter {
        counts: PlaceCounts::new(alloc, rule.margin),
    };
    match stream_events(alloc, Mode::Extract, source, &mut counter) {
        Ok(()) => {
            let out = planned(alloc, counter, rule)?;
            Ok(LastWords {
                status: Status::Done,
                out,
            })
        }
        Err(error) => refuse_input(alloc, error),
    }
}

/// The lines of the cells of what was counted.
fn planned(alloc: Global, counter: PlaceCounter, rule: PlanRule) -> Result<Vec<u8>, NoMemory>
    ensures { IfOk result (λ out. (events : List EventValue)
        → CountsPlaces counter events → IsPlan rule events out.items) }
{
    let cells = plan(alloc, counter.counts, rule)?;
    let out = cells_text(alloc, &cells)?;
    Ok(out)
}
