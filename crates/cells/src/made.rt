//! What is made of a map, or of a cell of one.
ghost use Rattle.std.specs.Prelude.{◌≡◌, ◌++◌, ◌∷◌, [], ◌+◌, ◌≤◌, IfOk, IsTrue, Some, false, length};
ghost use Rattle.opl_lexer.specs.Letters.{newline};
ghost use Rattle.access_profile.specs.Profiles.{rules_of};
ghost use Rattle.cell_plan.specs.CellPlans.{places_in};
ghost use Rattle.cells.specs.declared.command.Command.TheVariants.{Map};
ghost use Rattle.cells.specs.Commands.{number_of};
ghost use Rattle.cells.specs.Made.{IsPart, IsRestOf, IsReport, IsOfWays, places_of};
ghost use Rattle.cells.specs.Outcomes.{IsMade};
ghost use Rattle.cells.specs.Run.{Builds, BuildsOf, BuildsPart};
ghost use Rattle.cells.specs.Replies.{Prepares, CountsReads};

use crate::command::{CutCell, MapCommand, ProfileNumber};
use crate::plan::place_of;
use crate::texts::{report_text, rest_text};
use crate::ways::AscendingWays;
use back_references::Indexed;
use bounded_input::read_events;
use cell_check::check;
use compiled_graph::{part_of, profile_of};
use last_words::{Failure, LastWords, Status, refuse_input};
use map_cells::Area;
use map_cells::laws::{cell, cut};
use opl_lexer::Mode;
use opl_lexer::laws::one_reading;
use road_base::laws::one_map;
use road_base::{Event, NoMemory, Steps};
use road_io::Source;
use road_model::laws::name_order;
use std::alloc::Global;
use std::mem::forget;
use std::sync::ledger::Ledger;

/// What the command makes of the map on the source. It touches no site.
pub fn make<S: Source, L: Ledger>(
    alloc: Global,
    command: &MapCommand,
    source: &mut S,
    steps: &mut Steps<L>,
) -> Result<LastWords, Failure>
    ensures prepares { Prepares (Map command.now) result (S.bytes_left source.old) (S.bytes_left source.new) }
    ensures reads { CountsReads (S.faults source.old) (S.faults source.new) result }
    ensures built { Builds (Some (Map command.now)) (S.bytes_left source.old) steps.old steps.new }
{
    one_reading();
    let events = match read_events(alloc, Mode::Extract, source) {
        Ok(events) => events,
        Err(error) => return refuse_input(alloc, error),
    };
    let out = made_of(alloc, command, events, steps)?;
    Ok(LastWords {
        status: Status::Done,
        out,
    })
}

/// What the command makes of the objects that the events leave.
fn made_of<L: Ledger>(
    alloc: Global,
    command: &MapCommand,
    events: Vec<Event>,
    steps: &mut Steps<L>,
) -> Result<Vec<u8>, NoMemory>
    ensures made { IfOk result (λ out. IsMade command.now events.items out.items) }
    ensures built { BuildsOf command.now events.items steps.old steps.new }
{
    match command {
        MapCommand::Part(cut, number) => part(alloc, *cut, *number, events, steps),
        MapCommand::Rest(cut) => rest(alloc, *cut, events),
        MapCommand::Cell(cut, number) => report(alloc, *cut, *number, events, steps),
        MapCommand::Ways(number, ways) => of_ways(alloc, *number, ways, events, steps),
    }
}

/// The graph of the cell's own ways that pass.
fn part<L: Ledger>(
    alloc: Global,
    cut_cell: CutCell,
    number: ProfileNumber,
    events: Vec<Event>,
    steps: &mut Steps<L>,
) -> Result<Vec<u8>, NoMemory>
    ensures made { IfOk result
        (λ out. IsPart cut_cell (rules_of (number_of number)) events.items out.items) }
    ensures built { BuildsPart cut_cell events.items steps.old steps.new }
{
    one_map();
    name_order();
    let profile = profile_of(number.number());
    cell(&profile);
    let world = Indexed::of(alloc, events)?;
    let checked = check(alloc, &world, cut_cell.area, cut_cell.cell)?;
    let graph = part_of(alloc, &world, profile, &checked.passing, steps);
    forget(world);
    graph
}

/// The lines of the cell's own ways that fail.
fn rest(alloc: Global, cut_cell: CutCell, events: Vec<Event>) -> Result<Vec<u8>, NoMemory>
    ensures { IfOk result (λ out. IsRestOf cut_cell events.items out.items) }
{
    let world = Indexed::of(alloc, events)?;
    let checked = check(alloc, &world, cut_cell.area, cut_cell.cell)?;
    let lines = rest_text(alloc, &checked.failing)?;
    forget(world);
    Ok(lines)
}

/// The graph of the cell's own ways that pass, and behind it the lines of all its own ways and of how many there are.
fn report<L: Ledger>(
    alloc: Global,
    cut_cell: CutCell,
    number: ProfileNumber,
    events: Vec<Event>,
    steps: &mut Steps<L>,
) -> Result<Vec<u8>, NoMemory>
    ensures made { IfOk result
        (λ out. IsReport cut_cell (rules_of (number_of number)) events.items out.items) }
    ensures built { BuildsPart cut_cell events.items steps.old steps.new }
{
    one_map();
    name_order();
    let profile = profile_of(number.number());
    cell(&profile);
    let nodes = nodes_in(&events, &cut_cell.cell);
    let world = Indexed::of(alloc, events)?;
    let checked = check(alloc, &world, cut_cell.area, cut_cell.cell)?;
    let lines = report_text(alloc, nodes, &checked.passing, &checked.failing)?;
    let graph = part_of(alloc, &world, profile, &checked.passing, steps);
    forget(world);
    with_lines(graph?, &lines)
}

/// The graph, a newline, and the lines.
fn with_lines(graph: Vec<u8>, lines: &[u8]) -> Result<Vec<u8>, NoMemory>
    ensures { IfOk result (λ out. out.items ≡ graph.items ++ newline ∷ lines.now) }
{
    let mut out = graph;
    out.push(b'\n')?;
    out.extend_from_slice(lines)?;
    Ok(out)
}

/// How many nodes lie in the area, as often as they come.
fn nodes_in(events: &[Event], area: &Area) -> usize
    ensures { result ≡ places_in area.now (places_of events.now) }
{
    let mut count = 0;
    for event in events {
        if lies_in(event, area) {
            count += 1;
        }
    }
    count
}

/// Whether the event is of a node that lies in the area.
fn lies_in(event: &Event, area: &Area) -> bool
    ensures yes { IsTrue result → places_in area.now (places_of (event.now ∷ [])) ≡ 1 }
    ensures no { result ≡ false → places_in area.now (places_of (event.now ∷ [])) ≡ 0 }
{
    match place_of(&event.body) {
        Some(place) => area.holds(place),
        None => false,
    }
}

/// The graph of these ways.
fn of_ways<L: Ledger>(
    alloc: Global,
    number: ProfileNumber,
    ways: &AscendingWays,
    events: Vec<Event>,
    steps: &mut Steps<L>,
) -> Result<Vec<u8>, NoMemory>
    ensures made { IfOk result
        (λ out. IsOfWays (rules_of (number_of number)) ways.now events.items out.items) }
    ensures built { steps.new ≤ steps.old + length ways.now }
{
    let profile = profile_of(number.number());
    cut(&profile);
    let world = Indexed::of(alloc, events)?;
    let graph = part_of(alloc, &world, profile, ways.items(), steps);
    forget(world);
    graph
}
