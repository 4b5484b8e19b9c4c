//! What the words of a run ask.
ghost use Rattle.std.specs.Prelude.{◌≡◌, ◌≤◌, map, None, Some, IfOk, IfSome, IfNone};
ghost use Rattle.std.specs.Option.{option_map, option_and_then};
ghost use Rattle.cells.specs.Commands.{asked, asked_by, asked_plan, plan_within, asked_part, asked_rest, asked_cell};
ghost use Rattle.cells.specs.Commands.{profiled_cell_of, cut_under, cut_under_second, cut_cell_of, profile_of};
ghost use Rattle.cells.specs.Commands.{asked_ways, asked_range, range_between, asked_merge};
ghost use Rattle.cells.specs.Commands.{metres_of, way_of_word, each_way, ways_of, number_of};

use crate::areas::area_of;
use crate::ways::AscendingWays;
use cell_plan::PlanRule;
use map_cells::Area;
use opl_lexer::{long_number, whole};
use road_base::{NoMemory, WayId};
use std::alloc::Global;

/// A cell, and the area around it that was cut out of the map.
#[derive(Clone, Copy, PartialEq, Eq, Debug)]
pub struct CutCell {
    pub area: Area,
    pub cell: Area,
}

/// A profile of a motorcar.
#[derive(Clone, Copy, PartialEq, Eq, Debug)]
pub enum ProfileNumber {
    First,
    Second,
}

impl ProfileNumber {
    /// The number that the profile has.
    pub fn number(self) -> u32
        ensures { result ≡ number_of self }
    {
        match self {
            ProfileNumber::First => 1,
            ProfileNumber::Second => 2,
        }
    }
}

/// A cell that was cut out of the map, and the profile under which its ways are compiled.
#[derive(Clone, Copy, PartialEq, Eq, Debug)]
struct ProfiledCell {
    cut: CutCell,
    profile: ProfileNumber,
}

/// What is made of the map on the source.
#[derive(Drop)]
pub enum MapCommand {
    /// The graph of the cell's own ways that pass.
    Part(CutCell, ProfileNumber),
    /// The cell's own ways that fail.
    Rest(CutCell),
    /// Both, and the own ways that pass, of one reading.
    Cell(CutCell, ProfileNumber),
    /// The graph of these ways.
    Ways(ProfileNumber, AscendingWays),
}

/// What is made of the graphs on the source.
#[derive(Clone, Copy, PartialEq, Eq, Debug)]
pub enum GraphCommand {
    /// The blocks of the ways from the first on and below the second.
    Range(WayId, WayId),
    /// The blocks of all of them.
    Merge,
}

/// What is done once.
#[derive(Drop)]
pub enum Command {
    /// The cells of the nodes on the source.
    Plan(PlanRule),
    Map(MapCommand),
    Graphs(GraphCommand),
}

/// By how many metres a cell is grown at least, where no word says it.
const METRES: u64 = 3000;

/// The most metres that a word may say.
const MOST_METRES: u64 = 1_000_000;

/// So many units of 1e-7 degree of latitude, or fewer, are a metre.
const UNITS_A_METRE: u64 = 91;

/// What the words ask: `plan NODES [METRES]`, `part BOX CELL [2]`, `rest BOX CELL`, `cell BOX CELL [2]`, `ways PROFILE
/// WAY..`, `range FROM TO` or `merge`. BOX and CELL are areas (`areas`), NODES is digits, a value of 64 bits, METRES at
/// most 1,000,000, PROFILE 1 or 2, and FROM, TO and WAY are numbers of ways, each WAY below the next.
pub fn asked(alloc: Global, words: &[&str]) -> Result<Option<Command>, NoMemory>
    ensures { IfOk result (λ command. command ≡ asked (map (λ w. w.now) words.now)) }
{
    match words {
        [] => Ok(None),
        [name, rest @ ..] => {
            if *name == "ways" {
                asked_ways(alloc, rest)
            } else {
                Ok(asked_by(name, rest))
            }
        }
    }
}

/// What the words behind a name ask, but for `ways`.
fn asked_by(name: &str, words: &[&str]) -> Option<Command>
    ensures { result ≡ asked_by name.now (map (λ w. w.now) words.now) }
{
    if name == "plan" {
        return asked_plan(words);
    }
    if name == "part" {
        return asked_part(words);
    }
    if name == "rest" {
        return asked_rest(words);
    }
    if name == "cell" {
        return asked_cell(words);
    }
    if name == "range" {
        return asked_range(words);
    }
    if name == "merge" {
        asked_merge(words)
    } else {
        None
    }
}

fn asked_plan(words: &[&str]) -> Option<Command>
    ensures { result ≡ asked_plan (map (λ w. w.now) words.now) }
{
    match words {
        [nodes] => plan_within(nodes, METRES),
        [nodes, metres] => plan_within(nodes, metres_of(metres)?),
        _ => None,
    }
}

fn plan_within(nodes: &str, metres: u64) -> Option<Command>
    requires { metres ≤ 1000000 }
    ensures { result ≡ plan_within nodes.now metres }
{
    let most = long_number(nodes)?;
    let margin = (metres * UNITS_A_METRE) as u32;
    Some(Command::Plan(PlanRule { most, margin }))
}

fn metres_of(word: &str) -> Option<u64>
    ensures few { IfSome result (λ m. m ≤ 1000000) }
    ensures is { result ≡ metres_of word.now }
{
    let metres = long_number(word)?;
    if metres <= MOST_METRES {
        Some(metres)
    } else {
        None
    }
}

fn asked_part(words: &[&str]) -> Option<Command>
    ensures { result ≡ asked_part (map (λ w. w.now) words.now) }
{
    let ProfiledCell { cut, profile } = profiled_cell_of(words)?;
    Some(Command::Map(MapCommand::Part(cut, profile)))
}

fn asked_cell(words: &[&str]) -> Option<Command>
    ensures { result ≡ asked_cell (map (λ w. w.now) words.now) }
{
    let ProfiledCell { cut, profile } = profiled_cell_of(words)?;
    Some(Command::Map(MapCommand::Cell(cut, profile)))
}

/// `BOX CELL`, under profile 1, or `BOX CELL 2`.
fn profiled_cell_of(words: &[&str]) -> Option<ProfiledCell>
    ensures { result ≡ profiled_cell_of (map (λ w. w.now) words.now) }
{
    match words {
        [] => None,
        [_] => None,
        [area, cell] => cut_under(area, cell, ProfileNumber::First),
        [area, cell, number] => cut_under_second(area, cell, number),
        _ => None,
    }
}

fn cut_under_second(area: &str, cell: &str, number: &str) -> Option<ProfiledCell>
    ensures { result ≡ cut_under_second area.now cell.now number.now }
{
    if number == "2" {
        cut_under(area, cell, ProfileNumber::Second)
    } else {
        None
    }
}

fn cut_under(area: &str, cell: &str, profile: ProfileNumber) -> Option<ProfiledCell>
    ensures { result ≡ cut_under area.now cell.now profile }
{
    let cut = cut_cell_of(area, cell)?;
    Some(ProfiledCell { cut, profile })
}

fn cut_cell_of(area: &str, cell: &str) -> Option<CutCell>
    ensures { result ≡ cut_cell_of area.now cell.now }
{
    let area = area_of(area)?;
    let cell = area_of(cell)?;
    Some(CutCell { area, cell })
}

fn asked_rest(words: &[&str]) -> Option<Command>
    ensures { result ≡ asked_rest (map (λ w. w.now) words.now) }
{
    match words {
        [] => None,
        [_] => None,
        [area, cell] => {
            let cut = cut_cell_of(area, cell)?;
            Some(Command::Map(MapCommand::Rest(cut)))
        }
        _ => None,
    }
}

fn asked_range(words: &[&str]) -> Option<Command>
    ensures { result ≡ asked_range (map (λ w. w.now) words.now) }
{
    match words {
        [] => None,
        [_] => None,
        [from, to] => range_between(from, to),
        _ => None,
    }
}

fn range_between(from: &str, to: &str) -> Option<Command>
    ensures { result ≡ range_between from.now to.now }
{
    let from = way_of(from)?;
    let to = way_of(to)?;
    Some(Command::Graphs(GraphCommand::Range(from, to)))
}

fn way_of(word: &str) -> Option<WayId>
    ensures { result ≡ way_of_word word.now }
{
    Some(WayId(whole(word)?))
}

fn asked_merge(words: &[&str]) -> Option<Command>
    ensures { result ≡ asked_merge (map (λ w. w.now) words.now) }
{
    if words.is_empty() {
        Some(Command::Graphs(GraphCommand::Merge))
    } else {
        None
    }
}

fn asked_ways(alloc: Global, words: &[&str]) -> Result<Option<Command>, NoMemory>
    ensures { IfOk result (λ command. command ≡ asked_ways (map (λ w. w.now) words.now)) }
{
    match words {
        [] => Ok(None),
        [number, rest @ ..] => {
            let ways = ways_of(alloc, rest)?;
            Ok(with_profile(profile_of(number), ways))
        }
    }
}

fn with_profile(number: Option<ProfileNumber>, ways: Option<AscendingWays>) -> Option<Command>
    ensures { result ≡ option_and_then (λ n. option_map (λ w. Command.Map (MapCommand.Ways n w)) ways) number }
{
    let number = number?;
    let ways = ways?;
    Some(Command::Map(MapCommand::Ways(number, ways)))
}

fn profile_of(word: &str) -> Option<ProfileNumber>
    ensures { result ≡ profile_of word.now }
{
    if word == "1" {
        return Some(ProfileNumber::First);
    }
    if word == "2" {
        Some(ProfileNumber::Second)
    } else {
        None
    }
}

fn ways_of(alloc: Global, words: &[&str]) -> Result<Option<AscendingWays>, NoMemory>
    ensures { IfOk result (λ ways. ways ≡ ways_of (map (λ w. w.now) words.now)) }
{
    match each_way(alloc, words)? {
        Some(list) => Ok(AscendingWays::new(list)),
        None => Ok(None),
    }
}

/// The number that each word is. None exactly where one is no number.
fn each_way(alloc: Global, words: &[&str]) -> Result<Option<Vec<WayId>>, NoMemory>
    ensures some { IfOk result (λ found. IfSome found
        (λ list. each_way (map (λ w. w.now) words.now) ≡ Some list.items)) }
    ensures none { IfOk result (λ found. IfNone found (each_way (map (λ w. w.now) words.now) ≡ None)) }
{
    let mut list = Vec::with_capacity(alloc, words.len())?;
    for word in words {
        let Some(way) = way_of(word) else {
            return Ok(None);
        };
        list.push(way)?;
    }
    Ok(Some(list))
}
