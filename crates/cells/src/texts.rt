//! The lines that are put.
ghost use Rattle.std.specs.Prelude.{◌≡◌, ◌++◌, IfOk, string_bytes};
ghost use Rattle.std.specs.List.{flat_map};
ghost use Rattle.std.specs.Fmt.{signed_decimal};
ghost use Rattle.cells.specs.Texts.{refused_graph_line, refused_way_line, area_text, cell_line, key_text};
ghost use Rattle.cells.specs.Texts.{failing_line, passing_line, counts_line, report_lines};
ghost use Rattle.cells.specs.Outcomes.{fault_line};

use cell_check::Failing;
use cell_plan::PlannedCell;
use graph_merge::MergeFault;
use map_cells::Area;
use road_base::{Key, WayId};
use std::alloc::{AllocError, Global};

/// The line where graphs are neither merged nor cut.
pub fn fault_text(alloc: Global, fault: MergeFault) -> Result<String, AllocError>
    ensures { IfOk result (λ text. string_bytes text ≡ fault_line fault) }
{
    match fault {
        MergeFault::Graph(number) => graph_text(alloc, number),
        MergeFault::Twice(way) => way_text(alloc, way),
    }
}

fn graph_text(alloc: Global, number: u64) -> Result<String, AllocError>
    ensures { IfOk result (λ text. string_bytes text ≡ refused_graph_line number) }
{
    format!(in alloc; "refused graph {number}\n")
}

fn way_text(alloc: Global, way: WayId) -> Result<String, AllocError>
    ensures { IfOk result (λ text. string_bytes text ≡ refused_way_line way) }
{
    let number = way.0;
    format!(in alloc; "refused way {number}\n")
}

fn area_text(alloc: Global, area: Area) -> Result<String, AllocError>
    ensures { IfOk result (λ text. string_bytes text ≡ area_text area) }
{
    let Area {
        west,
        south,
        east,
        north,
    } = area;
    format!(in alloc; "{west},{south},{east},{north}")
}

/// The line of a cell of a plan.
fn cell_text(alloc: Global, planned: &PlannedCell) -> Result<String, AllocError>
    ensures { IfOk result (λ text. string_bytes text ≡ cell_line planned.now) }
{
    let cell = area_text(alloc, planned.cell)?;
    let grown = area_text(alloc, planned.grown)?;
    let count = planned.count;
    format!(in alloc; "{cell} {grown} {count}\n")
}

fn key_text(alloc: Global, key: Key) -> Result<String, AllocError>
    ensures { IfOk result (λ text. string_bytes text ≡ key_text key) }
{
    match key {
        Key::Node(node) => numbered(alloc, "n", node.0),
        Key::Way(way) => numbered(alloc, "w", way.0),
        Key::Relation(relation) => numbered(alloc, "r", relation.0),
    }
}

fn numbered(alloc: Global, letter: &str, number: i64) -> Result<String, AllocError>
    ensures { IfOk result (λ text. string_bytes text ≡ letter.now ++ signed_decimal number) }
{
    format!(in alloc; "{letter}{number}")
}

/// The line of a way that fails.
fn failing_text(alloc: Global, failing: &Failing) -> Result<String, AllocError>
    ensures { IfOk result (λ text. string_bytes text ≡ failing_line failing.now) }
{
    let way = failing.way.0;
    let key = key_text(alloc, failing.key)?;
    format!(in alloc; "w{way} {key}\n")
}

/// A line for each cell.
pub fn cells_text(alloc: Global, cells: &[PlannedCell]) -> Result<Vec<u8>, AllocError>
    ensures { IfOk result (λ out. out.items ≡ flat_map cell_line cells.now) }
{
    let mut out = Vec::new(alloc);
    for planned in cells {
        let line = cell_text(alloc, planned)?;
        out.extend_from_slice(line.as_bytes())?;
    }
    Ok(out)
}

/// A line for each way that fails.
pub fn rest_text(alloc: Global, failing: &[Failing]) -> Result<Vec<u8>, AllocError>
    ensures { IfOk result (λ out. out.items ≡ flat_map failing_line failing.now) }
{
    let mut out = Vec::new(alloc);
    for one in failing {
        let line = failing_text(alloc, one)?;
        out.extend_from_slice(line.as_bytes())?;
    }
    Ok(out)
}

/// The line of a way that passes.
fn passing_text(alloc: Global, way: WayId) -> Result<String, AllocError>
    ensures { IfOk result (λ text. string_bytes text ≡ passing_line way) }
{
    let number = way.0;
    format!(in alloc; "w{number}\n")
}

/// A line for each way that passes.
fn passing_lines(alloc: Global, passing: &[WayId]) -> Result<Vec<u8>, AllocError>
    ensures { IfOk result (λ out. out.items ≡ flat_map passing_line passing.now) }
{
    let mut out = Vec::new(alloc);
    for way in passing {
        let line = passing_text(alloc, *way)?;
        out.extend_from_slice(line.as_bytes())?;
    }
    Ok(out)
}

/// The line of how many nodes lie in a cell, and how many of its own ways pass, and fail.
fn counts_text(
    alloc: Global,
    nodes: usize,
    passing: usize,
    failing: usize,
) -> Result<String, AllocError>
    ensures { IfOk result (λ text. string_bytes text ≡ counts_line nodes passing failing) }
{
    format!(in alloc; "{nodes} {passing} {failing}\n")
}

/// A line for each own way that passes, one for each that fails, and at last how many there are.
pub fn report_text(
    alloc: Global,
    nodes: usize,
    passing: &[WayId],
    failing: &[Failing],
) -> Result<Vec<u8>, AllocError>
    ensures { IfOk result (λ out. out.items ≡ report_lines nodes passing.now failing.now) }
{
    let mut out = passing_lines(alloc, passing)?;
    let rest = rest_text(alloc, failing)?;
    out.extend_from_slice(&rest)?;
    let counts = counts_text(alloc, nodes, passing.len(), failing.len())?;
    out.extend_from_slice(counts.as_bytes())?;
    Ok(out)
}
