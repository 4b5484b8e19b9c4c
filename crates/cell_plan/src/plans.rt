//! Plans of cells.
ghost use Rattle.std.specs.Prelude.{◌≡◌, IfOk, List, map, Contains};
ghost use Rattle.road_base.specs.declared.location.Location.{Location as Place};
ghost use Rattle.map_cells.specs.Areas.{CoverWorld};
ghost use Rattle.cell_plan.specs.CountedPlaces.{HasCounted};
ghost use Rattle.cell_plan.specs.CellPlans.{IsGrown, IsSmall, places_in};
ghost use Rattle.cell_plan.specs.declared.cells.PlannedCell.{PlannedCell as PlannedCellValue};

use crate::cells::{PlanRule, PlannedCell};
use crate::counts::PlaceCounts;
use crate::division::{Job, divide};
use crate::region::Region;
use road_base::NoMemory;
use std::alloc::Global;

/// The cells that the rule plans for the places counted, which cover the world and share no place, in the order of the
/// quadtree: of each square the quadrants in the south-west, north-west, south-east and north-east, so that neighbours
/// stand together. Cells without places are among them. Takes the time of the squares counted times the levels of the
/// quadtree, and at each level the memory of the squares near the one that is divided.
pub fn plan(
    alloc: Global,
    counts: PlaceCounts,
    rule: PlanRule,
) -> Result<Vec<PlannedCell>, NoMemory>
    ensures cover { IfOk result (λ cells. CoverWorld (map (λ c. c.cell) cells.items)) }
    ensures counts { IfOk result (λ cells. (places : List Place) → HasCounted places counts
        → (c : PlannedCellValue) → Contains cells.items c → c.count ≡ places_in c.cell places) }
    ensures grown { IfOk result (λ cells. (c : PlannedCellValue) → Contains cells.items c
        → IsGrown rule.margin c.cell c.grown) }
    ensures small { IfOk result (λ cells. (places : List Place) → HasCounted places counts
        → (c : PlannedCellValue) → Contains cells.items c → IsSmall rule counts.grid.side places c) }
{
    let job = Job {
        grid: counts.grid,
        rule,
    };
    let root = job.grid.root();
    let mut cells = Vec::new(alloc);
    divide(
        alloc,
        job,
        root,
        Region::world(),
        counts.tallies.as_slice(),
        &mut cells,
    )?;
    Ok(cells)
}
