//! Cells that are planned, and the rule for it.
use map_cells::Area;

/// When a square is divided, and how far its cell is grown.
#[derive(Clone, Copy)]
pub struct PlanRule {
    /// The most places in a grown cell. A square with more is divided, as long as it is longer than the margin and than
    /// a square of the grid in which places were counted.
    pub most: u64,
    /// How far a cell is grown at least, in units of 1e-7 degree of latitude.
    pub margin: u32,
}

/// A cell, the area that is cut for it, and how many places lie in the cell.
#[derive(Clone, Copy, PartialEq, Eq, Debug)]
pub struct PlannedCell {
    pub cell: Area,
    pub grown: Area,
    pub count: u64,
}
