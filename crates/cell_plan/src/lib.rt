//! A plan of cells over counted places: squares of a quadtree, each divided until few enough places lie in the area
//! that is cut for it. So a planet's places are planned in one reading of them, in a stated memory.
//!
//! The root square has its south-west corner at -1,800,000,000 in both coordinates and the side 2^32, in units of 1e-7
//! degree. Squares are half-open, and halved in both directions. A cell is what of a square lies in the world.
//!
//! Places are counted in the squares of a grid. Their side is at first the greatest power of two that is at most an
//! eighth of the margin, but 2^8 units at least, and is doubled whenever more than 2^24 squares are held. So at most
//! some 21 million squares of 16 bytes are held (twice as much while the list grows), whatever comes. To add n places
//! takes the time of n log n.
//!
//! A plan goes through the squares held once for each level of the quadtree, times a constant for those near several
//! squares of a level: no square is divided whose side isn't above the margin. That constant is about 25 at the
//! equator; it grows as degrees of longitude shrink toward the poles, and no more beyond 89 degrees. The squares near
//! one that is divided are held in a list of their own if that leaves out an eighth of the list before, so all these
//! lists have together at most eight times as many as are held.
#![tactic(auto)]

mod cells;
mod counts;
mod division;
mod grid;
mod growth;
mod intervals;
mod merging;
mod near;
mod plans;
mod region;
mod sums;

pub use cells::{PlanRule, PlannedCell};
pub use counts::PlaceCounts;
pub use plans::plan;
