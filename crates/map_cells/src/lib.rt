//! Cells of a map: what of a map's objects an extract of an area has to hold, so that blocks which are compiled from it
//! are the map's.
//!
//! A map that is too large for one run is cut into cells. The objects of a cell are those of the map that an extract
//! of an area keeps (osmium-extract's manual, strategies `complete_ways` and `smart`). A key of it is closed where all
//! that is linked to it in the map is in the cell too. Where each key within one link less than the link radius of a
//! way is closed, the way's block is the map's: that is `cell`, the first of the laws. The others say that a cell may
//! be cut from a larger one, that the block is the map's after a cut by links too, that what roads are linked to has
//! the map's graph, who owns a way, and that the parts make the map's graph together.
//!
//! But for `Area` nothing runs here, and an area answers in constant time and takes no memory.
#![tactic(auto)]

mod area;
pub mod laws;

pub use area::Area;
