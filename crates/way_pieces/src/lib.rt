//! Pieces: the runs of roads between junctions, by their names, and the steps that each one is driven in.
//!
//! A way is cut from its line (`way_lines::RoadLine`), which is read once, and its junctions: with n references and w
//! ways at their nodes in time of the order of n log n + w, and memory of the order of n. `RoadPieces` keeps the pieces
//! of many ways, each cut once, and where they start and end, in flat lists: then a node's departures take, for each
//! way there, a short search, the logarithm of the number of its pieces, and one step for each departure, and its
//! arrivals as much. Made by `around` it tells own ways from the neighbours that these meet: it keeps the lines of the
//! own ones, in memory of the order of their references, and takes the pieces of a neighbour whose block is known from
//! there, in the time that it takes to read and sort them, however long the neighbour's line; where the block lists
//! any, the neighbour isn't looked up, nor its tags asked. `departures_from` and `pieces_from` cut all ways at the
//! node, `pieces_of`, `spans_of` and `spell` the way alone.
#![tactic(auto)]

mod arrivals;
mod at_nodes;
mod departures;
mod known;
mod listed;
mod met_ways;
mod names;
mod road_pieces;
mod spans;
mod spelling;
mod starts;
mod stops;
mod stretches;

pub use arrivals::Arrival;
pub use at_nodes::AtNode;
pub use departures::{Departure, departures_from};
pub use known::KnownBlocks;
pub use names::{pieces_from, pieces_of};
pub use road_pieces::{RoadPieces, WayPieces, spans_of};
pub use spans::PieceSpan;
pub use spelling::spell;
