//! Drives of least cost from one node to another, in whole numbers, each with numbers from which anyone can check that
//! no drive costs less.
//!
//! `shortest` and `least` search over contexts and arcs (`searching`), from the pieces that leave the one node
//! (`beginning`) to those that come to the other (`candidates`). Of the contexts that it has come to (`visiting`) the
//! search goes on from the one over which a drive may cost least (`frontier`): what was driven, and the difference of
//! latitudes that is left, which no drive costs less than. Where an arc leads is looked up by names among the visits
//! (`visit_table`), mostly in one step, and only for a new context in the blocks. Of n contexts and arcs that it comes
//! to, each takes the logarithm of n at most, each context a look-up in the blocks besides, and memory is taken in
//! proportion to the contexts; the rest of the map takes nothing. The drive is put together in the time of its steps
//! (`trails`). `least` takes some passes over all contexts besides, for a number at each (`numbers`), and for each that
//! the search came to a look-up among them.
//!
//! `check` knows no search: it takes some passes over contexts and one over arcs (`conditions`), each arc with a
//! look-up of its target, and the time to judge the route. A look-up by names takes a few steps where the numbers of
//! ways are spread evenly, and at most the time of a search among all contexts (`context_finder`).
//!
//! A step's cost needs a quotient and a whole root. Each is guessed in floating point and checked by multiplications,
//! and found without floats where the guess isn't it (`costs`).
#![tactic(auto)]

mod answers;
mod beginning;
mod candidates;
mod checking;
mod conditions;
mod context_finder;
mod costs;
mod frontier;
pub mod laws;
mod least_drives;
mod numbers;
mod places;
mod potentials;
mod searching;
mod trails;
mod visit_table;
mod visiting;

pub use answers::{Cheapest, Shortest};
pub use checking::check;
pub use costs::{drive_cost, step_cost};
pub use least_drives::{least, shortest};
pub use potentials::Potentials;
