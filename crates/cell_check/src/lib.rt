//! Which of a cell's own ways may be compiled from it: those of which each key within one link less than the link
//! radius is closed (`map_cells` says what that is).
//!
//! All objects are gone over, for the ways that the cell owns and for the keys to which something is linked, and these
//! are judged: nodes of ways wherever they are named, which is a look-up each, and what restrictions name once, however
//! often it is named. A search over links goes from all that aren't closed at once, and keeps for each key that it
//! comes to the one where it began. It follows the links of each key once. So where the objects name n others that
//! takes time of the order of n log n; memory for what restrictions name and for the keys that aren't closed, with
//! repeats, while they are gathered, and then for what the search comes to, which lies near the keys that aren't
//! closed.
#![tactic(auto)]

mod candidates;
mod checking;
mod closing;
mod gathering;
mod links;
mod owners;
mod rounds;
mod search;

pub use checking::{Checked, Failing, check};
