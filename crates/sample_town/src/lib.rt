//! A town and ten changes of it, made from a number, to try a router or a store on data that anyone can make again.
//!
//! The town is a grid of 60 rows and 60 columns of crossings, 10,000 units of 1e-7 degree apart, with a way from each
//! crossing to the next one east of it and to the next one north of it. A generator of numbers, which begins at the
//! town's number, draws which ways are oneway, 600 restrictions along rows, and the twenty events of each change: a
//! node moves, a way is oneway or not, or a restriction is deleted. `specs/Lists.antt` says which event stands where.
//!
//! The base takes the time and the memory of its 11,280 events, a change those of its twenty, and beside the lists a
//! town keeps three numbers.
#![tactic(auto)]

mod base;
mod changes;
mod draws;
mod streets;
mod town;

pub use draws::Draws;
pub use town::Town;
