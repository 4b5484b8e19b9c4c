//! What conditional access values say at a moment of civil time (OSM wiki, Conditional restrictions).
//!
//! A value is read in time linear in its bytes. No call takes memory.
#![tactic(auto)]

mod at_moment;
mod conditions;
mod cutting;
mod days;
mod deciding;
pub mod laws;
mod moment;
mod moment_texts;
mod part;
mod reading;
mod shapes;
mod times;

pub use at_moment::AtMoment;
pub use deciding::decision_at;
pub use moment::{Moment, parse_moment};
pub use moment_texts::one_moment;
pub use reading::{Reading, read_conditional};
