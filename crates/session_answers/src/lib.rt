//! What answers a session: the trait `Answerer`, and the replies to frames.
//!
//! Whatever answers the lines of a session and follows its changes is an `Answerer`; the conversation (`session`) is
//! proved over it once. What a line may be answered with is the answerer's own definition, `replies`. The replies to
//! frames are the same whatever answers, and take the time of their bytes. Nothing is put here.
#![tactic(auto)]

mod answerer;
mod frames;
mod reply;

pub use answerer::Answerer;
pub use frames::{applied, refused_fault, refused_sequence, unfinished};
pub use reply::Reply;
