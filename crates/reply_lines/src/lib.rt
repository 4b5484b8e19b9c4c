//! The texts of replies: steps, verdicts, faults and sizes.
//!
//! Each call but `kind_name` appends its text, without a newline, in time linear in the text. Where no memory is found,
//! nothing is appended.
#![tactic(auto)]

mod digits;
mod step_texts;
mod texts;
mod verdict_texts;

pub use opl_objects::{fault_text, kind_name};
pub use step_texts::step_text;
pub use texts::counts_text;
pub use verdict_texts::verdict_text;
