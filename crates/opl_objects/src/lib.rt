//! Objects from OPL text, in whatever parts it comes: the events of all lines, or the first fault, and its text.
//!
//! Reading takes time linear in the bytes (n log n in the number of tags of a line whose keys don't ascend). Beside the
//! events a reader keeps no more than one unfinished line. What a field holds that isn't looked at takes no memory.
#![tactic(auto)]

mod contents;
mod cut;
mod fault;
mod letters;
mod line;
mod lines;
mod parts;
mod reader;
mod tag_list;
mod texts;

pub use fault::{Fault, ReadError};
pub use opl_lexer::Mode;
pub use reader::Reader;
pub use texts::{fault_text, kind_name};
