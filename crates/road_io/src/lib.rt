//! The outside of the program: the bytes that it reads, the output that it puts, and two files.
//!
//! The traits say what a call does to what an object tells: a source its bytes left, a site its output and its files.
//! A call fails only where a count of faults rises, and the count stays where a call is Ok. What a site tells answers
//! what a stop may leave at any moment, in a call or between two: the images of both files and a front of the output,
//! under one clock. `MemorySource` and `MemorySite` tell all they hold, and fail where they are asked to; the site
//! keeps a record of its calls, and tells what the record leads to. `RealSource` and `RealSite` stand over readers,
//! writers and files of the system, and tell nothing. `RealSite` holds each file under a lock from the first call on
//! it, so that no other program that does so works on it meanwhile.
//!
//! In memory a read costs the bytes that it gives and a put or a write, taken over all of them, the bytes of its chunk,
//! which the record keeps as well; the first write or cut on a file also copies the file. `file_len`, `cut` and `sync`
//! cost an entry of the record. Each call also looks through the list of calls that are to fail. Nothing is buffered:
//! a real call is one call of the system (a write goes on until its chunk is written, a read that a signal interrupted
//! is made again, a put also flushes, the first call on a file also opens and locks it, and the first sync of a file
//! also syncs its folder), so read into large buffers, and put and write large chunks.
#![tactic(auto)]

mod call_log;
mod copies;
mod entries;
pub mod laws;
mod memory_files;
mod memory_site;
mod memory_source;
mod outside;
mod parts;
mod reading;
mod real;
mod real_file;

pub use entries::{Bytes, Call, Entry};
pub use memory_site::MemorySite;
pub use memory_source::MemorySource;
pub use outside::{Failed, Site, Source, Which};
pub use parts::{behind, front};
pub use real::{RealSite, RealSource};
