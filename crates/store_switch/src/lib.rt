//! A store on two files, of which one is live: loaded, created where there is none, and carried on in the other file.
//!
//! The live file is the one with an open base; with two, the one of the greater generation, and A at a tie. Loading and
//! creating sync both files before they look at them, so nothing that an earlier stop left pending is relied on.
//! `checkpoint` writes one event for each key into the file that isn't live, with the next generation, and the journal
//! goes on there. What a stop at any moment leaves of both files is said in `specs/StoreLoading.antt`,
//! `specs/StoreCreating.antt` and `specs/Checkpointing.antt`; that no stop leaves a damaged store are laws in `laws`.
//! Loading costs the bytes of the live file, creating and a checkpoint those of the new base, which they hold once; of
//! the other file 37 bytes are read at most. `find_live` is public for whoever looks at a store before it is loaded or
//! made.
#![tactic(auto)]

mod checkpointing;
mod creating;
pub mod laws;
mod live;
mod loading;

pub use checkpointing::checkpoint;
pub use creating::create_store;
pub use live::find_live;
pub use loading::load_store;
