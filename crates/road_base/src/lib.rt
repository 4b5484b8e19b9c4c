//! The numbers, objects, events and steps that every other crate speaks of, and how numbers are appended to bytes.
//!
//! An object map is what a list of events leaves: for each key the first entry of the greatest version.
//! `specs/Objects.antt` and `specs/Applying.antt` say so. A copy, a comparison or an append costs the size of what is
//! gone over, and so does a test whether tags ascend; a look-up among tags goes through them where they are few, and
//! else costs the logarithm of their number; everything else costs a constant.
#![tactic(auto)]

mod boxed_list;
mod bytes;
mod event;
mod ids;
pub mod laws;
mod limits;
mod lists;
mod location;
mod memory;
mod numbers;
mod objects;
mod profiles;
mod steps;
mod tags;
mod text;

pub use bytes::{Format, LittleEndian, put_all};
pub use event::Event;
pub use ids::{Dir, Key, NodeId, RelationId, Sequence, Step, WayId};
pub use limits::{MOST_BYTES, MOST_ITEMS, MOST_LAT, MOST_LINE, MOST_LON, MOST_STORE, is_in_range};
pub use lists::{Drive, Keys, Refs, Ways};
pub use location::Location;
pub use memory::NoMemory;
pub use objects::{Body, Member, Members, Node, Relation, Way};
pub use profiles::is_profile;
pub use steps::Steps;
pub use tags::Tags;
pub use text::Text;
