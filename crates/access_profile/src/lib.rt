//! Where a car may drive, by the tags of ways, nodes and restrictions (OSM wiki, Key:access).
//!
//! A call looks up a dozen keys at most among the tags, each at the cost of `Tags::get`, goes once over the values that
//! it finds, and takes no memory. Of few tags it looks at the first letters of the keys first: most ways carry no
//! access key.
#![tactic(auto)]

mod closing;
mod deciding_key;
mod decisions;
mod highways;
mod motorcar;
mod motorcar2;
mod of_number;
mod restricting;
mod zones;

pub use closing::direction_by;
pub use deciding_key::{deciding, deciding_keys, lacks_access_keys};
pub use decisions::{Decision, Permission, decision_of, permission_of, said_by_key};
pub use motorcar::Motorcar;
pub use motorcar2::Motorcar2;
pub use of_number::ProfileOf;
pub use zones::is_zone_by;
