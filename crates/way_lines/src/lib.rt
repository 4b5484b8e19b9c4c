//! Lines of ways, the steps along them, and which step may follow which, over any world and profile. Where one may
//! turn round and where one may not go on, as the tags of a node say, stands in `NodeRules` alone.
//!
//! No call but `nodes_of`, `add_steps`, `Roads::of`, `Roads::from_list` and `RoadLine::of` takes memory. A call on a
//! way or a step takes the time of the way's references; whether a step may follow another, where that is a reversal,
//! takes the time of the references of the ways at the node; `add_steps` that of the steps.
//!
//! What is asked of a way many times is asked once: `Road::of` looks the way up and asks in which directions it is
//! open, `Roads::of` does so for a list of ways, in the time of one look-up each, and finds one of them again in the
//! time of a short search. `Roads::from_list` makes the same of directions that are known already, in the time of one
//! run over them. `RoadLine::of` has the line of a road and looks each of its nodes up once; it takes the memory of the
//! way's references.
#![tactic(auto)]

mod line_nodes;
mod node_rules;
mod passing;
mod road_line;
mod roads;
mod step_lists;
mod steps;

pub use line_nodes::{LineNodes, line, line_at, line_len, nodes_of};
pub use node_rules::NodeRules;
pub use passing::pass;
pub use road_line::{LineNode, RoadLine};
pub use roads::{Road, Roads};
pub use step_lists::add_steps;
pub use steps::{drivable, head, is_located, is_open, is_road, tail};
