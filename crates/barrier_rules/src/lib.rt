//! Which nodes let a car through (OSM wiki, Key:barrier and Key:access).
//!
//! Which values of access keys let a car pass stands here too (`is_open_value`): the profile asks it of ways.
//!
//! A call looks up five keys at most among the tags, each at the cost of `Tags::get`, and takes no memory.
#![tactic(auto)]

ghost use Rattle.std.specs.Prelude.{◌≡◌};
ghost use Rattle.barrier_rules.specs.Barrier.{barrier_open, first_key, is_open_barrier};

mod open_values;

pub use open_values::{has_open_value, is_open_value};
use road_base::Tags;
use road_model::AccessKey;

/// Whether a node with these tags lets a car through. A node without the key `barrier` does. With it, the first of
/// `motorcar`, `motor_vehicle`, `vehicle` and `access` that it carries decides, and the kind of barrier where it
/// carries none of them.
#[tactic(auto, unfolding(crate::specs::Barrier::barrier_open))]
pub fn barrier_open(tags: &Tags) -> bool
    ensures { result ≡ barrier_open tags.now }
{
    let Some(barrier) = tags.get("barrier") else {
        return true;
    };
    match first_key(tags) {
        Some(key) => has_open_value(tags, key.as_str()),
        None => is_open_barrier(barrier),
    }
}

/// The first access key that the tags carry.
#[tactic(auto, unfolding(crate::specs::Barrier::first_key))]
fn first_key(tags: &Tags) -> Option<AccessKey>
    ensures { result ≡ first_key tags.now }
{
    AccessKey::ALL
        .iter()
        .copied()
        .find(|key| tags.get(key.as_str()).is_some())
}

/// Whether a barrier of this kind lets a car through where no access key says otherwise.
#[tactic(auto, unfolding(crate::specs::Barrier::is_open_barrier))]
fn is_open_barrier(barrier: &str) -> bool
    ensures { result ≡ is_open_barrier barrier.now }
{
    match barrier {
        "cattle_grid" | "toll_booth" | "border_control" | "entrance" | "height_restrictor" => true,
        "gate" | "lift_gate" | "sally_port" | "kerb" | "no" => true,
        _ => false,
    }
}
