//! The values of access keys that let a car pass.
ghost use Rattle.std.specs.Prelude.{◌≡◌};
ghost use Rattle.barrier_rules.specs.OpenValues.{has_open_value, is_open_value};

use road_base::Tags;

/// Whether the tags carry the key with a value that lets a car pass.
pub fn has_open_value(tags: &Tags, key: &str) -> bool
    ensures { result ≡ has_open_value key.now tags.now }
{
    match tags.get(key) {
        Some(value) => is_open_value(value),
        None => false,
    }
}

/// Whether this value of such a key lets a car pass (OSM wiki, Key:access). Every value that isn't named here doesn't.
#[tactic(auto, unfolding(crate::specs::OpenValues::is_open_value))]
pub fn is_open_value(value: &str) -> bool
    ensures { result ≡ is_open_value value.now }
{
    match value {
        "yes" | "permissive" | "designated" | "destination" => true,
        "official" | "public" | "discouraged" | "unknown" => true,
        _ => false,
    }
}
