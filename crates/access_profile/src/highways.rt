//! What `highway` says of a way or a node.
ghost use Rattle.std.specs.Prelude.{◌≡◌};
ghost use Rattle.access_profile.specs.Highways.{class_of, is_turning_place, road_class};

use road_base::Tags;

/// Open to cars unless a key closes it, or closed to them unless a key for motor vehicles opens it.
#[derive(Clone, Copy)]
pub enum RoadClass {
    ForCars,
    ForOthers,
}

/// The class of a way, None where `highway` is missing or has a value of neither class.
#[tactic(auto, unfolding(crate::specs::Highways::road_class))]
pub fn road_class(tags: &Tags) -> Option<RoadClass>
    ensures { result ≡ road_class tags.now }
{
    let Some(value) = tags.get("highway") else {
        return None;
    };
    class_of(value)
}

/// The class of a value of `highway` (OSM wiki, Key:highway). The first letter leaves few values to compare with.
fn class_of(value: &str) -> Option<RoadClass>
    ensures { result ≡ class_of value.now }
{
    match value.as_bytes() {
        [b'r', ..] => match value {
            "residential" | "road" => Some(RoadClass::ForCars),
            _ => None,
        },
        [b's', ..] => match value {
            "service" | "secondary" | "secondary_link" => Some(RoadClass::ForCars),
            _ => None,
        },
        [b't', ..] => match value {
            "tertiary" | "trunk" | "tertiary_link" | "trunk_link" => Some(RoadClass::ForCars),
            "track" => Some(RoadClass::ForOthers),
            _ => None,
        },
        [b'p', ..] => match value {
            "primary" | "primary_link" => Some(RoadClass::ForCars),
            "path" | "pedestrian" => Some(RoadClass::ForOthers),
            _ => None,
        },
        _ => match value {
            "unclassified" | "living_street" | "motorway" | "motorway_link" => Some(
                RoadClass::ForCars,
            ),
            "footway" | "cycleway" | "bridleway" | "busway" => Some(RoadClass::ForOthers),
            _ => None,
        },
    }
}

/// Whether a node with these tags is a place to turn round.
#[tactic(auto, unfolding(crate::specs::Highways::is_turning_place))]
pub fn is_turning_place(tags: &Tags) -> bool
    ensures { result ≡ is_turning_place tags.now }
{
    matches!(tags.get("highway"), Some("turning_circle" | "turning_loop"))
}
