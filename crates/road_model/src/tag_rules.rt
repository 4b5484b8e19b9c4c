//! Which objects the road network is made of, by their tags.
ghost use Rattle.std.specs.Prelude.{◌≡◌};
ghost use Rattle.road_model.specs.Rules.{has_highway, is_restriction};

use road_base::Tags;

/// Whether the tags carry the key `highway`, whatever its value: those of each way that is a road do.
pub fn has_highway(tags: &Tags) -> bool
    ensures { result ≡ has_highway tags.now }
{
    tags.get("highway").is_some()
}

/// Whether the tags carry `type=restriction` (OSM wiki, Relation:restriction).
pub fn is_restriction(tags: &Tags) -> bool
    ensures { result ≡ is_restriction tags.now }
{
    tags.get("type") == Some("restriction")
}
