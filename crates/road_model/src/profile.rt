//! A profile: what tags mean to a vehicle.
ghost use Rattle.std.specs.Prelude.{◌≡◌, IsTrue};
ghost use Rattle.road_base.specs.Tags.{TagList};
ghost use Rattle.road_base.specs.declared.ids.Dir.{Dir};
ghost use Rattle.road_model.specs.Rules.{Rules, is_free, has_highway};

use crate::{Access, RuleKind};
use road_base::{Dir, Tags};

/// What tags mean to a vehicle. Each answer is a function of the given tags alone. No call takes memory.
pub trait Profile: Copy {
    /// What this profile answers.
    ghost rules: { Self → Rules };

    /// The profile's number, as the graph's bytes have it.
    fn number(&self) -> u32
        ensures { result ≡ (rules self.now).number };

    /// Whether a way with these tags may be driven in the direction.
    fn direction(&self, tags: &Tags, dir: Dir) -> Access
        ensures { result ≡ (rules self.now).direction tags.now dir };

    /// Whether a node with these tags lets the vehicle through.
    fn node_open(&self, tags: &Tags) -> bool
        ensures { result ≡ (rules self.now).node_open tags.now };

    /// Whether a node with these tags is a place to turn round.
    fn turns(&self, tags: &Tags) -> bool
        ensures { result ≡ (rules self.now).turns tags.now };

    /// What a restriction with these tags says.
    fn rule(&self, tags: &Tags) -> RuleKind
        ensures { result ≡ (rules self.now).rule tags.now };

    /// Whether the via ways of a restriction may also be listed backwards, from its to to its from (OSM wiki,
    /// Relation:restriction, on the order of members). Where they may not, they are passed as they are listed.
    fn reverses(&self) -> bool
        ensures { result ≡ (rules self.now).reverses };

    /// Whether a way with these tags is open in the direction to those alone who begin or end their drive in the zone
    /// that it is part of (OSM wiki, Tag:access=destination).
    fn zone(&self, tags: &Tags, dir: Dir) -> bool
        ensures { result ≡ (rules self.now).zone tags.now dir };

    /// A direction is free only for tags that carry the key `highway`.
    ghost free_needs_highway: { (p : Self) (tags : TagList) (dir : Dir)
        → IsTrue (is_free ((rules p).direction tags dir)) → IsTrue (has_highway tags) };
}
