//! The second profile for cars.
ghost use Rattle.access_profile.specs.Motorcar2.{motorcar2_rules};
ghost use Rattle.access_profile.specs.NeedsHighway.{highway_of_free};

use crate::Motorcar;
use crate::zones::is_zone;
use road_base::{Dir, Tags};
use road_model::{Access, Profile, RuleKind};

/// Cars, where via ways may be listed backwards and zones count. The profile's number is 2.
#[derive(Clone, Copy)]
pub struct Motorcar2;

impl Profile for Motorcar2 {
    ghost rules = { λ _. motorcar2_rules };

    fn number(&self) -> u32 {
        2
    }

    /// As a `Motorcar` answers.
    fn direction(&self, tags: &Tags, dir: Dir) -> Access {
        Motorcar.direction(tags, dir)
    }

    /// As a `Motorcar` answers.
    fn node_open(&self, tags: &Tags) -> bool {
        Motorcar.node_open(tags)
    }

    /// As a `Motorcar` answers.
    fn turns(&self, tags: &Tags) -> bool {
        Motorcar.turns(tags)
    }

    /// As a `Motorcar` answers.
    fn rule(&self, tags: &Tags) -> RuleKind {
        Motorcar.rule(tags)
    }

    /// Via ways may be listed from the to way to the from way, too. The wiki asks for the order of travel, and some
    /// restrictions have the other one (OSM wiki, Relation:restriction, on the order of members).
    fn reverses(&self) -> bool {
        true
    }

    /// Where the direction is free, and the key that decides on access has the value `destination` (OSM wiki,
    /// Key:access and Tag:access=destination).
    fn zone(&self, tags: &Tags, dir: Dir) -> bool {
        is_zone(tags, dir)
    }

    ghost free_needs_highway = { λ p tags dir free. highway_of_free tags dir free };
}
