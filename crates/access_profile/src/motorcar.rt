//! The profile for cars.
ghost use Rattle.access_profile.specs.Motorcar.{motorcar_rules};
ghost use Rattle.access_profile.specs.NeedsHighway.{highway_of_free};

use crate::{closing, highways, restricting};
use barrier_rules::barrier_open;
use road_base::{Dir, Tags};
use road_model::{Access, Profile, RuleKind};

/// Cars. The profile's number is 1.
#[derive(Clone, Copy)]
pub struct Motorcar;

impl Profile for Motorcar {
    ghost rules = { λ _. motorcar_rules };

    fn number(&self) -> u32 {
        1
    }

    /// Closed by `area=yes`, by a `highway` that is missing or isn't for cars, or by the deciding key; where no key
    /// closes it, the wrong way where oneway doesn't allow the direction (OSM wiki, Key:access and Key:oneway).
    fn direction(&self, tags: &Tags, dir: Dir) -> Access {
        closing::direction(tags, dir)
    }

    /// By `barrier` and the access keys (OSM wiki, Key:barrier).
    fn node_open(&self, tags: &Tags) -> bool {
        barrier_open(tags)
    }

    /// `highway=turning_circle` and `highway=turning_loop`.
    fn turns(&self, tags: &Tags) -> bool {
        highways::is_turning_place(tags)
    }

    /// `Freed` where `except` names a car; else by `restriction:motorcar`, or by `restriction` where that is missing
    /// (OSM wiki, Relation:restriction).
    fn rule(&self, tags: &Tags) -> RuleKind {
        restricting::rule(tags)
    }

    /// Via ways are passed in the order in which they are listed.
    fn reverses(&self) -> bool {
        false
    }

    /// No way lies in a zone: one for destination traffic is free.
    fn zone(&self, _tags: &Tags, _dir: Dir) -> bool {
        false
    }

    ghost free_needs_highway = { λ p tags dir free. highway_of_free tags dir free };
}
