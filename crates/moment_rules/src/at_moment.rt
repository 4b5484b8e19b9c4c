//! The profile of a number at a moment.
ghost use Rattle.std.specs.Prelude.{◌≡◌};
ghost use Rattle.road_base.specs.Profiles.{IsProfile};
ghost use Rattle.moment_rules.specs.AtMoment.{highway_at_moment, rules_at};

use crate::Moment;
use crate::deciding::decision_at;
use access_profile::{Motorcar, direction_by, is_zone_by};
use road_base::{Dir, Tags};
use road_model::{Access, Profile, RuleKind};

/// The profile of a number, 1 or 2, at a moment: conditional access keys count as their values say it for then (OSM
/// wiki, Conditional restrictions).
#[derive(Clone, Copy)]
pub struct AtMoment {
    pub profile: u32,
    pub at: Moment,
    ghost known: { IsProfile profile },
}

impl AtMoment {
    /// The profile of that number at the moment.
    pub fn new(profile: u32, at: Moment) -> AtMoment
        requires { IsProfile profile }
        ensures profile { result.profile ≡ profile }
        ensures at { result.at ≡ at }
    {
        AtMoment { profile, at }
    }
}

impl Profile for AtMoment {
    ghost rules = { λ p. rules_at p.profile p.at };

    fn number(&self) -> u32 {
        self.profile
    }

    /// As a `Motorcar` answers, but by what decides on access at the moment.
    fn direction(&self, tags: &Tags, dir: Dir) -> Access {
        direction_by(tags, dir, decision_at(self.at, tags, dir))
    }

    /// As a `Motorcar` answers.
    fn node_open(&self, tags: &Tags) -> bool {
        Motorcar.node_open(tags)
    }

    /// As a `Motorcar` answers.
    fn turns(&self, tags: &Tags) -> bool {
        Motorcar.turns(tags)
    }

    /// As a `Motorcar` answers.
    fn rule(&self, tags: &Tags) -> RuleKind {
        Motorcar.rule(tags)
    }

    /// As a `Motorcar` answers, or a `Motorcar2`, by the number.
    fn reverses(&self) -> bool {
        self.profile == 2
    }

    /// As a `Motorcar` answers, or a `Motorcar2`, by the number, but by what decides on access at the moment.
    fn zone(&self, tags: &Tags, dir: Dir) -> bool {
        self.profile == 2 && is_zone_by(tags, dir, decision_at(self.at, tags, dir))
    }

    ghost free_needs_highway = { λ p tags dir free. highway_at_moment p.at tags dir free };
}
