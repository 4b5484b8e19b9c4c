//! The profile of a number.
ghost use Rattle.std.specs.Prelude.{◌≡◌, IfSome, IfNone};
ghost use Rattle.road_base.specs.Profiles.{IsProfile};
ghost use Rattle.access_profile.specs.NeedsHighway.{highway_of_free};
ghost use Rattle.access_profile.specs.Profiles.{rules_of};

use crate::Motorcar;
use crate::zones::is_zone;
use road_base::{Dir, Tags, is_profile};
use road_model::{Access, Profile, RuleKind};

/// The profile of a number that is one of a profile.
#[derive(Clone, Copy)]
pub struct ProfileOf {
    number: u32,
    ghost known: { IsProfile number },
}

impl ProfileOf {
    /// The profile of that number. None exactly where no profile has it.
    pub fn new(number: u32) -> Option<ProfileOf>
        ensures some { IfSome result (λ p. p.number ≡ number) }
        ensures none { IfNone result (IsProfile number → ⊥) }
    {
        if is_profile(number) {
            Some(ProfileOf { number })
        } else {
            None
        }
    }
}

impl Profile for ProfileOf {
    ghost rules = { λ p. rules_of p.number };

    fn number(&self) -> u32 {
        self.number
    }

    /// As a `Motorcar` answers.
    fn direction(&self, tags: &Tags, dir: Dir) -> Access {
        Motorcar.direction(tags, dir)
    }

    /// As a `Motorcar` answers.
    fn node_open(&self, tags: &Tags) -> bool {
        Motorcar.node_open(tags)
    }

    /// As a `Motorcar` answers.
    fn turns(&self, tags: &Tags) -> bool {
        Motorcar.turns(tags)
    }

    /// As a `Motorcar` answers.
    fn rule(&self, tags: &Tags) -> RuleKind {
        Motorcar.rule(tags)
    }

    /// As a `Motorcar` answers, or a `Motorcar2`, by the number.
    fn reverses(&self) -> bool {
        self.number == 2
    }

    /// As a `Motorcar` answers, or a `Motorcar2`, by the number.
    fn zone(&self, tags: &Tags, dir: Dir) -> bool {
        self.number == 2 && is_zone(tags, dir)
    }

    ghost free_needs_highway = { λ p tags dir free. highway_of_free tags dir free };
}
