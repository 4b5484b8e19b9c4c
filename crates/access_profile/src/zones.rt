//! The directions of ways that are open for destination traffic alone.
ghost use Rattle.std.specs.Prelude.{◌≡◌};
ghost use Rattle.access_profile.specs.Zones.{is_zone, is_zone_by, lets_destination};

use crate::closing::direction_by;
use crate::decisions::{Decision, Permission, decision_of};
use road_base::{Dir, Tags};
use road_model::Access;

/// Whether a way with these tags is free in the direction, and the value of the key that decides is `destination`.
#[tactic(auto, unfolding(crate::specs::Zones::is_zone))]
pub fn is_zone(tags: &Tags, dir: Dir) -> bool
    ensures { result ≡ is_zone tags.now dir }
{
    is_zone_by(tags, dir, decision_of(tags, dir))
}

/// Whether a way with these tags is free in the direction, and open for destination traffic alone, where this decides
/// on access in place of the tags' deciding key.
#[tactic(auto, unfolding(crate::specs::Zones::is_zone_by))]
pub fn is_zone_by(tags: &Tags, dir: Dir, decision: Option<Decision>) -> bool
    ensures { result ≡ is_zone_by tags.now dir decision }
{
    if !lets_destination(decision) {
        return false;
    }
    match direction_by(tags, dir, decision) {
        Access::Free => true,
        _ => false,
    }
}

/// Whether something decides, and lets destination traffic alone pass.
fn lets_destination(decision: Option<Decision>) -> bool
    ensures { result ≡ lets_destination decision }
{
    match decision {
        Some(decision) => matches!(decision.permission, Permission::Destination),
        None => false,
    }
}
