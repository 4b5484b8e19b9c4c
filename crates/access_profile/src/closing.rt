//! Where a way may be driven by car, and what closes it where it may not.
ghost use Rattle.std.specs.Prelude.{◌≡◌};
ghost use Rattle.access_profile.specs.Closing.{class_or_closed, closed_by_decision, closed_in_class};
ghost use Rattle.access_profile.specs.Closing.{closed_or_oneway, direction, direction_by, is_for_motors, named_by};

use crate::decisions::{Decision, Permission, decision_of};
use crate::highways::{RoadClass, road_class};
use oneway_rules::oneway;
use road_base::{Dir, Tags};
use road_model::{Access, AccessKey, ClosedBy};

/// Whether a way with these tags may be driven in the direction.
#[tactic(auto, unfolding(crate::specs::Closing::direction, crate::specs::Closing::direction_by))]
pub fn direction(tags: &Tags, dir: Dir) -> Access
    ensures { result ≡ direction tags.now dir }
{
    match class_or_closed(tags) {
        Ok(class) => closed_or_oneway(tags, dir, closed_in_class(class, decision_of(tags, dir))),
        Err(by) => Access::Closed(by),
    }
}

/// Whether a way with these tags may be driven in the direction, where this decides on access in place of the tags'
/// deciding key, and where it is None nothing does.
#[tactic(auto, unfolding(crate::specs::Closing::direction_by))]
pub fn direction_by(tags: &Tags, dir: Dir, decision: Option<Decision>) -> Access
    ensures { result ≡ direction_by tags.now dir decision }
{
    match class_or_closed(tags) {
        Ok(class) => closed_or_oneway(tags, dir, closed_in_class(class, decision)),
        Err(by) => Access::Closed(by),
    }
}

/// The class of a way, or what closes it whatever decides on access.
#[tactic(auto, unfolding(crate::specs::Closing::class_or_closed))]
fn class_or_closed(tags: &Tags) -> Result<RoadClass, ClosedBy>
    ensures { result ≡ class_or_closed tags.now }
{
    if matches!(tags.get("area"), Some("yes")) {
        return Err(ClosedBy::Area);
    }
    match road_class(tags) {
        Some(class) => Ok(class),
        None => Err(ClosedBy::Highway),
    }
}

/// Closed by the key, where there is one, and else as oneway says.
fn closed_or_oneway(tags: &Tags, dir: Dir, closed: Option<ClosedBy>) -> Access
    ensures { result ≡ closed_or_oneway tags.now dir closed }
{
    match closed {
        Some(by) => Access::Closed(by),
        None if oneway(tags, dir) => Access::Free,
        None => Access::WrongWay,
    }
}

/// The key that closes a way of this class, where this decides on access.
fn closed_in_class(class: RoadClass, decision: Option<Decision>) -> Option<ClosedBy>
    ensures { result ≡ closed_in_class class decision }
{
    match (class, decision) {
        (RoadClass::ForCars, None) => None,
        (RoadClass::ForCars, Some(decision)) => closed_by_decision(decision),
        (RoadClass::ForOthers, Some(decision)) if is_for_motors(decision.name) => {
            closed_by_decision(decision)
        }
        (RoadClass::ForOthers, _) => Some(ClosedBy::Highway),
    }
}

/// Whether the key speaks of motor vehicles alone.
fn is_for_motors(name: AccessKey) -> bool
    ensures { result ≡ is_for_motors name }
{
    matches!(name, AccessKey::Motorcar | AccessKey::MotorVehicle)
}

/// The key that decided, where its value lets nobody pass.
fn closed_by_decision(decision: Decision) -> Option<ClosedBy>
    ensures { result ≡ closed_by_decision decision }
{
    match decision.permission {
        Permission::Nobody => Some(named_by(decision)),
        Permission::All | Permission::Destination => None,
    }
}

/// The key that decided, as what closes a way.
fn named_by(decision: Decision) -> ClosedBy
    ensures { result ≡ named_by decision }
{
    let Decision { name, side, .. } = decision;
    if decision.conditional {
        ClosedBy::Conditional { name, side }
    } else {
        ClosedBy::Deciding { name, side }
    }
}
