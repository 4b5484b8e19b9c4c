//! The first cause for which a restriction is of no use, or the order in which its via members are passed.
ghost use Rattle.std.specs.Prelude.{◌≡◌, ◌&&◌, not, IsFalse, IfErr, IfOk, OnOk, None, Some};
ghost use Rattle.std.specs.List.{list_any};
ghost use Rattle.road_model.specs.Networks.{made_on, map_of, on, rules_of};
ghost use Rattle.road_model.specs.Restrictions.{IsFirstCause, IsUsable, are_ways, connects, is_ring, via_order, vias};
ghost use Rattle.road_model.specs.Driving.{is_open};
ghost use Rattle.road_model.specs.Words.{kind_of};
ghost use Rattle.restrictions.specs.Causes.{may_be_reversed, misfit_of};

use crate::causes::{are_ways, is_too_long, lacks_member, misses_end, wrong_members};
use crate::roles::Roles;
use crate::runs::{Allowed, connects};
use road_base::Key;
use road_model::{Network, Profile, RuleKind, Unusable, World};

/// The via members in the order in which they are passed, or the first cause for which the restriction is of no use.
///
/// Via ways that miss an end or don't connect as they are listed are tried in the reversed order, where the profile
/// reverses (OSM wiki, Relation:restriction, on the order of members).
pub fn usable_order<'r, M: World, P: Profile>(
    network: &Network<'_, M, P>,
    roles: &'r Roles<'_>,
) -> Result<&'r [Key], Unusable>
    ensures order { IfOk result (λ order. order.now ≡ made_on network.now via_order roles.now.body.now) }
    ensures usable { OnOk result (on network.now IsUsable roles.now.body.now) }
    ensures cause { IfErr result (on network.now IsFirstCause roles.now.body.now) }
{
    match network.profile.rule(&roles.body.tags) {
        RuleKind::Freed => Err(Unusable::NotThisVehicle),
        RuleKind::Absent => Err(Unusable::NoValue),
        RuleKind::No => order_of_members(network, roles, false),
        RuleKind::Only => order_of_members(network, roles, true),
    }
}

/// The same, where the tags hold a rule.
fn order_of_members<'r, M: World, P: Profile>(
    network: &Network<'_, M, P>,
    roles: &'r Roles<'_>,
    only: bool,
) -> Result<&'r [Key], Unusable>
    requires { (rules_of network.now).rule roles.now.body.now.tags ≡ kind_of only }
    ensures order { IfOk result (λ order. order.now ≡ made_on network.now via_order roles.now.body.now) }
    ensures usable { OnOk result (on network.now IsUsable roles.now.body.now) }
    ensures cause { IfErr result (on network.now IsFirstCause roles.now.body.now) }
{
    if wrong_members(only, roles) {
        return Err(Unusable::Members);
    }
    if lacks_member(network.world, roles) {
        return Err(Unusable::Missing);
    }
    let order = match fitting_order(network, roles) {
        Ok(order) => order,
        Err(cause) => return Err(cause),
    };
    if is_closed(network, roles, order) {
        return Err(Unusable::ClosedVia);
    }
    if is_too_long(network.world, roles) {
        return Err(Unusable::TooLong);
    }
    Ok(order)
}

/// The order in which the via members are passed, or the cause that speaks of it and holds. The reversed order is
/// looked at only where the listed one misfits.
fn fitting_order<'r, M: World, P: Profile>(
    network: &Network<'_, M, P>,
    roles: &'r Roles<'_>,
) -> Result<&'r [Key], Unusable>
    ensures order { IfOk result (λ order. order.now ≡ made_on network.now via_order roles.now.body.now) }
    ensures fits { IfOk result (λ order. misfit_of (map_of network.now) roles.now.body.now order.now ≡ None) }
    ensures cause { IfErr result (λ cause. misfit_of (map_of network.now) roles.now.body.now
        (made_on network.now via_order roles.now.body.now) ≡ Some cause) }
{
    let listed = roles.vias.as_slice();
    let Some(cause) = misfit(network, roles, listed) else {
        return Ok(listed);
    };
    if !may_be_reversed(&network.profile, listed) {
        return Err(cause);
    }
    let reversed = roles.reversed.as_slice();
    if misfit(network, roles, reversed).is_some() {
        return Err(cause);
    }
    Ok(reversed)
}

/// Whether the profile may pass these via members in the reversed order: it reverses, and they are two ways or more.
fn may_be_reversed<P: Profile>(profile: &P, vias: &[Key]) -> bool
    ensures { result ≡ may_be_reversed (P.rules profile.now) vias.now }
{
    profile.reverses() && vias.len() > 1 && are_ways(vias)
}

/// The cause that holds where the via members are passed in this order: they miss an end, or are ways that lead from no
/// from way to a to way.
fn misfit<M: World, P: Profile>(
    network: &Network<'_, M, P>,
    roles: &Roles<'_>,
    order: &[Key],
) -> Option<Unusable>
    ensures { result ≡ misfit_of (map_of network.now) roles.now.body.now order.now }
{
    if misses_end(network.world, roles, order) {
        return Some(Unusable::NotAnEnd);
    }
    if are_ways(roles.vias.as_slice()) && !connects(network, Allowed::AnyWay, roles, order) {
        return Some(Unusable::NotConnected);
    }
    None
}

/// Whether the via members are ways that don't lead on in this order by open directions alone.
fn is_closed<M: World, P: Profile>(
    network: &Network<'_, M, P>,
    roles: &Roles<'_>,
    order: &[Key],
) -> bool
    requires lines { IsFalse (list_any (is_ring (map_of network.now)) order.now) }
    ensures { result ≡ (are_ways (vias roles.now.body.now)
        && not (connects (map_of network.now) (made_on network.now is_open) roles.now.body.now order.now)) }
{
    are_ways(roles.vias.as_slice()) && !connects(network, Allowed::OpenWay, roles, order)
}
