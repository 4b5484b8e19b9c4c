//! The via ways of a restriction, driven whole one after the other.
ghost use Rattle.std.specs.Prelude.{◌≡◌, Some, None, IsFalse, IfSome, IfNone, option_map};
ghost use Rattle.std.specs.List.{list_any};
ghost use Rattle.road_base.specs.declared.ids.Key.TheVariants.{Way as WayKey};
ghost use Rattle.road_model.specs.Networks.{made_on, map_of};
ghost use Rattle.road_model.specs.Restrictions.{connects, is_ring};
ghost use Rattle.restrictions.specs.Runs.{across, allows, dir_between, dir_from, end_in, first_enter, last_enter};
ghost use Rattle.restrictions.specs.Runs.{leads, leave_of};

use crate::line_ends::{LineEnds, line_ends, some_ends_at};
use crate::roles::Roles;
use road_base::{Dir, Key, NodeId, WayId};
use road_model::{Network, Profile, World};
use way_lines::is_open;

/// The directions of ways that count: all, or those that are open.
#[derive(Clone, Copy)]
pub enum Allowed {
    AnyWay,
    OpenWay,
}

/// A way that is driven whole: its direction, and the node where one comes out.
#[derive(Clone, Copy)]
pub struct WholeWay {
    pub way: WayId,
    pub dir: Dir,
    pub out: NodeId,
}

/// How one drives the whole way from the node, None where the node is no end of it or the direction doesn't count.
/// The first end counts where both are the node.
pub fn cross<M: World, P: Profile>(
    network: &Network<'_, M, P>,
    allowed: Allowed,
    key: Key,
    from: NodeId,
) -> Option<WholeWay>
    ensures some { IfSome result (λ c. (key ≡ WayKey c.way)
        × (dir_from (map_of network.now) c.way (Some from) ≡ Some c.dir)
        × (across (map_of network.now) (made_on network.now allows allowed) key (Some from) ≡ Some c.out)) }
    ensures none { IfNone result
        (across (map_of network.now) (made_on network.now allows allowed) key (Some from) ≡ None) }
{
    let Key::Way(way) = key else {
        return None;
    };
    let Some(ends) = line_ends(network.world, way) else {
        return None;
    };
    let Some(dir) = dir_between(ends, from) else {
        return None;
    };
    if !is_allowed(network, allowed, way, dir) {
        return None;
    }
    Some(WholeWay {
        way,
        dir,
        out: end_in(ends, dir),
    })
}

/// The direction in which a line with these ends is driven from the node.
fn dir_between(ends: LineEnds, from: NodeId) -> Option<Dir>
    ensures { result ≡ dir_between (Some ends.first) (Some ends.last) (Some from) }
{
    if ends.first == from {
        Some(Dir::Forward)
    } else if ends.last == from {
        Some(Dir::Backward)
    } else {
        None
    }
}

/// Where one comes out who drives the line in the direction.
fn end_in(ends: LineEnds, dir: Dir) -> NodeId
    ensures { Some result ≡ end_in (Some ends.first) (Some ends.last) dir }
{
    match dir {
        Dir::Forward => ends.last,
        Dir::Backward => ends.first,
    }
}

/// Whether the direction counts.
fn is_allowed<M: World, P: Profile>(
    network: &Network<'_, M, P>,
    allowed: Allowed,
    way: WayId,
    dir: Dir,
) -> bool
    ensures { result ≡ made_on network.now allows allowed way dir }
{
    match allowed {
        Allowed::AnyWay => true,
        Allowed::OpenWay => is_open(network.world, &network.profile, way, dir),
    }
}

/// The node where one comes out who drives all the ways, the first one from the node.
#[tactic(auto, using(crate::proofs::OneRun::from_nowhere))]
pub fn leave_of<M: World, P: Profile>(
    network: &Network<'_, M, P>,
    allowed: Allowed,
    ways: &[Key],
    enter: NodeId,
) -> Option<NodeId>
    ensures { result ≡ leave_of (map_of network.now) (made_on network.now allows allowed) ways.now (Some enter) }
{
    let mut at = enter;
    let mut rest = ways;
    while let [key, behind @ ..] = rest {
        let Some(crossing) = cross(network, allowed, *key, at) else {
            return None;
        };
        at = crossing.out;
        rest = behind;
    }
    Some(at)
}

/// Whether these via ways lead in such directions from an end of a from way to an end of a to way.
pub fn connects<M: World, P: Profile>(
    network: &Network<'_, M, P>,
    allowed: Allowed,
    roles: &Roles<'_>,
    ways: &[Key],
) -> bool
    requires { IsFalse (list_any (is_ring (map_of network.now)) ways.now) }
    ensures { result
        ≡ connects (map_of network.now) (made_on network.now allows allowed) roles.now.body.now ways.now }
{
    let Some(ends) = first_ends(network.world, ways) else {
        return false;
    };
    leads_from(network, allowed, roles, ways, ends.first)
        || leads_from(network, allowed, roles, ways, ends.last)
}

/// The ends of the first of the ways.
pub fn first_ends<M: World>(world: &M, keys: &[Key]) -> Option<LineEnds>
    ensures first { option_map (λ e. e.first) result ≡ first_enter (M.objects world.now) keys.now }
    ensures last { option_map (λ e. e.last) result ≡ last_enter (M.objects world.now) keys.now }
{
    match keys {
        [Key::Way(way), ..] => line_ends(world, *way),
        _ => None,
    }
}

/// Whether these via ways lead so from the node, at which a from way ends.
fn leads_from<M: World, P: Profile>(
    network: &Network<'_, M, P>,
    allowed: Allowed,
    roles: &Roles<'_>,
    ways: &[Key],
    enter: NodeId,
) -> bool
    ensures { result
        ≡ leads (map_of network.now) (made_on network.now allows allowed) roles.now.body.now ways.now enter }
{
    if !some_ends_at(network.world, roles.froms.as_slice(), &[enter]) {
        return false;
    }
    match leave_of(network, allowed, ways, enter) {
        Some(leave) => some_ends_at(network.world, roles.tos.as_slice(), &[leave]),
        None => false,
    }
}
