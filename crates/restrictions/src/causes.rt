//! The causes for which a restriction is of no use.
ghost use Rattle.std.specs.Prelude.{◌≡◌, ◌≤◌, ◌&&◌, length, nat_le, nat_lt, sum_by};
ghost use Rattle.std.specs.List.{list_all, list_any};
ghost use Rattle.road_base.specs.Objects.{way_of};
ghost use Rattle.road_model.specs.Lines.{line_of};
ghost use Rattle.road_model.specs.Restrictions.{are_ways, first_of, is_one_node, is_present, is_ring};
ghost use Rattle.road_model.specs.Restrictions.{is_tagged_highway, is_too_long, is_way_key, lacks_member, last_of};
ghost use Rattle.road_model.specs.Restrictions.{misses_end, steps_on, wrong_members};

use crate::line_ends::{has_two_nodes, is_ring, nodes_on, some_ends_at_via};
use crate::roles::Roles;
use road_base::{Key, WayId};
use road_model::{World, has_highway};

/// Whether the members are too few, too many, or of the wrong kinds.
pub fn wrong_members(only: bool, roles: &Roles<'_>) -> bool
    ensures { result ≡ wrong_members only roles.now.body.now }
{
    let froms = roles.froms.as_slice();
    let vias = roles.vias.as_slice();
    let tos = roles.tos.as_slice();
    froms.is_empty()
        || tos.is_empty()
        || vias.is_empty()
        || !are_all_ways(froms)
        || !are_all_ways(tos)
        || !(is_one_node(vias) || are_ways(vias))
        || (only && (froms.len() > 1 || tos.len() > 1))
}

/// Whether the keys are one way or more, and nothing else.
pub fn are_ways(keys: &[Key]) -> bool
    ensures { result ≡ are_ways keys.now }
{
    !keys.is_empty() && are_all_ways(keys)
}

fn are_all_ways(keys: &[Key]) -> bool
    ensures { result ≡ list_all is_way_key keys.now }
{
    keys.iter().all(|key| is_way(*key))
}

fn is_way(key: Key) -> bool
    ensures { result ≡ is_way_key key }
{
    matches!(key, Key::Way(_))
}

fn is_one_node(keys: &[Key]) -> bool
    ensures { result ≡ is_one_node keys.now }
{
    matches!(keys, [Key::Node(_)])
}

/// Whether some from, via or to member isn't there. Each is looked at once, however often it stands there.
#[tactic(auto, using(crate::proofs::Members::lacks_some))]
pub fn lacks_member<M: World>(world: &M, roles: &Roles<'_>) -> bool
    ensures { result ≡ lacks_member (M.objects world.now) roles.now.body.now }
{
    !are_present(world, roles.once.as_slice())
}

fn are_present<M: World>(world: &M, keys: &[Key]) -> bool
    ensures { result ≡ list_all (is_present (M.objects world.now)) keys.now }
{
    keys.iter().all(|key| is_present(world, *key))
}

/// Whether the object is visible, and where it is a way, carries the key `highway` and has two nodes or more on its
/// line.
fn is_present<M: World>(world: &M, key: Key) -> bool
    ensures { result ≡ is_present (M.objects world.now) key }
{
    match key {
        Key::Node(node) => world.node(node).is_some(),
        Key::Way(way) => is_street(world, way),
        Key::Relation(relation) => world.relation(relation).is_some(),
    }
}

#[tactic(auto, unfolding(road_model::specs::Lines::line_of))]
fn is_street<M: World>(world: &M, way: WayId) -> bool
    ensures { result
        ≡ (is_tagged_highway (way_of (M.objects world.now) way)
        && nat_le 2 (length (line_of (M.objects world.now) way))) }
{
    match world.way(way) {
        Some(body) => has_highway(&body.tags) && has_two_nodes(body),
        None => false,
    }
}

/// Whether a via way is a ring, or no from way ends where the via members begin, or no to way where they end, where
/// they are passed in this order.
pub fn misses_end<M: World>(world: &M, roles: &Roles<'_>, vias: &[Key]) -> bool
    ensures { result ≡ misses_end (M.objects world.now) roles.now.body.now vias.now }
{
    has_ring(world, vias)
        || !some_ends_at_via(world, roles.froms.as_slice(), first_of(vias))
        || !some_ends_at_via(world, roles.tos.as_slice(), last_of(vias))
}

fn has_ring<M: World>(world: &M, keys: &[Key]) -> bool
    ensures { result ≡ list_any (is_ring (M.objects world.now)) keys.now }
{
    keys.iter().any(|key| is_ring(world, *key))
}

fn first_of(keys: &[Key]) -> Option<Key>
    ensures { result ≡ first_of keys.now }
{
    match keys {
        [first, ..] => Some(*first),
        [] => None,
    }
}

fn last_of(keys: &[Key]) -> Option<Key>
    ensures { result ≡ last_of keys.now }
{
    match keys {
        [.., last] => Some(*last),
        [] => None,
    }
}

/// Whether a role has more than 16 members, or the via ways more than 1,024 steps.
pub fn is_too_long<M: World>(world: &M, roles: &Roles<'_>) -> bool
    ensures { result ≡ is_too_long (M.objects world.now) roles.now.body.now }
{
    roles.froms.len() > 16
        || roles.vias.len() > 16
        || roles.tos.len() > 16
        || has_many_steps(world, roles.vias.as_slice())
}

/// Whether these ways have more than 1,024 steps together. Looks at none behind those that have.
fn has_many_steps<M: World>(world: &M, keys: &[Key]) -> bool
    ensures { result ≡ nat_lt 1024 (sum_by (steps_on (M.objects world.now)) keys.now) }
{
    let mut steps = 0;
    for key in keys {
        steps += steps_on(world, *key);
        if steps > 1024 {
            return true;
        }
    }
    false
}

/// How many steps it has, if it is a way.
fn steps_on<M: World>(world: &M, key: Key) -> usize
    ensures steps { result ≡ steps_on (M.objects world.now) key }
    ensures short { result ≤ 65535 }
{
    match key {
        Key::Way(way) => nodes_on(world, way).saturating_sub(1) as usize,
        _ => 0,
    }
}
