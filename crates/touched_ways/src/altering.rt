//! The ways whose blocks a change may alter.
ghost use Rattle.std.specs.Prelude.{◌≡◌, ◌↔◌, Contains, IfOk, IsTrue, length};
ghost use Rattle.std.specs.List.{AllWithin};
ghost use Rattle.std.specs.declared.cmp.Ordering.TheVariants.{Less, Greater};
ghost use Rattle.road_base.specs.declared.ids.WayId.{WayId as WayNumber};
ghost use Rattle.ordered_lists.specs.Orders.{Lists, rises};
ghost use Rattle.road_model.specs.Orders.{way_cmp};
ghost use Rattle.touched_ways.specs.Altering.{AreNamedTogether, HereOrBeside, MeetsOne};

use crate::found::Reached;
use crate::merging::merge;
use crate::rounds::{find_ways_of_nodes, find_ways_of_rules, follow_ways};
use ordered_lists::leave_once;
use road_base::{NoMemory, WayId, Ways};
use road_model::World;
use road_model::laws::{name_order, number_order};
use std::alloc::Global;

/// These ways without those among the others, ascending. Goes along the ways once, with one search among the others at
/// most for each.
pub fn apart_from(alloc: Global, ways: &Ways, others: &Ways) -> Result<Ways, NoMemory>
    requires ways { IsTrue (rises way_cmp ways.now) }
    requires others { IsTrue (rises way_cmp others.now) }
    ensures { IfOk result (Lists (λ w. w) way_cmp
        (λ w. Contains ways.now w × (Contains others.now w → ⊥))) }
{
    name_order();
    let mut apart = Vec::new(alloc);
    let mut gap = 0;
    for way in ways.items() {
        if !is_among_next(others, *way, &mut gap) {
            apart.push(*way)?;
        }
    }
    Ok(Ways::from_list(apart))
}

/// Whether the way is one of these, which ascend. Takes no memory.
pub fn is_among(ways: &Ways, way: WayId) -> bool
    requires { IsTrue (rises way_cmp ways.now) }
    ensures { IsTrue result ↔ Contains ways.now way }
{
    name_order();
    ways.items().binary_search(&way).is_ok()
}

/// Whether the way is one of these, which ascend. A way in the gap, before which so many of these stand, needs no
/// search, and after one the gap is the next that a way above this one can be in. So where ways that ascend are asked
/// for in turn, beginning with the gap before all, there is one search at most for each of these.
fn is_among_next(ways: &Ways, way: WayId, gap: &mut usize) -> bool
    requires { IsTrue (rises way_cmp ways.now) }
    ensures { IsTrue result ↔ Contains ways.now way }
{
    name_order();
    if is_in_gap(ways.items(), *gap, way) {
        return false;
    }
    match ways.items().binary_search(&way) {
        Ok(place) => {
            *gap = place + 1;
            true
        }
        Err(place) => {
            *gap = place;
            false
        }
    }
}

/// Whether so many of these, which ascend, stand before the way, and the others behind it.
fn is_in_gap(ways: &[WayId], gap: usize, way: WayId) -> bool
    requires { IsTrue (rises way_cmp ways.now) }
    ensures { IsTrue result → Contains ways.now way → ⊥ }
{
    name_order();
    are_below(ways, gap, way) && are_above(ways, gap, way)
}

/// Whether so many of these, which ascend, stand before the way.
fn are_below(ways: &[WayId], count: usize, way: WayId) -> bool
    requires { IsTrue (rises way_cmp ways.now) }
    ensures { IsTrue result → AllWithin (λ v. way_cmp v way ≡ Less) ways.now 0 count }
{
    name_order();
    if count == 0 {
        return true;
    }
    match ways.get(count - 1) {
        Some(last) => last.cmp(&way).is_lt(),
        None => false,
    }
}

/// Whether those of these from the position on, which ascend, stand behind the way.
fn are_above(ways: &[WayId], from: usize, way: WayId) -> bool
    requires { IsTrue (rises way_cmp ways.now) }
    ensures { IsTrue result → AllWithin (λ v. way_cmp v way ≡ Greater) ways.now from (length ways.now) }
{
    name_order();
    match ways.get(from) {
        Some(first) => first.cmp(&way).is_gt(),
        None => true,
    }
}

/// The ways that share a node with one of these or that a restriction names beside a way that does, ascending. Takes
/// the time and memory of the ways at the nodes of these, and of the members of the restrictions that name those.
pub fn meeting<M: World>(alloc: Global, world: &M, ways: &[WayId]) -> Result<Ways, NoMemory>
    ensures { IfOk result (Lists (λ w. w) way_cmp
        (HereOrBeside (M.objects world.now) (MeetsOne (M.objects world.now) ways.now))) }
{
    let met = ways_met(alloc, world, ways)?;
    with_beside(alloc, world, &met)
}

/// The ways that share a node with one of these, ascending, as does each of these that has a node. Ways without the key
/// `highway` share none.
pub fn ways_met<M: World>(alloc: Global, world: &M, ways: &[WayId]) -> Result<Ways, NoMemory>
    ensures { IfOk result (Lists (λ w. w) way_cmp (MeetsOne (M.objects world.now) ways.now)) }
{
    name_order();
    let mut nodes = Reached::with_room(alloc, 0, ways.len())?;
    follow_ways(world, ways, &mut nodes)?;
    let mut found = Reached::with_room(alloc, nodes.nodes.len(), 0)?;
    find_ways_of_nodes(alloc, world, nodes.nodes.as_slice(), &mut found)?;
    let ways_found = found.ways;
    let mut met = ways_found.list;
    leave_once(&mut met);
    Ok(Ways::from_list(met))
}

/// These ways, and those that a restriction names beside one of them, ascending. Takes the time and memory of the
/// restrictions that name these, and of their members.
pub fn with_beside<M: World>(alloc: Global, world: &M, ways: &Ways) -> Result<Ways, NoMemory>
    ensures { IfOk result (Lists (λ w. w) way_cmp (HereOrBeside (M.objects world.now) (λ v. Contains ways.now v))) }
{
    let beside = ways_beside(alloc, world, ways.items())?;
    merge(alloc, ways, &beside)
}

/// The ways that a restriction names beside one of these, ascending.
fn ways_beside<M: World>(alloc: Global, world: &M, ways: &[WayId]) -> Result<Ways, NoMemory>
    ensures { IfOk result (Lists (λ w. w) way_cmp
        (λ w. (v : WayNumber) × AreNamedTogether (M.objects world.now) w v × Contains ways.now v)) }
{
    name_order();
    number_order();
    let mut linked = Reached::with_room(alloc, 0, ways.len())?;
    follow_ways(world, ways, &mut linked)?;
    let mut rules = linked.rules;
    leave_once(&mut rules);
    let mut found = Reached::new(alloc)?;
    find_ways_of_rules(world, rules.as_slice(), &mut found)?;
    let ways_found = found.ways;
    let mut beside = ways_found.list;
    leave_once(&mut beside);
    Ok(Ways::from_list(beside))
}
