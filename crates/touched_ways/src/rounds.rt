//! The search over links, round by round.
ghost use Rattle.std.specs.Prelude.{◌≡◌, ◌⊎◌, IfOk, OnOk};
ghost use Rattle.road_base.specs.declared.ids.Key.TheVariants.{Node as NodeKey, Way as WayKey, Relation as RelationKey};
ghost use Rattle.ordered_lists.specs.Orders.{Lists};
ghost use Rattle.road_model.specs.Orders.{way_cmp};
ghost use Rattle.road_model.specs.Links.{IsLink, AreChanged, AreReached, AreTouched};
ghost use Rattle.touched_ways.specs.Altering.{IsNearChange};
ghost use Rattle.touched_ways.specs.Searches.{Finds, GivenBy, IsWayLink, IsNext, IsSeen, IsFurther, IsFurtherInOne};
ghost use Rattle.touched_ways.specs.Searches.{IsBegun, AreRounds};

use crate::found::Reached;
use crate::hubs::{find_ways_once, follow_node_once};
use crate::links::{find_ways_of_rule, follow_rule, follow_way};
use crate::search::LinkSearch;
use road_base::{Key, Keys, NoMemory, NodeId, RelationId, WayId, Ways};
use road_model::{LINK_RADIUS, World};
use std::alloc::Global;
use std::collections::BTreeSet;

/// The ways within the link radius of the keys, ascending. Takes the time and memory of what is reached.
pub fn reached<M: World>(alloc: Global, world: &M, changed: &Keys) -> Result<Ways, NoMemory>
    ensures { IfOk result (AreReached (M.objects world.now) changed.now) }
{
    let mut search = begin(alloc, changed.items())?;
    rounds(alloc, world, &mut search, LINK_RADIUS - 1)?;
    last_round(alloc, world, search)
}

/// The ways within two links of the changed keys, ascending, visible or not, in the world before a change or in the one
/// behind it. A link that is in one of them alone has a changed key at an end, so those of the world before are
/// followed from the changed keys alone. Takes the time and memory of what is reached.
pub fn near_change<M: World, N: World>(
    alloc: Global,
    before: &M,
    after: &N,
    changed: &Keys,
) -> Result<Ways, NoMemory>
    ensures { IfOk result (λ ways. AreChanged (M.objects before.now) (N.objects after.now) changed.now
        → Lists (λ w. w) way_cmp (IsNearChange (M.objects before.now) (N.objects after.now)) ways) }
{
    let mut search = begin(alloc, changed.items())?;
    round_in_both(alloc, before, after, &mut search)?;
    last_round(alloc, after, search)
}

/// The ways within the link radius of the changed keys, ascending, visible or not, in the world before a change or in
/// the one behind it, found in the same way.
pub fn surroundings<M: World, N: World>(
    alloc: Global,
    before: &M,
    after: &N,
    changed: &Keys,
) -> Result<Ways, NoMemory>
    ensures { IfOk result (λ ways. AreChanged (M.objects before.now) (N.objects after.now) changed.now
        → AreTouched (M.objects before.now) (N.objects after.now) ways) }
{
    let mut search = begin(alloc, changed.items())?;
    round_in_both(alloc, before, after, &mut search)?;
    rounds(alloc, after, &mut search, LINK_RADIUS - 2)?;
    last_round(alloc, after, search)
}

/// The search that has reached the keys.
fn begin(alloc: Global, keys: &[Key]) -> Result<LinkSearch, NoMemory>
    ensures { IfOk result (IsBegun keys.now) }
{
    let mut found = Reached::new(alloc)?;
    found.add_keys(keys)?;
    let mut search = LinkSearch::new(alloc);
    search.take_in(found)?;
    Ok(search)
}

/// Reaches what is one link further in either world.
fn round_in_both<M: World, N: World>(
    alloc: Global,
    one: &M,
    other: &N,
    search: &mut LinkSearch,
) -> Result<(), NoMemory>
    ensures { OnOk result (IsNext search.old search.new
        (IsFurtherInOne (M.objects one.now) (N.objects other.now) search.old)) }
{
    let mut found = Reached::with_room(alloc, search.nodes.len(), search.ways.frontier.len())?;
    follow(alloc, one, search, &mut found)?;
    follow(alloc, other, search, &mut found)?;
    search.take_in(found)
}

/// Reaches what is so many links further.
fn rounds<M: World>(
    alloc: Global,
    world: &M,
    search: &mut LinkSearch,
    count: u32,
) -> Result<(), NoMemory>
    ensures { OnOk result (AreRounds (M.objects world.now) count search.old search.new) }
{
    for _round in 0..count {
        next_round(alloc, world, search)?;
    }
    Ok(())
}

/// Reaches what is one link further.
fn next_round<M: World>(alloc: Global, world: &M, search: &mut LinkSearch) -> Result<(), NoMemory>
    ensures { OnOk result (IsNext search.old search.new (IsFurther (M.objects world.now) search.old)) }
{
    let mut found = Reached::with_room(alloc, search.nodes.len(), search.ways.frontier.len())?;
    follow(alloc, world, search, &mut found)?;
    search.take_in(found)
}

/// The ways reached, and those that are one link further.
fn last_round<M: World>(alloc: Global, world: &M, search: LinkSearch) -> Result<Ways, NoMemory>
    ensures { IfOk result (Lists (λ w. w) way_cmp
        (λ w. IsSeen search (WayKey w) ⊎ IsFurther (M.objects world.now) search (WayKey w))) }
{
    let mut found = Reached::with_room(alloc, search.nodes.len(), 0)?;
    find_ways_of_nodes(alloc, world, search.nodes.as_slice(), &mut found)?;
    find_ways_of_rules(world, search.rules.frontier.as_slice(), &mut found)?;
    let ways_found = found.ways;
    search.ways_with(ways_found.list)
}

/// Finds what is linked to the frontier.
fn follow<M: World>(
    alloc: Global,
    world: &M,
    search: &LinkSearch,
    found: &mut Reached,
) -> Result<(), NoMemory>
    ensures { OnOk result (Finds found.old found.new (IsFurther (M.objects world.now) search.now)) }
{
    follow_nodes(alloc, world, search.nodes.as_slice(), found)?;
    follow_ways(world, search.ways.frontier.as_slice(), found)?;
    follow_rules(world, search.rules.frontier.as_slice(), found)
}

/// Finds what is linked to one of the nodes.
fn follow_nodes<M: World>(
    alloc: Global,
    world: &M,
    nodes: &[NodeId],
    found: &mut Reached,
) -> Result<(), NoMemory>
    ensures { OnOk result (Finds found.old found.new
        (GivenBy (λ n. IsLink (M.objects world.now) (NodeKey n)) nodes.now)) }
{
    let mut hubs = BTreeSet::new(alloc);
    for node in nodes {
        follow_node_once(world, *node, &mut hubs, found)?;
    }
    Ok(())
}

/// Finds what is linked to one of the ways.
pub fn follow_ways<M: World>(world: &M, ways: &[WayId], found: &mut Reached) -> Result<(), NoMemory>
    ensures { OnOk result (Finds found.old found.new
        (GivenBy (λ w. IsLink (M.objects world.now) (WayKey w)) ways.now)) }
{
    for way in ways {
        follow_way(world, *way, found)?;
    }
    Ok(())
}

/// Finds what is linked to one of the restrictions.
fn follow_rules<M: World>(
    world: &M,
    rules: &[RelationId],
    found: &mut Reached,
) -> Result<(), NoMemory>
    ensures { OnOk result (Finds found.old found.new
        (GivenBy (λ r. IsLink (M.objects world.now) (RelationKey r)) rules.now)) }
{
    for rule in rules {
        follow_rule(world, *rule, found)?;
    }
    Ok(())
}

/// Finds the ways that are linked to one of the nodes.
pub fn find_ways_of_nodes<M: World>(
    alloc: Global,
    world: &M,
    nodes: &[NodeId],
    found: &mut Reached,
) -> Result<(), NoMemory>
    ensures { OnOk result (Finds found.old found.new
        (GivenBy (λ n. IsWayLink (M.objects world.now) (NodeKey n)) nodes.now)) }
{
    let mut hubs = BTreeSet::new(alloc);
    for node in nodes {
        find_ways_once(world, *node, &mut hubs, found)?;
    }
    Ok(())
}

/// Finds the ways that are linked to one of the restrictions.
pub fn find_ways_of_rules<M: World>(
    world: &M,
    rules: &[RelationId],
    found: &mut Reached,
) -> Result<(), NoMemory>
    ensures { OnOk result (Finds found.old found.new
        (GivenBy (λ r. IsWayLink (M.objects world.now) (RelationKey r)) rules.now)) }
{
    for rule in rules {
        find_ways_of_rule(world, *rule, found)?;
    }
    Ok(())
}
