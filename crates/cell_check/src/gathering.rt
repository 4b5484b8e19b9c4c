//! The pass over all objects that tells what isn't closed, and what the cell owns.
ghost use Rattle.std.specs.Prelude.{◌≡◌, ◌↔◌, ◌++◌, ◌∷◌, [], IfOk, OnOk, IsTrue, map, filter};
ghost use Rattle.std.specs.List.{flat_map};
ghost use Rattle.road_base.specs.declared.ids.Key.TheVariants.{Node as NodeKey};
ghost use Rattle.object_store.specs.Listed.{AreEntriesOf, is_any};
ghost use Rattle.map_cells.specs.Cells.{IsLocatedIn};
ghost use Rattle.cell_check.specs.Candidates.{IsEntryIn, IsHighwayIn, named_by_highway, names_of_highway};
ghost use Rattle.cell_check.specs.Closing.{AddsOpen, HasNodeIn};
ghost use Rattle.cell_check.specs.Outcomes.{AreOpenAndOwn};
ghost use Rattle.cell_check.specs.Owning.{owns, owned_by};

use crate::candidates::rules_and_members;
use crate::closing::{add_if, add_open_among, is_located_in};
use crate::owners::begins_in;
use back_references::Indexed;
use layered_maps::Walk;
use map_cells::Area;
use ordered_lists::leave_once;
use road_base::laws::key_order;
use road_base::{Body, Event, Key, NoMemory, NodeId, WayId};
use road_model::laws::name_order;
use road_model::{World, has_highway};
use std::alloc::Global;

/// The keys that aren't closed, of those that a highway or a restriction names and of their own, and the ways that the
/// cell owns.
#[derive(Drop)]
pub struct OpenAndOwn {
    pub starts: Vec<Key>,
    pub own: Vec<WayId>,
}

/// All keys that aren't closed and to which something is linked or which are those of ways with the key `highway`, and
/// maybe others that aren't closed, each once; and the ways that the cell owns, ascending. What a way names is judged
/// where it is named, which is a look-up; what restrictions name is gathered and judged once, since to judge a way or a
/// relation all that it names is looked at.
pub fn gather(
    alloc: Global,
    world: &Indexed,
    area: &Area,
    cell: &Area,
) -> Result<OpenAndOwn, NoMemory>
    ensures { IfOk result (λ found. AreOpenAndOwn world.now area.now cell.now found) }
{
    key_order();
    name_order();
    let mut found = OpenAndOwn {
        starts: Vec::new(alloc),
        own: Vec::new(alloc),
    };
    add_of_highways(world, area, cell, world.objects().walk(), &mut found)?;
    let keys = rules_and_members(alloc, world.objects().walk())?;
    add_open_among(world, area, keys.as_slice(), &mut found.starts)?;
    leave_once(&mut found.starts);
    Ok(found)
}

/// Adds what isn't closed of the visible highways among the entries and of their nodes, and which of them the cell
/// owns.
fn add_of_highways<M: World>(
    world: &M,
    area: &Area,
    cell: &Area,
    entries: Walk<'_, Key, Event>,
    found: &mut OpenAndOwn,
) -> Result<(), NoMemory>
    ensures open { OnOk result (AreEntriesOf is_any (M.objects world.now) entries.entry
        → AddsOpen (M.objects world.now) area.now (flat_map named_by_highway entries.entry)
        found.old.starts.items found.new.starts.items) }
    ensures own { OnOk result (AreEntriesOf is_any (M.objects world.now) entries.entry
        → found.new.own.items
        ≡ found.old.own.items ++ flat_map (owned_by (M.objects world.now) cell.now) entries.entry) }
{
    let mut rest = entries;
    while let Some(entry) = rest.next() {
        add_of_entry(world, area, cell, entry, found)?;
    }
    Ok(())
}

/// Adds what isn't closed of the entry's visible highway and of its nodes, and the way itself if the cell owns it.
fn add_of_entry<M: World>(
    world: &M,
    area: &Area,
    cell: &Area,
    entry: &Event,
    found: &mut OpenAndOwn,
) -> Result<(), NoMemory>
    ensures open { OnOk result (IsEntryIn (M.objects world.now) entry.now
        → AddsOpen (M.objects world.now) area.now (named_by_highway entry.now)
        found.old.starts.items found.new.starts.items) }
    ensures own { OnOk result (IsEntryIn (M.objects world.now) entry.now
        → found.new.own.items ≡ found.old.own.items ++ owned_by (M.objects world.now) cell.now entry.now) }
{
    match (entry.key, &entry.body) {
        (Key::Way(way), Body::Way(body)) if has_highway(&body.tags) => {
            add_highway(world, area, cell, way, body.refs.items(), found)
        }
        _ => Ok(()),
    }
}

/// Adds what isn't closed of the highway and of its nodes, and the way itself if the cell owns it.
fn add_highway<M: World>(
    world: &M,
    area: &Area,
    cell: &Area,
    way: WayId,
    nodes: &[NodeId],
    found: &mut OpenAndOwn,
) -> Result<(), NoMemory>
    ensures open { OnOk result (IsHighwayIn (M.objects world.now) way nodes.now
        → AddsOpen (M.objects world.now) area.now (names_of_highway way nodes.now)
        found.old.starts.items found.new.starts.items) }
    ensures own { OnOk result (IsHighwayIn (M.objects world.now) way nodes.now
        → found.new.own.items
        ≡ found.old.own.items ++ filter (owns (M.objects world.now) cell.now) (way ∷ [])) }
{
    let is_closed = add_open_nodes(world, area, nodes, &mut found.starts)?;
    add_if(!is_closed, Key::Way(way), &mut found.starts)?;
    add_if(begins_in(world, cell, nodes), way, &mut found.own)
}

/// Adds those of the nodes that aren't closed, and tells whether one is.
fn add_open_nodes<M: World>(
    world: &M,
    area: &Area,
    nodes: &[NodeId],
    starts: &mut Vec<Key>,
) -> Result<bool, NoMemory>
    ensures open { OnOk result (AddsOpen (M.objects world.now) area.now (map (λ n. NodeKey n) nodes.now)
        starts.old.items starts.new.items) }
    ensures closed { IfOk result (λ b. IsTrue b ↔ HasNodeIn (M.objects world.now) area.now nodes.now) }
{
    let mut has_closed = false;
    for node in nodes {
        if add_open_node(world, area, *node, starts)? {
            has_closed = true;
        }
    }
    Ok(has_closed)
}

/// Adds the node, if it isn't closed, and tells whether it is.
fn add_open_node<M: World>(
    world: &M,
    area: &Area,
    node: NodeId,
    starts: &mut Vec<Key>,
) -> Result<bool, NoMemory>
    ensures open { OnOk result (AddsOpen (M.objects world.now) area.now (NodeKey node ∷ [])
        starts.old.items starts.new.items) }
    ensures closed { IfOk result (λ b. IsTrue b ↔ IsLocatedIn (M.objects world.now) area.now node) }
{
    let is_closed = is_located_in(world, area, node);
    add_if(!is_closed, Key::Node(node), starts)?;
    Ok(is_closed)
}
