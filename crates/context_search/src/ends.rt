//! The pieces on which a drive may begin or end.
ghost use Rattle.std.specs.Prelude.{◌≡◌, ◌<◌, ◌≤◌, ◌⊎◌, ℕ, map, IfOk, OnOk, IfSome, IfNone, Some, IsTrue, IsFalse};
ghost use Rattle.std.specs.Prelude.{Contains, length, slice_get};
ghost use Rattle.road_model.specs.declared.lists.Place.{Place};
ghost use Rattle.std.specs.FinMap.{get};
ghost use Rattle.road_model.specs.declared.lists.Piece.{Piece};
ghost use Rattle.road_model.specs.declared.lists.PieceName.{PieceName};
ghost use Rattle.road_model.specs.BlockMap.{AreBlocksOf};
ghost use Rattle.road_model.specs.Driving.{located};
ghost use Rattle.road_model.specs.Networks.{on, map_of};
ghost use Rattle.ordered_lists.specs.Orders.{rises};
ghost use Rattle.road_model.specs.Orders.{name_cmp};
ghost use Rattle.graph_blocks.specs.Lent.{map_of as block_map};
ghost use Rattle.context_search.specs.declared.ends.Begin.{Begin};
ghost use Rattle.context_search.specs.declared.ends.Goal.{Goal};
ghost use Rattle.context_search.specs.Ends.{pieces_in, BeginsBy, StopsBy, Leaves, Arrives};
ghost use Rattle.context_search.specs.Visits.{goal_in};
ghost use Rattle.context_search.specs.Sought.{AreEnds, AreStarts, AreGoals};

use graph_blocks::block_at;
use layered_maps::View;
use road_base::{NoMemory, NodeId, WayId};
use road_model::laws::{has_block, name_order, one_name, roads_refer};
use road_model::{Block, Network, Piece, PieceName, Place, Profile, World};
use std::alloc::Global;
use std::collections::BTreeMap;

/// A piece, and the first of its steps that begins at the node where a drive is to begin.
#[derive(Clone, Copy, Drop)]
pub struct Begin<'a> {
    pub piece: &'a Piece,
    pub first: usize,
}

/// A piece, and the last of its steps that ends at the node where a drive is to end.
#[derive(Clone, Copy, Drop)]
pub struct Goal<'a> {
    pub piece: &'a Piece,
    pub last: usize,
}

/// The nodes where a drive is to begin and to end, and the pieces on which it may.
#[derive(Drop)]
pub struct DriveEnds<'a> {
    pub a: NodeId,
    pub b: NodeId,
    pub starts: Vec<Begin<'a>>,
    pub goals: BTreeMap<PieceName, Goal<'a>>,
}

/// Where a drive from node a to node b may begin and end.
pub fn ends_of<'a, M: World, P: Profile>(
    alloc: Global,
    network: &Network<'_, M, P>,
    blocks: &View<'a, WayId, Block>,
    a: NodeId,
    b: NodeId,
) -> Result<DriveEnds<'a>, NoMemory>
    requires blocks { on network.now AreBlocksOf (block_map blocks.now) }
    requires from { IsTrue (located (map_of network.now) (Some a)) }
    requires to { IsTrue (located (map_of network.now) (Some b)) }
    ensures are { IfOk result (on network.now AreEnds) }
    ensures a { IfOk result (λ e. e.a ≡ a) }
    ensures b { IfOk result (λ e. e.b ≡ b) }
{
    let starts = starts_of(alloc, network, blocks, a)?;
    let goals = goals_of(alloc, network, blocks, b)?;
    Ok(DriveEnds {
        a,
        b,
        starts,
        goals,
    })
}

/// The pieces with a step that begins at the node, each with the first such step.
fn starts_of<'a, M: World, P: Profile>(
    alloc: Global,
    network: &Network<'_, M, P>,
    blocks: &View<'a, WayId, Block>,
    node: NodeId,
) -> Result<Vec<Begin<'a>>, NoMemory>
    requires { on network.now AreBlocksOf (block_map blocks.now) }
    ensures { IfOk result (λ v. on network.now AreStarts node v.items) }
{
    one_name(&network.profile);
    has_block(&network.profile);
    roads_refer(&network.profile);
    let mut starts = Vec::new(alloc);
    for way in network.world.ways_at(node) {
        add_starts(&mut starts, pieces_of(blocks, *way), node)?;
    }
    Ok(starts)
}

/// The pieces of the way.
fn pieces_of<'a>(blocks: &View<'a, WayId, Block>, way: WayId) -> &'a [Piece]
    ensures { result.now ≡ pieces_in (get (block_map blocks.now) way) }
{
    match block_at(blocks, way) {
        Some(block) => block.pieces.items(),
        None => &[],
    }
}

/// Adds those of the pieces.
fn add_starts<'a>(
    starts: &mut Vec<Begin<'a>>,
    pieces: &'a [Piece],
    node: NodeId,
) -> Result<(), NoMemory>
    ensures stays { OnOk result ((s : Begin) → Contains starts.old.items s → Contains starts.new.items s) }
    ensures new { OnOk result ((s : Begin) → Contains starts.new.items s
        → Contains starts.old.items s ⊎ (Contains pieces.now s.piece.now × Leaves s.piece.now s.first node)) }
    ensures all { OnOk result ((e : Piece) (i : ℕ) → Contains pieces.now e → Leaves e i node
        → (s : Begin) × Contains starts.new.items s × (s.piece.now ≡ e) × (s.first ≤ i)) }
{
    for piece in pieces {
        add_start(starts, piece, node)?;
    }
    Ok(())
}

/// Adds the piece, if one of its steps begins at the node.
fn add_start<'a>(
    starts: &mut Vec<Begin<'a>>,
    piece: &'a Piece,
    node: NodeId,
) -> Result<(), NoMemory>
    ensures stays { OnOk result ((s : Begin) → Contains starts.old.items s → Contains starts.new.items s) }
    ensures new { OnOk result ((s : Begin) → Contains starts.new.items s
        → Contains starts.old.items s ⊎ ((s.piece.now ≡ piece.now) × Leaves piece.now s.first node)) }
    ensures all { OnOk result ((i : ℕ) → Leaves piece.now i node
        → (s : Begin) × Contains starts.new.items s × (s.piece.now ≡ piece.now) × (s.first ≤ i)) }
{
    match first_from(piece.places.items(), node) {
        Some(first) => Ok(starts.push(Begin { piece, first })?),
        None => Ok(()),
    }
}

/// The pieces with a step that ends at the node, each with the last such step, by their names.
fn goals_of<'a, M: World, P: Profile>(
    alloc: Global,
    network: &Network<'_, M, P>,
    blocks: &View<'a, WayId, Block>,
    node: NodeId,
) -> Result<BTreeMap<PieceName, Goal<'a>>, NoMemory>
    requires { on network.now AreBlocksOf (block_map blocks.now) }
    ensures { IfOk result (λ m. on network.now AreGoals node m) }
{
    name_order();
    one_name(&network.profile);
    has_block(&network.profile);
    roads_refer(&network.profile);
    let mut goals = BTreeMap::new(alloc);
    for way in network.world.ways_at(node) {
        add_goals(&mut goals, pieces_of(blocks, *way), node)?;
    }
    Ok(goals)
}

/// Puts those of the pieces, whose names are all different from those of the goals so far.
fn add_goals<'a>(
    goals: &mut BTreeMap<PieceName, Goal<'a>>,
    pieces: &'a [Piece],
    node: NodeId,
) -> Result<(), NoMemory>
    requires { IsTrue (rises name_cmp (map (λ e. e.name) pieces.now)) }
    ensures others { OnOk result ((n : PieceName) → ((e : Piece) → Contains pieces.now e → e.name ≡ n → ⊥)
        → goal_in goals.new n ≡ goal_in goals.old n) }
    ensures new { OnOk result ((e : Piece) (g : Goal) → Contains pieces.now e → goal_in goals.new e.name ≡ Some g
        → (goal_in goals.old e.name ≡ Some g) ⊎ ((g.piece.now ≡ e) × Arrives e g.last node)) }
    ensures all { OnOk result ((e : Piece) (j : ℕ) → Contains pieces.now e → Arrives e j node
        → (g : Goal) × (goal_in goals.new e.name ≡ Some g) × (j ≤ g.last)) }
{
    name_order();
    for piece in pieces {
        add_goal(goals, piece, node)?;
    }
    Ok(())
}

/// Puts the piece, if one of its steps ends at the node.
fn add_goal<'a>(
    goals: &mut BTreeMap<PieceName, Goal<'a>>,
    piece: &'a Piece,
    node: NodeId,
) -> Result<(), NoMemory>
    ensures others { OnOk result ((n : PieceName) → (n ≡ piece.now.name → ⊥)
        → goal_in goals.new n ≡ goal_in goals.old n) }
    ensures new { OnOk result ((g : Goal) → goal_in goals.new piece.now.name ≡ Some g
        → (goal_in goals.old piece.now.name ≡ Some g) ⊎ ((g.piece.now ≡ piece.now) × Arrives piece.now g.last node)) }
    ensures all { OnOk result ((j : ℕ) → Arrives piece.now j node
        → (g : Goal) × (goal_in goals.new piece.now.name ≡ Some g) × (j ≤ g.last)) }
{
    name_order();
    let Some(last) = last_to(piece.places.items(), node) else {
        return Ok(());
    };
    goals.insert(piece.name, Goal { piece, last })?;
    Ok(())
}

/// The goal on the piece of that name.
pub fn goal_at<'a>(goals: &BTreeMap<PieceName, Goal<'a>>, name: PieceName) -> Option<Goal<'a>>
    ensures { result ≡ goal_in goals.now name }
{
    name_order();
    goals.get(&name).copied()
}

/// The first step that begins at the node.
fn first_from(places: &[Place], node: NodeId) -> Option<usize>
    ensures some { IfSome result (λ i. BeginsBy places.now i node) }
    ensures first { IfSome result (λ i. (k : ℕ) → BeginsBy places.now k node → i ≤ k) }
    ensures none { IfNone result ((k : ℕ) → BeginsBy places.now k node → ⊥) }
{
    for step in 0..places.len() {
        if begins(places, step, node) {
            return Some(step);
        }
    }
    None
}

/// The last step that ends at the node.
fn last_to(places: &[Place], node: NodeId) -> Option<usize>
    ensures some { IfSome result (λ i. StopsBy places.now i node) }
    ensures last { IfSome result (λ i. (k : ℕ) → StopsBy places.now k node → k ≤ i) }
    ensures none { IfNone result ((k : ℕ) → StopsBy places.now k node → ⊥) }
{
    for step in (0..places.len()).rev() {
        if stops(places, step, node) {
            return Some(step);
        }
    }
    None
}

/// Whether the step begins at the node.
fn begins(places: &[Place], step: usize, node: NodeId) -> bool
    requires { step < length places.now }
    ensures yes { IsTrue result → BeginsBy places.now step node }
    ensures no { IsFalse result → BeginsBy places.now step node → ⊥ }
{
    step + 1 < places.len() && is_at(places, step, node)
}

/// Whether the step ends at the node.
fn stops(places: &[Place], step: usize, node: NodeId) -> bool
    requires { step < length places.now }
    ensures yes { IsTrue result → StopsBy places.now step node }
    ensures no { IsFalse result → StopsBy places.now step node → ⊥ }
{
    step + 1 < places.len() && is_at(places, step + 1, node)
}

/// Whether the place is at the node.
fn is_at(places: &[Place], at: usize, node: NodeId) -> bool
    requires { at < length places.now }
    ensures yes { IsTrue result → (place : Place) × (slice_get places.now at ≡ Some place) × (place.node ≡ node) }
    ensures no { IsFalse result → (place : Place) → slice_get places.now at ≡ Some place → place.node ≡ node → ⊥ }
{
    places[at].node == node
}
