//! The line of a way: its references with consecutive repeats dropped.
ghost use Rattle.std.specs.Prelude.{◌≡◌, ◌≤◌, [], ◌∷◌, Some, length, slice_get, IfOk, IfSome, IfNone};
ghost use Rattle.std.specs.Iterator.{YieldsFirst, item_count};
ghost use Rattle.road_model.specs.Lines.{changes};
ghost use Rattle.way_lines.specs.Left.{line_behind, nodes_left, repeats};

use road_base::{NodeId, Way};
use std::alloc::{AllocError, Global};

/// The nodes of a way's line, in order.
#[derive(Drop)]
pub struct LineNodes<'a> {
    before: Option<NodeId>,
    rest: &'a [NodeId],
}

/// The nodes of the way's line, in order, at most 65,535. To go over all of them takes the time of the way's
/// references.
#[tactic(auto, using(crate::proofs::Short::short_line))]
pub fn line(way: &Way) -> LineNodes<'_>
    ensures nodes { nodes_left result ≡ changes way.now.refs }
    ensures short { length (nodes_left result) ≤ 65535 }
{
    LineNodes {
        before: None,
        rest: way.refs.items(),
    }
}

impl Iterator for LineNodes<'_> {
    type Item = NodeId;

    ghost next_gives = { YieldsFirst nodes_left };

    ghost remaining = { item_count nodes_left };

    fn next(&mut self) -> Option<NodeId> {
        let Some((node, rest)) = next_node(self.before, self.rest) else {
            return None;
        };
        self.before = Some(node);
        self.rest = rest;
        Some(node)
    }
}

/// The first node behind the one before that isn't the same, and the references behind it.
fn next_node(before: Option<NodeId>, refs: &[NodeId]) -> Option<(NodeId, &[NodeId])>
    ensures some { IfSome result (λ p. line_behind before refs.now ≡ p.0 ∷ line_behind (Some p.0) p.1.now) }
    ensures none { IfNone result (line_behind before refs.now ≡ []) }
{
    let mut rest = refs;
    while let [node, behind @ ..] = rest {
        if !repeats(before, *node) {
            return Some((*node, behind));
        }
        rest = behind;
    }
    None
}

/// Whether the node is the one before.
fn repeats(before: Option<NodeId>, node: NodeId) -> bool
    ensures { result ≡ repeats before node }
{
    match before {
        Some(last) => last.0 == node.0,
        None => false,
    }
}

/// The nodes of the way's line, in order, at most 65,535.
pub fn nodes_of(alloc: Global, way: &Way) -> Result<Vec<NodeId>, AllocError>
    ensures nodes { IfOk result (λ v. v.items ≡ changes way.now.refs) }
    ensures short { length (changes way.now.refs) ≤ 65535 }
{
    let mut nodes = line(way);
    let mut found = Vec::with_capacity(alloc, way.refs.items().len())?;
    while let Some(node) = nodes.next() {
        found.push(node)?;
    }
    Ok(found)
}

/// How many nodes the way's line has, at most 65,535.
pub fn line_len(way: &Way) -> usize
    ensures len { result ≡ length (changes way.now.refs) }
    ensures short { result ≤ 65535 }
{
    line(way).count()
}

/// The node at a position of the way's line, None exactly where the line has no such position.
pub fn line_at(way: &Way, position: usize) -> Option<NodeId>
    ensures { result ≡ slice_get (changes way.now.refs) position }
{
    line(way).nth(position)
}
