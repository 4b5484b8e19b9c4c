//! Which nodes of a line stand on it more than once.
ghost use Rattle.std.specs.Prelude.{◌≡◌, IfOk, OnOk, List, ◌++◌, ◌∷◌, []};
ghost use Rattle.road_base.specs.declared.ids.NodeId.{NodeId};
ghost use Rattle.road_model.specs.Lines.{changes, same_node};
ghost use Rattle.junctions.specs.Repeats.{times, is_repeated, nodes_of, AreMarks};

use road_base::{NoMemory, NodeId, Way};
use std::alloc::Global;
use std::collections::BTreeMap;
use std::marker::Model;
use way_lines::{LineNode, line};

/// How many nodes a line may have to be searched for each question.
const SEARCHED: usize = 128;

/// The nodes of a line, and for each of them whether it stands there more than once: for a short line by going through
/// it, for a long one by a map. Contracts see the list of the nodes.
#[derive(Drop)]
pub struct Repeats<'a> {
    line: &'a [LineNode],
    marks: Option<BTreeMap<NodeId, bool>>,
}

impl<'a> Model for Repeats<'a> {
    ghost use Rattle.std.specs.Prelude.{List};
    ghost use Rattle.road_base.specs.declared.ids.NodeId.{NodeId};
    ghost use Rattle.junctions.specs.Repeats.{MayMark, nodes_of};

    ghost Value = { List NodeId };

    ghost view = { λ r. nodes_of r.line.now };

    ghost invariant = { λ r. MayMark (nodes_of r.line.now) r.marks };
}

impl<'a> Repeats<'a> {
    ghost use Rattle.junctions.specs.Repeats.{is_repeated, nodes_of};

    /// A line of up to 128 nodes is searched for each question, which takes no memory; the nodes of a longer one are
    /// put into an ordered map once, and a question then takes the logarithm of its length.
    pub fn of(alloc: Global, line: &'a [LineNode]) -> Result<Repeats<'a>, NoMemory>
        ensures { IfOk result (λ r. r ≡ nodes_of line.now) }
    {
        if line.len() <= SEARCHED {
            return Ok(Repeats { line, marks: None });
        }
        let marks = marks_of(alloc, line)?;
        Ok(Repeats {
            line,
            marks: Some(marks),
        })
    }

    /// Whether the node stands there more than once.
    pub fn has(&self, node: NodeId) -> bool
        ensures { result ≡ is_repeated self.now node }
    {
        match &self.marks {
            Some(marks) => is_marked(self.line, marks, node),
            None => stands_twice(self.line, node),
        }
    }
}

/// Whether the node stands more than once on the line whose marks these are.
fn is_marked(line: &[LineNode], marks: &BTreeMap<NodeId, bool>, node: NodeId) -> bool
    requires { AreMarks (nodes_of line.now) marks.now }
    ensures { result ≡ is_repeated (nodes_of line.now) node }
{
    marks.get(&node).copied().unwrap_or(false)
}

/// Whether the node stands on the line more than once. Stops at the second.
fn stands_twice(line: &[LineNode], node: NodeId) -> bool
    ensures { result ≡ is_repeated (nodes_of line.now) node }
{
    let mut found = false;
    for other in line {
        if !is_same(node, other.node) {
            continue;
        }
        if found {
            return true;
        }
        found = true;
    }
    false
}

fn is_same(this: NodeId, that: NodeId) -> bool
    ensures { result ≡ same_node this that }
{
    this.0 == that.0
}

fn marks_of(alloc: Global, line: &[LineNode]) -> Result<BTreeMap<NodeId, bool>, NoMemory>
    ensures { IfOk result (AreMarks (nodes_of line.now)) }
{
    let mut marks = BTreeMap::new(alloc);
    for at in line {
        mark_node(&mut marks, at.node)?;
    }
    Ok(marks)
}

fn mark_node(marks: &mut BTreeMap<NodeId, bool>, node: NodeId) -> Result<(), NoMemory>
    ensures { OnOk result ((ms : List NodeId) → AreMarks ms marks.old → AreMarks (ms ++ node ∷ []) marks.new) }
{
    let again = marks.contains_key(&node);
    marks.insert(node, again)?;
    Ok(())
}

/// Whether the node stands on the way's line more than once. Stops at the second.
pub fn stands_again(way: &Way, node: NodeId) -> bool
    ensures { result ≡ is_repeated (changes way.now.refs) node }
{
    let mut nodes = line(way);
    let mut found = false;
    while let Some(other) = nodes.next() {
        if other == node {
            if found {
                return true;
            }
            found = true;
        }
    }
    false
}
