//! The line of a road, with what is to be known of its nodes.
ghost use Rattle.std.specs.Prelude.{◌≡◌, ◌≤◌, length, map, IfOk, Some};
ghost use Rattle.road_model.specs.Lines.{changes};
ghost use Rattle.road_model.specs.Networks.{on, made_on};
ghost use Rattle.way_lines.specs.RoadLines.{IsRoad, IsRoadLine, line_node};

use crate::line_nodes::line;
use crate::node_rules::NodeRules;
use crate::roads::Road;
use road_base::{Location, NoMemory, NodeId, Way};
use road_model::{Network, Profile, World};
use std::alloc::Global;

/// A node of a line: where it lies, if it is visible with a location, and whether it lies somewhere and is neither shut
/// nor a place to turn round.
#[derive(Clone, Copy, Debug)]
pub struct LineNode {
    pub node: NodeId,
    pub location: Option<Location>,
    pub goes_through: bool,
}

impl LineNode {
    /// Looks the node up, once.
    pub fn of<M: World, P: Profile>(network: &Network<'_, M, P>, node: NodeId) -> LineNode
        ensures { result ≡ made_on network.now line_node node }
    {
        let Some(body) = network.world.node(node) else {
            return LineNode {
                node,
                location: None,
                goes_through: false,
            };
        };
        let rules = NodeRules::told(&network.profile, node, body);
        LineNode {
            node,
            location: body.location,
            goes_through: body.location.is_some() && rules.goes_through(),
        }
    }
}

/// A road, and the nodes of its line in order; no nodes where the way is no road.
#[derive(Drop)]
pub struct RoadLine {
    pub road: Road,
    pub nodes: Vec<LineNode>,
}

impl RoadLine {
    /// The line of the way whose directions these are. Each node is looked up once.
    pub fn of<M: World, P: Profile>(
        alloc: Global,
        network: &Network<'_, M, P>,
        road: Road,
    ) -> Result<RoadLine, NoMemory>
        requires { on network.now IsRoad road }
        ensures road { IfOk result (λ l. l.road ≡ road) }
        ensures line { IfOk result (on network.now IsRoadLine) }
        ensures short { IfOk result (λ l. length l.nodes.items ≤ 65535) }
    {
        let mut nodes = Vec::new(alloc);
        if road.is_open() {
            if let Some(body) = network.world.way(road.way) {
                nodes = line_nodes_of(alloc, network, body)?;
            }
        }
        Ok(RoadLine { road, nodes })
    }
}

/// The nodes of the way's line, each looked up once.
fn line_nodes_of<M: World, P: Profile>(
    alloc: Global,
    network: &Network<'_, M, P>,
    way: &Way,
) -> Result<Vec<LineNode>, NoMemory>
    ensures nodes { IfOk result (λ v. v.items ≡ map (made_on network.now line_node) (changes way.now.refs)) }
    ensures short { IfOk result (λ v. length v.items ≤ 65535) }
{
    let mut left = line(way);
    let mut nodes = Vec::with_capacity(alloc, way.refs.items().len())?;
    while let Some(node) = left.next() {
        nodes.push(LineNode::of(network, node))?;
    }
    Ok(nodes)
}
