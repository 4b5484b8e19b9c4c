//! What the tags of a node say to one who comes there.
ghost use Rattle.std.specs.Prelude.{◌≡◌, Some};
ghost use Rattle.road_model.specs.Networks.{on};
ghost use Rattle.road_model.specs.Driving.{node_shut, node_turns};
ghost use Rattle.way_lines.specs.NodeTurns.{HasRules, drives_on, may_turn};

use ordered_lists::Numbered;
use road_base::{Node, NodeId};
use road_model::{Network, Profile, World};

/// A node, whether it is shut, as at a bollard (OSM wiki, Key:barrier), and whether it is a place to turn round.
#[derive(Clone, Copy, Debug)]
pub struct NodeRules {
    pub node: NodeId,
    pub is_shut: bool,
    pub is_turning_place: bool,
}

impl Numbered for NodeRules {
    fn number(&self) -> i64 {
        self.node.0
    }
}

impl NodeRules {
    /// What holds at the node, which is looked up once. One that isn't visible is neither shut nor a place to turn
    /// round.
    pub fn of<M: World, P: Profile>(network: &Network<'_, M, P>, node: NodeId) -> NodeRules
        ensures node { result.node ≡ node }
        ensures rules { on network.now HasRules result }
    {
        match network.world.node(node) {
            Some(body) => NodeRules::told(&network.profile, node, body),
            None => NodeRules {
                node,
                is_shut: false,
                is_turning_place: false,
            },
        }
    }

    /// What the tags of the node say, which is visible.
    pub fn told<P: Profile>(profile: &P, node: NodeId, body: &Node) -> NodeRules
        ensures node { result.node ≡ node }
        ensures is_shut { result.is_shut ≡ node_shut (P.rules profile.now) (Some body.now) }
        ensures is_turning_place { result.is_turning_place ≡ node_turns (P.rules profile.now) (Some body.now) }
    {
        NodeRules {
            node,
            is_shut: !profile.node_open(&body.tags),
            is_turning_place: profile.turns(&body.tags),
        }
    }

    /// Whether one may turn round there by a step, told whether it is the only drivable one that leaves the node.
    pub fn may_turn(self, is_only: bool) -> bool
        ensures { result ≡ may_turn self is_only }
    {
        self.is_turning_place || self.is_shut || is_only
    }

    /// Whether nothing there stops or turns who drives on.
    pub fn goes_through(self) -> bool
        ensures { result ≡ drives_on self }
    {
        !self.is_shut && !self.is_turning_place
    }
}
