//! What is found where a drive of least cost is asked for.
use crate::potentials::Potentials;
use road_base::{Drive, NodeId};

/// A drive of least cost from one node to another, or why there is none, with the numbers that show it.
#[derive(Drop)]
pub enum Cheapest {
    /// A legal drive whose first step begins at the one node and whose last step ends at the other, and its cost. No
    /// such drive costs less, as the numbers show.
    Route {
        cost: u128,
        drive: Drive,
        potentials: Potentials,
    },
    /// There is no such drive, as the numbers show, and both nodes have a location.
    Nowhere {
        potentials: Potentials,
    },
    /// The first of the two nodes that isn't visible or has no location.
    NoNode(NodeId),
}

/// A drive of least cost from one node to another, or why there is none.
#[derive(Drop)]
pub enum Shortest {
    /// A legal drive whose first step begins at the one node and whose last step ends at the other, and its cost. No
    /// such drive costs less.
    Route { cost: u128, drive: Drive },
    /// There is no such drive, and both nodes have a location.
    Nowhere,
    /// The first of the two nodes that isn't visible or has no location.
    NoNode(NodeId),
}
