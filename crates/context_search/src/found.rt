//! What is found where it is asked whether a node can be reached.
use road_base::{Drive, NodeId};

/// A drive from one node to another, or why there is none.
#[derive(Drop)]
pub enum Found {
    /// A legal drive whose first step begins at the one node and whose last step ends at the other.
    Drive(Drive),
    /// The first of the two nodes that isn't visible or has no location.
    NoNode(NodeId),
    /// There is no such drive.
    Nowhere,
}
