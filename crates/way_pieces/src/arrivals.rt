//! The pieces that come to a node.
use crate::spans::PieceSpan;
use road_base::NodeId;

/// A piece that comes to a node: both its positions, and the node before its end.
#[derive(Clone, Copy, Debug, PartialEq, Eq)]
pub struct Arrival {
    pub span: PieceSpan,
    pub from: NodeId,
}
