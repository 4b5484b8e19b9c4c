//! What is said of a drive.
use road_base::{NodeId, RelationId};
use road_model::ClosedBy;

/// The rules that a drive may break, in the order in which they are looked at. "The step" is the first one with which
/// the drive isn't legal.
#[derive(Clone, Copy, PartialEq, Eq, Debug)]
pub enum Rule {
    /// The step names no two neighbouring positions of a visible way's line.
    NoStep,
    /// A node of the step isn't visible or has no location. The one where it begins is looked at first.
    NoNode(NodeId),
    /// The step's direction is closed by this key (OSM wiki, Key:access).
    Closed(ClosedBy),
    /// Oneway alone closes the step's direction (OSM wiki, Key:oneway).
    WrongWay,
    /// The step doesn't begin where the one before ends.
    Apart,
    /// The node between the step and the one before is shut, and the step doesn't go back (OSM wiki, Key:barrier).
    Barrier(NodeId),
    /// The step goes back to where the one before began, and one may not turn round at the node between them.
    Reversal(NodeId),
    /// A turn that a restriction forbids (OSM wiki, Relation:restriction): the least number of one.
    No(RelationId),
    /// Another turn than those that restrictions demand (OSM wiki, Relation:restriction): the least number of one.
    Only(RelationId),
}

/// Whether a drive is legal.
#[derive(Clone, Copy, PartialEq, Eq, Debug)]
pub enum Verdict {
    Legal,
    /// The number of the first step with which the drive isn't legal, counted from 1, and the first rule that it
    /// breaks.
    Broken { step: u64, rule: Rule },
}
