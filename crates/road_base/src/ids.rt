//! Numbers of objects, each kind a type of its own, and steps along ways.

/// The number of a node.
#[derive(Clone, Copy, PartialEq, Eq, PartialOrd, Ord, Debug)]
pub struct NodeId(pub i64);

/// The number of a way.
#[derive(Clone, Copy, PartialEq, Eq, PartialOrd, Ord, Debug)]
pub struct WayId(pub i64);

/// The number of a relation.
#[derive(Clone, Copy, PartialEq, Eq, PartialOrd, Ord, Debug)]
pub struct RelationId(pub i64);

/// The number of a change.
#[derive(Clone, Copy, PartialEq, Eq, PartialOrd, Ord, Debug)]
pub struct Sequence(pub u64);

/// A direction of travel: along the way's list of nodes, or against it.
#[derive(Clone, Copy, PartialEq, Eq, PartialOrd, Ord, Debug)]
pub enum Dir {
    Forward,
    Backward,
}

/// What names an object. Keys are ordered nodes, ways, relations, then by number.
#[derive(Clone, Copy, PartialEq, Eq, PartialOrd, Ord, Debug)]
pub enum Key {
    Node(NodeId),
    Way(WayId),
    Relation(RelationId),
}

/// The stretch between the positions `index` and `index + 1` of a way's line, driven in a direction.
#[derive(Clone, Copy, PartialEq, Eq, PartialOrd, Ord, Debug)]
pub struct Step {
    pub way: WayId,
    pub index: u32,
    pub dir: Dir,
}
