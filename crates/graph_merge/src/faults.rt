//! Why bytes give no graph.
ghost use Rattle.std.specs.Prelude.{◌≡◌};
ghost use Rattle.graph_merge.specs.declared.faults.MergeError.TheVariants.{NoMemory as NoMergeMemory};

use road_base::{NoMemory, WayId};

/// What keeps graphs from being merged, or one from being cut.
#[derive(Clone, Copy, PartialEq, Eq, Debug)]
pub enum MergeFault {
    /// The graph of this number, counted from 1, isn't one in either grammar, or is of another version or profile than
    /// the first one. No bytes have no first graph.
    Graph(u64),
    /// This way has a block in two of the graphs: the least such way.
    Twice(WayId),
}

/// Why no graph was put.
#[derive(Clone, Copy, PartialEq, Eq, Debug)]
pub enum MergeError {
    /// The bytes allow none.
    Fault(MergeFault),
    /// No memory was found.
    NoMemory,
}

impl From<NoMemory> for MergeError {
    ghost from_gives = { λ _ e. e ≡ NoMergeMemory };

    fn from(_error: NoMemory) -> MergeError {
        MergeError::NoMemory
    }
}
