//! A graph cut by way numbers.
ghost use Rattle.std.specs.Prelude.{◌≡◌, ◌&&◌, ℕ, List, filter, IfOk, IfErr};
ghost use Rattle.std.specs.Ordering.{is_lt, is_le};
ghost use Rattle.std.specs.FinMap.{values};
ghost use Rattle.graph_file.specs.GraphReading.{IsFile};
ghost use Rattle.graph_merge.specs.Merging.{IfFault};
ghost use Rattle.road_model.specs.Orders.{way_cmp};
ghost use Rattle.graph_merge.specs.Ranges.{IsRange, IsNoGraph};

use crate::faults::{MergeError, MergeFault};
use crate::putting::put_blocks;
use graph_file::Graph;
use road_base::{NoMemory, WayId};
use road_model::Block;
use std::alloc::Global;

/// The graph of those blocks of the graph in these bytes whose ways are at least `from` and below `to`, of its version
/// and profile. Refused, as the first graph, exactly where the bytes are no graph.
pub fn range(alloc: Global, bytes: Vec<u8>, from: WayId, to: WayId) -> Result<Vec<u8>, MergeError>
    ensures range { IfOk result (λ out. IsRange from to bytes.items out.items) }
    ensures fault { IfErr result (IfFault (IsNoGraph bytes.items)) }
{
    let room = bytes.len();
    let graph = match Graph::read(alloc, &bytes) {
        Ok(Some(graph)) => graph,
        Ok(None) => return Err(MergeError::Fault(MergeFault::Graph(1))),
        Err(NoMemory) => return Err(MergeError::NoMemory),
    };
    drop(bytes);
    match put_range(alloc, graph, from, to, room) {
        Ok(out) => Ok(out),
        Err(NoMemory) => Err(MergeError::NoMemory),
    }
}

/// The graph of the blocks whose ways lie in the range, for which room for so many bytes is taken.
fn put_range(
    alloc: Global,
    graph: Graph,
    from: WayId,
    to: WayId,
    room: usize,
) -> Result<Vec<u8>, NoMemory>
    requires { (bytes : List ℕ) × IsFile graph.version graph.profile bytes (values graph.blocks.map) }
    ensures { IfOk result (λ out. (bytes : List ℕ)
        → IsFile graph.version graph.profile bytes (values graph.blocks.map)
        → IsRange from to bytes out.items) }
{
    let mut blocks = graph.blocks.into_list();
    keep_range(&mut blocks, from, to);
    put_blocks(alloc, graph.version, graph.profile, blocks, room)
}

/// Leaves the blocks whose ways lie in the range.
fn keep_range(blocks: &mut Vec<Block>, from: WayId, to: WayId)
    ensures { blocks.new.items ≡ filter (λ b. is_le (way_cmp from b.way) && is_lt (way_cmp b.way to)) blocks.old.items }
{
    blocks.retain(|block| is_between(from, to, block.way));
}

/// Whether the way is at least the one and below the other.
fn is_between(from: WayId, to: WayId, way: WayId) -> bool
    ensures { result ≡ (is_le (way_cmp from way) && is_lt (way_cmp way to)) }
{
    from <= way && way < to
}
