//! Graphs merged to one.
ghost use Rattle.std.specs.Prelude.{List, ℕ, IfOk, IfErr};
ghost use Rattle.graph_merge.specs.Merging.{IsMerged, IsRefusedFor, IfFault};
ghost use Rattle.graph_merge.specs.Collecting.{HasAll};

use crate::collecting::{CollectedGraphs, collect};
use crate::faults::{MergeError, MergeFault};
use crate::putting::{first_not_above, put_blocks, sort_by_way};
use road_base::NoMemory;
use std::alloc::Global;

/// The graph of all blocks of the graphs that stand one behind the other in these bytes, ascending by way, of their
/// version and profile. Refused exactly where the bytes aren't graphs of one version and one profile, one at least, and
/// where a way has a block in two of them.
pub fn merge(alloc: Global, bytes: Vec<u8>) -> Result<Vec<u8>, MergeError>
    ensures merged { IfOk result (λ out. IsMerged bytes.items out.items) }
    ensures fault { IfErr result (IfFault (λ fault. IsRefusedFor fault bytes.items)) }
{
    let room = bytes.len();
    let collected = match collect(alloc, &bytes) {
        Ok(collected) => collected,
        Err(error) => return Err(error),
    };
    drop(bytes);
    put_merged(alloc, collected, room)
}

/// The graph of the collected blocks, ascending by way, or the least way that has two of them.
fn put_merged(alloc: Global, collected: CollectedGraphs, room: usize) -> Result<Vec<u8>, MergeError>
    requires { (bytes : List ℕ) × HasAll collected bytes }
    ensures merged { IfOk result (λ out. (bytes : List ℕ) → HasAll collected bytes → IsMerged bytes out.items) }
    ensures fault { IfErr result (IfFault (λ fault. (bytes : List ℕ)
        → HasAll collected bytes
        → IsRefusedFor fault bytes)) }
{
    let CollectedGraphs {
        version,
        profile,
        mut blocks,
    } = collected;
    sort_by_way(&mut blocks);
    if let Some(way) = first_not_above(&blocks) {
        return Err(MergeError::Fault(MergeFault::Twice(way)));
    }
    match put_blocks(alloc, version, profile, blocks, room) {
        Ok(out) => Ok(out),
        Err(NoMemory) => Err(MergeError::NoMemory),
    }
}
