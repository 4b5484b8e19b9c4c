//! Blocks put as one graph file.
ghost use Rattle.std.specs.Prelude.{IfOk, IfSome, IfNone, IsTrue, map};
ghost use Rattle.std.specs.List.{AllByRecursion};
ghost use Rattle.std.specs.List.Sorted.{IsPermutation, IsSortedByKey};
ghost use Rattle.road_base.specs.Profiles.{IsProfile};
ghost use Rattle.road_model.specs.Format.{IsVersion, is_sourced};
ghost use Rattle.road_model.specs.Orders.{way_cmp};
ghost use Rattle.ordered_lists.specs.Orders.{rises};
ghost use Rattle.graph_file.specs.GraphReading.{IsFile, IsWayBlock};
ghost use Rattle.graph_merge.specs.Collecting.{StopsRising};

use graph_file::GraphWriter;
use road_base::{NoMemory, WayId};
use road_model::Block;
use std::alloc::Global;

/// Sorts the blocks by way.
pub fn sort_by_way(blocks: &mut Vec<Block>)
    ensures permutation { IsPermutation blocks.old.items blocks.new.items }
    ensures sorted { IsSortedByKey (λ b. b.way) way_cmp blocks.new.items }
{
    blocks.sort_unstable_by_key(|block| block.way);
}

/// The way of the first block that isn't above the one before it.
pub fn first_not_above(blocks: &[Block]) -> Option<WayId>
    ensures none { IfNone result (IsTrue (rises way_cmp (map (λ b. b.way) blocks.now))) }
    ensures some { IfSome result (StopsRising blocks.now) }
{
    for at in 1..blocks.len() {
        let way = blocks[at].way;
        if way <= blocks[at - 1].way {
            return Some(way);
        }
    }
    None
}

/// The graph file of the version and the profile with these blocks, for which room for so many bytes is taken. Each
/// block is let go when it is put.
pub fn put_blocks(
    alloc: Global,
    version: u32,
    profile: u32,
    blocks: Vec<Block>,
    room: usize,
) -> Result<Vec<u8>, NoMemory>
    requires version { IsVersion version }
    requires profile { IsProfile profile }
    requires blocks { AllByRecursion (IsWayBlock (is_sourced version)) blocks.items }
    requires ascending { IsTrue (rises way_cmp (map (λ b. b.way) blocks.items)) }
    ensures { IfOk result (λ out. IsFile version profile out.items blocks.items) }
{
    let mut writer = GraphWriter::new(alloc, version, profile, room)?;
    for block in blocks {
        writer.put(&block)?;
    }
    Ok(writer.finish())
}
