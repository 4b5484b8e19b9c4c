//! The bytes of a graph file.
//!
//! There are two versions of graph files: in a file of version 2 each piece shows its mark and each context its
//! sources, in one of version 1 neither. Each version is a grammar of its own, and what both have alike is written
//! once.
//!
//! `GraphWriter` is given one block after another, and `write` all at once. Both append each number where it stands
//! in the file, so their cost grows with the bytes that they write, and they take no memory beside them. How many
//! blocks there are stands before the blocks: the writer keeps the place and fills it at the end.
//!
//! `Graph::read` goes once over the bytes and reads a graph of either version back, and `Graph::read_front` the graph
//! that stands in front of others: it goes over the bytes of that graph alone. A count that the bytes announce takes no
//! memory: what is taken grows with the parts that were read, and so with the bytes. What a graph has of a
//! piece is found by two binary searches, over the blocks and over one block's pieces, and takes no memory.
#![tactic(auto)]

ghost use Rattle.std.specs.Prelude.{◌≡◌, ◌++◌, ◌<◌, ◌^◌, length, map, min, IsTrue, OnOk, OnErr};
ghost use Rattle.std.specs.List.{AllByRecursion};
ghost use Rattle.std.specs.FinMap.{values};
ghost use Rattle.road_base.specs.Profiles.{IsProfile};
ghost use Rattle.road_base.specs.Bytes.{joined, u32_bytes, u64_bytes, Keeps};
ghost use Rattle.ordered_lists.specs.Orders.{rises};
ghost use Rattle.road_model.specs.Orders.{way_cmp};
ghost use Rattle.road_model.specs.Format.{block_bytes, magic_bytes, graph_bytes, is_sourced, IsVersion, BlockFits};
ghost use Rattle.road_model.specs.Format.{IsBlockForm, IsGraphFile};
ghost use Rattle.graph_blocks.specs.Lent.{map_of};
ghost use Rattle.graph_file.specs.GraphReading.{Unless, IsBareBlock, IsFile, IsOfItsWay};

mod ascending;
mod extent;
mod grammar;
mod graph;
pub mod laws;
mod lists;
mod look_ups;
mod parts;
mod pieces;
mod road_blocks;
mod writer;

pub use graph::Graph;
use graph_blocks::{LendsBlocks, walk};
use layered_maps::{View, Walk};
use road_base::{LittleEndian, NoMemory, WayId};
use road_model::Block;
pub use writer::GraphWriter;
use writer::spell_block;

/// The version of every graph that the program puts.
pub const VERSION: u32 = 2;

/// Appends the bytes of a graph file of version 1 or 2: the magic, the profile's number, how many blocks there are, and
/// the blocks in ascending order of their ways. Version 1 leaves marks and sources out. Where no memory is found
/// nothing is appended. Goes over the blocks twice, and costs as many steps as it appends bytes.
pub fn write<B: LendsBlocks>(
    version: u32,
    profile: u32,
    blocks: &B,
    out: &mut Vec<u8>,
) -> Result<(), NoMemory>
    requires version { IsVersion version }
    requires profile { IsProfile profile }
    requires forms { AllByRecursion (IsBlockForm (is_sourced version)) (values (B.map blocks.now)) }
    ensures bytes { OnOk result (out.new.items
        ≡ out.old.items ++ graph_bytes version profile (values (B.map blocks.now))) }
    ensures grammar { OnOk result (IsGraphFile (graph_bytes version profile (values (B.map blocks.now)))) }
    ensures file { AllByRecursion IsOfItsWay (values (B.map blocks.now))
        → Unless (is_sourced version) (AllByRecursion IsBareBlock (values (B.map blocks.now)))
        → OnOk result (IsFile version profile (graph_bytes version profile (values (B.map blocks.now)))
        (values (B.map blocks.now))) }
    ensures err { OnErr result (out.new.items ≡ out.old.items) }
{
    let before = out.len();
    let written = put_graph(version, profile, &blocks.lend(), out);
    if written.is_err() {
        out.truncate(before);
    }
    written
}

fn put_graph(
    version: u32,
    profile: u32,
    blocks: &View<'_, WayId, Block>,
    out: &mut Vec<u8>,
) -> Result<(), NoMemory>
    requires { AllByRecursion (IsBlockForm (is_sourced version)) (values (map_of blocks.now)) }
    ensures ok { OnOk result (out.new.items
        ≡ out.old.items ++ graph_bytes version profile (values (map_of blocks.now))) }
    ensures fit { OnOk result (AllByRecursion (BlockFits (is_sourced version)) (values (map_of blocks.now))) }
    ensures count { OnOk result (length (values (map_of blocks.now)) < 2 ^ 64) }
    ensures ascending { IsTrue (rises way_cmp (map (λ b. b.way) (values (map_of blocks.now)))) }
    ensures err { OnErr result (Keeps out.old.items out.new.items) }
{
    let count = count_of(walk(blocks));
    put_header(version, profile, count, out)?;
    put_blocks(version, walk(blocks), out)
}

/// How many blocks are left; the last number of 64 bits where there are more. Takes no memory.
fn count_of(blocks: Walk<'_, WayId, Block>) -> u64
    ensures { result ≡ min (length blocks.entry) 18446744073709551615 }
{
    let mut rest = blocks;
    let mut count: u64 = 0;
    while let Some(_) = rest.next() {
        count = count.saturating_add(1);
    }
    count
}

/// Appends the bytes of the blocks that are left.
fn put_blocks(
    version: u32,
    blocks: Walk<'_, WayId, Block>,
    out: &mut Vec<u8>,
) -> Result<(), NoMemory>
    requires { AllByRecursion (IsBlockForm (is_sourced version)) blocks }
    ensures ok { OnOk result (out.new.items
        ≡ out.old.items ++ joined (block_bytes (is_sourced version)) blocks.entry) }
    ensures fit { OnOk result (AllByRecursion (BlockFits (is_sourced version)) blocks.entry) }
    ensures err { OnErr result (Keeps out.old.items out.new.items) }
{
    let mut rest = blocks;
    while let Some(block) = rest.next() {
        spell_block(version, block, out)?;
    }
    Ok(())
}

/// Appends the magic of the version, the profile's number and the count.
fn put_header(version: u32, profile: u32, count: u64, out: &mut Vec<u8>) -> Result<(), NoMemory>
    ensures ok { OnOk result (out.new.items ≡ out.old.items
        ++ (magic_bytes (is_sourced version) ++ (u32_bytes profile ++ u64_bytes count))) }
    ensures err { OnErr result (Keeps out.old.items out.new.items) }
{
    out.extend_from_slice(magic(version))?;
    profile.put(out)?;
    count.put(out)
}

/// The eight bytes in front of a file of the version.
fn magic(version: u32) -> &'static [u8; 8]
    ensures { result.now ≡ magic_bytes (is_sourced version) }
{
    if version == VERSION {
        b"OSMROAD2"
    } else {
        b"OSMROAD1"
    }
}
