//! A graph file that is written block by block.
ghost use Rattle.std.specs.Prelude.{◌≡◌, ◌+◌, ◌≤◌, ◌++◌, ◌∷◌, [], ℕ, List, map, take, drop, vec_len, OnOk, OnErr, IfOk};
ghost use Rattle.std.specs.Prelude.{IsTrue};
ghost use Rattle.std.specs.List.{AllByRecursion};
ghost use Rattle.ordered_lists.specs.Orders.{rises};
ghost use Rattle.road_model.specs.Orders.{way_cmp};
ghost use Rattle.road_base.specs.Profiles.{IsProfile};
ghost use Rattle.road_base.specs.Bytes.{u64_bytes, Keeps};
ghost use Rattle.road_model.specs.declared.blocks.Block.{Block};
ghost use Rattle.road_model.specs.Format.{graph_bytes, block_bytes, is_sourced, IsVersion, BlockFits, IsBlockForm};
ghost use Rattle.road_model.specs.Format.{IsGraphFile};
ghost use Rattle.graph_file.specs.GraphReading.{Unless, IsBareBlock, IsFile, IsOfItsWay};

use crate::grammar::{GraphFile, Plain, Sourced};
use crate::{VERSION, put_header};
use road_base::{Format, NoMemory};
use road_model::Block;
use std::alloc::Global;

/// A graph file that grows by one block after another. How many there are stands before them, and is known when the
/// last one was put.
#[derive(Drop)]
pub struct GraphWriter {
    version: u32,
    bytes: Vec<u8>,
    count: u64,
    /// The header stands there, and each block took a byte at least.
    ghost long: { count + 20 ≤ vec_len bytes },
}

impl GraphWriter {
    ghost use Rattle.graph_file.specs.Writing.{HasWritten};

    /// A file of the version for the profile, with no blocks. Room for so many bytes is taken at once, and more as they
    /// come.
    pub fn new(
        alloc: Global,
        version: u32,
        profile: u32,
        room: usize,
    ) -> Result<GraphWriter, NoMemory>
        requires { IsVersion version }
        ensures { IfOk result (HasWritten version profile []) }
    {
        let mut bytes = Vec::with_capacity(alloc, room)?;
        put_header(version, profile, 0, &mut bytes)?;
        let count = 0;
        Ok(GraphWriter {
            version,
            bytes,
            count,
        })
    }

    /// Puts the block behind those that were put. Where no memory is found the file stays as it was.
    pub fn put(&mut self, block: &Block) -> Result<(), NoMemory>
        requires { IsBlockForm (is_sourced self.old.version) block.now }
        ensures put { OnOk result ((version profile : ℕ) (blocks : List Block)
            → HasWritten version profile blocks self.old
            → HasWritten version profile (blocks ++ block.now ∷ []) self.new) }
        ensures version { self.new.version ≡ self.old.version }
        ensures err { OnErr result ((version profile : ℕ) (blocks : List Block)
            → HasWritten version profile blocks self.old
            → HasWritten version profile blocks self.new) }
    {
        put_block(self.version, block, &mut self.bytes)?;
        self.count += 1;
        Ok(())
    }

    /// The bytes of the file, with the blocks that were put. Takes no memory.
    pub fn finish(self) -> Vec<u8>
        ensures bytes { (version profile : ℕ) (blocks : List Block)
            → HasWritten version profile blocks self
            → result.items ≡ graph_bytes version profile blocks }
        ensures grammar { (version profile : ℕ) (blocks : List Block)
            → IsProfile profile
            → HasWritten version profile blocks self
            → IsTrue (rises way_cmp (map (λ b. b.way) blocks))
            → IsGraphFile result.items }
        ensures file { (version profile : ℕ) (blocks : List Block)
            → IsProfile profile
            → Unless (is_sourced version) (AllByRecursion IsBareBlock blocks)
            → HasWritten version profile blocks self
            → IsTrue (rises way_cmp (map (λ b. b.way) blocks))
            → AllByRecursion IsOfItsWay blocks
            → IsFile version profile result.items blocks }
    {
        let GraphWriter {
            mut bytes,
            count,
            ..
        } = self;
        set_count(&mut bytes, count);
        bytes
    }
}

/// Appends the bytes of the block by the grammar of the version. Where no memory is found nothing is appended.
fn put_block(version: u32, block: &Block, out: &mut Vec<u8>) -> Result<(), NoMemory>
    requires { IsBlockForm (is_sourced version) block.now }
    ensures bytes { OnOk result (out.new.items ≡ out.old.items ++ block_bytes (is_sourced version) block.now) }
    ensures fit { OnOk result (BlockFits (is_sourced version) block.now) }
    ensures err { OnErr result (out.new.items ≡ out.old.items) }
{
    let before = out.len();
    let written = spell_block(version, block, out);
    if written.is_err() {
        out.truncate(before);
    }
    written
}

/// Appends the bytes of the block by the grammar of the version. Where no memory is found, a part of them may stand
/// there.
pub fn spell_block(version: u32, block: &Block, out: &mut Vec<u8>) -> Result<(), NoMemory>
    requires { IsBlockForm (is_sourced version) block.now }
    ensures bytes { OnOk result (out.new.items ≡ out.old.items ++ block_bytes (is_sourced version) block.now) }
    ensures fit { OnOk result (BlockFits (is_sourced version) block.now) }
    ensures err { OnErr result (Keeps out.old.items out.new.items) }
{
    if version == VERSION {
        <GraphFile<Sourced> as Format<Block>>::put(block, out)
    } else {
        <GraphFile<Plain> as Format<Block>>::put(block, out)
    }
}

/// Writes how many blocks there are into the eight bytes of the header that are kept for it.
fn set_count(bytes: &mut Vec<u8>, count: u64)
    requires { 20 ≤ vec_len bytes.old }
    ensures { bytes.new.items ≡ take 12 bytes.old.items ++ (u64_bytes count ++ drop 20 bytes.old.items) }
{
    bytes[12..20].copy_from_slice(&count.to_le_bytes());
}
