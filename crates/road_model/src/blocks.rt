//! Blocks of the graph, one for each way with pieces.
ghost use Rattle.std.specs.Prelude.{◌≡◌, ◌+◌, ◌≤◌, ◌↔◌, map, option_copied, None, IfOk, OnOk, OnErr, IsTrue, Contains};
ghost use Rattle.std.specs.Prelude.{Some};
ghost use Rattle.std.specs.FinMap.{empty, get, entries, insert as inserted, remove as removed};
ghost use Rattle.ordered_lists.specs.Orders.{rises};
ghost use Rattle.road_model.specs.Orders.{way_cmp};
ghost use Rattle.road_model.specs.declared.blocks.Block.{Block};

use crate::Pieces;
use crate::block_search::find_way;
use ordered_lists::{Keyed, Kinded, Numbered};
use road_base::{NoMemory, WayId};
use std::alloc::{AllocError, Global};
use std::marker::Model;

/// The part of the graph that belongs to a way.
#[derive(Drop)]
pub struct Block {
    pub way: WayId,
    pub pieces: Pieces,
}

impl Block {
    /// An equal value.
    pub fn copy(&self) -> Result<Block, NoMemory>
        ensures { IfOk result (λ b. b ≡ self.now) }
    {
        let pieces = self.pieces.copy()?;
        Ok(Block {
            way: self.way,
            pieces,
        })
    }
}

impl Numbered for Block {
    /// That of its way.
    fn number(&self) -> i64 {
        self.way.0
    }
}

impl Kinded for Block {
    /// All are of one kind.
    fn kind(&self) -> u8 {
        0
    }
}

impl Keyed<WayId> for Block {
    ghost key = { λ b. b.way };

    /// Its way.
    fn key(&self) -> WayId {
        self.way
    }

    fn duplicate(&self) -> Result<Block, AllocError> {
        match self.copy() {
            Ok(block) => Ok(block),
            Err(NoMemory) => Err(AllocError),
        }
    }
}

/// Blocks, each at its way. Contracts see a finite map from ways to blocks, and how many blocks may be put without
/// taking memory.
#[derive(Drop)]
pub struct Blocks {
    list: Vec<Block>,
}

impl Model for Blocks {
    ghost use Rattle.std.specs.Prelude.{◌-◌, map, IsTrue, vec_len};
    ghost use Rattle.std.specs.Vec.{vec_capacity};
    ghost use Rattle.road_model.specs.BlockMap.{BlockMap, block_map, coded_block_map};
    ghost use Rattle.ordered_lists.specs.Orders.{rises};
    ghost use Rattle.road_model.specs.Orders.{way_cmp};

    ghost Value = { BlockMap };

    ghost coded = { coded_block_map };

    ghost view = { λ b. record { map = block_map b.list.items; spare = vec_capacity b.list - vec_len b.list } };

    ghost invariant = { λ b. IsTrue (rises way_cmp (map (λ x. x.way) b.list.items)) };
}

impl Blocks {
    ghost use Rattle.road_model.specs.BlockMap.{entry_of};

    /// No blocks. Takes no memory.
    pub fn new(alloc: Global) -> Blocks
        ensures { result.map ≡ empty }
    {
        Blocks {
            list: Vec::new(alloc),
        }
    }

    /// The way's block, and None exactly where the way has none. Takes no memory.
    pub fn get(&self, way: WayId) -> Option<&Block>
        ensures { option_copied result ≡ get self.now.map way }
    {
        let list = self.list.as_slice();
        match find_way(list, way) {
            Ok(at) => Some(&list[at]),
            Err(_) => None,
        }
    }

    /// Makes room to spare for as many further blocks. Where no memory is found nothing changes.
    pub fn reserve(&mut self, more: usize) -> Result<(), NoMemory>
        ensures map { self.new.map ≡ self.old.map }
        ensures ok { OnOk result (more ≤ self.new.spare) }
        ensures err { OnErr result (self.new ≡ self.old) }
    {
        Ok(self.list.reserve(more)?)
    }

    /// Puts the block at its way, in place of an older one. Where no memory is found nothing changes and the block is
    /// dropped; that never comes where the way has a block or there is room to spare.
    pub fn insert(&mut self, block: Block) -> Result<(), NoMemory>
        ensures ok { OnOk result (self.new.map ≡ inserted self.old.map block.way block) }
        ensures err { OnErr result (self.new ≡ self.old) }
        ensures new_way { OnErr result (get self.old.map block.way ≡ None) }
        ensures no_room { OnErr result (self.old.spare ≡ 0) }
        ensures spare { self.old.spare ≤ self.new.spare + 1 }
    {
        match find_way(self.list.as_slice(), block.way) {
            Ok(at) => {
                self.list[at] = block;
                Ok(())
            }
            Err(at) => {
                self.list.reserve(1)?;
                Ok(self.list.insert(at, block)?)
            }
        }
    }

    /// Takes the way's block out; None exactly where the way has none. Takes no memory, and leaves no less room to
    /// spare.
    pub fn remove(&mut self, way: WayId) -> Option<Block>
        ensures taken { result ≡ get self.old.map way }
        ensures map { self.new.map ≡ removed self.old.map way }
        ensures spare { self.old.spare ≤ self.new.spare }
    {
        match find_way(self.list.as_slice(), way) {
            Ok(at) => Some(self.list.remove(at)),
            Err(_) => None,
        }
    }

    /// All blocks, ascending by way.
    pub fn items(&self) -> &[Block]
        ensures entries { entries self.now.map ≡ map entry_of result.now }
        ensures ascending { IsTrue (rises way_cmp (map (λ b. b.way) result.now)) }
        ensures each { (b : Block) → Contains result.now b ↔ (get self.now.map b.way ≡ Some b) }
    {
        self.list.as_slice()
    }

    /// All blocks, ascending by way. Takes no memory.
    pub fn into_list(self) -> Vec<Block>
        ensures entries { entries self.map ≡ map entry_of result.items }
        ensures ascending { IsTrue (rises way_cmp (map (λ b. b.way) result.items)) }
        ensures each { (b : Block) → Contains result.items b ↔ (get self.map b.way ≡ Some b) }
    {
        self.list
    }

    /// An equal value: the same blocks, and as much room to spare.
    pub fn copy(&self) -> Result<Blocks, NoMemory>
        ensures { IfOk result (λ blocks. blocks ≡ self.now) }
    {
        let from = self.list.as_slice();
        let mut list = Vec::with_capacity(*self.list.allocator(), self.list.capacity())?;
        for block in from {
            list.push_reserved(block.copy()?);
        }
        Ok(Blocks { list })
    }
}
