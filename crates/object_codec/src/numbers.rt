//! Numbers, little endian, and those of nodes.
ghost use Rattle.object_codec.specs.Spelling.{node_id_bytes, NodeIdFits};
ghost use Rattle.object_codec.specs.OneSpelling.{node_id_one};

use crate::spelling::{EventFormat, Put};
use road_base::{LittleEndian, NoMemory, NodeId};
use spelled_bytes::{Spell, Unread};
use std::alloc::Global;

impl Put for u32 {
    fn put(&self, out: &mut Vec<u8>) -> Result<(), NoMemory> {
        LittleEndian::put(self, out)
    }
}

impl Put for u64 {
    fn put(&self, out: &mut Vec<u8>) -> Result<(), NoMemory> {
        LittleEndian::put(self, out)
    }
}

impl Put for i32 {
    fn put(&self, out: &mut Vec<u8>) -> Result<(), NoMemory> {
        LittleEndian::put(self, out)
    }
}

impl Put for i64 {
    fn put(&self, out: &mut Vec<u8>) -> Result<(), NoMemory> {
        LittleEndian::put(self, out)
    }
}

#[tactic(auto, unfolding(crate::specs::Spelling::node_id_bytes, crate::specs::Spelling::NodeIdFits))]
impl Spell<EventFormat> for NodeId {
    ghost spelling = { node_id_bytes };

    ghost fits = { NodeIdFits };

    ghost one = { node_id_one };

    fn read(alloc: Global, bytes: &[u8]) -> Result<(NodeId, &[u8]), Unread> {
        let (number, rest) = <i64 as Spell<EventFormat>>::read(alloc, bytes)?;
        Ok((NodeId(number), rest))
    }
}

#[tactic(auto, unfolding(crate::specs::Spelling::node_id_bytes, crate::specs::Spelling::NodeIdFits))]
impl Put for NodeId {
    fn put(&self, out: &mut Vec<u8>) -> Result<(), NoMemory> {
        LittleEndian::put(&self.0, out)
    }
}
