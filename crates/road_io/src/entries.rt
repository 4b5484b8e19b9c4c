//! The record of the calls on a site in memory.
ghost use Rattle.std.specs.Prelude.{◌≡◌, IfOk};

use crate::Which;
use std::alloc::{AllocError, Global};
use std::marker::Model;

/// A list of bytes.
#[derive(Drop)]
pub struct Bytes {
    list: Vec<u8>,
}

impl Model for Bytes {
    ghost use Rattle.std.specs.Prelude.{ℕ, List};

    ghost Value = { List ℕ };

    ghost view = { λ b. b.list.items };
}

impl Bytes {
    /// Its bytes in order.
    pub fn items(&self) -> &[u8]
        ensures { result.now ≡ self.now }
    {
        &self.list
    }

    pub(crate) fn copied(alloc: Global, bytes: &[u8]) -> Result<Bytes, AllocError>
        ensures { IfOk result (λ copy. copy ≡ bytes.now) }
    {
        Ok(Bytes {
            list: bytes.to_vec(alloc)?,
        })
    }
}

/// A call on a site, with what it was given. The `len` of a read is that of its buffer.
#[derive(Drop)]
pub enum Call {
    Put(Bytes),
    FileLen(Which),
    ReadAt { file: Which, at: u64, len: u64 },
    WriteAt { file: Which, at: u64, piece: Bytes },
    Cut { file: Which, len: u64 },
    Sync(Which),
}

/// A call of a record, and whether it failed.
#[derive(Drop)]
pub struct Entry {
    pub call: Call,
    pub failed: bool,
}
