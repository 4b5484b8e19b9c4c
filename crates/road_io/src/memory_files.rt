//! The two files of a site in memory.
ghost use Rattle.std.specs.Prelude.{◌≡◌, ℕ, List, ◌≤◌, OnOk, OnErr, length, take};
ghost use Rattle.road_io.specs.Disk.{overwritten};
ghost use Rattle.road_io.specs.Memory.{bytes_of, opening_of, with_bytes, with_file};

use crate::Which;
use std::alloc::{AllocError, Global};
use std::marker::Model;

// The bytes of a file, and a copy of those that it had at first, where a call changed it.
#[derive(Drop)]
struct MemoryFile {
    bytes: Vec<u8>,
    opening: Option<Vec<u8>>,
}

impl Model for MemoryFile {
    ghost use Rattle.road_io.specs.Memory.{FileState, opening_of};

    ghost Value = { FileState };

    ghost view = { λ f. record { opening = opening_of f.opening f.bytes.items; reads = f.bytes.items } };
}

impl MemoryFile {
    fn new(bytes: Vec<u8>) -> MemoryFile
        ensures { result ≡ record { opening = bytes.items; reads = bytes.items } }
    {
        MemoryFile {
            bytes,
            opening: None,
        }
    }

    fn bytes(&self) -> &[u8]
        ensures { result.now ≡ self.now.reads }
    {
        &self.bytes
    }

    fn overwrite(&mut self, alloc: Global, at: usize, chunk: &[u8]) -> Result<(), AllocError>
        requires within { at ≤ length self.old.reads }
        ensures ok { OnOk result (self.new ≡ with_bytes (overwritten at chunk.now self.old.reads) self.old) }
        ensures err { OnErr result (self.new ≡ self.old) }
    {
        keep_opening(alloc, &self.bytes, &mut self.opening)?;
        overwrite(&mut self.bytes, at, chunk)
    }

    fn cut(&mut self, alloc: Global, len: usize) -> Result<(), AllocError>
        requires within { len ≤ length self.old.reads }
        ensures ok { OnOk result (self.new ≡ with_bytes (take len self.old.reads) self.old) }
        ensures err { OnErr result (self.new ≡ self.old) }
    {
        keep_opening(alloc, &self.bytes, &mut self.opening)?;
        self.bytes.truncate(len);
        Ok(())
    }
}

// Keeps a copy of the bytes that a file had at first, before they are changed for the first time.
fn keep_opening(
    alloc: Global,
    bytes: &[u8],
    opening: &mut Option<Vec<u8>>,
) -> Result<(), AllocError>
    ensures ok { OnOk result
        ((later : List ℕ) → opening_of opening.new later ≡ opening_of opening.old bytes.now) }
    ensures err { OnErr result (opening.new ≡ opening.old) }
{
    if opening.is_none() {
        *opening = Some(bytes.to_vec(alloc)?);
    }
    Ok(())
}

// Puts a chunk in its place, also past the end.
fn overwrite(bytes: &mut Vec<u8>, at: usize, chunk: &[u8]) -> Result<(), AllocError>
    requires within { at ≤ length bytes.old.items }
    ensures ok { OnOk result (bytes.new.items ≡ overwritten at chunk.now bytes.old.items) }
    ensures err { OnErr result (bytes.new.items ≡ bytes.old.items) }
{
    let within = chunk.len().min(bytes.len() - at);
    bytes.extend_from_slice(&chunk[within..])?;
    bytes[at..at + within].copy_from_slice(&chunk[..within]);
    Ok(())
}

/// The bytes of both files, as they were at first and as they read now.
#[derive(Drop)]
pub struct MemoryFiles {
    a: MemoryFile,
    b: MemoryFile,
}

impl Model for MemoryFiles {
    ghost use Rattle.road_io.specs.Memory.{FilesState};

    ghost Value = { FilesState };

    ghost view = { λ f. record { a = f.a; b = f.b } };
}

impl MemoryFiles {
    ghost use Rattle.road_io.specs.Memory.{starting_files};

    pub fn new(a: Vec<u8>, b: Vec<u8>) -> MemoryFiles
        ensures { result ≡ starting_files a.items b.items }
    {
        MemoryFiles {
            a: MemoryFile::new(a),
            b: MemoryFile::new(b),
        }
    }

    pub fn bytes(&self, file: Which) -> &[u8]
        ensures { result.now ≡ bytes_of self.now file }
    {
        match file {
            Which::A => self.a.bytes(),
            Which::B => self.b.bytes(),
        }
    }

    /// Takes the memory first. Where there is none it changes nothing.
    pub fn overwrite(
        &mut self,
        alloc: Global,
        file: Which,
        at: usize,
        chunk: &[u8],
    ) -> Result<(), AllocError>
        requires within { at ≤ length (bytes_of self.old file) }
        ensures ok { OnOk result
            (self.new ≡ with_file file (overwritten at chunk.now (bytes_of self.old file)) self.old) }
        ensures err { OnErr result (self.new ≡ self.old) }
    {
        match file {
            Which::A => self.a.overwrite(alloc, at, chunk),
            Which::B => self.b.overwrite(alloc, at, chunk),
        }
    }

    /// Takes the memory first. Where there is none it changes nothing.
    pub fn cut(&mut self, alloc: Global, file: Which, len: usize) -> Result<(), AllocError>
        requires within { len ≤ length (bytes_of self.old file) }
        ensures ok { OnOk result (self.new ≡ with_file file (take len (bytes_of self.old file)) self.old) }
        ensures err { OnErr result (self.new ≡ self.old) }
    {
        match file {
            Which::A => self.a.cut(alloc, len),
            Which::B => self.b.cut(alloc, len),
        }
    }
}
