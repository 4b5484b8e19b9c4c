//! What the system reads and writes. None of it is told.
ghost use Rattle.std.specs.Prelude.{◌≡◌, ◌≤◌, Ok, IfOk, OnOk, IsErr, MatchResult, length};
ghost use Rattle.std.specs.Io.KnownBytes.{ReadConsumes, Appends};
ghost use Rattle.road_io.specs.Told.{Counts, faults_after};

use crate::reading::read_again;
use crate::real_file::RealFile;
use crate::{Failed, Site, Source, Which};
use std::fs::File;
use std::io;
use std::io::{Read, Write};
use std::marker::Model;
use std::rt::Files;

/// A reader of the system, as standard input.
#[derive(Drop)]
pub struct RealSource<R: Read> {
    reader: R,
    faults: u64,
}

impl<R: Read> Model for RealSource<R> {
    ghost use Rattle.road_io.specs.Real.{Real};

    ghost Value = { Real R };

    ghost view = { λ s. record { beneath = s.reader; faults = s.faults } };
}

impl<R: Read> RealSource<R> {
    /// Over this reader. No call has failed yet.
    pub fn new(reader: R) -> RealSource<R>
        ensures { result ≡ record { beneath = reader; faults = 0 } }
    {
        RealSource { reader, faults: 0 }
    }
}

impl<R: Read> Source for RealSource<R> {
    ghost use Rattle.std.specs.Prelude.{None};

    ghost bytes_left = { λ _. None };

    ghost faults = { λ s. s.faults };

    /// One read of the reader beneath, made again where a signal interrupted it. Every other error is a fault.
    fn read(&mut self, buf: &mut [u8]) -> Result<usize, Failed>
        ensures fits { IfOk result (λ n. n ≤ length buf.old) }
        ensures counts { Counts self.old.faults self.new.faults result }

        ensures faults { self.new.faults ≡ faults_after result self.old.faults }
        ensures beneath { ReadConsumes (R.remaining self.old.beneath) (R.remaining self.new.beneath)
            result buf.new }
    {
        let answer = read_again(&mut self.reader, buf);
        counted(answer, &mut self.faults)
    }
}

/// A writer of the system, as standard output, and two files of the system. A file is looked for at the first call on
/// it. From then on it is held open under an exclusive advisory lock until the site is dropped, and where another site,
/// of this program or another one, holds that lock, the call is a fault, and reads and changes nothing. A file that is
/// missing then is made by the first write or cut, which is a fault where another program has made it since. A file
/// that may not be written is opened for reading, and a write or cut on it is a fault. A new file's name stands on the
/// disk once its folder does, so the first sync of a file also syncs the folder.
#[derive(Drop)]
pub struct RealSite<R: Files<File = File>, W: Write> {
    files: R,
    output: W,
    a: RealFile,
    b: RealFile,
    faults: u64,
}

impl<R: Files<File = File>, W: Write> Model for RealSite<R, W> {
    ghost use Rattle.road_io.specs.Real.{Real};

    ghost Value = { Real W };

    ghost view = { λ s. record { beneath = s.output; faults = s.faults } };
}

impl<R: Files<File = File>, W: Write> RealSite<R, W> {
    /// Over this writer and the files of these names. It touches no file, and no call has failed yet.
    pub fn new(files: R, output: W, name_a: String, name_b: String) -> RealSite<R, W>
        ensures { result ≡ record { beneath = output; faults = 0 } }
    {
        RealSite {
            files,
            output,
            a: RealFile::new(name_a),
            b: RealFile::new(name_b),
            faults: 0,
        }
    }
}

impl<R: Files<File = File>, W: Write> Site for RealSite<R, W> {
    ghost use Rattle.std.specs.Prelude.{None};

    ghost outside = { λ _. None };

    ghost faults = { λ s. s.faults };

    ghost sound = { λ _. tt };

    /// Writes the whole chunk to the writer beneath, and flushes.
    fn put(&mut self, chunk: &[u8]) -> Result<(), Failed>
        ensures counts { Counts self.old.faults self.new.faults result }

        ensures faults { self.new.faults ≡ faults_after result self.old.faults }
        ensures beneath { OnOk result
            (Appends (W.contents self.old.beneath) (W.contents self.new.beneath) chunk.now) }
    {
        let answer = write_whole(&mut self.output, chunk);
        counted(answer, &mut self.faults)
    }

    fn file_len(&mut self, file: Which) -> Result<u64, Failed>
        ensures counts { Counts self.old.faults self.new.faults result }

        ensures faults { self.new ≡ record self.old { faults = faults_after result self.old.faults } }
    {
        let answer = match file {
            Which::A => self.a.len(&self.files),
            Which::B => self.b.len(&self.files),
        };
        counted(answer, &mut self.faults)
    }

    /// One read of the system, made again where a signal interrupted it. Every other error is a fault.
    fn read_at(&mut self, file: Which, at: u64, buf: &mut [u8]) -> Result<usize, Failed>
        ensures fits { IfOk result (λ n. n ≤ length buf.old) }
        ensures counts { Counts self.old.faults self.new.faults result }

        ensures faults { self.new ≡ record self.old { faults = faults_after result self.old.faults } }
    {
        let answer = match file {
            Which::A => self.a.read_at(&self.files, at, buf),
            Which::B => self.b.read_at(&self.files, at, buf),
        };
        counted(answer, &mut self.faults)
    }

    fn write_at(&mut self, file: Which, at: u64, chunk: &[u8]) -> Result<(), Failed>
        ensures counts { Counts self.old.faults self.new.faults result }

        ensures faults { self.new ≡ record self.old { faults = faults_after result self.old.faults } }
    {
        let answer = match file {
            Which::A => self.a.write_at(&self.files, at, chunk),
            Which::B => self.b.write_at(&self.files, at, chunk),
        };
        counted(answer, &mut self.faults)
    }

    fn cut(&mut self, file: Which, len: u64) -> Result<(), Failed>
        ensures counts { Counts self.old.faults self.new.faults result }

        ensures faults { self.new ≡ record self.old { faults = faults_after result self.old.faults } }
    {
        let answer = match file {
            Which::A => self.a.cut(&self.files, len),
            Which::B => self.b.cut(&self.files, len),
        };
        counted(answer, &mut self.faults)
    }

    /// Waits for the file, and at its first sync for the folder that its name stands in.
    fn sync(&mut self, file: Which) -> Result<(), Failed>
        ensures counts { Counts self.old.faults self.new.faults result }

        ensures faults { self.new ≡ record self.old { faults = faults_after result self.old.faults } }
    {
        let answer = match file {
            Which::A => self.a.sync(&self.files),
            Which::B => self.b.sync(&self.files),
        };
        counted(answer, &mut self.faults)
    }
}

fn write_whole<W: Write>(output: &mut W, chunk: &[u8]) -> io::Result<()>
    ensures { OnOk result (Appends (W.contents output.old) (W.contents output.new) chunk.now) }
{
    output.write_all(chunk)?;
    output.flush()
}

// What the system answered. An error raises the count.
fn counted<T: Drop>(answer: io::Result<T>, faults: &mut u64) -> Result<T, Failed>
    ensures counts { Counts faults.old faults.new result }
    ensures faults { faults.new ≡ faults_after result faults.old }
    ensures ok { MatchResult answer (λ value. result ≡ Ok value) (λ _. IsErr result) }
{
    match answer {
        Ok(value) => Ok(value),
        Err(_) => {
            *faults = faults.saturating_add(1);
            Err(Failed)
        }
    }
}
