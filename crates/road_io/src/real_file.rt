//! A file of the system by its name, under a lock.
ghost use Rattle.std.specs.Prelude.{◌≤◌, IfOk, length};

use crate::reading::{FilePlace, read_again};
use std::fs::{File, OpenOptions};
use std::io;
use std::io::ErrorKind;
use std::os::unix::fs::FileExt;
use std::rt::Files;

/// A file that is looked for at the first call on it. One that is there is then held open under an exclusive lock; one
/// that is missing stays so until this run makes it, also where another program has made it since.
#[derive(Drop)]
pub struct RealFile {
    name: String,
    state: FileState,
    // Its folder was synced since it was opened for writing.
    is_named: bool,
}

#[derive(Drop)]
enum FileState {
    // It wasn't looked for.
    Unseen,
    // It wasn't there.
    Missing,
    // It is open for reading and writing.
    Open(File),
    // It is open for reading, since it may not be written.
    ReadOnly(File),
}

impl RealFile {
    pub fn new(name: String) -> RealFile {
        RealFile {
            name,
            state: FileState::Unseen,
            is_named: false,
        }
    }

    fn look<R: Files<File = File>>(&mut self, files: &R) -> io::Result<()> {
        if let FileState::Unseen = self.state {
            self.state = find(files, self.name.as_str())?;
        }
        Ok(())
    }

    // The file, to be read, or None where it is missing.
    fn found<R: Files<File = File>>(&mut self, files: &R) -> io::Result<Option<&File>> {
        self.look(files)?;
        match &self.state {
            FileState::Open(file) | FileState::ReadOnly(file) => Ok(Some(file)),
            FileState::Unseen | FileState::Missing => Ok(None),
        }
    }

    // The file, to be written. A missing one is made.
    fn writable<R: Files<File = File>>(&mut self, files: &R) -> io::Result<&File> {
        self.look(files)?;
        if let FileState::Missing = self.state {
            self.state = FileState::Open(make(files, self.name.as_str())?);
        }
        match &self.state {
            FileState::Open(file) => Ok(file),
            _ => Err(ErrorKind::PermissionDenied.into()),
        }
    }

    /// A missing file has length 0.
    pub fn len<R: Files<File = File>>(&mut self, files: &R) -> io::Result<u64> {
        match self.found(files)? {
            Some(file) => Ok(file.metadata()?.len()),
            None => Ok(0),
        }
    }

    /// A missing file gives nothing.
    pub fn read_at<R: Files<File = File>>(
        &mut self,
        files: &R,
        at: u64,
        buf: &mut [u8],
    ) -> io::Result<usize>
        ensures { IfOk result (λ n. n ≤ length buf.old) }
    {
        match self.found(files)? {
            Some(file) => read_again(&mut FilePlace { file, at }, buf),
            None => Ok(0),
        }
    }

    /// Makes a missing file.
    pub fn write_at<R: Files<File = File>>(
        &mut self,
        files: &R,
        at: u64,
        chunk: &[u8],
    ) -> io::Result<()> {
        self.writable(files)?.write_all_at(chunk, at)
    }

    /// Makes a missing file.
    pub fn cut<R: Files<File = File>>(&mut self, files: &R, len: u64) -> io::Result<()> {
        self.writable(files)?.set_len(len)
    }

    /// The first time also the folder. On a missing file it does nothing.
    pub fn sync<R: Files<File = File>>(&mut self, files: &R) -> io::Result<()> {
        self.look(files)?;
        match &self.state {
            FileState::Unseen | FileState::Missing => return Ok(()),
            // This run neither made nor wrote it. What is pending of other runs is synced where this one may do so.
            FileState::ReadOnly(file) => {
                where_allowed(file.sync_all())?;
                return where_allowed(sync_folder(files, self.name.as_str()));
            }
            FileState::Open(file) => file.sync_all()?,
        }
        if !self.is_named {
            sync_folder(files, self.name.as_str())?;
            self.is_named = true;
        }
        Ok(())
    }
}

// Opens and locks the file if it is there. It changes nothing.
fn find<R: Files<File = File>>(files: &R, name: &str) -> io::Result<FileState> {
    match OpenOptions::new().read(true).write(true).open(files, name) {
        Ok(file) => Ok(FileState::Open(locked(file)?)),
        Err(error) => match error.kind() {
            ErrorKind::NotFound => Ok(FileState::Missing),
            ErrorKind::PermissionDenied | ErrorKind::ReadOnlyFilesystem => {
                Ok(FileState::ReadOnly(locked(File::open(files, name)?)?))
            }
            _ => Err(error),
        },
    }
}

// Makes and locks a file that was missing. One that came in between is another program's, and an error.
fn make<R: Files<File = File>>(files: &R, name: &str) -> io::Result<File> {
    locked(File::create_new(files, name)?)
}

// The file under an exclusive lock, which ends where the file is closed, as by the end of this program of any kind. An
// error where another open of the file holds a lock.
fn locked(file: File) -> io::Result<File> {
    file.try_lock()?;
    Ok(file)
}

fn sync_folder<R: Files<File = File>>(files: &R, name: &str) -> io::Result<()> {
    File::open(files, folder_of(name))?.sync_all()
}

// What a sync answered, and Ok where none is to be had: of a folder that may be entered but not read, or in a file
// system that is never written, which has nothing pending.
fn where_allowed(answer: io::Result<()>) -> io::Result<()> {
    match answer {
        Ok(()) => Ok(()),
        Err(error) => match error.kind() {
            ErrorKind::PermissionDenied | ErrorKind::ReadOnlyFilesystem | ErrorKind::InvalidInput =>
                Ok(()),
            _ => Err(error),
        },
    }
}

// The part before the last slash.
fn folder_of(name: &str) -> &str {
    match name.rfind('/') {
        Some(0) => "/",
        Some(at) => &name[..at],
        None => ".",
    }
}
