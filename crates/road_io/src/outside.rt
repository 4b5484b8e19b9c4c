//! What is read, what is put and what two files hold, as far as an object tells it.
ghost use Rattle.std.specs.Prelude.{ℕ, List, Option, ◌≤◌, IfOk, IfSome, length};
ghost use Rattle.road_io.specs.Told.{Told, Counts};
ghost use Rattle.road_io.specs.Outside.{Outside, IsSound, disk};
ghost use Rattle.road_io.specs.Calls.{Takes, Puts, TellsLen, GivesBytes, Writes, Cuts, Syncs};

/// A call of a source or a site failed.
#[derive(Clone, Copy, Debug, PartialEq, Eq)]
pub struct Failed;

/// One of the two files of a site.
#[derive(Clone, Copy, Debug, PartialEq, Eq)]
pub enum Which {
    A,
    B,
}

/// Bytes to be read.
pub trait Source {
    /// The bytes left, where they are told.
    ghost bytes_left: { Self → Option (List ℕ) };

    /// How often a read failed. It never falls, and stays where a read is Ok.
    ghost faults: { Self → ℕ };

    /// Reads bytes into the front of the buffer, and answers how many. Where there is room, none come exactly at the
    /// end. A read that failed takes none.
    fn read(&mut self, buf: &mut [u8]) -> Result<usize, Failed>
        ensures fits { IfOk result (λ n. n ≤ length buf.old) }
        ensures told { Told (Takes buf.old buf.new result) (bytes_left self.old) (bytes_left self.new) }
        ensures counts { Counts (faults self.old) (faults self.new) result };
}

/// Where the output goes, and two files. A call on one file leaves the other one and the output as they are, and a put
/// leaves both files.
pub trait Site {
    /// Both files and their disks, what has been put so far, and all that a stop might have left, where it is told.
    ghost outside: { Self → Option Outside };

    /// How often a call failed. It never falls, and stays where a call is Ok.
    ghost faults: { Self → ℕ };

    /// Puts a chunk behind the output. A put that failed may have put a front of it.
    fn put(&mut self, chunk: &[u8]) -> Result<(), Failed>
        ensures told { Told (Puts chunk.now result) (outside self.old) (outside self.new) }
        ensures counts { Counts (faults self.old) (faults self.new) result };

    /// The length of a file in bytes. A file that isn't there has length 0.
    fn file_len(&mut self, file: Which) -> Result<u64, Failed>
        ensures told { Told (TellsLen file result) (outside self.old) (outside self.new) }
        ensures counts { Counts (faults self.old) (faults self.new) result };

    /// Reads a file's bytes from a place on into the front of the buffer, and answers how many. Where there is room,
    /// none come exactly at or past the file's end.
    fn read_at(&mut self, file: Which, at: u64, buf: &mut [u8]) -> Result<usize, Failed>
        ensures fits { IfOk result (λ n. n ≤ length buf.old) }
        ensures told { Told (GivesBytes file at buf.old buf.new result) (outside self.old) (outside self.new) }
        ensures counts { Counts (faults self.old) (faults self.new) result };

    /// Writes a chunk over what stands from a place on, and past the end. It makes a file that isn't there. Where it
    /// failed, no byte beside the chunk's place changed.
    fn write_at(&mut self, file: Which, at: u64, chunk: &[u8]) -> Result<(), Failed>
        requires within { IfSome (outside self.old) (λ o. at ≤ length (disk o file).reads) }
        ensures told { Told (Writes file at chunk.now result) (outside self.old) (outside self.new) }
        ensures counts { Counts (faults self.old) (faults self.new) result };

    /// Cuts a file to a length. It makes a file that isn't there. Where it failed, no byte below the length changed.
    fn cut(&mut self, file: Which, len: u64) -> Result<(), Failed>
        requires within { IfSome (outside self.old) (λ o. len ≤ length (disk o file).reads) }
        ensures told { Told (Cuts file len result) (outside self.old) (outside self.new) }
        ensures counts { Counts (faults self.old) (faults self.new) result };

    /// Waits until a file stands on its disk: a stop then leaves what a read gives. On a file that isn't there it does
    /// nothing.
    fn sync(&mut self, file: Which) -> Result<(), Failed>
        ensures told { Told (Syncs file result) (outside self.old) (outside self.new) }
        ensures counts { Counts (faults self.old) (faults self.new) result };

    /// A file as it reads is one of those that a stop may leave.
    ghost sound: { (site : Self) → IfSome (outside site) IsSound };
}
