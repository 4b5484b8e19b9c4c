//! The writes at the end of a file. Each call of the site that changes what a stop may leave stands here.
ghost use Rattle.std.specs.Prelude.{◌≡◌, ◌+◌, ◌<◌, ◌≤◌, ◌^◌, IfSome, length};
ghost use Rattle.road_io.specs.Told.{Told, Counts};
ghost use Rattle.road_io.specs.Disk.{IsDurable};
ghost use Rattle.road_io.specs.Outside.{disk};
ghost use Rattle.sequence_journal.specs.Ends.{Opens, Repairs, Replaces};

use road_io::{Failed, Site, Which};

/// A gate that is closed.
pub const CLOSED: u8 = 0;

/// A gate that is open.
pub const OPEN: u8 = 1;

/// Writes a chunk behind the closed gate at the end of a file, and opens the gate once the chunk is on the disk.
pub fn open_behind<W: Site>(
    site: &mut W,
    file: Which,
    gate: u64,
    chunk: &[u8],
) -> Result<(), Failed>
    requires fits { gate < 2 ^ 63 }
    requires place { IfSome (W.outside site.old) (λ w. length (disk w file).reads ≡ gate + 1) }
    ensures told { Told (Opens file gate chunk.now result) (W.outside site.old) (W.outside site.new) }
    ensures counts { Counts (W.faults site.old) (W.faults site.new) result }
{
    site.write_at(file, gate + 1, chunk)?;
    site.sync(file)?; // Now the chunk is on the disk.
    site.write_at(file, gate, &[OPEN])?;
    site.sync(file)
}

/// Cuts a file at the place of a gate, and closes the gate there.
pub fn repair_end<W: Site>(site: &mut W, file: Which, gate: u64) -> Result<(), Failed>
    requires place { IfSome (W.outside site.old) (λ w. gate ≤ length (disk w file).reads) }
    ensures told { Told (Repairs file gate result) (W.outside site.old) (W.outside site.new) }
    ensures counts { Counts (W.faults site.old) (W.faults site.new) result }
{
    site.cut(file, gate)?;
    site.sync(file)?;
    site.write_at(file, gate, &[CLOSED])?;
    site.sync(file)
}

/// Empties a file, and writes an open gate and a chunk behind it.
pub fn replace<W: Site>(site: &mut W, file: Which, chunk: &[u8]) -> Result<(), Failed>
    requires { IfSome (W.outside site.old) (λ w. IsDurable (disk w file)) }
    ensures told { Told (Replaces file chunk.now result) (W.outside site.old) (W.outside site.new) }
    ensures counts { Counts (W.faults site.old) (W.faults site.new) result }
{
    repair_end(site, file, 0)?;
    open_behind(site, file, 0, chunk)
}
