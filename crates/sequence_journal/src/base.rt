//! A base in the place of all that a file holds.
ghost use Rattle.std.specs.Prelude.{◌≡◌, ◌⊎◌, ◌+◌, ◌≤◌, ◌^◌, IfOk, IfSome, IfErr, length};
ghost use Rattle.sequence_journal.specs.declared.error.JournalError.TheVariants.{SiteFault, NoMemory as NoMemoryError};
ghost use Rattle.road_base.specs.Profiles.{IsProfile};
ghost use Rattle.road_io.specs.Told.{Told};
ghost use Rattle.road_io.specs.Disk.{IsDurable};
ghost use Rattle.road_io.specs.Outside.{disk};
ghost use Rattle.sequence_journal.specs.Journal.{CountsFaults};
ghost use Rattle.sequence_journal.specs.Basing.{WritesBase, WritesWithin, WithinAnswer, base_alone, journal_of_base};

use crate::append::has_room;
use crate::chunks::base_chunk;
use crate::ends::replace;
use crate::error::JournalError;
use crate::journal::Journal;
use road_base::{Event, Sequence};
use road_io::{Site, Which};
use std::alloc::Global;

/// Writes a base under a profile in the place of all that a file holds, on which nothing is pending: empties the file
/// and closes its first gate, writes all that follows, and opens the gate, with a sync behind each. All memory is taken
/// before the first call on the site. The journal is that of the base, on this file, whatever the site tells. After a
/// SiteFault nothing may be written to the file before it is synced (`settle`), or the store loaded.
pub fn write_base<W: Site>(
    alloc: Global,
    site: &mut W,
    file: Which,
    generation: u64,
    base: Sequence,
    profile: u32,
    events: &[Event],
) -> Result<Journal, JournalError>
    requires known { IsProfile profile }
    requires durable { IfSome (W.outside site.old) (λ w. IsDurable (disk w file)) }
    ensures told { Told (WritesBase file generation (base_alone profile base.0 events.now) result)
        (W.outside site.old) (W.outside site.new) }
    ensures journal { IfOk result (λ j. j ≡ journal_of_base file generation base profile events.now) }
    ensures named { IfErr result (λ e. (e ≡ SiteFault) ⊎ (e ≡ NoMemoryError)) }
    ensures counts { CountsFaults (W.faults site.old) (W.faults site.new) result }
{
    let chunk = base_chunk(alloc, profile, generation, base, events)?;
    replace(site, file, &chunk)?;
    Ok(Journal {
        file,
        generation,
        profile,
        gate: chunk.len() as u64,
        kept: base,
        closed: false,
    })
}

/// Writes a base as `write_base` does, but TooLarge exactly where the file would have more than 2^40 bytes, the gate
/// behind the base among them: then no call on the site is made.
pub fn write_base_within<W: Site>(
    alloc: Global,
    site: &mut W,
    file: Which,
    generation: u64,
    base: Sequence,
    profile: u32,
    events: &[Event],
) -> Result<Journal, JournalError>
    requires known { IsProfile profile }
    requires durable { IfSome (W.outside site.old) (λ w. IsDurable (disk w file)) }
    ensures told { Told (WritesWithin file generation (base_alone profile base.0 events.now) result)
        (W.outside site.old) (W.outside site.new) }
    ensures answer { WithinAnswer file generation base profile events.now result
        (W.faults site.old) (W.faults site.new) }
{
    let chunk = base_chunk(alloc, profile, generation, base, events)?;
    let size = chunk.len() as u64;
    if !has_room(0, size) {
        return Err(JournalError::TooLarge);
    }
    replace(site, file, &chunk)?;
    Ok(Journal {
        file,
        generation,
        profile,
        gate: size,
        kept: base,
        closed: false,
    })
}
