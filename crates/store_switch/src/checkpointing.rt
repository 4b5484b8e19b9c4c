//! A store that goes on in its other file.
ghost use Rattle.std.specs.Prelude.{◌≡◌, ◌≤◌, false, IfSome};
ghost use Rattle.road_base.specs.Profiles.{IsProfile};
ghost use Rattle.road_io.specs.Told.{Told};
ghost use Rattle.road_io.specs.Outside.{other};
ghost use Rattle.store_switch.specs.Checkpointing.{IsOnSome, Checkpoints, CheckpointAnswer, after_refusal};

use road_base::Event;
use road_io::{Site, Which};
use sequence_journal::{Journal, JournalError, write_base_within};
use std::alloc::Global;

/// Writes these events as a base under the kept number and a profile into the file that isn't live, with the next
/// generation, and goes on there. The events are the entries of the objects that the history leaves, one for each key,
/// deletions too, in key order. The profile is the journal's, or a greater one, to which the store is raised: there is
/// no way back. A closed journal answers SiteFault. TooLarge exactly where the generation is the last u64, or the file
/// to be written would have more than 2^40 bytes. All memory is taken before the first call on the site. A fault of the
/// site closes the journal; every other refusal leaves journal and files as they are.
pub fn checkpoint<W: Site>(
    alloc: Global,
    site: &mut W,
    journal: &mut Journal,
    profile: u32,
    events: &[Event],
) -> Result<(), JournalError>
    requires known { IsProfile profile }
    requires not_lower { journal.old.profile ≤ profile }
    requires on_store { journal.old.closed ≡ false → IfSome (W.outside site.old) (IsOnSome journal.old) }
    ensures told { Told (Checkpoints journal.old journal.new profile events.now result)
        (W.outside site.old) (W.outside site.new) }
    ensures answer { CheckpointAnswer journal.old journal.new profile events.now result
        (W.faults site.old) (W.faults site.new) }
{
    if journal.closed() {
        return Err(JournalError::SiteFault);
    }
    if journal.generation() == u64::MAX {
        return Err(JournalError::TooLarge);
    }
    let file = other_file(journal.file());
    let generation = journal.generation() + 1;
    match write_base_within(
        alloc,
        site,
        file,
        generation,
        journal.kept(),
        profile,
        events,
    ) {
        Ok(next) => {
            *journal = next;
            Ok(())
        }
        Err(error) => {
            close_on_fault(journal, error);
            Err(error)
        }
    }
}

/// The other one of the two files.
fn other_file(file: Which) -> Which
    ensures { result ≡ other file }
{
    match file {
        Which::A => Which::B,
        Which::B => Which::A,
    }
}

/// Closes the journal where the site failed.
fn close_on_fault(journal: &mut Journal, error: JournalError)
    ensures { journal.new ≡ after_refusal journal.old error }
{
    match error {
        JournalError::SiteFault => journal.close(),
        _ => {}
    }
}
