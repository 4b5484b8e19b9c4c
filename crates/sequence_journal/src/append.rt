//! One more change at the end of a journal's file.
ghost use Rattle.std.specs.Prelude.{◌≡◌, ◌↔◌, ◌+◌, ◌<◌, ◌≤◌, ◌^◌, List, false, true, IfSome, IfOk, IsSome};
ghost use Rattle.road_base.specs.declared.event.Event.{Event};
ghost use Rattle.road_io.specs.Told.{Told};
ghost use Rattle.sequence_journal.specs.Journal.{IsReady};
ghost use Rattle.sequence_journal.specs.Adding.{Adds, AddAnswer, IsSpelledChange, MayAddSpelled, size_with};

use crate::chunks::record_chunk;
use crate::ends::open_behind;
use crate::error::JournalError;
use crate::journal::Journal;
use road_base::{Event, MOST_STORE, NoMemory, Sequence};
use road_io::Site;
use std::alloc::Global;

/// A change as its record in a journal's file, ready to be added: `Journal::spell` makes it.
#[derive(Drop)]
pub struct SpelledChange {
    pub(crate) number: Sequence,
    /// What stands behind the record's gate.
    pub(crate) chunk: Vec<u8>,
}

impl Journal {
    /// Adds a change under the next number: writes its record behind the closed gate at the file's end, syncs, opens
    /// the gate, and syncs. A closed journal answers SiteFault. OutOfSequence as in `check`; then TooLarge exactly
    /// where the file would pass 2^40 bytes. All memory is taken before the first call on the site. A fault of the site
    /// closes the journal.
    pub fn append<W: Site>(
        &mut self,
        alloc: Global,
        site: &mut W,
        seq: Sequence,
        events: &[Event],
    ) -> Result<(), JournalError>
        requires { self.old.closed ≡ false → IfSome (W.outside site.old) (IsReady self.old) }
        ensures told { Told (Adds self.old self.new events.now result) (W.outside site.old) (W.outside site.new) }
        ensures answer { AddAnswer self.old self.new seq events.now result (W.faults site.old) (W.faults site.new) }
    {
        if self.closed {
            return Err(JournalError::SiteFault);
        }
        self.check(seq)?;
        let Some(change) = self.spell(alloc, seq, events)? else {
            return Err(JournalError::TooLarge);
        };
        self.add(site, &change)
    }

    /// Spells a change's record under a number, and takes all memory that adding it needs. None exactly where the
    /// journal's file would pass 2^40 bytes with it. It costs the record's bytes, and looks neither at the journal's
    /// last number nor at whether the journal is closed.
    pub fn spell(
        &self,
        alloc: Global,
        number: Sequence,
        events: &[Event],
    ) -> Result<Option<SpelledChange>, NoMemory>
        ensures number { IfOk result (λ r. IfSome r (λ change. change.number ≡ number)) }
        ensures spells { IfOk result (λ r. IfSome r (λ change. IsSpelledChange change events.now)) }
        ensures room { IfOk result (λ r. IsSome r ↔ (size_with self.now events.now ≤ 2 ^ 40)) }
    {
        let chunk = record_chunk(alloc, number, events)?;
        if !has_room(self.gate, chunk.len() as u64) {
            return Ok(None);
        }
        Ok(Some(SpelledChange { number, chunk }))
    }

    /// Adds a spelled change as `append` does, where it has the next number and there is room for it. It takes no
    /// memory: the only refusal is SiteFault, where the site fails.
    pub fn add<W: Site>(&mut self, site: &mut W, change: &SpelledChange) -> Result<(), JournalError>
        requires may { MayAddSpelled self.old change.now }
        requires ready { IfSome (W.outside site.old) (IsReady self.old) }
        ensures told { (events : List Event) → IsSpelledChange change.now events
            → Told (Adds self.old self.new events result) (W.outside site.old) (W.outside site.new) }
        ensures answer { (events : List Event) → IsSpelledChange change.now events
            → AddAnswer self.old self.new change.now.number events result (W.faults site.old) (W.faults site.new) }
    {
        match open_behind(site, self.file, self.gate, &change.chunk) {
            Ok(()) => {
                self.gate += change.chunk.len() as u64;
                self.kept = change.number;
                Ok(())
            }
            Err(_) => {
                self.closed = true;
                Err(JournalError::SiteFault)
            }
        }
    }
}

/// Whether a file whose next gate stands at a place keeps within its limit, with so many bytes behind that gate.
pub fn has_room(gate: u64, size: u64) -> bool
    ensures yes { result ≡ true → gate + (size + 1) ≤ 2 ^ 40 }
    ensures no { result ≡ false → 2 ^ 40 < gate + (size + 1) }
{
    gate < MOST_STORE && size < MOST_STORE - gate
}
