//! A file read part by part: its base, then its records up to the first that isn't open.
ghost use Rattle.std.specs.Prelude.{◌≡◌, ◌+◌, ◌<◌, ◌≤◌, ◌^◌, true, IfOk, IfErr, IfSome, OnOk};
ghost use Rattle.road_base.specs.Profiles.{IsProfile};
ghost use Rattle.road_io.specs.Told.{Told};
ghost use Rattle.sequence_journal.specs.Journal.{CountsFaults};
ghost use Rattle.sequence_journal.specs.Windows.{Holds};
ghost use Rattle.sequence_journal.specs.Reading.{ReadsBase, ReadsNext, Judges, IsReadError};

use crate::error::JournalError;
use crate::heads::{FoundBase, find_base};
use crate::journal::follows;
use crate::layout::{FIELDS, HEAD};
use crate::records::open_record;
use crate::window::Window;
use object_codec::decode;
use road_base::{Event, MOST_STORE, is_profile};
use road_io::{Site, Which};
use std::alloc::Global;

/// What is read of a file's history, up to a gate.
#[derive(Drop)]
pub struct ReadHistory {
    /// The length of the file.
    pub len: u64,
    pub generation: u64,
    pub profile: u32,
    pub kept: u64,
    /// Where the next gate stands, or would stand.
    pub gate: u64,
    pub events: Vec<Event>,
}

/// Reads a file and judges it: NoStore, TooLarge and Damaged in this order. At no time more than one part of the file,
/// the base or a record, stands in memory beside the events, and nothing behind that part is read.
pub fn judge<W: Site>(alloc: Global, site: &mut W, file: Which) -> Result<ReadHistory, JournalError>
    ensures told { Told (Judges file result) (W.outside site.old) (W.outside site.new) }
    ensures within { IfOk result (λ r. (r.gate ≤ r.len) × (r.len ≤ 2 ^ 40)) }
    ensures known { IfOk result (λ r. IsProfile r.profile) }
    ensures named { IfErr result (IsReadError file) }
    ensures counts { CountsFaults (W.faults site.old) (W.faults site.new) result }
{
    let Some(found) = find_base(site, file)? else {
        return Err(JournalError::NoStore);
    };
    if found.len > MOST_STORE {
        return Err(JournalError::TooLarge);
    }
    let mut window = Window::new(alloc);
    let mut history = read_base(alloc, site, file, &mut window, found)?;
    while read_next(alloc, site, file, &mut window, &mut history)? {}
    Ok(history)
}

/// Reads the base whose head was found.
fn read_base<W: Site>(
    alloc: Global,
    site: &mut W,
    file: Which,
    window: &mut Window,
    found: FoundBase,
) -> Result<ReadHistory, JournalError>
    requires within { 37 + found.head.size ≤ found.len }
    requires small { found.len ≤ 2 ^ 40 }
    requires holds { IfSome (W.outside site.old) (Holds file window.old) }
    ensures told { Told (ReadsBase file found result) (W.outside site.old) (W.outside site.new) }
    ensures holds { OnOk result (IfSome (W.outside site.new) (Holds file window.new)) }
    ensures within { IfOk result (λ r. (r.gate ≤ r.len) × (r.len ≤ 2 ^ 40)) }
    ensures known { IfOk result (λ r. IsProfile r.profile) }
    ensures named { IfErr result (IsReadError file) }
    ensures counts { CountsFaults (W.faults site.old) (W.faults site.new) result }
{
    let head = found.head;
    if !is_profile(head.profile) {
        return Err(JournalError::Damaged { file, offset: 0 });
    }
    let size = head.size as usize;
    window.show(alloc, site, file, HEAD as u64, size)?;
    let bytes = window.front(HEAD as u64, size);
    let shown = bytes.len();
    if shown < size {
        return Err(JournalError::NoStore);
    }
    let Some(events) = decode(alloc, bytes)? else {
        return Err(JournalError::Damaged { file, offset: 0 });
    };
    Ok(ReadHistory {
        len: found.len,
        generation: head.generation,
        profile: head.profile,
        kept: head.number,
        gate: HEAD as u64 + head.size,
        events,
    })
}

/// Reads one record more, and answers whether one is open.
fn read_next<W: Site>(
    alloc: Global,
    site: &mut W,
    file: Which,
    window: &mut Window,
    history: &mut ReadHistory,
) -> Result<bool, JournalError>
    requires within { history.old.gate ≤ history.old.len }
    requires small { history.old.len ≤ 2 ^ 40 }
    requires holds { IfSome (W.outside site.old) (Holds file window.old) }
    ensures told { Told (ReadsNext file history.old history.new result) (W.outside site.old) (W.outside site.new) }
    ensures holds { OnOk result (IfSome (W.outside site.new) (Holds file window.new)) }
    ensures len { history.new.len ≡ history.old.len }
    ensures profile { history.new.profile ≡ history.old.profile }
    ensures within { OnOk result (history.new.gate ≤ history.new.len) }
    ensures further { IfOk result (λ more. more ≡ true → history.old.gate < history.new.gate) }
    ensures named { IfErr result (IsReadError file) }
    ensures counts { CountsFaults (W.faults site.old) (W.faults site.new) result }
{
    let gate = history.gate;
    let damaged = JournalError::Damaged { file, offset: gate };
    let Some(fields) = open_record(alloc, site, file, window, history.len, gate)? else {
        return Ok(false);
    };
    if !follows(history.kept, fields.number) {
        return Err(damaged);
    }
    let bytes = window.front(gate + FIELDS as u64, fields.size as usize);
    let Some(mut more) = decode(alloc, bytes)? else {
        return Err(damaged);
    };
    history.events.append(&mut more)?;
    history.kept = fields.number;
    history.gate = gate + FIELDS as u64 + fields.size;
    Ok(true)
}
