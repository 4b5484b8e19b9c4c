//! Runs over stores in memory: what is put, how the run ends, and what the files then hold.
ghost use Rattle.std.specs.Prelude.{◌≡◌, ◌<◌};

use crate::run::run;
use crate::tests::{NO_GRAPH, USAGE};
use last_words::Status;
use road_base::{NoMemory, Steps};
use road_io::{Call, Entry, MemorySite, MemorySource, Which};
use std::alloc::Global;
use std::marker::Brand;
use std::process::Abort;
use std::sync::ledger::{Blank, Ledger};
use std::test::Fail;

/// File A of a store that was made under the number 5 of an empty extract: gate, magic, profile, generation, number,
/// length, no events, and the next gate.
pub const MADE: &[u8] = b"\x01OSMJRNL1\x01\0\0\0\x01\0\0\0\0\0\0\0\x05\0\0\0\0\0\0\0\
    \x08\0\0\0\0\0\0\0\0\0\0\0\0\0\0\0\0";

/// What `apply 6` of an empty change writes behind the gate of `MADE`.
pub const RECORD: &[u8] = b"\x06\0\0\0\0\0\0\0\x08\0\0\0\0\0\0\0\0\0\0\0\0\0\0\0\0";

/// What a run on a store is given, and what is expected of it.
#[derive(Clone, Copy)]
pub struct Case<'a> {
    pub words: &'a [&'a str],
    pub input: &'a [u8],
    /// File A and file B before the run, each in parts.
    pub a: &'a [&'a [u8]],
    pub b: &'a [&'a [u8]],
    pub status: Status,
    pub output: &'a [u8],
    /// File A after the run, in parts.
    pub after: &'a [&'a [u8]],
}

/// How a run ended, and its site.
#[derive(Drop)]
struct Outcome {
    status: Status,
    site: MemorySite,
}

/// The parts, one behind another.
pub fn joined(alloc: Global, parts: &[&[u8]]) -> Result<Vec<u8>, NoMemory> {
    let mut all = Vec::new(alloc);
    for part in parts {
        all.extend_from_slice(part)?;
    }
    Ok(all)
}

/// The case run, on a site whose calls with these numbers fail.
fn ended<L: Ledger>(
    alloc: Global,
    case: &Case,
    fails: &[u64],
    blank: Blank,
) -> Result<Outcome, NoMemory>
    requires name { blank.name ≡ L.name }
    requires parts { blank.parts ≡ L.parts }
    requires some { 0 < L.parts }
{
    let mut source = MemorySource::new(case.input.to_vec(alloc)?, Vec::new(alloc));
    let a = joined(alloc, case.a)?;
    let b = joined(alloc, case.b)?;
    let mut site = MemorySite::new(alloc, a, b, fails.to_vec(alloc)?);
    let mut steps = Steps::<L>::new(blank);
    let status = run(alloc, case.words, &mut source, &mut site, &mut steps);
    Ok(Outcome { status, site })
}

/// Compares how the run ended, what was put, and file A with what the case expects.
fn check_outcome(
    rt: &impl Abort,
    alloc: Global,
    case: &Case,
    ended: &Outcome,
) -> Result<(), NoMemory> {
    assert_eq!(rt; ended.status, case.status);
    assert_eq!(rt; ended.site.output(), case.output);
    let after = joined(alloc, case.after)?;
    assert_eq!(rt; ended.site.file(Which::A), after.as_slice());
    Ok(())
}

/// Runs the case, with faults at the calls with these numbers, and compares what is expected of it.
pub fn check(rt: &impl Abort, alloc: Global, case: &Case, fails: &[u64]) -> Result<(), NoMemory> {
    let ended = ended::<Brand>(alloc, case, fails, Blank::new(1))?;
    check_outcome(rt, alloc, case, &ended)
}

/// `create 5` of nothing.
const CREATES: Case = Case {
    words: &["town", "create", "5"],
    input: b"",
    a: &[],
    b: &[],
    status: Status::Done,
    output: b"created 5\n",
    after: &[MADE],
};

/// `apply 6` of nothing, to that store.
const APPLIES: Case = Case {
    words: &["town", "apply", "6"],
    input: b"",
    a: &[MADE],
    b: &[],
    status: Status::Done,
    output: b"applied 6\n",
    after: &[SPELLED, b"\x01", RECORD],
};

/// `MADE` without its last gate.
pub const SPELLED: &[u8] = b"\x01OSMJRNL1\x01\0\0\0\x01\0\0\0\0\0\0\0\x05\0\0\0\0\0\0\0\
    \x08\0\0\0\0\0\0\0\0\0\0\0\0\0\0\0";

/// `graph` of that store with the change.
const SHOWS: Case = Case {
    words: &["town", "graph"],
    input: b"never read",
    a: &[SPELLED, b"\x01", RECORD],
    b: &[],
    status: Status::Done,
    output: NO_GRAPH,
    after: &[SPELLED, b"\x01", RECORD],
};

#[test]
fn stores_are_made_changed_and_shown(rt: HostRuntime) -> Result<(), Fail> {
    let cases = [
        CREATES,
        APPLIES,
        SHOWS,
        // Any byte but 1 is a closed gate. Loading cuts the file there, and writes the gate again.
        Case {
            a: &[SPELLED, b"\x07", RECORD],
            after: &[MADE],
            ..SHOWS
        },
        Case {
            a: &[SPELLED],
            after: &[MADE],
            ..SHOWS
        },
        // File B is the live one, and A is left as it is.
        Case {
            a: &[b"no base"],
            b: &[MADE],
            after: &[b"no base"],
            ..SHOWS
        },
        Case {
            words: AUDIT,
            output: b"conditional 0\n",
            ..SHOWS
        },
        // Leading zeros are no part of a number.
        Case {
            words: &["town", "create", "005"],
            ..CREATES
        },
    ];
    for case in &cases {
        check(&rt, rt.alloc(), case, &[])?;
    }
    Ok(())
}

/// A run that leaves file A as it is.
const fn refuses<'a>(
    words: &'a [&'a str],
    input: &'a [u8],
    a: &'a [&'a [u8]],
    b: &'a [&'a [u8]],
    status: Status,
    output: &'a [u8],
) -> Case<'a> {
    Case {
        words,
        input,
        a,
        b,
        status,
        output,
        after: a,
    }
}

pub const CREATE: &[&str] = &["town", "create", "5"];

pub const APPLY: &[&str] = &["town", "apply", "6"];

pub const GRAPH: &[&str] = &["town", "graph"];

pub const AUDIT: &[&str] = &["town", "audit"];

pub const CHECKPOINT: &[&str] = &["town", "checkpoint"];

pub const RAISE: &[&str] = &["town", "raise"];

/// File B after a checkpoint of that store with the change: generation 2, number 6.
const REBASED: &[u8] = b"\x01OSMJRNL1\x01\0\0\0\x02\0\0\0\0\0\0\0\x06\0\0\0\0\0\0\0\
    \x08\0\0\0\0\0\0\0\0\0\0\0\0\0\0\0\0";

/// `MADE` of the last generation, which no other one follows.
const LAST_MADE: &[u8] = b"\x01OSMJRNL1\x01\0\0\0\xff\xff\xff\xff\xff\xff\xff\xff\x05\0\0\0\0\0\0\0\
    \x08\0\0\0\0\0\0\0\0\0\0\0\0\0\0\0\0";

/// `MADE` under the number 12, to which change 13 is the next one.
const MADE_OF_TWELVE: &[u8] = b"\x01OSMJRNL1\x01\0\0\0\x01\0\0\0\0\0\0\0\x0c\0\0\0\0\0\0\0\
    \x08\0\0\0\0\0\0\0\0\0\0\0\0\0\0\0\0";

const NEXT_OF_TWELVE: &[&str] = &["town", "apply", "13"];

/// `RECORD`, of one event of which no byte is there.
const RECORD_OF_ONE: &[u8] = b"\x06\0\0\0\0\0\0\0\x08\0\0\0\0\0\0\0\x01\0\0\0\0\0\0\0\0";

/// `RECORD` under the number 8.
const RECORD_OF_EIGHT: &[u8] = b"\x08\0\0\0\0\0\0\0\x08\0\0\0\0\0\0\0\0\0\0\0\0\0\0\0\0";

/// A run that leaves file A as it is: its words and its input, both files in parts, how it ends, and what it puts.
type Refusal = (
    &'static [&'static str],
    &'static [u8],
    &'static [&'static [u8]],
    &'static [&'static [u8]],
    Status,
    &'static [u8],
);

/// The files are looked at before the source, and the number before the change.
const REFUSALS: [Refusal; 17] = [
    (
        &["town", "create", "9"],
        b"z",
        &[MADE],
        &[],
        Status::StoreExists,
        b"store exists\n",
    ),
    (
        CREATE,
        b"",
        &[],
        &[MADE],
        Status::StoreExists,
        b"store exists\n",
    ),
    (
        CREATE,
        b"n1 x0\nz",
        &[],
        &[],
        Status::Refused,
        b"refused line 2 field 1 UnknownLine\n",
    ),
    (
        &["town", "apply", "8"],
        b"z",
        &[MADE],
        &[],
        Status::OutOfSequence,
        b"sequence 8 kept 5\n",
    ),
    (
        &["town", "apply", "5"],
        b"",
        &[MADE],
        &[],
        Status::OutOfSequence,
        b"sequence 5 kept 5\n",
    ),
    (
        NEXT_OF_TWELVE,
        b"n1 v1 Ta=b Tc=d x0 y0",
        &[MADE_OF_TWELVE],
        &[],
        Status::Refused,
        b"refused line 1 field 4 Repeated\n",
    ),
    (
        NEXT_OF_TWELVE,
        b"n1 x0 y0",
        &[MADE_OF_TWELVE],
        &[],
        Status::Refused,
        b"refused line 1 field 0 NoVersion\n",
    ),
    (
        NEXT_OF_TWELVE,
        b"n1 v1 Ta=%d800%",
        &[MADE_OF_TWELVE],
        &[],
        Status::Refused,
        b"refused line 1 field 3 BadEscape\n",
    ),
    (
        GRAPH,
        b"",
        &[b"\x07OSMJRNL1"],
        &[],
        Status::NoStore,
        b"no store\n",
    ),
    (APPLY, b"", &[], &[], Status::NoStore, b"no store\n"),
    (
        GRAPH,
        b"",
        &[SPELLED, b"\x01", RECORD_OF_ONE],
        &[],
        Status::Damaged,
        b"damaged a 45\n",
    ),
    (
        GRAPH,
        b"",
        &[],
        &[SPELLED, b"\x01", RECORD_OF_EIGHT],
        Status::Damaged,
        b"damaged b 45\n",
    ),
    (
        CHECKPOINT,
        b"",
        &[SPELLED, b"\x01", RECORD_OF_ONE],
        &[],
        Status::Damaged,
        b"damaged a 45\n",
    ),
    (
        CHECKPOINT,
        b"",
        &[LAST_MADE],
        &[],
        Status::Limit,
        b"limit\n",
    ),
    (
        RAISE,
        b"",
        &[SPELLED, b"\x01", RECORD_OF_ONE],
        &[],
        Status::Damaged,
        b"damaged a 45\n",
    ),
    (RAISE, b"", &[LAST_MADE], &[], Status::Limit, b"limit\n"),
    (RAISE, b"", &[], &[], Status::NoStore, b"no store\n"),
];

#[test]
fn stores_refuse(rt: HostRuntime) -> Result<(), Fail> {
    for (words, input, a, b, status, output) in REFUSALS.iter() {
        let case = refuses(words, input, a, b, *status, output);
        check(&rt, rt.alloc(), &case, &[])?;
    }
    Ok(())
}

/// `checkpoint` of that store with the change.
const CHECKPOINTS: Case = Case {
    words: CHECKPOINT,
    output: b"checkpoint 6\n",
    ..SHOWS
};

/// File B has the new base.
fn check_rebased(
    rt: &impl Abort,
    alloc: Global,
    case: &Case,
    ended: &Outcome,
) -> Result<(), NoMemory> {
    assert_eq!(rt; ended.site.file(Which::B), REBASED);
    check_outcome(rt, alloc, case, ended)
}

/// The file that was live stays as it is.
#[test]
fn a_checkpoint_goes_into_the_other_file(rt: HostRuntime) -> Result<(), Fail> {
    let ended = ended::<Brand>(rt.alloc(), &CHECKPOINTS, &[], Blank::new(1))?;
    check_rebased(&rt, rt.alloc(), &CHECKPOINTS, &ended)?;
    Ok(())
}

#[test]
fn words_ask_for_commands(rt: HostRuntime) -> Result<(), Fail> {
    let none: [&[&str]; 20] = [
        &["town", "apply"],
        &["town", "create", "18446744073709551615"],
        &["town", "create", "18446744073709551616"],
        &["town", "create", ""],
        &["town", "create", "+5"],
        &["town", "apply", "-1"],
        &["town", "graph", "5"],
        &["town"],
        &["", "graph"],
        &["-town", "graph"],
        &["-", "create", "5"],
        &["-", "inspect", "5"],
        &["-", "sample"],
        &["-", "sample", "+1"],
        &["town", "compile"],
        &["town", "compile", "2"],
        &["-", "compile", "02"],
        &["-", "compile", "3"],
        &["-", "raise"],
        &["town", "raise", "2"],
    ];
    for words in none {
        let case = Case {
            words,
            status: Status::Usage,
            output: USAGE,
            after: &[],
            ..CREATES
        };
        check(&rt, rt.alloc(), &case, &[])?;
    }
    Ok(())
}

/// A fault at any call of `graph`, the last of which is the put, ends the run there, and nothing is put.
#[test]
fn each_fault_of_the_site_ends_a_run(rt: HostRuntime) -> Result<(), Fail> {
    let store: [&[u8]; 3] = [SPELLED, b"\x01", RECORD];
    let case = refuses(GRAPH, b"", &store, &[], Status::SiteFault, b"");
    let calls = calls_to_put(&rt, rt.alloc(), &SHOWS)?;
    for n in 0..calls {
        check(&rt, rt.alloc(), &case, &[n])?;
    }
    Ok(())
}

/// Whether a call writes these bytes at this place of file A.
pub fn is_write(entry: &Entry, place: u64, bytes: &[u8]) -> bool {
    match &entry.call {
        Call::WriteAt { file, at, piece } => {
            *file == Which::A && *at == place && piece.items() == bytes
        }
        _ => false,
    }
}

/// Whether a call cuts file A to this length.
pub fn is_cut(entry: &Entry, place: u64) -> bool {
    match &entry.call {
        Call::Cut { file, len } => *file == Which::A && *len == place,
        _ => false,
    }
}

pub fn is_sync(entry: &Entry) -> bool {
    matches!(&entry.call, Call::Sync(Which::A))
}

pub fn is_put(entry: &Entry, bytes: &[u8]) -> bool {
    match &entry.call {
        Call::Put(chunk) => chunk.items() == bytes,
        _ => false,
    }
}

/// Whether the last of these calls puts the bytes.
fn ends_with_put(calls: &[Entry], bytes: &[u8]) -> bool {
    match calls {
        [.., last] => is_put(last, bytes),
        _ => false,
    }
}

/// How many calls the case makes of its site, the last of which puts its output.
fn calls_to_put(rt: &impl Abort, alloc: Global, case: &Case) -> Result<u64, NoMemory> {
    let ended = ended::<Brand>(alloc, case, &[], Blank::new(1))?;
    let calls = ended.site.calls();
    assert!(rt; ends_with_put(calls, case.output));
    Ok(calls.len() as u64)
}

/// Whether these calls add the record of `APPLIES`: the record, a sync, the gate, a sync, and the line.
fn adds_the_record(calls: &[Entry]) -> bool {
    match calls {
        [.., record, first, gate, second, line] => {
            is_write(record, 46, RECORD)
                && is_sync(first)
                && is_write(gate, 45, b"\x01")
                && is_sync(second)
                && is_put(line, b"applied 6\n")
        }
        _ => false,
    }
}

#[test]
fn a_change_is_written_behind_its_gate(rt: HostRuntime) -> Result<(), Fail> {
    let applied = ended::<Brand>(rt.alloc(), &APPLIES, &[], Blank::new(1))?;
    assert!(rt; adds_the_record(applied.site.calls()));
    Ok(())
}
