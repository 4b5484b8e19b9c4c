//! Reads and calls that fail, and stops between two calls: how a run ends, and what the store then keeps.
use crate::session_tests::{
    REFUSED_FRAMES, REFUSED_MESSAGES, SESSION, Session, VILLAGE_FOLLOWED, check_output,
    check_status, empty_site, ended, run_on,
};
use crate::store_tests::{
    APPLY, AUDIT, CHECKPOINT, CREATE, Case, GRAPH, MADE, RAISE, RECORD, SPELLED, check, is_cut,
    is_put, is_sync, is_write, joined,
};
use crate::tests::{NO_GRAPH, NO_GRAPH_RAISED, STREET_CUT, STREET_GRAPH};
use last_words::Status;
use road_base::NoMemory;
use road_io::{Call, Entry, MemorySite, Which};
use std::alloc::Global;
use std::marker::Brand;
use std::process::Abort;
use std::sync::ledger::Blank;
use std::test::Fail;

const KEPT_5: &[u8] = b"sequence 0 kept 5\n";

const KEPT_6: &[u8] = b"sequence 0 kept 6\n";

/// What a store holds: what `graph` and then `checkpoint` put, and which file is live.
#[derive(Clone, Copy)]
struct Holds<'a> {
    output: &'a [&'a [u8]],
    live: Option<Which>,
}

const NO_STORE: Holds = Holds {
    output: &[b"no store\nno store\n"],
    live: None,
};

const EMPTY_5: Holds = Holds {
    output: &[NO_GRAPH, b"checkpoint 5\n"],
    live: Some(Which::A),
};

const EMPTY_6: Holds = Holds {
    output: &[NO_GRAPH, b"checkpoint 6\n"],
    live: Some(Which::A),
};

const EMPTY_6_IN_B: Holds = Holds {
    live: Some(Which::B),
    ..EMPTY_6
};

/// The same of profile 2.
const EMPTY_6_RAISED: Holds = Holds {
    output: &[NO_GRAPH_RAISED, b"checkpoint 6\n"],
    live: Some(Which::B),
};

const EMPTY_12: Holds = Holds {
    output: &[NO_GRAPH, b"checkpoint 12\n"],
    live: Some(Which::A),
};

const EMPTY_13: Holds = Holds {
    output: &[NO_GRAPH, b"checkpoint 13\n"],
    live: Some(Which::A),
};

/// The street without its middle node, and with it.
const STREET_4: Holds = Holds {
    output: &[NO_GRAPH, b"checkpoint 4\n"],
    live: Some(Which::A),
};

const STREET_5: Holds = Holds {
    output: &[STREET_GRAPH, b"checkpoint 5\n"],
    live: Some(Which::A),
};

/// A run over a store.
#[derive(Clone, Copy)]
struct Run<'a> {
    words: &'a [&'a str],
    input: &'a [u8],
    /// The file that is written to.
    file: Which,
    output: &'a [u8],
    /// The front of the output up to the line that names what was written.
    told: &'a [u8],
    /// What the store holds without what is written, and with it.
    earlier: Holds<'a>,
    later: Holds<'a>,
}

/// A session of refused frames, and one that is accepted at its end.
const FRAMES: Run = Run {
    words: SESSION,
    input: REFUSED_MESSAGES,
    file: Which::A,
    output: FRAMES_REPLIES,
    told: FRAMES_REPLIES,
    earlier: EMPTY_12,
    later: EMPTY_13,
};

const FRAMES_REPLIES: &[u8] = b"refused 14 sequence 12\nrefused 13 line 2 field 1 UnknownLine\n\
    state sequence 12 ways 0 pieces 0 contexts 0 arcs 0\napplied 13\n";

/// A session that goes on behind the change, so that calls also fail after it was told.
const STREET_FOLLOWED: Run = Run {
    words: SESSION,
    input: b"#seq 5\nn2 v1 x0.001 y0\n#end\nstate\n",
    file: Which::A,
    output: b"applied 5\nstate sequence 5 ways 1 pieces 2 contexts 2 arcs 2\n",
    told: b"applied 5\n",
    earlier: STREET_4,
    later: STREET_5,
};

const STREET_APPLIED: Run = Run {
    words: &["town", "apply", "5"],
    input: b"n2 v1 x0.001 y0\n",
    output: b"applied 5\n",
    ..STREET_FOLLOWED
};

const EMPTY_APPLIED: Run = Run {
    words: APPLY,
    input: b"",
    file: Which::A,
    output: b"applied 6\n",
    told: b"applied 6\n",
    earlier: EMPTY_5,
    later: EMPTY_6,
};

const EMPTY_CREATED: Run = Run {
    words: CREATE,
    input: b"",
    file: Which::A,
    output: b"created 5\n",
    told: b"created 5\n",
    earlier: NO_STORE,
    later: EMPTY_5,
};

/// A checkpoint changes no number, but the file that is live.
const REBASED: Run = Run {
    words: CHECKPOINT,
    input: b"",
    file: Which::B,
    output: b"checkpoint 6\n",
    told: b"checkpoint 6\n",
    earlier: EMPTY_6,
    later: EMPTY_6_IN_B,
};

/// Raising changes the profile too.
const RAISED: Run = Run {
    words: RAISE,
    output: b"profile 2 sequence 6\n",
    told: b"profile 2 sequence 6\n",
    later: EMPTY_6_RAISED,
    ..REBASED
};

/// What only looks at a store changes nothing.
const GRAPH_SHOWN: Run = Run {
    words: GRAPH,
    input: b"",
    file: Which::A,
    output: NO_GRAPH,
    told: NO_GRAPH,
    earlier: EMPTY_6,
    later: EMPTY_6,
};

const AUDITED: Run = Run {
    words: AUDIT,
    output: b"conditional 0\n",
    ..GRAPH_SHOWN
};

/// The files of a site on a new one, which has put nothing, and whose calls with these numbers fail.
fn anew(alloc: Global, site: &MemorySite, fails: &[u64]) -> Result<MemorySite, NoMemory> {
    let a = site.file(Which::A).to_vec(alloc)?;
    let b = site.file(Which::B).to_vec(alloc)?;
    Ok(MemorySite::new(alloc, a, b, fails.to_vec(alloc)?))
}

/// The store of an extract, as it is made under this number.
fn created(alloc: Global, number: &str, extract: &[u8]) -> Result<MemorySite, NoMemory> {
    let mut site = empty_site(alloc);
    let create = ["town", "create", number];
    run_on(alloc, &create, extract, &mut site)?;
    Ok(site)
}

/// The store whose file A consists of these parts.
fn store_of(alloc: Global, a: &[&[u8]]) -> Result<MemorySite, NoMemory> {
    let file = joined(alloc, a)?;
    Ok(MemorySite::new(alloc, file, Vec::new(alloc), Vec::new(alloc)))
}

/// What a run on the site says that asks for no change of the store, and so says which number it keeps.
fn kept_on(alloc: Global, site: &mut MemorySite) -> Result<Vec<u8>, NoMemory> {
    run_on(alloc, &["town", "apply", "0"], b"", site)?;
    Ok(site.output().to_vec(alloc)?)
}

/// The same on a new site of these files.
fn kept(alloc: Global, site: &MemorySite) -> Result<Vec<u8>, NoMemory> {
    let mut after = anew(alloc, site, &[])?;
    kept_on(alloc, &mut after)
}

/// The file that a checkpoint leaves as it is: it empties the other one first.
fn live_by(calls: &[Entry]) -> Option<Which> {
    for entry in calls {
        match &entry.call {
            Call::Cut {
                file: Which::A,
                len: 0,
            } => return Some(Which::B),
            Call::Cut {
                file: Which::B,
                len: 0,
            } => return Some(Which::A),
            _ => {}
        }
    }
    None
}

/// What a store on the site shows.
#[derive(Drop)]
struct Shown {
    output: Vec<u8>,
    live: Option<Which>,
}

/// What the store on the site holds, as it shows it.
fn shown_on(alloc: Global, site: &mut MemorySite) -> Result<Shown, NoMemory> {
    run_on(alloc, GRAPH, b"", site)?;
    run_on(alloc, CHECKPOINT, b"", site)?;
    Ok(Shown {
        output: site.output().to_vec(alloc)?,
        live: live_by(site.calls()),
    })
}

/// The same on a new site of these files.
fn show_anew(alloc: Global, site: &MemorySite) -> Result<Shown, NoMemory> {
    let mut after = anew(alloc, site, &[])?;
    shown_on(alloc, &mut after)
}

fn is_shown(alloc: Global, shown: &Shown, wanted: &Holds) -> Result<bool, NoMemory> {
    let output = joined(alloc, wanted.output)?;
    Ok(shown.output.as_slice() == output.as_slice() && shown.live == wanted.live)
}

/// Whether the store may show this where the run put this: what was told is kept.
fn may_show(alloc: Global, run: &Run, output: &[u8], shown: &Shown) -> Result<bool, NoMemory> {
    if is_shown(alloc, shown, &run.later)? {
        return Ok(true);
    }
    let earlier = is_shown(alloc, shown, &run.earlier)?;
    Ok(earlier && !output.starts_with(run.told))
}

/// What a store shows that is to hold this, where the run put this.
fn check_shown(
    rt: &impl Abort,
    alloc: Global,
    run: &Run,
    output: &[u8],
    shown: &Shown,
    wanted: &Holds,
) -> Result<(), NoMemory> {
    let all = joined(alloc, wanted.output)?;
    assert_eq!(rt; shown.output.as_slice(), all.as_slice());
    assert_eq!(rt; shown.live, wanted.live);
    assert!(rt; may_show(alloc, run, output, shown)?);
    Ok(())
}

/// Whether both files are synced before one of them is changed, or anything is put.
fn settles_both(calls: &[Entry]) -> bool {
    let (mut a, mut b) = (false, false);
    for entry in calls {
        match &entry.call {
            Call::Sync(Which::A) => a = true,
            Call::Sync(Which::B) => b = true,
            Call::FileLen(_) | Call::ReadAt { .. } => {}
            _ => return a && b,
        }
    }
    a && b
}

/// How many calls the run makes of this site, where none fails. A stop behind the last one leaves what it may, too.
fn calls_on(
    rt: &impl Abort,
    alloc: Global,
    run: &Run,
    site: &mut MemorySite,
) -> Result<u64, NoMemory> {
    check_status(rt, alloc, run.words, run.input, site, Status::Done)?;
    assert_eq!(rt; site.output(), run.output);
    assert!(rt; settles_both(site.calls()));
    check_stop(rt, alloc, run, site)?;
    Ok(site.calls().len() as u64)
}

/// The same on a new site of the store's files.
fn calls_of(
    rt: &impl Abort,
    alloc: Global,
    run: &Run,
    store: &MemorySite,
) -> Result<u64, NoMemory> {
    let mut site = anew(alloc, store, &[])?;
    calls_on(rt, alloc, run, &mut site)
}

/// The run whose call with this number fails.
fn check_call(
    rt: &impl Abort,
    alloc: Global,
    run: &Run,
    store: &MemorySite,
    n: u64,
) -> Result<(), NoMemory> {
    let mut site = anew(alloc, store, &[n])?;
    check_fault(rt, alloc, run, &mut site)
}

/// The run on a site of which a call fails.
fn check_fault(
    rt: &impl Abort,
    alloc: Global,
    run: &Run,
    site: &mut MemorySite,
) -> Result<(), NoMemory> {
    check_status(rt, alloc, run.words, run.input, site, Status::SiteFault)?;
    check_stop(rt, alloc, run, site)
}

/// The run on the store, with a fault at each of its calls, and with a stop before and behind each.
fn check_calls(
    rt: &impl Abort,
    alloc: Global,
    run: &Run,
    store: &MemorySite,
) -> Result<(), NoMemory> {
    let calls = calls_of(rt, alloc, run, store)?;
    assert!(rt; calls >= 10);
    for n in 0..calls {
        check_call(rt, alloc, run, store, n)?;
    }
    Ok(())
}

/// How far a gate is on its way to the disk. The gate is the byte in front of a record or a base: that of the next
/// record is the last byte of the live file, so that the record is written behind it. It is opened alone, and last.
#[derive(Clone, Copy)]
enum Gate {
    /// It isn't opened, and nothing is pending.
    Closed,
    /// It isn't opened, and other bytes were written, the last of which stands at this place and reads as anything
    /// after a stop: the next gate behind a record, or a gate that was closed.
    Behind(u64),
    /// It was opened at this place, and reads as anything after a stop.
    Pending(u64),
    /// It is open on the disk.
    Synced,
}

impl Gate {
    /// The gate of this file behind one call more.
    fn after(self, file: Which, call: &Call) -> Gate {
        match (self, call) {
            (_, Call::WriteAt { at, piece, .. }) if piece.items() == b"\x01".as_slice() =>
                Gate::Pending(*at),
            (_, Call::WriteAt { at, piece, .. }) => Gate::Behind(last_place(*at, piece.items())),
            (_, Call::Cut { .. }) => Gate::Closed,
            (Gate::Pending(_), Call::Sync(synced)) if *synced == file => Gate::Synced,
            (Gate::Behind(_), Call::Sync(synced)) if *synced == file => Gate::Closed,
            (gate, _) => gate,
        }
    }
}

/// Where the last of these bytes stands, the first of which stands here.
fn last_place(at: u64, bytes: &[u8]) -> u64 {
    at.saturating_add(bytes.len() as u64).saturating_sub(1)
}

/// The gate of the file that is written to, behind these calls, of which those that failed did nothing.
fn gate_behind(file: Which, calls: &[Entry]) -> Gate {
    let mut gate = Gate::Closed;
    for entry in calls {
        if !entry.failed {
            gate = gate.after(file, &entry.call);
        }
    }
    gate
}

/// A stop where the run left the site: the last byte that it wrote reads as any byte until it is synced.
fn check_stop(
    rt: &impl Abort,
    alloc: Global,
    run: &Run,
    site: &MemorySite,
) -> Result<(), NoMemory> {
    let file = site.file(run.file);
    let (earlier, later) = (&run.earlier, &run.later);
    match gate_behind(run.file, site.calls()) {
        Gate::Closed => check_file(rt, alloc, run, site, file, earlier),
        Gate::Synced => check_file(rt, alloc, run, site, file, later),
        Gate::Behind(at) => check_bytes(rt, alloc, run, site, at, [earlier, earlier, earlier]),
        Gate::Pending(at) => check_bytes(rt, alloc, run, site, at, [earlier, later, earlier]),
    }
}

/// What the store holds where the byte in this place of the run's file is 0, 1 and 7.
fn check_bytes(
    rt: &impl Abort,
    alloc: Global,
    run: &Run,
    site: &MemorySite,
    at: u64,
    [closed, open, other]: [&Holds; 3],
) -> Result<(), NoMemory> {
    let file = site.file(run.file);
    for (byte, wanted) in [(0, closed), (1, open), (7, other)] {
        let left = with_byte(alloc, file, at, byte)?;
        check_file(rt, alloc, run, site, &left, wanted)?;
    }
    Ok(())
}

/// These bytes with another one in this place.
pub fn with_byte(alloc: Global, bytes: &[u8], at: u64, byte: u8) -> Result<Vec<u8>, NoMemory> {
    let mut changed = bytes.to_vec(alloc)?;
    for (n, place) in changed.iter_mut().enumerate() {
        if n as u64 == at {
            *place = byte;
        }
    }
    Ok(changed)
}

/// What the store holds where the run's file reads so after a stop, and so with more bytes behind its end. It is never
/// damaged.
fn check_file(
    rt: &impl Abort,
    alloc: Global,
    run: &Run,
    site: &MemorySite,
    file: &[u8],
    wanted: &Holds,
) -> Result<(), NoMemory> {
    let tails: [&[u8]; 2] = [&[], &[0xff; 32]];
    for tail in tails {
        let left = joined(alloc, &[file, tail])?;
        check_left(rt, alloc, run, site, left, wanted)?;
    }
    Ok(())
}

/// What the store holds where the run's file has these bytes.
fn check_left(
    rt: &impl Abort,
    alloc: Global,
    run: &Run,
    site: &MemorySite,
    left: Vec<u8>,
    wanted: &Holds,
) -> Result<(), NoMemory> {
    let stopped = with_file(alloc, site, run.file, left)?;
    check_stopped(rt, alloc, run, site.output(), &stopped, wanted)
}

/// What the store on this site is to hold, where the run put this.
fn check_stopped(
    rt: &impl Abort,
    alloc: Global,
    run: &Run,
    output: &[u8],
    stopped: &MemorySite,
    wanted: &Holds,
) -> Result<(), NoMemory> {
    let shown = show_anew(alloc, stopped)?;
    check_shown(rt, alloc, run, output, &shown, wanted)
}

/// What the store says of its number.
fn check_kept(
    rt: &impl Abort,
    alloc: Global,
    site: &MemorySite,
    number: &[u8],
) -> Result<(), NoMemory> {
    let kept = kept(alloc, site)?;
    assert_eq!(rt; kept.as_slice(), number);
    Ok(())
}

/// The site's files, one of them with these bytes.
fn with_file(
    alloc: Global,
    site: &MemorySite,
    file: Which,
    bytes: Vec<u8>,
) -> Result<MemorySite, NoMemory> {
    let none = Vec::new(alloc);
    match file {
        Which::A => {
            let b = site.file(Which::B).to_vec(alloc)?;
            Ok(MemorySite::new(alloc, bytes, b, none))
        }
        Which::B => {
            let a = site.file(Which::A).to_vec(alloc)?;
            Ok(MemorySite::new(alloc, a, bytes, none))
        }
    }
}

/// These runs, each on the same store.
fn check_runs(
    rt: &impl Abort,
    alloc: Global,
    runs: &[Run],
    store: &MemorySite,
) -> Result<(), NoMemory> {
    for run in runs {
        check_calls(rt, alloc, run, store)?;
    }
    Ok(())
}

/// A fault at any call ends a session, and the store keeps each change that the output names.
#[test]
fn a_failing_call_ends_a_session(rt: HostRuntime) -> Result<(), Fail> {
    let store = created(rt.alloc(), REFUSED_FRAMES.number, REFUSED_FRAMES.extract)?;
    check_calls(&rt, rt.alloc(), &FRAMES, &store)?;
    Ok(())
}

/// The same where the change brings a street.
#[test]
fn a_failing_call_ends_what_changes_a_street(rt: HostRuntime) -> Result<(), Fail> {
    let store = created(rt.alloc(), "4", STREET_CUT)?;
    check_runs(&rt, rt.alloc(), &[STREET_FOLLOWED, STREET_APPLIED], &store)?;
    Ok(())
}

#[test]
fn a_failing_call_ends_a_change(rt: HostRuntime) -> Result<(), Fail> {
    let store = store_of(rt.alloc(), &[MADE])?;
    check_calls(&rt, rt.alloc(), &EMPTY_APPLIED, &store)?;
    Ok(())
}

/// What makes a store.
#[test]
fn a_failing_call_ends_a_creation(rt: HostRuntime) -> Result<(), Fail> {
    let none = empty_site(rt.alloc());
    check_calls(&rt, rt.alloc(), &EMPTY_CREATED, &none)?;
    Ok(())
}

/// What changes no number, or nothing at all.
#[test]
fn a_failing_call_ends_a_checkpoint(rt: HostRuntime) -> Result<(), Fail> {
    let store = store_of(rt.alloc(), &[SPELLED, b"\x01", RECORD])?;
    check_runs(&rt, rt.alloc(), &[REBASED, GRAPH_SHOWN, AUDITED], &store)?;
    Ok(())
}

/// What changes the profile alone: the store has the one or the other.
#[test]
fn a_failing_call_ends_a_raise(rt: HostRuntime) -> Result<(), Fail> {
    let store = store_of(rt.alloc(), &[SPELLED, b"\x01", RECORD])?;
    check_calls(&rt, rt.alloc(), &RAISED, &store)?;
    Ok(())
}

/// A session of which one read fails, all that was put, and what the store then says of its number.
#[derive(Clone, Copy)]
struct Reads<'a> {
    session: Session<'a>,
    fails: u64,
    status: Status,
    output: &'a [&'a [u8]],
    kept: &'a [u8],
}

fn check_read(rt: &impl Abort, alloc: Global, reads: &Reads) -> Result<(), NoMemory> {
    let (number, extract) = (reads.session.number, reads.session.extract);
    let mut site = created(alloc, number, extract)?;
    check_read_on(rt, alloc, reads, &mut site)
}

/// The session on the store of its extract.
fn check_read_on(
    rt: &impl Abort,
    alloc: Global,
    reads: &Reads,
    site: &mut MemorySite,
) -> Result<(), NoMemory> {
    let input = reads.session.input;
    let fails = [reads.fails];
    let status = ended::<Brand>(alloc, SESSION, input, &fails, site, Blank::new(1))?;
    assert_eq!(rt; status, reads.status);
    check_output(rt, alloc, site, reads.output)?;
    check_kept(rt, alloc, site, reads.kept)
}

/// Each of two reads: the first one gives all messages, and the second one the end. What was read before a read that
/// fails is answered, and kept.
#[test]
fn a_failing_read_ends_a_session(rt: HostRuntime) -> Result<(), Fail> {
    let cases = [
        Reads {
            session: VILLAGE_FOLLOWED,
            fails: 0,
            status: Status::ReadFault,
            output: &[b"created 5000\n"],
            kept: b"sequence 0 kept 5000\n",
        },
        Reads {
            session: VILLAGE_FOLLOWED,
            fails: 1,
            status: Status::ReadFault,
            output: VILLAGE_FOLLOWED.output,
            kept: b"sequence 0 kept 5002\n",
        },
        // There is no third one.
        Reads {
            session: VILLAGE_FOLLOWED,
            fails: 2,
            status: Status::Done,
            output: VILLAGE_FOLLOWED.output,
            kept: b"sequence 0 kept 5002\n",
        },
    ];
    for reads in &cases {
        check_read(&rt, rt.alloc(), reads)?;
    }
    Ok(())
}

/// What stops in `apply 6` leave behind `SPELLED`, the number that the store then keeps, and the file once it is
/// loaded.
type Stop = (
    &'static [&'static [u8]],
    &'static [u8],
    &'static [&'static [u8]],
);

/// `RECORD` without its last gate.
const RECORD_SPELLED: &[u8] = b"\x06\0\0\0\0\0\0\0\x08\0\0\0\0\0\0\0\0\0\0\0\0\0\0\0";

/// File A with that change.
const APPLIED: &[&[u8]] = &[SPELLED, b"\x01", RECORD];

const STOPS: [Stop; 14] = [
    // Nothing was written, or the write of the record has begun: any bytes, also further ones than were written.
    (&[SPELLED, b"\0"], KEPT_5, &[MADE]),
    (&[SPELLED, b"\0", b"\x06\0\0"], KEPT_5, &[MADE]),
    (&[SPELLED, b"\0", b"\xff\xff\xff\xff\xff"], KEPT_5, &[MADE]),
    (&[SPELLED, b"\0", RECORD], KEPT_5, &[MADE]),
    (&[SPELLED, b"\0", RECORD_SPELLED, b"\x01"], KEPT_5, &[MADE]),
    // The gate was written.
    (&[SPELLED, b"\x07", RECORD], KEPT_5, &[MADE]),
    (
        &[SPELLED, b"\x07", RECORD_SPELLED, b"\x01"],
        KEPT_5,
        &[MADE],
    ),
    (&[SPELLED, b"\x01", RECORD], KEPT_6, APPLIED),
    // So, and the next gate, at the end of the record's bytes, isn't there, or reads as another byte.
    (&[SPELLED, b"\x01", RECORD_SPELLED], KEPT_6, APPLIED),
    (
        &[SPELLED, b"\x01", RECORD_SPELLED, b"\x01"],
        KEPT_6,
        APPLIED,
    ),
    (
        &[SPELLED, b"\x01", RECORD_SPELLED, b"\x07"],
        KEPT_6,
        APPLIED,
    ),
    // A stop while the store is loaded: it is cut at the gate, or the gate isn't there yet.
    (&[SPELLED], KEPT_5, &[MADE]),
    (&[SPELLED, b"\x01"], KEPT_5, &[MADE]),
    (&[SPELLED, b"\x07"], KEPT_5, &[MADE]),
];

#[test]
fn stops_leave_a_change_or_none(rt: HostRuntime) -> Result<(), Fail> {
    for (a, output, after) in STOPS.iter() {
        let case = Case {
            words: &["town", "apply", "0"],
            input: b"",
            a,
            b: &[],
            status: Status::OutOfSequence,
            output,
            after,
        };
        check(&rt, rt.alloc(), &case, &[])?;
    }
    Ok(())
}

/// Whether the last of these calls repair file A behind the base and show the graph: the file is cut at the gate,
/// synced, the gate closed, and the file synced.
fn repair_the_end(calls: &[Entry]) -> bool {
    match calls {
        [.., cut, first, gate, second, graph] => {
            is_cut(cut, 45)
                && is_sync(first)
                && is_write(gate, 45, b"\0")
                && is_sync(second)
                && is_put(graph, NO_GRAPH)
        }
        _ => false,
    }
}

#[test]
fn an_end_is_cut_and_closed(rt: HostRuntime) -> Result<(), Fail> {
    let mut site = store_of(rt.alloc(), &[SPELLED, b"\x07", RECORD])?;
    check_status(&rt, rt.alloc(), GRAPH, b"", &mut site, Status::Done)?;
    assert!(rt; repair_the_end(site.calls()));
    Ok(())
}
