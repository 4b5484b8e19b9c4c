//! A store that goes on in its other file: the bytes, the calls, and what faults and stops leave. And which parts of a
//! file are read to load it.
use crate::store_switch_tests::{
    Answer, BASE, Told, change_no_file, file, left_by, load, load_of, make_call, site_of, told,
};
use road_base::{Body, Event, Key, Node, NodeId, Sequence, Tags};
use road_io::{Call, Entry, MemorySite, Which};
use sequence_journal::JournalError;
use std::alloc::{AllocError, Global};
use std::test::Fail;
use store_switch::{checkpoint, create_store, load_store};

/// File A with change 6, which has no events: an open gate stands before the base and the change, and a closed one
/// behind them.
const CHANGED: [u8; 71] = *b"\x01OSMJRNL1\x01\0\0\0\x01\0\0\0\0\0\0\0\x05\0\0\0\0\0\0\0\
    \x08\0\0\0\0\0\0\0\0\0\0\0\0\0\0\0\
    \x01\x06\0\0\0\0\0\0\0\x08\0\0\0\0\0\0\0\0\0\0\0\0\0\0\0\0";

/// The base of generation 2 with the number 6 and no events, and the gate behind it.
const NEXT: [u8; 46] = *b"\x01OSMJRNL1\x01\0\0\0\x02\0\0\0\0\0\0\0\x06\0\0\0\0\0\0\0\
    \x08\0\0\0\0\0\0\0\0\0\0\0\0\0\0\0\0";

/// The store with change 6, and its checkpoint.
const OLD: Answer = Ok((Which::A, 1, 6));

const NEW: Answer = Ok((Which::B, 2, 6));

/// How many calls a checkpoint makes, the last one of which but one opens the new base.
const CALLS: usize = 8;

/// A store loaded, and its checkpoint with these events made, under its own profile.
fn go_on(alloc: Global, site: &mut MemorySite, events: &[Event]) -> Answer {
    let mut loaded = load_store(alloc, site)?;
    let profile = loaded.journal.profile();
    checkpoint(alloc, site, &mut loaded.journal, profile, events)?;
    Ok(told(&loaded.journal))
}

/// A store loaded, and raised to profile 2. It answers the journal's profile too.
fn raise(alloc: Global, site: &mut MemorySite) -> Result<(Told, u32), JournalError> {
    let mut loaded = load_store(alloc, site)?;
    if loaded.journal.profile() <= 2 {
        checkpoint(alloc, site, &mut loaded.journal, 2, &[])?;
    }
    Ok((told(&loaded.journal), loaded.journal.profile()))
}

/// A store loaded, and a change added.
fn add(alloc: Global, site: &mut MemorySite, number: u64, events: &[Event]) -> Answer {
    let mut loaded = load_store(alloc, site)?;
    loaded
        .journal
        .append(alloc, site, Sequence(number), events)?;
    Ok(told(&loaded.journal))
}

/// A call on file B: a cut to nothing, a sync, or bytes written at a place.
enum Wanted {
    Cut,
    Sync,
    Write(u64, &'static [u8]),
}

const WANTED: [Wanted; CALLS] = [
    Wanted::Cut,
    Wanted::Sync,
    Wanted::Write(0, b"\0"),
    Wanted::Sync,
    Wanted::Write(
        1,
        b"OSMJRNL1\x01\0\0\0\x02\0\0\0\0\0\0\0\x06\0\0\0\0\0\0\0\x08\0\0\0\0\0\0\0\0\0\0\0\0\0\0\0\0",
    ),
    Wanted::Sync,
    Wanted::Write(0, b"\x01"),
    Wanted::Sync,
];

/// Whether a call is the wanted one.
fn is_call(entry: &Entry, wanted: &Wanted) -> bool {
    match (&entry.call, wanted) {
        (Call::Cut { file, len }, Wanted::Cut) => *file == Which::B && *len == 0,
        (Call::Sync(file), Wanted::Sync) => *file == Which::B,
        (Call::WriteAt { file, at, piece }, Wanted::Write(place, bytes)) => {
            *file == Which::B && *at == *place && piece.items() == *bytes
        }
        _ => false,
    }
}

/// The first of the last eight calls that isn't the wanted one.
fn other_call(calls: &[Entry]) -> Option<usize> {
    let from = calls.len().saturating_sub(CALLS);
    for (n, (entry, wanted)) in calls.iter().skip(from).zip(WANTED.iter()).enumerate() {
        if !is_call(entry, wanted) {
            return Some(n);
        }
    }
    None
}

#[test]
fn goes_on(rt: HostRuntime) -> Result<(), Fail> {
    let mut site = site_of(rt.alloc(), &CHANGED, b"old", &[])?;
    assert_eq!(rt; go_on(rt.alloc(), &mut site, &[]), NEW);
    assert_eq!(rt; site.file(Which::A), CHANGED.as_slice());
    assert_eq!(rt; site.file(Which::B), NEXT.as_slice());
    assert!(rt; site.calls().len() >= CALLS);
    assert_eq!(rt; other_call(site.calls()), None);
    Ok(())
}

/// The base that a checkpoint writes under profile 2, of this generation.
fn raised(generation: u8) -> [u8; 46] {
    let mut bytes = NEXT;
    bytes[9] = 2;
    bytes[13] = generation;
    bytes
}

/// The other file gets profile 2. A checkpoint keeps it, and so does raising the store once more.
#[test]
fn raises(rt: HostRuntime) -> Result<(), Fail> {
    let mut site = site_of(rt.alloc(), &CHANGED, &[], &[])?;
    assert_eq!(rt; raise(rt.alloc(), &mut site), Ok(((Which::B, 2, 6), 2)));
    assert_eq!(rt; site.file(Which::A), CHANGED.as_slice());
    assert_eq!(rt; site.file(Which::B), raised(2).as_slice());
    assert_eq!(rt; go_on(rt.alloc(), &mut site, &[]), Ok((Which::A, 3, 6)));
    assert_eq!(rt; site.file(Which::A), raised(3).as_slice());
    assert_eq!(rt; raise(rt.alloc(), &mut site), Ok(((Which::B, 4, 6), 2)));
    assert_eq!(rt; site.file(Which::B), raised(4).as_slice());
    Ok(())
}

/// The last u64 as generation, and the base's number 5.
fn last_generation() -> [u8; 46] {
    let mut bytes = BASE;
    bytes[13..21].fill(255);
    bytes
}

#[test]
fn goes_on_within_the_generations(rt: HostRuntime) -> Result<(), Fail> {
    let a = last_generation();
    let mut site = site_of(rt.alloc(), &a, &[], &[])?;
    assert_eq!(rt;
        go_on(rt.alloc(), &mut site, &[]),
        Err(JournalError::TooLarge)
    );
    assert!(rt; change_no_file(site.calls()));
    assert_eq!(rt;
        add(rt.alloc(), &mut site, 6, &[]),
        Ok((Which::A, u64::MAX, 6))
    );
    Ok(())
}

/// A checkpoint with a journal that is closed, after the store was loaded.
fn go_on_closed(alloc: Global, site: &mut MemorySite) -> Answer {
    let mut loaded = load_store(alloc, site)?;
    loaded.journal.close();
    let profile = loaded.journal.profile();
    checkpoint(alloc, site, &mut loaded.journal, profile, &[])?;
    Ok(told(&loaded.journal))
}

#[test]
fn goes_on_unless_closed(rt: HostRuntime) -> Result<(), Fail> {
    let mut site = site_of(rt.alloc(), &last_generation(), &[], &[])?;
    assert_eq!(rt;
        go_on_closed(rt.alloc(), &mut site),
        Err(JournalError::SiteFault)
    );
    assert!(rt; change_no_file(site.calls()));
    Ok(())
}

/// A store loaded, its checkpoint made, and change 7 added by the same journal.
fn go_on_and_add(alloc: Global, site: &mut MemorySite) -> Answer {
    let mut loaded = load_store(alloc, site)?;
    let profile = loaded.journal.profile();
    checkpoint(alloc, site, &mut loaded.journal, profile, &[])?;
    loaded.journal.append(alloc, site, Sequence(7), &[])?;
    Ok(told(&loaded.journal))
}

#[test]
fn adds_to_the_other_file(rt: HostRuntime) -> Result<(), Fail> {
    let mut site = site_of(rt.alloc(), &CHANGED, &[], &[])?;
    let added = Ok((Which::B, 2, 7));
    assert_eq!(rt; go_on_and_add(rt.alloc(), &mut site), added);
    assert_eq!(rt; site.file(Which::A), CHANGED.as_slice());
    assert_eq!(rt; site.file(Which::B).len(), 71);
    assert_eq!(rt; load(rt.alloc(), &mut site), added);
    assert_eq!(rt; go_on(rt.alloc(), &mut site, &[]), Ok((Which::A, 3, 7)));
    assert_eq!(rt; site.file(Which::A).len(), 46);
    Ok(())
}

/// Whether a checkpoint after the store was loaded fails by the site, and closes the journal.
fn is_closed_by_a_fault(alloc: Global, site: &mut MemorySite) -> Result<bool, JournalError> {
    let mut loaded = load_store(alloc, site)?;
    let profile = loaded.journal.profile();
    let answer = checkpoint(alloc, site, &mut loaded.journal, profile, &[]);
    Ok(answer == Err(JournalError::SiteFault) && loaded.journal.closed())
}

/// Whether a fault at the call of this number, in a checkpoint, closes the journal, and what is loaded then.
fn load_after_fault(
    alloc: Global,
    n: u64,
) -> Result<(Result<bool, JournalError>, Answer), AllocError> {
    let mut site = site_of(alloc, &CHANGED, &[], &[n])?;
    let closed = is_closed_by_a_fault(alloc, &mut site);
    Ok((closed, load(alloc, &mut site)))
}

/// The store loaded, and how many calls that makes.
fn load_changed(alloc: Global) -> Result<(Answer, u64), AllocError> {
    let mut site = site_of(alloc, &CHANGED, &[], &[])?;
    let answer = load(alloc, &mut site);
    Ok((answer, site.calls().len() as u64))
}

/// Behind a fault of the last call, a sync, the new base is open.
#[test]
fn closes_after_each_fault(rt: HostRuntime) -> Result<(), Fail> {
    let (answer, from) = load_changed(rt.alloc())?;
    assert_eq!(rt; answer, OLD);
    for n in 0..8 {
        let loaded = if n < 7 { OLD } else { NEW };
        let answers = load_after_fault(rt.alloc(), from.saturating_add(n))?;
        assert_eq!(rt; answers, (Ok(true), loaded));
    }
    Ok(())
}

/// What is loaded after a stop in a call on file B, of which these bytes were on the disk.
fn load_stopped(alloc: Global, b: &[u8], call: &Call, way: u8) -> Result<Answer, AllocError> {
    let image = left_by(alloc, b, call, way)?;
    load_of(alloc, &CHANGED, &image)
}

/// How often a stop in a call on file B leaves the checkpoint, where it leaves the old store else. None where it leaves
/// another answer.
fn checkpoints_left_by(alloc: Global, b: &[u8], call: &Call) -> Result<Option<u8>, AllocError> {
    let mut new: u8 = 0;
    for way in 0..5 {
        let answer = load_stopped(alloc, b, call, way)?;
        if answer == NEW {
            new = new.saturating_add(1);
        } else if answer != OLD {
            return Ok(None);
        }
    }
    Ok(Some(new))
}

/// Whether stops in the call with this number leave the checkpoint as often as they should.
fn is_wanted(n: usize, new: Option<u8>) -> bool {
    match new {
        Some(new) => n == 6 || new == if n < 6 { 0 } else { 5 },
        None => false,
    }
}

/// The calls made on file B with these bytes, and the first of them in which a stop leaves what it shouldn't.
fn wrong_stop(
    alloc: Global,
    b: &mut Vec<u8>,
    calls: &[Entry],
) -> Result<Option<usize>, AllocError> {
    let from = calls.len().saturating_sub(CALLS);
    for (n, entry) in calls.iter().skip(from).enumerate() {
        if !is_wanted(n, checkpoints_left_by(alloc, b, &entry.call)?) {
            return Ok(Some(n));
        }
        make_call(alloc, b, &entry.call)?;
    }
    Ok(None)
}

/// The first of these calls in which a stop leaves what it shouldn't, file B having these bytes at first, and whether
/// it has the new base in the end.
fn walk_calls(
    alloc: Global,
    old: &[u8],
    calls: &[Entry],
) -> Result<(Option<usize>, bool), AllocError> {
    let mut b = old.to_vec(alloc)?;
    let wrong = wrong_stop(alloc, &mut b, calls)?;
    Ok((wrong, b.as_slice() == NEXT.as_slice()))
}

/// A checkpoint, file B having these bytes at first, and what stops in its calls leave.
fn stops_beside(alloc: Global, old: &[u8]) -> Result<(Answer, (Option<usize>, bool)), AllocError> {
    let mut site = site_of(alloc, &CHANGED, old, &[])?;
    let answer = go_on(alloc, &mut site, &[]);
    Ok((answer, walk_calls(alloc, old, site.calls())?))
}

/// A stop in each call of a checkpoint: file A stays live until the new base is opened, by the last write, and file B
/// is from then on.
#[test]
fn stops_while_it_goes_on(rt: HostRuntime) -> Result<(), Fail> {
    let wanted = (NEW, (None, true));
    assert_eq!(rt; stops_beside(rt.alloc(), &[])?, wanted);
    assert_eq!(rt; stops_beside(rt.alloc(), b"no base")?, wanted);
    assert_eq!(rt; stops_beside(rt.alloc(), &file([1, 1, 1, 3]))?, wanted);
    Ok(())
}

/// A node that is visible.
fn node(alloc: Global, number: i64) -> Event {
    Event {
        key: Key::Node(NodeId(number)),
        version: 1,
        body: Body::Node(Node {
            tags: Tags::new(),
            location: None,
        }),
    }
}

fn deletion(number: i64) -> Event {
    Event {
        key: Key::Node(NodeId(number)),
        version: 2,
        body: Body::Deleted,
    }
}

fn is_deletion(event: &Event) -> bool {
    matches!(event.body, Body::Deleted)
}

/// The base 5 with the nodes 1 and 2, and change 6, which deletes node 1.
fn two_nodes(alloc: Global, site: &mut MemorySite) -> Answer {
    let nodes = [node(alloc, 1), node(alloc, 2)];
    create_store(alloc, site, Sequence(5), &nodes)?;
    add(alloc, site, 6, &[deletion(1)])
}

/// A checkpoint of that, in which node 1 is a deletion.
fn go_on_with_a_deletion(alloc: Global, site: &mut MemorySite) -> Answer {
    let entries = [deletion(1), node(alloc, 2)];
    go_on(alloc, site, &entries)
}

/// The key and the version of an event, and whether it is a deletion.
type Head = (Key, u32, bool);

fn head(event: &Event) -> Head {
    (event.key, event.version, is_deletion(event))
}

/// The events' heads, where there are two.
fn two_heads(events: &[Event]) -> Option<[Head; 2]> {
    if events.len() == 2 {
        Some([head(&events[0]), head(&events[1])])
    } else {
        None
    }
}

fn load_two_heads(alloc: Global, site: &mut MemorySite) -> Result<Option<[Head; 2]>, JournalError> {
    let loaded = load_store(alloc, site)?;
    Ok(two_heads(&loaded.events))
}

/// A deletion stays in the base, as the event of its key.
#[test]
fn keeps_a_deletion(rt: HostRuntime) -> Result<(), Fail> {
    let mut site = site_of(rt.alloc(), &[], &[], &[])?;
    assert_eq!(rt; two_nodes(rt.alloc(), &mut site), OLD);
    assert_eq!(rt; go_on_with_a_deletion(rt.alloc(), &mut site), NEW);
    let first = (Key::Node(NodeId(1)), 2, true);
    let second = (Key::Node(NodeId(2)), 1, false);
    assert_eq!(rt;
        load_two_heads(rt.alloc(), &mut site),
        Ok(Some([first, second]))
    );
    Ok(())
}

/// Where a base, two records and the fields of a third one begin and end, of which the gate alone is there.
const PARTS: [(u64, u64); 4] = [(0, 45), (45, 70), (70, 95), (95, 112)];

/// Whether so many bytes from a place on lie in one of the parts.
fn lie_in_a_part(at: u64, len: u64) -> bool {
    PARTS.iter().any(|(from, end)| *from <= at && at.saturating_add(len) <= *end)
}

/// Where the last of these reads of file A begins, 0 with none. None where a read reaches behind a part.
fn last_read(calls: &[Entry], from: usize) -> Option<u64> {
    let mut last = 0;
    for entry in calls.iter().skip(from) {
        if let Call::ReadAt {
            file: Which::A,
            at,
            len,
        } = &entry.call
        {
            if !lie_in_a_part(*at, *len) {
                return None;
            }
            last = *at;
        }
    }
    Some(last)
}

/// While a file is loaded, no read reaches behind the part that is read.
#[test]
fn reads_one_part_at_a_time(rt: HostRuntime) -> Result<(), Fail> {
    let mut site = site_of(rt.alloc(), &CHANGED, &[], &[])?;
    assert_eq!(rt; add(rt.alloc(), &mut site, 7, &[]), Ok((Which::A, 1, 7)));
    let from = site.calls().len();
    assert_eq!(rt; load(rt.alloc(), &mut site), Ok((Which::A, 1, 7)));
    assert_eq!(rt; last_read(site.calls(), from), Some(95));
    Ok(())
}
