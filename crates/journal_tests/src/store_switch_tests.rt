//! Stores in memory: made, loaded, with a fault at each call, and stopped at each call.
use road_base::Sequence;
use road_io::{Call, Entry, MemorySite, Which};
use sequence_journal::{Journal, JournalError};
use std::alloc::{AllocError, Global};
use std::test::Fail;
use store_switch::{create_store, load_store};

/// A base of generation 1 with the number 5 and no events, and the gate behind it.
pub const BASE: [u8; 46] = *b"\x01OSMJRNL1\x01\0\0\0\x01\0\0\0\0\0\0\0\x05\0\0\0\0\0\0\0\
    \x08\0\0\0\0\0\0\0\0\0\0\0\0\0\0\0\0";

/// The file, the generation and the kept number of a journal.
pub type Told = (Which, u64, u64);

pub type Answer = Result<Told, JournalError>;

/// The store that is made.
const MADE: Answer = Ok((Which::A, 1, 5));

/// Gate, profile, generation and number of a file's base.
type Head = [u8; 4];

/// What is loaded of two files with these heads.
const LOADS: [(&str, Head, Head, Answer); 12] = [
    ("A alone", [1, 1, 1, 5], [0, 1, 9, 9], Ok((Which::A, 1, 5))),
    ("B alone", [0, 1, 9, 9], [1, 1, 1, 5], Ok((Which::B, 1, 5))),
    (
        "B is newer",
        [1, 1, 1, 5],
        [1, 1, 2, 7],
        Ok((Which::B, 2, 7)),
    ),
    (
        "A is newer",
        [1, 1, 3, 8],
        [1, 1, 2, 7],
        Ok((Which::A, 3, 8)),
    ),
    ("a tie", [1, 1, 2, 5], [1, 1, 2, 7], Ok((Which::A, 2, 5))),
    (
        "neither is open",
        [0, 1, 1, 5],
        [2, 1, 2, 7],
        Err(JournalError::NoStore),
    ),
    (
        "A is older, and of no profile",
        [1, 3, 1, 5],
        [1, 1, 2, 7],
        Ok((Which::B, 2, 7)),
    ),
    (
        "B is newer, and of no profile",
        [1, 1, 1, 5],
        [1, 3, 2, 7],
        Err(JournalError::Damaged {
            file: Which::B,
            offset: 0,
        }),
    ),
    (
        "A has the same generation, and no profile",
        [1, 0, 2, 5],
        [1, 1, 2, 7],
        Err(JournalError::Damaged {
            file: Which::A,
            offset: 0,
        }),
    ),
    (
        "A is older, and of profile 2",
        [1, 2, 1, 5],
        [1, 1, 2, 7],
        Ok((Which::B, 2, 7)),
    ),
    (
        "B is newer, and of profile 2",
        [1, 1, 1, 5],
        [1, 2, 2, 7],
        Ok((Which::B, 2, 7)),
    ),
    (
        "both are of profile 2",
        [1, 2, 3, 8],
        [1, 2, 2, 7],
        Ok((Which::A, 3, 8)),
    ),
];

pub fn file([gate, profile, generation, number]: Head) -> [u8; 46] {
    let mut bytes = BASE;
    bytes[0] = gate;
    bytes[9] = profile;
    bytes[13] = generation;
    bytes[21] = number;
    bytes
}

/// A site of these two files, on which the calls with these numbers fail.
pub fn site_of(alloc: Global, a: &[u8], b: &[u8], fails: &[u64]) -> Result<MemorySite, AllocError> {
    let a = a.to_vec(alloc)?;
    let b = b.to_vec(alloc)?;
    let fails = fails.to_vec(alloc)?;
    Ok(MemorySite::new(alloc, a, b, fails))
}

pub fn told(journal: &Journal) -> Told {
    (journal.file(), journal.generation(), journal.kept().0)
}

fn create(alloc: Global, site: &mut MemorySite) -> Answer {
    let journal = create_store(alloc, site, Sequence(5), &[])?;
    Ok(told(&journal))
}

pub fn load(alloc: Global, site: &mut MemorySite) -> Answer {
    let loaded = load_store(alloc, site)?;
    Ok(told(&loaded.journal))
}

pub fn load_of(alloc: Global, a: &[u8], b: &[u8]) -> Result<Answer, AllocError> {
    let mut site = site_of(alloc, a, b, &[])?;
    Ok(load(alloc, &mut site))
}

#[test]
fn creates(rt: HostRuntime) -> Result<(), Fail> {
    let mut site = site_of(rt.alloc(), &[], &[], &[])?;
    assert_eq!(rt; create(rt.alloc(), &mut site), MADE);
    assert_eq!(rt; site.file(Which::A), BASE.as_slice());
    assert_eq!(rt; site.file(Which::B).len(), 0);
    assert_eq!(rt;
        create(rt.alloc(), &mut site),
        Err(JournalError::StoreExists)
    );
    assert_eq!(rt; load(rt.alloc(), &mut site), MADE);
    Ok(())
}

#[test]
fn creates_beside_b(rt: HostRuntime) -> Result<(), Fail> {
    let mut site = site_of(rt.alloc(), b"no base", &BASE, &[])?;
    assert_eq!(rt;
        create(rt.alloc(), &mut site),
        Err(JournalError::StoreExists)
    );
    assert_eq!(rt; site.file(Which::A), b"no base".as_slice());
    Ok(())
}

#[test]
fn loads(rt: HostRuntime) -> Result<(), Fail> {
    for (name, a, b, wanted) in LOADS.iter() {
        let answer = load_of(rt.alloc(), &file(*a), &file(*b))?;
        assert_eq!(rt; answer, *wanted, "{name}");
    }
    Ok(())
}

/// A store made with a fault at one call, made again, and loaded.
fn create_with_fault(alloc: Global, n: u64) -> Result<[Answer; 3], AllocError> {
    let mut site = site_of(alloc, &[], &[], &[n])?;
    let first = create(alloc, &mut site);
    let second = create(alloc, &mut site);
    Ok([first, second, load(alloc, &mut site)])
}

/// Two syncs, two heads of two calls each, and eight calls for the base. Behind a fault of the last one the store is
/// there.
#[test]
fn creates_after_each_fault(rt: HostRuntime) -> Result<(), Fail> {
    let exists = Err(JournalError::StoreExists);
    for n in 0..14 {
        let second = if n < 13 { MADE } else { exists };
        let answers = create_with_fault(rt.alloc(), n)?;
        assert_eq!(rt; answers, [Err(JournalError::SiteFault), second, MADE]);
    }
    Ok(())
}

/// A store whose last gate is missing, loaded with a fault at one call, and again.
fn load_with_fault(alloc: Global, n: u64) -> Result<[Answer; 2], AllocError> {
    let mut site = site_of(alloc, &BASE[..45], &file([1, 1, 0, 5]), &[n])?;
    let first = load(alloc, &mut site);
    Ok([first, load(alloc, &mut site)])
}

/// Two syncs, two heads of two calls each, the head again, the base's bytes, the fields of no record, and four calls
/// for the end.
#[test]
fn loads_after_each_fault(rt: HostRuntime) -> Result<(), Fail> {
    for n in 0..14 {
        let answers = load_with_fault(rt.alloc(), n)?;
        assert_eq!(rt; answers, [Err(JournalError::SiteFault), MADE]);
    }
    Ok(())
}

fn changes_a_file(call: &Call) -> bool {
    matches!(call, Call::WriteAt { .. } | Call::Cut { .. })
}

/// Whether none of these calls changes a file.
pub fn change_no_file(calls: &[Entry]) -> bool {
    calls.iter().all(|entry| !changes_a_file(&entry.call))
}

/// A store whose last gate is there and closed: nothing is written while it is loaded.
#[test]
fn loads_without_a_write(rt: HostRuntime) -> Result<(), Fail> {
    let mut site = site_of(rt.alloc(), &file([1, 1, 1, 7]), &file([1, 1, 2, 5]), &[])?;
    assert_eq!(rt; load(rt.alloc(), &mut site), Ok((Which::B, 2, 5)));
    assert!(rt; change_no_file(site.calls()));
    Ok(())
}

/// Bytes with a chunk in its place.
fn overwritten(alloc: Global, bytes: &[u8], at: u64, chunk: &[u8]) -> Result<Vec<u8>, AllocError> {
    let at = bytes.len().min(at as usize);
    let end = bytes.len().min(at + chunk.len());
    let mut new = bytes[..at].to_vec(alloc)?;
    new.extend_from_slice(chunk)?;
    new.extend_from_slice(&bytes[end..])?;
    Ok(new)
}

/// A chunk of which a stop leaves all, the first half, or other bytes.
fn torn(alloc: Global, chunk: &[u8], way: u8) -> Result<Vec<u8>, AllocError> {
    let mut new = chunk.to_vec(alloc)?;
    match way {
        0 => {}
        1 => new.truncate(chunk.len() / 2),
        2 => new.fill(0),
        3 => new.fill(1),
        _ => new.fill(255),
    }
    Ok(new)
}

/// What a stop in a call on a file leaves of it, of which these bytes were on the disk, and for 0 what the call leads
/// to.
pub fn left_by(alloc: Global, bytes: &[u8], call: &Call, way: u8) -> Result<Vec<u8>, AllocError> {
    match call {
        Call::WriteAt { at, piece, .. } => {
            let written = torn(alloc, piece.items(), way)?;
            overwritten(alloc, bytes, *at, &written)
        }
        Call::Cut { len, .. } => bytes[..bytes.len().min(*len as usize)].to_vec(alloc),
        _ => bytes.to_vec(alloc),
    }
}

/// A call made on a file with these bytes.
pub fn make_call(alloc: Global, bytes: &mut Vec<u8>, call: &Call) -> Result<(), AllocError> {
    *bytes = left_by(alloc, bytes, call, 0)?;
    Ok(())
}

/// What is loaded after a stop in a call on file A, of which these bytes were on the disk.
fn load_stopped(alloc: Global, bytes: &[u8], call: &Call, way: u8) -> Result<Answer, AllocError> {
    let image = left_by(alloc, bytes, call, way)?;
    load_of(alloc, &image, &[])
}

/// How often a stop in a call leaves the store, where it leaves none else. None where it leaves another answer.
fn stores_left_by(alloc: Global, bytes: &[u8], call: &Call) -> Result<Option<u8>, AllocError> {
    let mut stores: u8 = 0;
    for way in 0..5 {
        let answer = load_stopped(alloc, bytes, call, way)?;
        if answer == MADE {
            stores = stores.saturating_add(1);
        } else if answer != Err(JournalError::NoStore) {
            return Ok(None);
        }
    }
    Ok(Some(stores))
}

/// Whether stops in the call with this number leave the store as often as they should, where this call opens it.
fn is_wanted(n: usize, opens: usize, stores: Option<u8>) -> bool {
    match stores {
        Some(stores) => n == opens || stores == if n < opens { 0 } else { 5 },
        None => false,
    }
}

/// The calls made on file A with these bytes, and the first of them in which a stop leaves what it shouldn't.
fn wrong_stop(
    alloc: Global,
    bytes: &mut Vec<u8>,
    calls: &[Entry],
    opens: usize,
) -> Result<Option<usize>, AllocError> {
    for (n, entry) in calls.iter().enumerate() {
        if !is_wanted(n, opens, stores_left_by(alloc, bytes, &entry.call)?) {
            return Ok(Some(n));
        }
        make_call(alloc, bytes, &entry.call)?;
    }
    Ok(None)
}

/// A stop in each of these calls, on file A with these bytes: it leaves no store before the call with this number, and
/// none but the store behind it. The first call in which it leaves another.
fn stops_in(
    alloc: Global,
    opening: &[u8],
    calls: &[Entry],
    opens: usize,
) -> Result<Option<usize>, AllocError> {
    let mut bytes = opening.to_vec(alloc)?;
    wrong_stop(alloc, &mut bytes, calls, opens)
}

fn stops_while_creating(alloc: Global) -> Result<(Answer, Option<usize>), AllocError> {
    let mut site = site_of(alloc, &[], &[], &[])?;
    let answer = create(alloc, &mut site);
    Ok((answer, stops_in(alloc, &[], site.calls(), 12)?))
}

fn stops_while_loading(alloc: Global) -> Result<(Answer, Option<usize>), AllocError> {
    let mut site = site_of(alloc, &BASE[..45], &[], &[])?;
    let answer = load(alloc, &mut site);
    Ok((answer, stops_in(alloc, &BASE[..45], site.calls(), 0)?))
}

/// The call that opens a new store is the last write, behind which comes one sync. A store that is loaded stands all
/// the time.
#[test]
fn stops(rt: HostRuntime) -> Result<(), Fail> {
    assert_eq!(rt; stops_while_creating(rt.alloc())?, (MADE, None));
    assert_eq!(rt; stops_while_loading(rt.alloc())?, (MADE, None));
    Ok(())
}
