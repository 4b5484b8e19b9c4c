//! Files of a store whose bytes were spelled by hand, and the calls on a site that an addition makes.
use road_base::{Event, Sequence};
use road_io::{Call, Entry, MemorySite, Which};
use sequence_journal::{BaseHead, Journal, JournalError, head, settle, write_base};
use std::alloc::{AllocError, Global};
use std::test::Fail;

/// A base of generation 1 and number 5 without events.
const BASE: &[u8] =
    b"\x01OSMJRNL1\x01\0\0\0\x01\0\0\0\0\0\0\0\x05\0\0\0\0\0\0\0\x08\0\0\0\0\0\0\0\0\0\0\0\0\0\0\0";

/// The record of change 6, without events, behind its open gate.
const RECORD: &[u8] = b"\x01\x06\0\0\0\0\0\0\0\x08\0\0\0\0\0\0\0\0\0\0\0\0\0\0\0";

/// What loading a file answers: the kept number and the length of the file after it, or a refusal.
type Answer = Result<(u64, usize), JournalError>;

const NO_STORE: Answer = Err(JournalError::NoStore);

/// Damage of file A at its first gate.
const DAMAGED_BASE: Answer = Err(JournalError::Damaged {
    file: Which::A,
    offset: 0,
});

/// Damage of file A at the gate behind the base.
const DAMAGED_RECORD: Answer = Err(JournalError::Damaged {
    file: Which::A,
    offset: 45,
});

/// A file by its parts, with a byte that is changed, and what loading it answers.
const FILES: [(&str, [&[u8]; 3], Option<(usize, u8)>, Answer); 19] = [
    ("a base", [BASE, b"", b"\0"], None, Ok((5, 46))),
    ("a record", [BASE, RECORD, b"\0"], None, Ok((6, 71))),
    (
        "no gate behind the base",
        [BASE, b"", b""],
        None,
        Ok((5, 46)),
    ),
    (
        "no gate behind the record",
        [BASE, RECORD, b""],
        None,
        Ok((6, 71)),
    ),
    (
        "a gate of 7",
        [BASE, RECORD, b"\0"],
        Some((45, 7)),
        Ok((5, 46)),
    ),
    (
        "an open gate with nothing behind it",
        [BASE, RECORD, b"\x01"],
        None,
        Ok((6, 71)),
    ),
    (
        "bytes behind the closed gate",
        [BASE, b"\0ab", b"cd"],
        None,
        Ok((5, 46)),
    ),
    (
        "a record that is cut short",
        [BASE, b"", b"\x01\x06\0\0\0\0\0\0\0\x08\0\0"],
        None,
        Ok((5, 46)),
    ),
    (
        "a record that says too many bytes",
        [BASE, RECORD, b""],
        Some((54, 9)),
        Ok((5, 46)),
    ),
    ("an empty file", [b"", b"", b""], None, NO_STORE),
    ("a closed base", [BASE, b"", b"\0"], Some((0, 0)), NO_STORE),
    (
        "another magic",
        [BASE, b"", b"\0"],
        Some((8, b'2')),
        NO_STORE,
    ),
    (
        "a base that is cut short",
        [b"\x01OSMJRNL1", b"", b"\x01"],
        None,
        NO_STORE,
    ),
    (
        "profile 2",
        [BASE, RECORD, b"\0"],
        Some((9, 2)),
        Ok((6, 71)),
    ),
    ("profile 0", [BASE, b"", b"\0"], Some((9, 0)), DAMAGED_BASE),
    ("profile 3", [BASE, b"", b"\0"], Some((9, 3)), DAMAGED_BASE),
    (
        "profile 257",
        [BASE, b"", b"\0"],
        Some((10, 1)),
        DAMAGED_BASE,
    ),
    (
        "events that no list has",
        [BASE, RECORD, b"\0"],
        Some((62, 1)),
        DAMAGED_RECORD,
    ),
    (
        "another number",
        [BASE, RECORD, b"\0"],
        Some((46, 7)),
        DAMAGED_RECORD,
    ),
];

/// A site whose file A has these bytes, and whose calls of these numbers are to fail.
fn site_of(alloc: Global, file: Vec<u8>, fails: Vec<u64>) -> MemorySite {
    MemorySite::new(alloc, file, Vec::new(alloc), fails)
}

/// The bytes of the parts in order, with a byte changed.
fn file_of(
    alloc: Global,
    parts: &[&[u8]],
    change: Option<(usize, u8)>,
) -> Result<Vec<u8>, AllocError> {
    let mut file = Vec::new(alloc);
    for part in parts {
        file.extend_from_slice(part)?;
    }
    if let Some((at, byte)) = change
        && let Some(place) = file.get_mut(at)
    {
        *place = byte;
    }
    Ok(file)
}

/// The kept number and the length of file A, after it was loaded.
fn load_a(alloc: Global, site: &mut MemorySite) -> Answer {
    let loaded = Journal::load(alloc, site, Which::A)?;
    Ok((loaded.journal.kept().0, site.file(Which::A).len()))
}

/// The same of a new site whose file A has these bytes.
fn load_of(alloc: Global, file: Vec<u8>) -> Answer {
    let mut site = site_of(alloc, file, Vec::new(alloc));
    load_a(alloc, &mut site)
}

#[test]
fn files_are_loaded_and_repaired(rt: HostRuntime) -> Result<(), Fail> {
    let alloc = rt.alloc();
    for (name, parts, change, answer) in FILES.iter() {
        let file = file_of(alloc, parts, *change)?;
        assert_eq!(rt; load_of(alloc, file), *answer, "{name}");
    }
    Ok(())
}

type HeadAnswer = Result<Option<BaseHead>, JournalError>;

/// The head of this file of a site whose file A is a base with a record, and whose file B is empty.
fn head_in(alloc: Global, file: Which) -> Result<HeadAnswer, AllocError> {
    let bytes = file_of(alloc, &[BASE, RECORD, b"\0"], None)?;
    let mut site = site_of(alloc, bytes, Vec::new(alloc));
    Ok(head(&mut site, file))
}

#[test]
fn a_head_is_read(rt: HostRuntime) -> Result<(), Fail> {
    assert!(rt; head_in(rt.alloc(), Which::A)? == Ok(Some(head_of(1))));
    assert!(rt; head_in(rt.alloc(), Which::B)? == Ok(None));
    Ok(())
}

/// The head of that base, under this profile.
fn head_of(profile: u32) -> BaseHead {
    BaseHead {
        generation: 1,
        base: Sequence(5),
        profile,
    }
}

/// A byte of the profile's field that is changed, and the profile that a head then has: whatever the field holds.
const PROFILES: [(usize, u8, u32); 4] = [(9, 0, 0), (9, 2, 2), (9, 3, 3), (12, 255, 0xff00_0001)];

/// The head of file A with this byte changed.
fn head_with(alloc: Global, at: usize, byte: u8) -> Result<HeadAnswer, AllocError> {
    let file = file_of(alloc, &[BASE, b"\0"], Some((at, byte)))?;
    let mut site = site_of(alloc, file, Vec::new(alloc));
    Ok(head(&mut site, Which::A))
}

#[test]
fn a_head_has_any_profile(rt: HostRuntime) -> Result<(), Fail> {
    for (at, byte, profile) in PROFILES {
        let found = head_with(rt.alloc(), at, byte)?;
        assert_eq!(rt; found, Ok(Some(head_of(profile))), "profile {profile}");
    }
    Ok(())
}

/// A base without events in file A, generation 1 and number 5, under profile 1, and then change 6 without events. It
/// answers the journal's profile.
fn write_and_add(alloc: Global, site: &mut MemorySite) -> Result<u32, JournalError> {
    settle(site, Which::A)?;
    let none: [Event; 0] = [];
    let mut journal = write_base(alloc, site, Which::A, 1, Sequence(5), 1, &none)?;
    journal.append(alloc, site, Sequence(6), &none)?;
    Ok(journal.profile())
}

/// The same under profile 2.
fn write_and_add_raised(alloc: Global, site: &mut MemorySite) -> Result<u32, JournalError> {
    settle(site, Which::A)?;
    let none: [Event; 0] = [];
    let mut journal = write_base(alloc, site, Which::A, 1, Sequence(5), 2, &none)?;
    journal.append(alloc, site, Sequence(6), &none)?;
    Ok(journal.profile())
}

/// The profile of the journal on file A, after it was loaded.
fn load_profile(alloc: Global, site: &mut MemorySite) -> Result<u32, JournalError> {
    let loaded = Journal::load(alloc, site, Which::A)?;
    Ok(loaded.journal.profile())
}

/// Whether file A of the site is the base with the record and a closed gate, with a byte changed.
fn has_record(
    alloc: Global,
    site: &MemorySite,
    change: Option<(usize, u8)>,
) -> Result<bool, AllocError> {
    let whole = file_of(alloc, &[BASE, RECORD, b"\0"], change)?;
    Ok(site.file(Which::A) == whole.as_slice())
}

#[test]
fn a_base_has_its_profile(rt: HostRuntime) -> Result<(), Fail> {
    let alloc = rt.alloc();
    let mut site = site_of(alloc, Vec::new(alloc), Vec::new(alloc));
    assert!(rt; write_and_add_raised(alloc, &mut site) == Ok(2));
    assert!(rt; has_record(alloc, &site, Some((9, 2)))?);
    assert!(rt; load_profile(alloc, &mut site) == Ok(2));
    Ok(())
}

/// The last calls of an addition: where a chunk is written and how long it is, or a sync.
fn shape(entry: &Entry) -> Option<(u64, usize)> {
    match &entry.call {
        Call::WriteAt { file: _, at, piece } => Some((*at, piece.items().len())),
        _ => None,
    }
}

/// The calls of an addition, behind nine others.
const SHAPES: [Option<(u64, usize)>; 4] = [Some((46, 25)), None, Some((45, 1)), None];

fn are_shapes(calls: &[Entry]) -> bool {
    calls
        .iter()
        .zip(SHAPES.iter())
        .all(|(entry, wanted)| shape(entry) == *wanted)
}

/// Whether these are nine calls, and behind them those of an addition.
fn ends_with_the_addition(calls: &[Entry]) -> bool {
    calls.len() == 13 && are_shapes(&calls[9..])
}

#[test]
fn an_addition_writes_behind_the_gate_and_opens_it(rt: HostRuntime) -> Result<(), Fail> {
    let alloc = rt.alloc();
    let mut site = site_of(alloc, Vec::new(alloc), Vec::new(alloc));
    assert!(rt; write_and_add(alloc, &mut site) == Ok(1));
    assert!(rt; has_record(alloc, &site, None)?);
    assert!(rt; ends_with_the_addition(site.calls()));
    Ok(())
}

/// A base as above, and change 6 without events, spelled before it is added.
fn spell_and_add(alloc: Global, site: &mut MemorySite) -> Result<(), JournalError> {
    settle(site, Which::A)?;
    let none: [Event; 0] = [];
    let mut journal = write_base(alloc, site, Which::A, 1, Sequence(5), 1, &none)?;
    journal.check(Sequence(6))?;
    let Some(change) = journal.spell(alloc, Sequence(6), &none)? else {
        return Err(JournalError::TooLarge);
    };
    journal.add(site, &change)
}

#[test]
fn a_spelled_change_is_added(rt: HostRuntime) -> Result<(), Fail> {
    let alloc = rt.alloc();
    let mut site = site_of(alloc, Vec::new(alloc), Vec::new(alloc));
    assert!(rt; spell_and_add(alloc, &mut site).is_ok());
    assert!(rt; has_record(alloc, &site, None)?);
    Ok(())
}

/// What an addition leaves whose call of this number fails: the kept number of a load behind it.
const STOPS: [(u64, u64); 4] = [(0, 5), (1, 5), (2, 5), (3, 6)];

/// Adds change 6 to a file of change 5, where a call is to fail. It answers whether the journal is then closed, and
/// refuses a further addition without a call more, and what a load keeps behind that.
fn add_to(alloc: Global, site: &mut MemorySite) -> Result<(bool, u64), JournalError> {
    let loaded = Journal::load(alloc, site, Which::A)?;
    let mut journal = loaded.journal;
    let none: [Event; 0] = [];
    let Err(JournalError::SiteFault) = journal.append(alloc, site, Sequence(6), &none) else {
        return Ok((false, 0));
    };
    let calls = site.calls().len();
    let again = journal.append(alloc, site, Sequence(6), &none);
    let refused = journal.closed() && again == Err(JournalError::SiteFault);
    let quiet = site.calls().len() == calls;
    let kept = load_a(alloc, site)?.0;
    Ok((refused && quiet, kept))
}

/// A site whose file A is a base, and whose calls of these numbers are to fail.
fn base_site(alloc: Global, fails: &[u64]) -> Result<MemorySite, AllocError> {
    let file = file_of(alloc, &[BASE, b"\0"], None)?;
    Ok(site_of(alloc, file, fails.to_vec(alloc)?))
}

/// How many calls a load of file A makes on a new site.
fn calls_to_load(alloc: Global, site: &mut MemorySite) -> u64 {
    let _answer = load_a(alloc, site);
    site.calls().len() as u64
}

/// How many calls loading a base makes.
fn calls_of_a_load(alloc: Global) -> Result<u64, AllocError> {
    let mut site = base_site(alloc, &[])?;
    Ok(calls_to_load(alloc, &mut site))
}

/// What adding to a base answers, where the call of this number fails.
fn add_with_fault(alloc: Global, call: u64) -> Result<(bool, u64), JournalError> {
    let mut site = base_site(alloc, &[call])?;
    add_to(alloc, &mut site)
}

#[test]
fn a_call_that_fails_closes_the_journal(rt: HostRuntime) -> Result<(), Fail> {
    let first = calls_of_a_load(rt.alloc())?;
    for (call, kept) in STOPS {
        let added = add_with_fault(rt.alloc(), first.saturating_add(call));
        assert_eq!(rt; added, Ok((true, kept)), "call {call}");
    }
    Ok(())
}

/// What the journal on file A says of the number.
fn check_on(alloc: Global, site: &mut MemorySite, number: u64) -> Result<(), JournalError> {
    let loaded = Journal::load(alloc, site, Which::A)?;
    loaded.journal.check(Sequence(number))
}

/// What the journal of a base says of the number.
fn checked(alloc: Global, number: u64) -> Result<(), JournalError> {
    let mut site = base_site(alloc, &[])?;
    check_on(alloc, &mut site, number)
}

#[test]
fn only_the_next_number_is_added(rt: HostRuntime) {
    for number in [0, 4, 5, 7, u64::MAX] {
        let refused = JournalError::OutOfSequence {
            kept: Sequence(5),
            got: Sequence(number),
        };
        assert_eq!(rt; checked(rt.alloc(), number), Err(refused));
    }
    assert_eq!(rt; checked(rt.alloc(), 6), Ok(()));
}

/// A base and so many records without events behind it, each with the next number, and a closed gate.
fn long_file(alloc: Global, records: u32) -> Result<Vec<u8>, AllocError> {
    let mut file = Vec::new(alloc);
    file.extend_from_slice(BASE)?;
    for number in 0..records {
        file.push(1)?;
        file.extend_from_slice(&(u64::from(number) + 6).to_le_bytes())?;
        file.extend_from_slice(&8u64.to_le_bytes())?;
        file.extend_from_slice(&0u64.to_le_bytes())?;
    }
    file.push(0)?;
    Ok(file)
}

#[test]
fn a_long_file_is_loaded(rt: HostRuntime) -> Result<(), Fail> {
    let alloc = rt.alloc();
    let file = long_file(alloc, 3000)?;
    assert!(rt; load_of(alloc, file) == Ok((3005, 75_046)));
    Ok(())
}
