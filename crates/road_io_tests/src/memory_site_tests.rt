//! A site in memory.
use crate::steps::{Answer, DiskStep, with_number, without_number};
use road_io::{Call, Entry, Failed, MemorySite, Site, Which};
use std::alloc::{AllocError, Global};
use std::test::Fail;

/// Calls, what they answer, and the files A and B and the output after them.
const STEPS: [(DiskStep, Answer, [&str; 3]); 20] = [
    (DiskStep::Put("ab"), Ok(0), ["hello", "", "ab"]),
    (DiskStep::Len(Which::A), Ok(5), ["hello", "", "ab"]),
    (DiskStep::Put("cd"), Err(Failed), ["hello", "", "ab"]),
    (
        DiskStep::Write(Which::A, 5, " you"),
        Ok(0),
        ["hello you", "", "ab"],
    ),
    (
        DiskStep::Write(Which::A, 1, "ipp"),
        Ok(0),
        ["hippo you", "", "ab"],
    ),
    (
        DiskStep::Write(Which::B, 0, "x"),
        Err(Failed),
        ["hippo you", "", "ab"],
    ),
    (
        DiskStep::Write(Which::B, 0, "road"),
        Ok(0),
        ["hippo you", "road", "ab"],
    ),
    (DiskStep::Cut(Which::A, 3), Ok(0), ["hip", "road", "ab"]),
    (
        DiskStep::Cut(Which::B, 1),
        Err(Failed),
        ["hip", "road", "ab"],
    ),
    (DiskStep::Sync(Which::A), Ok(0), ["hip", "road", "ab"]),
    (DiskStep::Sync(Which::B), Err(Failed), ["hip", "road", "ab"]),
    (DiskStep::Len(Which::B), Err(Failed), ["hip", "road", "ab"]),
    (DiskStep::Len(Which::B), Ok(4), ["hip", "road", "ab"]),
    (
        DiskStep::Write(Which::A, 2, "tch"),
        Ok(0),
        ["hitch", "road", "ab"],
    ),
    (DiskStep::Put(""), Ok(0), ["hitch", "road", "ab"]),
    (DiskStep::Cut(Which::B, 4), Ok(0), ["hitch", "road", "ab"]),
    (DiskStep::Put("c"), Ok(0), ["hitch", "road", "abc"]),
    (
        DiskStep::Read(Which::A, 3, "ch.."),
        Ok(2),
        ["hitch", "road", "abc"],
    ),
    (
        DiskStep::Read(Which::B, 4, ".."),
        Ok(0),
        ["hitch", "road", "abc"],
    ),
    (
        DiskStep::Read(Which::B, 1, "...."),
        Err(Failed),
        ["hitch", "road", "abc"],
    ),
];

const FAILS: [u64; 6] = [2, 5, 8, 10, 11, 19];

/// A read's answer, and whether the buffer then holds the text.
fn read(site: &mut MemorySite, file: Which, at: u64, text: &str) -> (Answer, bool) {
    let mut buf = *b"........";
    let room = text.len().min(buf.len());
    let answer = with_number(site.read_at(file, at, &mut buf[..room]));
    (answer, &buf[..room] == text.as_bytes())
}

/// A write that stands within the file.
fn write(site: &mut MemorySite, file: Which, at: u64, chunk: &str) -> Option<Answer> {
    if at > site.file(file).len() as u64 {
        return None;
    }
    Some(without_number(site.write_at(file, at, chunk.as_bytes())))
}

/// A cut to a length within the file.
fn cut(site: &mut MemorySite, file: Which, len: u64) -> Option<Answer> {
    if len > site.file(file).len() as u64 {
        return None;
    }
    Some(without_number(site.cut(file, len)))
}

/// Whether a call answers so, and a read leaves the buffer so.
fn goes_so(site: &mut MemorySite, step: DiskStep, wanted: Answer) -> bool {
    match step {
        DiskStep::Put(chunk) => without_number(site.put(chunk.as_bytes())) == wanted,
        DiskStep::Len(file) => site.file_len(file) == wanted,
        DiskStep::Read(file, at, text) => read(site, file, at, text) == (wanted, true),
        DiskStep::Write(file, at, chunk) => write(site, file, at, chunk) == Some(wanted),
        DiskStep::Cut(file, len) => cut(site, file, len) == Some(wanted),
        DiskStep::Sync(file) => without_number(site.sync(file)) == wanted,
    }
}

fn is_step(call: &Call, step: DiskStep) -> bool {
    match (call, step) {
        (Call::Put(put), DiskStep::Put(chunk)) => put.items() == chunk.as_bytes(),
        (Call::FileLen(of), DiskStep::Len(file)) => *of == file,
        (Call::ReadAt { file: of, at, len }, DiskStep::Read(file, from, text)) => {
            *of == file && *at == from && *len == text.len() as u64
        }
        (
            Call::WriteAt {
                file: of,
                at,
                piece,
            },
            DiskStep::Write(file, from, text),
        ) => *of == file && *at == from && piece.items() == text.as_bytes(),
        (Call::Cut { file: of, len }, DiskStep::Cut(file, to)) => *of == file && *len == to,
        (Call::Sync(of), DiskStep::Sync(file)) => *of == file,
        _ => false,
    }
}

fn holds(site: &MemorySite, file_a: &str, file_b: &str, output: &str) -> bool {
    let files = site.file(Which::A) == file_a.as_bytes()
        && site.file(Which::B) == file_b.as_bytes();
    files && site.output() == output.as_bytes()
}

fn is_entry(at: usize, entry: &Entry) -> bool {
    match STEPS.get(at) {
        Some((step, wanted, _)) => is_step(&entry.call, *step) && entry.failed == wanted.is_err(),
        None => false,
    }
}

/// The first call that goes otherwise than it should, or leaves something else.
fn wrong_call(site: &mut MemorySite) -> Option<usize> {
    for (at, (step, wanted, left)) in STEPS.iter().enumerate() {
        if !goes_so(site, *step, *wanted) || !holds(site, left[0], left[1], left[2]) {
            return Some(at);
        }
    }
    None
}

/// Whether these are the entries of the calls, in order.
fn is_record(calls: &[Entry]) -> bool {
    calls.len() == STEPS.len()
        && calls
            .iter()
            .enumerate()
            .all(|(at, entry)| is_entry(at, entry))
}

fn site(alloc: Global) -> Result<MemorySite, AllocError> {
    let a = b"hello".to_vec(alloc)?;
    let fails = FAILS.to_vec(alloc)?;
    Ok(MemorySite::new(alloc, a, Vec::new(alloc), fails))
}

#[test]
fn calls(rt: HostRuntime) -> Result<(), Fail> {
    let mut site = site(rt.alloc())?;
    assert_eq!(rt; wrong_call(&mut site), None);
    assert!(rt; is_record(site.calls()));
    Ok(())
}
