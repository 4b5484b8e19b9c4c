//! The files of a site of the system.
use crate::folders::{folder_name, make_empty};
use crate::steps::{Answer, DiskStep, with_number, without_number};
use road_io::{Failed, RealSite, Site, Which};
use std::test::Fail;
use std::{fs, io};

type FileSite<'a> = RealSite<&'a HostRuntime, io::Stdout>;

fn site_in<'a>(rt: &'a HostRuntime, folder: &str) -> Result<FileSite<'a>, Fail> {
    let a = format!(in rt.alloc(); "{folder}/map.a")?;
    let b = format!(in rt.alloc(); "{folder}/map.b")?;
    Ok(RealSite::new(rt, rt.stdout(), a, b))
}

/// Calls and what they answer. Each file is missing until the first write or cut.
const STEPS: &[(DiskStep, Answer)] = &[
    (DiskStep::Len(Which::A), Ok(0)),
    (DiskStep::Read(Which::A, 0, "...."), Ok(0)),
    (DiskStep::Sync(Which::A), Ok(0)),
    (DiskStep::Len(Which::A), Ok(0)),
    (DiskStep::Write(Which::A, 0, "hello world"), Ok(0)),
    (DiskStep::Sync(Which::A), Ok(0)),
    (DiskStep::Len(Which::A), Ok(11)),
    (DiskStep::Cut(Which::A, 5), Ok(0)),
    (DiskStep::Write(Which::A, 1, "ipp"), Ok(0)),
    (DiskStep::Sync(Which::A), Ok(0)),
    (DiskStep::Len(Which::A), Ok(5)),
    (DiskStep::Read(Which::A, 1, "ippo.."), Ok(4)),
    (DiskStep::Read(Which::A, 5, ".."), Ok(0)),
    (DiskStep::Len(Which::B), Ok(0)),
    (DiskStep::Cut(Which::B, 0), Ok(0)),
    (DiskStep::Sync(Which::B), Ok(0)),
    (DiskStep::Read(Which::B, 0, "."), Ok(0)),
];

/// The same, in a folder that isn't there.
const STEPS_NOWHERE: &[(DiskStep, Answer)] = &[
    (DiskStep::Len(Which::B), Ok(0)),
    (DiskStep::Read(Which::B, 0, "."), Ok(0)),
    (DiskStep::Sync(Which::B), Ok(0)),
    (DiskStep::Write(Which::B, 0, "x"), Err(Failed)),
    (DiskStep::Cut(Which::B, 0), Err(Failed)),
    (DiskStep::Sync(Which::B), Ok(0)),
];

const MAKES_A: &[(DiskStep, Answer)] = &[(DiskStep::Write(Which::A, 0, "hello"), Ok(0))];

/// While another site holds file A.
const STEPS_BESIDE: &[(DiskStep, Answer)] = &[
    (DiskStep::Len(Which::A), Err(Failed)),
    (DiskStep::Read(Which::A, 0, "...."), Err(Failed)),
    (DiskStep::Write(Which::A, 0, "x"), Err(Failed)),
    (DiskStep::Cut(Which::A, 0), Err(Failed)),
    (DiskStep::Sync(Which::A), Err(Failed)),
    (DiskStep::Len(Which::B), Ok(0)),
];

/// When it is let go.
const STEPS_BEHIND: &[(DiskStep, Answer)] = &[
    (DiskStep::Read(Which::A, 0, "hello..."), Ok(5)),
    (DiskStep::Write(Which::A, 0, "j"), Ok(0)),
];

const MISSING_A: &[(DiskStep, Answer)] = &[(DiskStep::Len(Which::A), Ok(0))];

/// Where file A was missing, and another site has made it since.
const STEPS_MADE_SINCE: &[(DiskStep, Answer)] = &[
    (DiskStep::Len(Which::A), Ok(0)),
    (DiskStep::Read(Which::A, 0, "...."), Ok(0)),
    (DiskStep::Sync(Which::A), Ok(0)),
    (DiskStep::Write(Which::A, 0, "x"), Err(Failed)),
    (DiskStep::Cut(Which::A, 0), Err(Failed)),
];

/// A read's answer, and whether the buffer then holds the text.
fn read(site: &mut FileSite<'_>, file: Which, at: u64, text: &str) -> (Answer, bool) {
    let mut buf = *b"........";
    let room = text.len().min(buf.len());
    let answer = with_number(site.read_at(file, at, &mut buf[..room]));
    (answer, &buf[..room] == text.as_bytes())
}

/// Whether a call answers so, and a read leaves the buffer so.
fn goes_so(site: &mut FileSite<'_>, step: DiskStep, wanted: Answer) -> bool {
    match step {
        DiskStep::Put(chunk) => without_number(site.put(chunk.as_bytes())) == wanted,
        DiskStep::Len(file) => site.file_len(file) == wanted,
        DiskStep::Read(file, at, text) => read(site, file, at, text) == (wanted, true),
        DiskStep::Write(file, at, chunk) => {
            without_number(site.write_at(file, at, chunk.as_bytes())) == wanted
        }
        DiskStep::Cut(file, len) => without_number(site.cut(file, len)) == wanted,
        DiskStep::Sync(file) => without_number(site.sync(file)) == wanted,
    }
}

/// The first of these calls that goes otherwise than it should.
fn wrong_call(site: &mut FileSite<'_>, steps: &[(DiskStep, Answer)]) -> Option<usize> {
    for (at, (step, wanted)) in steps.iter().enumerate() {
        if !goes_so(site, *step, *wanted) {
            return Some(at);
        }
    }
    None
}

/// The same for a new site on the files of a folder.
fn wrong_call_in(
    rt: &HostRuntime,
    folder: &str,
    steps: &[(DiskStep, Answer)],
) -> Result<Option<usize>, Fail> {
    let mut site = site_in(rt, folder)?;
    Ok(wrong_call(&mut site, steps))
}

/// The calls on the files of a new folder, and how many files it then has.
#[test]
fn files(rt: HostRuntime) -> Result<(), Fail> {
    let folder = folder_name(&rt, "files")?;
    make_empty(&rt, &folder)?;
    assert_eq!(rt; wrong_call_in(&rt, &folder, STEPS)?, None);
    assert_eq!(rt; fs::read_dir(&rt, &folder)?.count(), 2);
    fs::remove_dir_all(&rt, &folder)?;
    Ok(())
}

#[test]
fn no_folder(rt: HostRuntime) -> Result<(), Fail> {
    assert_eq!(rt;
        wrong_call_in(&rt, "/road_io/no/folder", STEPS_NOWHERE)?,
        None
    );
    Ok(())
}

/// The wrong calls of a site that makes file A, of another one beside it, and of that one when the first is dropped.
fn wrong_beside(rt: &HostRuntime, folder: &str) -> Result<[Option<usize>; 3], Fail> {
    let mut holder = site_in(rt, folder)?;
    let making = wrong_call(&mut holder, MAKES_A);
    let mut site = site_in(rt, folder)?;
    let beside = wrong_call(&mut site, STEPS_BESIDE);
    drop(holder);
    Ok([making, beside, wrong_call(&mut site, STEPS_BEHIND)])
}

#[test]
fn locked(rt: HostRuntime) -> Result<(), Fail> {
    let folder = folder_name(&rt, "locked")?;
    make_empty(&rt, &folder)?;
    assert_eq!(rt; wrong_beside(&rt, &folder)?, [None; 3]);
    fs::remove_dir_all(&rt, &folder)?;
    Ok(())
}

/// The wrong calls of a site that finds file A missing, of one that makes it, of the first again, and of a new one.
fn wrong_late(rt: &HostRuntime, folder: &str) -> Result<[Option<usize>; 4], Fail> {
    let mut late = site_in(rt, folder)?;
    let missing = wrong_call(&mut late, MISSING_A);
    let making = wrong_call_in(rt, folder, MAKES_A)?;
    let made = wrong_call(&mut late, STEPS_MADE_SINCE);
    Ok([
        missing,
        making,
        made,
        wrong_call_in(rt, folder, STEPS_BEHIND)?,
    ])
}

#[test]
fn made_since(rt: HostRuntime) -> Result<(), Fail> {
    let folder = folder_name(&rt, "made_since")?;
    make_empty(&rt, &folder)?;
    assert_eq!(rt; wrong_late(&rt, &folder)?, [None; 4]);
    fs::remove_dir_all(&rt, &folder)?;
    Ok(())
}
