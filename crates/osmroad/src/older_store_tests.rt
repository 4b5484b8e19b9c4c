//! Stores whose files an older program wrote, which knew profile 1 alone: they open as before, under that profile, go
//! on as before, and can be raised.
use crate::session_tests::{SESSION, check_output, check_status};
use crate::store_tests::{AUDIT, CHECKPOINT, Case, GRAPH, check, joined};
use crate::tests::{NO_GRAPH, STREET_GRAPH};
use last_words::Status;
use road_base::NoMemory;
use road_io::{MemorySite, Which};
use std::alloc::Global;
use std::process::Abort;
use std::test::Fail;

/// File A behind `create 4` of the street without its middle node, up to its last gate: a base of generation 1, nodes 1
/// and 3, and way 10.
const CREATED: &[u8] =
    b"\x01OSMJRNL1\x01\0\0\0\x01\0\0\0\0\0\0\0\x04\0\0\0\0\0\0\0\x8e\0\0\0\0\0\0\0\
    \x03\0\0\0\0\0\0\0\
    \0\x01\0\0\0\0\0\0\0\x01\0\0\0\x01\0\0\0\0\x01\0\0\0\0\0\0\0\0\
    \0\x03\0\0\0\0\0\0\0\x01\0\0\0\x01\0\0\0\0\x01\x20\x4e\0\0\0\0\0\0\
    \x01\x0a\0\0\0\0\0\0\0\x01\0\0\0\x01\x01\0\0\0\x07\0\0\0\0\0\0\0highway\x0b\0\0\0\0\0\0\0residential\
    \x03\0\0\0\x01\0\0\0\0\0\0\0\x02\0\0\0\0\0\0\0\x03\0\0\0\0\0\0\0";

/// What stands there behind that gate, once `apply 5` brought node 2.
const CHANGE: &[u8] = b"\x05\0\0\0\0\0\0\0\x23\0\0\0\0\0\0\0\
    \x01\0\0\0\0\0\0\0\
    \0\x02\0\0\0\0\0\0\0\x01\0\0\0\x01\0\0\0\0\x01\x10\x27\0\0\0\0\0\0\
    \0";

/// What `checkpoint` then wrote to file B, behind the generation: the base's number 5, and the objects.
const OBJECTS: &[u8] = b"\x05\0\0\0\0\0\0\0\xa9\0\0\0\0\0\0\0\
    \x04\0\0\0\0\0\0\0\
    \0\x01\0\0\0\0\0\0\0\x01\0\0\0\x01\0\0\0\0\x01\0\0\0\0\0\0\0\0\
    \0\x02\0\0\0\0\0\0\0\x01\0\0\0\x01\0\0\0\0\x01\x10\x27\0\0\0\0\0\0\
    \0\x03\0\0\0\0\0\0\0\x01\0\0\0\x01\0\0\0\0\x01\x20\x4e\0\0\0\0\0\0\
    \x01\x0a\0\0\0\0\0\0\0\x01\0\0\0\x01\x01\0\0\0\x07\0\0\0\0\0\0\0highway\x0b\0\0\0\0\0\0\0residential\
    \x03\0\0\0\x01\0\0\0\0\0\0\0\x02\0\0\0\0\0\0\0\x03\0\0\0\0\0\0\0\
    \0";

/// What stands in front of it: an open gate, the magic, the profile, and the generation.
const SECOND: &[u8] = b"\x01OSMJRNL1\x01\0\0\0\x02\0\0\0\0\0\0\0";

/// The same of the third generation, under profile 2.
const THIRD_RAISED: &[u8] = b"\x01OSMJRNL1\x02\0\0\0\x03\0\0\0\0\0\0\0";

/// The store as it was made, with its change, and with its checkpoint.
const MADE: &[&[u8]] = &[CREATED, b"\0"];

const CHANGED: &[&[u8]] = &[CREATED, b"\x01", CHANGE];

const REBASED: &[&[u8]] = &[SECOND, OBJECTS];

/// A run that is done, and leaves file A as it is.
const fn shows<'a>(
    words: &'a [&'a str],
    input: &'a [u8],
    a: &'a [&'a [u8]],
    b: &'a [&'a [u8]],
    output: &'a [u8],
) -> Case<'a> {
    Case {
        words,
        input,
        a,
        b,
        status: Status::Done,
        output,
        after: a,
    }
}

const CUT: &[u8] = b"state sequence 4 ways 0 pieces 0 contexts 0 arcs 0\n";

const MENDED: &[u8] = b"state sequence 5 ways 1 pieces 2 contexts 2 arcs 2\n";

#[test]
fn older_stores_are_shown(rt: HostRuntime) -> Result<(), Fail> {
    let cases = [
        shows(GRAPH, b"", MADE, &[], NO_GRAPH),
        shows(GRAPH, b"", CHANGED, &[], STREET_GRAPH),
        shows(GRAPH, b"", CHANGED, REBASED, STREET_GRAPH),
        shows(AUDIT, b"", MADE, &[], b"conditional 0\n"),
        shows(AUDIT, b"", CHANGED, REBASED, b"conditional 0\n"),
        shows(SESSION, b"state\n", MADE, &[], CUT),
        shows(SESSION, b"state\n", CHANGED, &[], MENDED),
        shows(SESSION, b"state\n", CHANGED, REBASED, MENDED),
    ];
    for case in &cases {
        check(&rt, rt.alloc(), case, &[])?;
    }
    Ok(())
}

/// A site with these two files.
fn site_of(alloc: Global, a: &[&[u8]], b: &[&[u8]]) -> Result<MemorySite, NoMemory> {
    let a = joined(alloc, a)?;
    let b = joined(alloc, b)?;
    Ok(MemorySite::new(alloc, a, b, Vec::new(alloc)))
}

/// The file has these parts.
fn check_file(
    rt: &impl Abort,
    alloc: Global,
    site: &MemorySite,
    file: Which,
    parts: &[&[u8]],
) -> Result<(), NoMemory> {
    let wanted = joined(alloc, parts)?;
    assert_eq!(rt; site.file(file), wanted.as_slice());
    Ok(())
}

/// Runs the words on the site, which are done.
fn do_on(
    rt: &impl Abort,
    alloc: Global,
    words: &[&str],
    input: &[u8],
    site: &mut MemorySite,
) -> Result<(), NoMemory> {
    check_status(rt, alloc, words, input, site, Status::Done)
}

/// A change and a checkpoint write the bytes that the older program wrote, and `raise` the same objects under profile
/// 2.
#[test]
fn older_stores_go_on(rt: HostRuntime) -> Result<(), Fail> {
    let alloc = rt.alloc();
    let mut site = site_of(alloc, MADE, &[])?;
    do_on(
        &rt,
        alloc,
        &["town", "apply", "5"],
        b"n2 v1 x0.001 y0\n",
        &mut site,
    )?;
    check_file(&rt, alloc, &site, Which::A, CHANGED)?;
    do_on(&rt, alloc, CHECKPOINT, b"", &mut site)?;
    check_file(&rt, alloc, &site, Which::A, CHANGED)?;
    check_file(&rt, alloc, &site, Which::B, REBASED)?;
    do_on(&rt, alloc, &["town", "raise"], b"", &mut site)?;
    check_file(&rt, alloc, &site, Which::A, &[THIRD_RAISED, OBJECTS])?;
    check_file(&rt, alloc, &site, Which::B, REBASED)?;
    do_on(&rt, alloc, SESSION, b"state\n", &mut site)?;
    let told: [&[u8]; 2] = [b"applied 5\ncheckpoint 5\nprofile 2 sequence 5\n", MENDED];
    check_output(&rt, alloc, &site, &told)?;
    Ok(())
}
