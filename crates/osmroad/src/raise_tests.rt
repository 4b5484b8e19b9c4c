//! Stores that are raised to profile 2.
use crate::session_tests::{check_output, check_status, empty_site};
use crate::store_tests::{AUDIT, CHECKPOINT, Case, GRAPH, RAISE, RECORD, SPELLED, check, joined};
use crate::tests::NO_GRAPH_RAISED;
use last_words::Status;
use road_base::NoMemory;
use road_io::{MemorySite, Which};
use std::alloc::Global;
use std::process::Abort;
use std::test::Fail;

/// A store with one change, of profile 1.
const STORE: &[&[u8]] = &[SPELLED, b"\x01", RECORD];

/// File B once it is raised: gate, magic, profile 2, generation 2, number 6, length, no events, and the next gate.
const RAISED: &[u8] = b"\x01OSMJRNL1\x02\0\0\0\x02\0\0\0\0\0\0\0\x06\0\0\0\0\0\0\0\
    \x08\0\0\0\0\0\0\0\0\0\0\0\0\0\0\0\0";

/// The same of profile 3, which is none.
const NO_PROFILE: &[u8] = b"\x01OSMJRNL1\x03\0\0\0\x02\0\0\0\0\0\0\0\x06\0\0\0\0\0\0\0\
    \x08\0\0\0\0\0\0\0\0\0\0\0\0\0\0\0\0";

/// File A where the store then goes on there: generation 3.
const RAISED_AGAIN: &[u8] = b"\x01OSMJRNL1\x02\0\0\0\x03\0\0\0\0\0\0\0\x06\0\0\0\0\0\0\0\
    \x08\0\0\0\0\0\0\0\0\0\0\0\0\0\0\0\0";

/// File A of a store of profile 2, of number 5, without its last gate.
const RAISED_SPELLED: &[u8] = b"\x01OSMJRNL1\x02\0\0\0\x02\0\0\0\0\0\0\0\x05\0\0\0\0\0\0\0\
    \x08\0\0\0\0\0\0\0\0\0\0\0\0\0\0\0";

/// The store is raised.
fn raise_on(rt: &impl Abort, alloc: Global, site: &mut MemorySite) -> Result<(), NoMemory> {
    check_status(rt, alloc, RAISE, b"", site, Status::Done)?;
    assert_eq!(rt; site.output(), b"profile 2 sequence 6\n".as_slice());
    assert_eq!(rt; site.file(Which::B), RAISED);
    Ok(())
}

/// The file that was live stays as it is.
#[test]
fn a_raise_goes_into_the_other_file(rt: HostRuntime) -> Result<(), Fail> {
    let alloc = rt.alloc();
    let file = joined(alloc, STORE)?;
    let a = file.to_vec(alloc)?;
    let mut site = MemorySite::new(alloc, a, Vec::new(alloc), Vec::new(alloc));
    raise_on(&rt, alloc, &mut site)?;
    assert_eq!(rt; site.file(Which::A), file.as_slice());
    Ok(())
}

/// A run over a store that was raised, which leaves file A as it is.
const SHOWS: Case = Case {
    words: GRAPH,
    input: b"",
    a: STORE,
    b: &[RAISED],
    status: Status::Done,
    output: NO_GRAPH_RAISED,
    after: STORE,
};

/// It stays of profile 2: also where it goes on in the other file, and where it is raised once more.
#[test]
fn a_raised_store_stays_so(rt: HostRuntime) -> Result<(), Fail> {
    let cases = [
        SHOWS,
        Case {
            words: AUDIT,
            output: b"conditional 0\n",
            ..SHOWS
        },
        Case {
            words: CHECKPOINT,
            output: b"checkpoint 6\n",
            after: &[RAISED_AGAIN],
            ..SHOWS
        },
        Case {
            words: RAISE,
            output: b"profile 2 sequence 6\n",
            after: &[RAISED_AGAIN],
            ..SHOWS
        },
        Case {
            words: &["town", "apply", "6"],
            a: &[RAISED_SPELLED, b"\0"],
            b: &[],
            output: b"applied 6\n",
            after: &[RAISED_SPELLED, b"\x01", RECORD],
            ..SHOWS
        },
    ];
    for case in &cases {
        check(&rt, rt.alloc(), case, &[])?;
    }
    Ok(())
}

/// There is no profile 3.
#[test]
fn another_profile_is_damage(rt: HostRuntime) -> Result<(), Fail> {
    let case = Case {
        b: &[NO_PROFILE],
        status: Status::Damaged,
        output: b"damaged b 0\n",
        ..SHOWS
    };
    check(&rt, rt.alloc(), &case, &[])?;
    Ok(())
}

/// A fork, where relation 20 lists its via ways from the to way to the from way.
const BACKWARD: &[u8] =
    b"n1 x0.001 y0\nn2 x0.002 y0\nn3 x0.003 y0\nn4 x0.004 y0\nn5 x0.005 y0\nn6 x0.006 y0\n\
    w1 Thighway=residential Nn1,n2\nw2 Thighway=residential Nn2,n3\nw3 Thighway=residential Nn3,n4\n\
    w4 Thighway=residential Nn4,n5\nw5 Thighway=residential Nn4,n6\n\
    r20 Ttype=restriction,restriction=no_u_turn Mw1@from,w3@via,w2@via,w4@to\n\
    r21 Ttype=restriction,restriction=only_right_turn Mw2@from,w3@via,w5@to\n";

/// These runs, one behind another on one site, each of which is done, and all that they put.
fn check_all(
    rt: &impl Abort,
    alloc: Global,
    runs: &[&[&str]],
    input: &[u8],
    output: &[&[u8]],
) -> Result<(), NoMemory> {
    let mut site = empty_site(alloc);
    for words in runs {
        check_status(rt, alloc, words, input, &mut site, Status::Done)?;
    }
    check_output(rt, alloc, &site, output)
}

/// Profile 2 takes the via ways in the other order.
#[test]
fn via_ways_listed_backward_are_of_use_under_profile_2(rt: HostRuntime) -> Result<(), Fail> {
    let runs: [&[&str]; 4] = [&["town", "create", "6"], AUDIT, RAISE, AUDIT];
    let output: [&[u8]; 4] = [
        b"created 6\n",
        b"r20 unused NotAnEnd\nr21 only 1\nconditional 0\n",
        b"profile 2 sequence 6\n",
        b"r20 no 1\nr21 only 1\nconditional 0\n",
    ];
    check_all(&rt, rt.alloc(), &runs, BACKWARD, &output)?;
    Ok(())
}
