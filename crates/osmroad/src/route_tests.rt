//! Drives of least cost in a session, and what shows their cost.
use crate::session_tests::{SESSION, check_output, check_status, empty_site};
use crate::store_tests::joined;
use last_words::Status;
use road_base::NoMemory;
use road_io::MemorySite;
use std::alloc::Global;
use std::process::Abort;
use std::test::Fail;

/// Three ways from one crossing: node 2 lies 0.001 degrees east of node 1, node 3 as far east of node 2, and node 4
/// twice as far.
const CROSSING: &[u8] = b"n1 v1 x0.001 y0\nn2 v1 x0.002 y0\nn3 v1 x0.003 y0\nn4 v1 x0.004 y0\n\
    w10 v1 Thighway=residential Nn1,n2\nw11 v1 Thighway=residential Nn2,n3\n\
    w12 v1 Thighway=residential Nn2,n4\n";

/// No turn from way 10 into way 11.
const NO_TURN: &[u8] =
    b"r5 v1 Ttype=restriction,restriction=no_left_turn Mw10@from,n2@via,w11@to\n";

/// Makes a store of these lines, runs the session on it, and compares what is put.
fn check_routes(
    rt: &impl Abort,
    alloc: Global,
    lines: &[&[u8]],
    input: &[u8],
    output: &[u8],
) -> Result<(), NoMemory> {
    let mut site = empty_site(alloc);
    ask_on(rt, alloc, lines, input, &mut site)?;
    check_output(rt, alloc, &site, &[b"created 4\n", output])
}

/// Makes a store of these lines on the site, and runs the session on it.
fn ask_on(
    rt: &impl Abort,
    alloc: Global,
    lines: &[&[u8]],
    input: &[u8],
    site: &mut MemorySite,
) -> Result<(), NoMemory> {
    let extract = joined(alloc, lines)?;
    check_status(
        rt,
        alloc,
        &["town", "create", "4"],
        &extract,
        site,
        Status::Done,
    )?;
    check_status(rt, alloc, SESSION, input, site, Status::Done)
}

#[test]
fn routes_cost_least(rt: HostRuntime) -> Result<(), Fail> {
    let cases: [(&[&[u8]], &[u8], &[u8]); 2] = [
        (
            &[CROSSING, NO_TURN],
            b"route 1 3\nroute 1 9\nroute 9 1\nroute 1\nroute 1 3 4\nroute a b\ncertify 1 9\n",
            b"cost 60004 drive w10.0+ w12.0+ w12.0- w11.0+\nno-node 9\nno-node 9\nunknown\nunknown\n\
            unknown\nno-node 9\n",
        ),
        (
            &[CROSSING],
            b"route 1 3\ncertify 1\ncertify a b\ncertify 1 3 4\n",
            b"cost 20002 drive w10.0+ w11.0+\nunknown\nunknown\nunknown\n",
        ),
    ];
    for (lines, input, output) in cases {
        check_routes(&rt, rt.alloc(), lines, input, output)?;
    }
    Ok(())
}

/// How often 17 bytes begin with a 1: what stands at a context that has a number.
fn numbers_in(certificate: &[u8]) -> usize {
    certificate
        .chunks(17)
        .filter(|entry| entry.first() == Some(&1))
        .count()
}

/// Each of the six contexts can be reached from node 1.
#[test]
fn a_certificate_has_a_number_a_context(rt: HostRuntime) -> Result<(), Fail> {
    let mut site = empty_site(rt.alloc());
    ask_on(
        &rt,
        rt.alloc(),
        &[CROSSING, NO_TURN],
        b"certify 1 3\n",
        &mut site,
    )?;
    let head = b"created 4\ncertificate 102\n";
    let output = site.output();
    assert!(rt; output.starts_with(head));
    assert_eq!(rt; output.len(), head.len() + 102);
    assert_eq!(rt; numbers_in(&output[head.len()..]), 6);
    Ok(())
}
