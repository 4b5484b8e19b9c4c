//! Drives in a session that go through no road which is open to destination traffic alone.
use crate::session_tests::{SESSION, check_output, check_status, empty_site};
use crate::store_tests::RAISE;
use last_words::Status;
use road_base::NoMemory;
use std::alloc::Global;
use std::process::Abort;
use std::test::Fail;

/// Three ways in a row, of which the middle one is open to destination traffic alone.
const ROW: &[u8] = b"n1 v1 x0.001 y0\nn2 v1 x0.002 y0\nn3 v1 x0.003 y0\nn4 v1 x0.004 y0\n\
    w10 v1 Thighway=residential Nn1,n2\nw11 v1 Thighway=residential,access=destination Nn2,n3\n\
    w14 v1 Thighway=residential Nn3,n4\n";

const CREATE: &[&str] = &["town", "create", "1"];

/// These runs, one behind another on one site, each with its input and done, and all that they put.
fn check_runs(
    rt: &impl Abort,
    alloc: Global,
    runs: &[(&[&str], &[u8])],
    output: &[u8],
) -> Result<(), NoMemory> {
    let mut site = empty_site(alloc);
    for (words, input) in runs {
        check_status(rt, alloc, words, input, &mut site, Status::Done)?;
    }
    check_output(rt, alloc, &site, &[output])
}

/// Profile 1 knows no zones. Under profile 2 a drive may begin in the middle and may end there.
#[test]
fn a_raised_store_lets_no_drive_through(rt: HostRuntime) -> Result<(), Fail> {
    let runs: [(&[&str], &[u8]); 4] = [
        (CREATE, ROW),
        (SESSION, b"zone-drive w10.0+ w11.0+ w14.0+\n"),
        (RAISE, b""),
        (
            SESSION,
            b"zone-drive w10.0+ w11.0+ w14.0+\ndrive w10.0+ w11.0+ w14.0+\nzone-drive w11.0+ w14.0+\n\
            zone-drive w10.0+ w11.0+ w11.0+ w14.0+\nzone-drive w10.0+ w11.0+ w14.0+ w10.0+\nzone-drive\n\
            zone-drive w10.0\n",
        ),
    ];
    let output =
        b"created 1\nlegal\nprofile 2 sequence 1\nbroken 3 through\nlegal\nlegal\nbroken 3 apart\n\
        broken 3 through\nunknown\nunknown\n";
    check_runs(&rt, rt.alloc(), &runs, output)?;
    Ok(())
}

/// There is one drive into the middle, and none past it.
#[test]
fn what_is_found_goes_through_no_zone(rt: HostRuntime) -> Result<(), Fail> {
    let runs: [(&[&str], &[u8]); 3] = [
        (CREATE, ROW),
        (RAISE, b""),
        (
            SESSION,
            b"zone-reach 1 3\nzone-reach 1 4\nreach 1 4\nzone-reach 1 9\nzone-reach 1\nzone-reach 1 3 4\n\
            zone-reach a b\nask 1 zone-reach 1 3\n",
        ),
    ];
    let output =
        b"created 1\nprofile 2 sequence 1\ndrive w10.0+ w11.0+\nnone\ndrive w10.0+ w11.0+ w14.0+\n\
        no-node 9\nunknown\nunknown\nunknown\nunknown\n";
    check_runs(&rt, rt.alloc(), &runs, output)?;
    Ok(())
}
