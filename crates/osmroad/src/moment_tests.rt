//! Drives at moments of civil time, in a session.
use crate::session_tests::{SESSION, VILLAGE, check_output, check_status, empty_site};
use last_words::Status;
use road_base::NoMemory;
use road_io::MemorySite;
use std::alloc::Global;
use std::process::Abort;
use std::test::Fail;

/// Way 202 of the village has `access:conditional=no @ (22:00-06:00)`; 2024-05-06 is a Monday. A date that the calendar
/// doesn't have, a time that the day doesn't have, a line without a moment or without a step, and one with a word that
/// is no step are no messages.
const DRIVES: &[u8] = b"drive w202.0+\n\
    drive-at 2024-05-06T23:00 w202.0+\ndrive-at 2024-05-06T05:59 w202.0+\n\
    drive-at 2024-05-06T06:00 w202.0+\ndrive-at 2024-05-06T12:00 w202.0+\n\
    drive-at 2024-05-06T12:00 w201.0+ w201.1+ w202.0+\n\
    drive-at 2023-02-29T12:00 w202.0+\ndrive-at 2024-02-29T12:00 w202.0+\n\
    drive-at 2024-05-06T24:00 w202.0+\ndrive-at 2024-5-6T12:00 w202.0+\n\
    drive-at 2024-05-06T12:00\ndrive-at w202.0+\ndrive-at\n\
    drive-at 2024-05-06T12:00 w202.0+ w202\n\
    graph 2024-05-06T23:00\nroute 101\ncertify a b\nroute 101 104 105\n";

const VERDICTS: &[u8] = b"created 5000\nlegal\n\
    broken 1 closed access:conditional\nbroken 1 closed access:conditional\nlegal\nlegal\n\
    broken 3 no 303\nunknown\nlegal\nunknown\nunknown\nunknown\nunknown\nunknown\nunknown\n\
    unknown\nunknown\nunknown\nunknown\n";

/// The village as a store on the site.
fn make_on(rt: &impl Abort, alloc: Global, site: &mut MemorySite) -> Result<(), NoMemory> {
    let create = ["town", "create", "5000"];
    check_status(rt, alloc, &create, VILLAGE, site, Status::Done)
}

#[test]
fn drives_are_judged_at_moments(rt: HostRuntime) -> Result<(), Fail> {
    let mut site = empty_site(rt.alloc());
    make_on(&rt, rt.alloc(), &mut site)?;
    check_status(&rt, rt.alloc(), SESSION, DRIVES, &mut site, Status::Done)?;
    check_output(&rt, rt.alloc(), &site, &[VERDICTS])?;
    Ok(())
}
