//! Readers who pin states of a session.
use crate::session_tests::{Session, check};
use crate::tests::STREET_CUT;
use last_words::Status;
use std::test::Fail;

/// The change brings the street, and the state from before it is asked.
const STREET_READ: Session = Session {
    number: "4",
    extract: STREET_CUT,
    input: b"pin 1\n#seq 5\nn2 v1 x0.001 y0\n#end\nask 1 state\nstate\npin 1\nrelease 1\n\
        ask 1 state\nrelease 1\n",
    status: Status::Done,
    output: &[
        b"created 4\npinned 1 sequence 4\napplied 5\n\
        state sequence 4 ways 0 pieces 0 contexts 0 arcs 0\n\
        state sequence 5 ways 1 pieces 2 contexts 2 arcs 2\npin 1 busy\nreleased 1\nno pin 1\n\
        no pin 1\n",
    ],
};

/// As many readers as may pin, and one more.
const FULL: Session = Session {
    number: "1",
    extract: b"",
    input: b"\
        pin 0\npin 1\npin 2\npin 3\npin 4\npin 5\npin 6\npin 7\npin 8\npin 9\npin 10\npin 11\n\
        pin 12\npin 13\npin 14\npin 15\npin 16\npin 17\npin 18\npin 19\npin 20\npin 21\npin 22\n\
        pin 23\npin 24\npin 25\npin 26\npin 27\npin 28\npin 29\npin 30\npin 31\npin 32\npin 33\n\
        pin 34\npin 35\npin 36\npin 37\npin 38\npin 39\npin 40\npin 41\npin 42\npin 43\npin 44\n\
        pin 45\npin 46\npin 47\npin 48\npin 49\npin 50\npin 51\npin 52\npin 53\npin 54\npin 55\n\
        pin 56\npin 57\npin 58\npin 59\npin 60\npin 61\npin 62\npin 63\npin 64\npin 0\n\
        ask 64 state\nrelease 63\npin 64\n",
    status: Status::Done,
    output: &[
        b"\
        created 1\npinned 0 sequence 1\npinned 1 sequence 1\npinned 2 sequence 1\n\
        pinned 3 sequence 1\npinned 4 sequence 1\npinned 5 sequence 1\npinned 6 sequence 1\n\
        pinned 7 sequence 1\npinned 8 sequence 1\npinned 9 sequence 1\npinned 10 sequence 1\n\
        pinned 11 sequence 1\npinned 12 sequence 1\npinned 13 sequence 1\npinned 14 sequence 1\n\
        pinned 15 sequence 1\npinned 16 sequence 1\npinned 17 sequence 1\npinned 18 sequence 1\n\
        pinned 19 sequence 1\npinned 20 sequence 1\npinned 21 sequence 1\npinned 22 sequence 1\n\
        pinned 23 sequence 1\npinned 24 sequence 1\npinned 25 sequence 1\npinned 26 sequence 1\n\
        pinned 27 sequence 1\npinned 28 sequence 1\npinned 29 sequence 1\npinned 30 sequence 1\n\
        pinned 31 sequence 1\npinned 32 sequence 1\npinned 33 sequence 1\npinned 34 sequence 1\n\
        pinned 35 sequence 1\npinned 36 sequence 1\npinned 37 sequence 1\npinned 38 sequence 1\n\
        pinned 39 sequence 1\npinned 40 sequence 1\npinned 41 sequence 1\npinned 42 sequence 1\n\
        pinned 43 sequence 1\npinned 44 sequence 1\npinned 45 sequence 1\npinned 46 sequence 1\n\
        pinned 47 sequence 1\npinned 48 sequence 1\npinned 49 sequence 1\npinned 50 sequence 1\n\
        pinned 51 sequence 1\npinned 52 sequence 1\npinned 53 sequence 1\npinned 54 sequence 1\n\
        pinned 55 sequence 1\npinned 56 sequence 1\npinned 57 sequence 1\npinned 58 sequence 1\n\
        pinned 59 sequence 1\npinned 60 sequence 1\npinned 61 sequence 1\npinned 62 sequence 1\n\
        pinned 63 sequence 1\npins full\npin 0 busy\nno pin 64\nreleased 63\n\
        pinned 64 sequence 1\n",
    ],
};

/// What isn't in form is no message, whether or not the reader has pinned a state.
const MALFORMED: Session = Session {
    number: "3",
    extract: b"",
    input: b"pin 1\npin\npin 1 2\npin +2\npin -2\npin 4294967296\nrelease\nrelease 1 1\nask\nask 1\n\
        ask 1 drive\nask 1 drive w1\nask 1 reach 1\nask 1 route 1 2\nask 1 certify 1 2\n\
        ask 1 drive-at 2024-05-06T12:00 w1.0+\nask 1 pin 2\nask 1 #seq 4\nask 1 ask 1 state\n\
        ask 2 what\nask 2\nask 2 graph\nask 01 reach 1 2\npin 4294967295\n",
    status: Status::Done,
    output: &[
        b"created 3\npinned 1 sequence 3\nunknown\nunknown\nunknown\nunknown\nunknown\nunknown\n\
        unknown\nunknown\nunknown\nunknown\nunknown\nunknown\nunknown\nunknown\nunknown\nunknown\n\
        unknown\nunknown\nunknown\nunknown\nno pin 2\nno-node 1\npinned 4294967295 sequence 3\n",
    ],
};

#[test]
fn a_reader_keeps_its_state(rt: HostRuntime) -> Result<(), Fail> {
    check(&rt, rt.alloc(), &STREET_READ)?;
    Ok(())
}

#[test]
fn so_many_readers_may_pin(rt: HostRuntime) -> Result<(), Fail> {
    check(&rt, rt.alloc(), &FULL)?;
    Ok(())
}

#[test]
fn what_is_no_message_of_a_reader(rt: HostRuntime) -> Result<(), Fail> {
    check(&rt, rt.alloc(), &MALFORMED)?;
    Ok(())
}
