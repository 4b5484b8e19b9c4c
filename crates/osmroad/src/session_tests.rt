//! Sessions over stores in memory: what is replied, how they end, and what they leave.
ghost use Rattle.std.specs.Prelude.{◌≡◌, ◌<◌};

use crate::run::run;
use crate::store_tests::joined;
use crate::tests::{NO_GRAPH, STREET_CUT, STREET_GRAPH, USAGE};
use last_words::Status;
use road_base::{NoMemory, Steps};
use road_io::{MemorySite, MemorySource, Which};
use std::alloc::Global;
use std::marker::Brand;
use std::process::Abort;
use std::sync::ledger::{Blank, Ledger};
use std::test::Fail;

/// A session on a store that is made of an extract, and all that both runs put.
#[derive(Clone, Copy)]
pub struct Session<'a> {
    pub number: &'a str,
    pub extract: &'a [u8],
    pub input: &'a [u8],
    pub status: Status,
    pub output: &'a [&'a [u8]],
}

/// The words run on this site, with this input, of which the reads with these numbers fail.
pub fn ended<L: Ledger>(
    alloc: Global,
    words: &[&str],
    input: &[u8],
    read_fails: &[u64],
    site: &mut MemorySite,
    blank: Blank,
) -> Result<Status, NoMemory>
    requires name { blank.name ≡ L.name }
    requires parts { blank.parts ≡ L.parts }
    requires some { 0 < L.parts }
{
    let mut source = MemorySource::new(input.to_vec(alloc)?, read_fails.to_vec(alloc)?);
    let mut steps = Steps::<L>::new(blank);
    Ok(run(alloc, words, &mut source, site, &mut steps))
}

/// The same with a ledger of its own, and all reads give what there is.
pub fn run_on(
    alloc: Global,
    words: &[&str],
    input: &[u8],
    site: &mut MemorySite,
) -> Result<Status, NoMemory> {
    ended::<Brand>(alloc, words, input, &[], site, Blank::new(1))
}

/// A site whose files are empty.
pub fn empty_site(alloc: Global) -> MemorySite {
    MemorySite::new(alloc, Vec::new(alloc), Vec::new(alloc), Vec::new(alloc))
}

pub const SESSION: &[&str] = &["town", "session"];

/// What was put on the site, in parts.
pub fn check_output(
    rt: &impl Abort,
    alloc: Global,
    site: &MemorySite,
    parts: &[&[u8]],
) -> Result<(), NoMemory> {
    let output = joined(alloc, parts)?;
    assert_eq!(rt; site.output(), output.as_slice());
    Ok(())
}

/// Runs the words on the site, and compares how they end.
pub fn check_status(
    rt: &impl Abort,
    alloc: Global,
    words: &[&str],
    input: &[u8],
    site: &mut MemorySite,
    status: Status,
) -> Result<(), NoMemory> {
    let ended = run_on(alloc, words, input, site)?;
    assert_eq!(rt; ended, status);
    Ok(())
}

/// Makes the store on the site, runs the session on it, and compares what is put.
fn check_on(
    rt: &impl Abort,
    alloc: Global,
    session: &Session,
    site: &mut MemorySite,
) -> Result<(), NoMemory> {
    let create = ["town", "create", session.number];
    check_status(rt, alloc, &create, session.extract, site, Status::Done)?;
    check_status(rt, alloc, SESSION, session.input, site, session.status)?;
    check_output(rt, alloc, site, session.output)
}

/// The same on a new site.
pub fn check(rt: &impl Abort, alloc: Global, session: &Session) -> Result<(), NoMemory> {
    let mut site = empty_site(alloc);
    check_on(rt, alloc, session, &mut site)
}

/// The graph follows the change that brings the street's middle node.
const STREET_FOLLOWED: Session = Session {
    number: "4",
    extract: STREET_CUT,
    input: b"graph\n#seq 5\nn2 v1 x0.001 y0\n#end\ngraph\nreach 1 9\n",
    status: Status::Done,
    output: &[
        b"created 4\ngraph 20\n",
        NO_GRAPH,
        b"applied 5\ngraph 272\n",
        STREET_GRAPH,
        b"no-node 9\n",
    ],
};

pub const FORK_LINES: &[u8] =
    b"n1 v1 x0.001 y0\nn2 v1 x0.002 y0\nn3 v1 x0.003 y0\nn4 v1 x0.004 y0\nn5 v1 x0.005 y0\n\
    n6 v1 x0.006 y0\nw1 v1 Thighway=residential Nn1,n2\nw2 v1 Thighway=residential Nn2,n3\n\
    w3 v1 Thighway=residential Nn3,n4\nw4 v1 Thighway=residential Nn4,n5\n\
    w5 v1 Thighway=residential Nn4,n6\n\
    r20 v1 Ttype=restriction,restriction=no_u_turn Mw1@from,w2@via,w3@via,w4@to\n\
    r21 v1 Ttype=restriction,restriction=only_right_turn Mw2@from,w3@via,w5@to\n";

/// Frames under another number, with a fault, and without one.
pub const REFUSED_MESSAGES: &[u8] = b"#seq 14\nn1 v2 x0 y0\n#end\n\
    #seq 13\nn1 v2 x0 y0\nq1 v1\nn2 v\n#end\nstate\n#seq 13\nn1 v2 x0 y0\n#end\n";

pub const REFUSED_FRAMES: Session = Session {
    number: "12",
    extract: b"",
    input: REFUSED_MESSAGES,
    status: Status::Done,
    output: &[
        b"created 12\nrefused 14 sequence 12\nrefused 13 line 2 field 1 UnknownLine\n\
        state sequence 12 ways 0 pieces 0 contexts 0 arcs 0\napplied 13\n",
    ],
};

/// The good line in front of a line in fault would bring the street.
const STREET_REFUSED: Session = Session {
    number: "4",
    extract: STREET_CUT,
    input: b"#seq 5\nn2 v1 x0.001 y0\nq1 v1\n#end\nstate\ngraph\n",
    status: Status::Done,
    output: &[
        b"created 4\nrefused 5 line 2 field 1 UnknownLine\n\
        state sequence 4 ways 0 pieces 0 contexts 0 arcs 0\ngraph 20\n",
        NO_GRAPH,
    ],
};

/// The input ends inside a frame.
const UNFINISHED: Session = Session {
    number: "5",
    extract: b"",
    input: b"state\n#seq 6\nn1 v1",
    status: Status::Refused,
    output: &[
        b"created 5\nstate sequence 5 ways 0 pieces 0 contexts 0 arcs 0\nrefused unfinished 6\n",
    ],
};

/// A village, with what an ordinary extract holds.
pub const VILLAGE: &[u8] = b"\
    n101 v3 dV c1001 t2020-05-01T10:00:00Z i7 uanna T x8.5 y50.1\n\
    n102 v1 dV c1001 t2020-05-01T10:00:00Z i7 uanna T x8.501 y50.1\n\
    n103 v2 dV c1002 t2020-05-02T10:00:00Z i8 ubert Thighway=crossing x8.502 y50.1\n\
    n104 v1 dV c1001 t2020-05-01T10:00:00Z i7 uanna T x8.502 y50.101\n\
    n105 v1 dV c1001 t2020-05-01T10:00:00Z i7 uanna T x8.503 y50.1\n\
    n106 v1 dV c1003 t2020-05-03T10:00:00Z i7 uanna T x8.5005 y50.1005\n\
    n107 v1 dV c1003 t2020-05-03T10:00:00Z i7 uanna T x8.5006 y50.1005\n\
    n108 v1 dV c1003 t2020-05-03T10:00:00Z i7 uanna T x8.5006 y50.1006\n\
    w201 v4 dV c1002 t2020-05-02T10:00:00Z i8 ubert Thighway=residential,name=Hauptstra\xc3\x9fe \
    Nn101x8.5y50.1,n102x8.501y50.1,n103x8.502y50.1\n\
    w202 v1 dV c1002 t2020-05-02T10:00:00Z i8 ubert \
    Thighway=service,access:conditional=no%20%%40%%20%(22:00-06:00) Nn103x8.502y50.1,n104x8.502y50.101\n\
    w203 v1 dV c1002 t2020-05-02T10:00:00Z i8 ubert Thighway=residential Nn103x8.502y50.1,n105x8.503y50.1\n\
    w204 v1 dV c1003 t2020-05-03T10:00:00Z i7 uanna Tbuilding=yes \
    Nn106x8.5005y50.1005,n107x8.5006y50.1005,n108x8.5006y50.1006,n106x8.5005y50.1005\n\
    r301 v1 dV c1003 t2020-05-03T10:00:00Z i7 uanna Ttype=multipolygon,building=yes Mw204@outer\n\
    r302 v1 dV c1004 t2020-05-04T10:00:00Z i8 ubert Ttype=route,route=bus Mw201@,w203@\n\
    r303 v1 dV c1004 t2020-05-04T10:00:00Z i8 ubert Ttype=restriction,restriction=no_right_turn \
    Mw201@from,n103@via,w202@to\n";

/// The first change takes the way on which one turned, and the second one the restriction.
pub const VILLAGE_FOLLOWED: Session = Session {
    number: "5000",
    extract: VILLAGE,
    input: b"state\ndrive w201.0+ w201.1+ w202.0+\nreach 101 104\n\
        #seq 5001\nn105 v2 dD c1005 t i0 u T x y\nw203 v2 dD c1005 t i0 u T N\n#end\n\
        reach 101 104\nstate\n#seq 5002\nr303 v2 dD c1006 t i0 u T M\n#end\nreach 101 104\nstate\n",
    status: Status::Done,
    output: &[
        b"created 5000\nstate sequence 5000 ways 3 pieces 6 contexts 6 arcs 8\nbroken 3 no 303\n\
        drive w201.0+ w201.1+ w203.0+ w203.0- w202.0+\napplied 5001\nnone\n\
        state sequence 5001 ways 2 pieces 4 contexts 4 arcs 3\napplied 5002\n\
        drive w201.0+ w201.1+ w202.0+\nstate sequence 5002 ways 2 pieces 4 contexts 4 arcs 4\n",
    ],
};

const JUNCTION_LINES: &[u8] =
    b"n1 v1 x0.001 y0\nn2 v1 x0.002 y0\nn3 v1 x0.003 y0\nn4 v1 x0.004 y0\nn6 v1 x0.006 y0\n\
    n7 v1 x0.007 y0\nw10 v1 Thighway=residential Nn1,n2\nw11 v1 Thighway=residential Nn4,n3,n2\n\
    w13 v1 Thighway=residential Nn1,n6\nw14 v1 Thighway=residential Nn6,n7\n";

#[test]
fn sessions_answer(rt: HostRuntime) -> Result<(), Fail> {
    let sessions = [
        STREET_FOLLOWED,
        REFUSED_FRAMES,
        STREET_REFUSED,
        UNFINISHED,
        VILLAGE_FOLLOWED,
    ];
    for session in sessions {
        check(&rt, rt.alloc(), &session)?;
    }
    Ok(())
}

/// The graph of these lines together, which is put on the site.
fn graph_on(alloc: Global, lines: &[u8], site: &mut MemorySite) -> Result<Vec<u8>, NoMemory> {
    run_on(alloc, &["-", "compile"], lines, site)?;
    Ok(site.output().to_vec(alloc)?)
}

/// The same on a new site.
fn graph_of(alloc: Global, lines: &[u8]) -> Result<Vec<u8>, NoMemory> {
    let mut site = empty_site(alloc);
    graph_on(alloc, lines, &mut site)
}

/// A session on the extract that is given the change and then asks for the graph, and what it puts in front of the
/// graph.
fn check_followed(
    rt: &impl Abort,
    alloc: Global,
    extract: &[u8],
    change: &[u8],
    head: &[u8],
    graph: &[u8],
) -> Result<(), NoMemory> {
    let input = joined(alloc, &[b"#seq 5\n", change, b"#end\ngraph\n"])?;
    let session = Session {
        number: "4",
        extract,
        input: &input,
        status: Status::Done,
        output: &[head, graph],
    };
    check(rt, alloc, &session)
}

/// The same, where the graph is that of all lines together.
fn check_following(
    rt: &impl Abort,
    alloc: Global,
    extract: &[u8],
    change: &[u8],
    head: &[u8],
) -> Result<(), NoMemory> {
    let lines = joined(alloc, &[extract, change])?;
    let graph = graph_of(alloc, &lines)?;
    check_followed(rt, alloc, extract, change, head, &graph)
}

/// A block that a change would leave as it was is noticed by its bytes.
#[test]
fn a_session_follows_to_what_compiles(rt: HostRuntime) -> Result<(), Fail> {
    let cases: [(&[u8], &[u8], &[u8]); 3] = [
        (
            STREET_CUT,
            b"n2 v1 x0.001 y0\n",
            b"created 4\napplied 5\ngraph 272\n",
        ),
        (
            JUNCTION_LINES,
            b"n5 v1 x0.005 y0\nw12 v1 Thighway=residential Nn3,n5\n",
            b"created 4\napplied 5\ngraph 1430\n",
        ),
        (
            FORK_LINES,
            b"r21 v2 dD\n",
            b"created 4\napplied 5\ngraph 1408\n",
        ),
    ];
    for (extract, change, head) in cases {
        check_following(&rt, rt.alloc(), extract, change, head)?;
    }
    Ok(())
}

/// A line of so many bytes, and what ends it.
fn long_line(alloc: Global, bytes: usize, end: &[u8]) -> Result<Vec<u8>, NoMemory> {
    let mut text = vec![in alloc; b'a'; bytes]?;
    text.extend_from_slice(end)?;
    Ok(text)
}

#[test]
fn lines_of_a_session_have_a_limit(rt: HostRuntime) -> Result<(), Fail> {
    let most = 1usize << 24;
    let cases: [(usize, &[u8], Status, &[u8]); 2] = [
        (most, b"\n", Status::Done, b"unknown\n"),
        (most + 1, b"", Status::Limit, b"limit\n"),
    ];
    for (bytes, end, status, reply) in cases {
        let input = long_line(rt.alloc(), bytes, end)?;
        let session = Session {
            number: "1",
            extract: b"",
            input: &input,
            status,
            output: &[b"created 1\n", reply],
        };
        check(&rt, rt.alloc(), &session)?;
    }
    Ok(())
}

/// Runs the words on the site, with the message `state`, and compares how they end and what was put.
fn check_put(
    rt: &impl Abort,
    alloc: Global,
    words: &[&str],
    site: &mut MemorySite,
    status: Status,
    output: &[u8],
) -> Result<(), NoMemory> {
    check_status(rt, alloc, words, b"state\n", site, status)?;
    assert_eq!(rt; site.output(), output);
    Ok(())
}

/// A session where there is no store of this name.
fn check_alone(
    rt: &impl Abort,
    alloc: Global,
    store: &str,
    status: Status,
    output: &[u8],
) -> Result<(), NoMemory> {
    let mut site = empty_site(alloc);
    let words = [store, "session"];
    check_put(rt, alloc, &words, &mut site, status, output)
}

#[test]
fn a_session_needs_a_store(rt: HostRuntime) -> Result<(), Fail> {
    let cases: [(&str, Status, &[u8]); 2] = [
        ("town", Status::NoStore, b"no store\n"),
        ("-x", Status::Usage, USAGE),
    ];
    for (store, status, output) in cases {
        check_alone(&rt, rt.alloc(), store, status, output)?;
    }
    Ok(())
}

/// What a change of the street leaves in file A of the site: `apply` of it, or a session with it.
fn changed_on(
    alloc: Global,
    words: &[&str],
    input: &[u8],
    site: &mut MemorySite,
) -> Result<Vec<u8>, NoMemory> {
    run_on(alloc, &["town", "create", "4"], STREET_CUT, site)?;
    run_on(alloc, words, input, site)?;
    Ok(site.file(Which::A).to_vec(alloc)?)
}

/// The same on a new site.
fn changed(alloc: Global, words: &[&str], input: &[u8]) -> Result<Vec<u8>, NoMemory> {
    let mut site = empty_site(alloc);
    changed_on(alloc, words, input, &mut site)
}

#[test]
fn a_session_keeps_what_apply_keeps(rt: HostRuntime) -> Result<(), Fail> {
    let applied = changed(rt.alloc(), &["town", "apply", "5"], b"n2 v1 x0.001 y0\n")?;
    let kept = changed(rt.alloc(), SESSION, b"#seq 5\nn2 v1 x0.001 y0\n#end\n")?;
    assert_eq!(rt; kept.as_slice(), applied.as_slice());
    Ok(())
}
