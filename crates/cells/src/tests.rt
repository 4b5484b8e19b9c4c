//! Whole runs, over a source and a site in memory.
ghost use Rattle.std.specs.Prelude.{◌≡◌, ◌<◌};

use crate::run::run;
use last_words::Status;
use road_base::{NoMemory, Steps};
use road_io::{MemorySite, MemorySource};
use std::alloc::Global;
use std::marker::Brand;
use std::sync::ledger::{Blank, Ledger};
use std::test::Fail;

/// Two ways that cross at node 2.
const CROSSING: &[u8] =
    b"n1 x0 y0\nn2 x0.001 y0\nn3 x0.002 y0\nn4 x0.001 y0.001\nn5 x0.001 y-0.001\n\
    w10 Thighway=residential Nn1,n2,n3\nw11 Thighway=residential Nn4,n2,n5\n";

/// The area that is cut, and one that has only its western part.
const AREA: &str = "-20000,-20000,40000,40000";

const NEAR: &str = "-20000,-20000,15000,40000";

/// The cell in which way 10 begins, and one in which no way does.
const CELL: &str = "-20000,-5000,5000,5000";

const APART: &str = "100000,100000,200000,200000";

/// The graph of nothing: the header alone; and that of profile 2.
const NO_GRAPH: &[u8] = b"OSMROAD2\x01\0\0\0\0\0\0\0\0\0\0\0";

const NO_GRAPH_RAISED: &[u8] = b"OSMROAD2\x02\0\0\0\0\0\0\0\0\0\0\0";

const TWO_GRAPHS: &[u8] = b"OSMROAD2\x01\0\0\0\0\0\0\0\0\0\0\0OSMROAD2\x01\0\0\0\0\0\0\0\0\0\0\0";

const TWO_PROFILES: &[u8] = b"OSMROAD2\x01\0\0\0\0\0\0\0\0\0\0\0OSMROAD2\x02\0\0\0\0\0\0\0\0\0\0\0";

const USAGE: &[u8] =
    b"usage: cells plan NODES [METRES]|part BOX CELL [2]|rest BOX CELL|cell BOX CELL [2]|\
ways PROFILE WAY..|range FROM TO|merge\n";

/// What `cell` puts where the cell has no way, and where its only way fails.
const NO_WAYS: &[u8] = b"OSMROAD2\x02\0\0\0\0\0\0\0\0\0\0\0\n0 0 0\n";

const ONE_FAILS: &[u8] = b"OSMROAD2\x01\0\0\0\0\0\0\0\0\0\0\0\nw10 n3\n1 0 1\n";

/// A run: its words, its input, and what is expected of it.
#[derive(Clone, Copy)]
struct Case<'a> {
    words: &'a [&'a str],
    input: &'a [u8],
    status: Status,
    output: &'a [u8],
}

fn done<'a>(words: &'a [&'a str], input: &'a [u8], output: &'a [u8]) -> Case<'a> {
    Case {
        words,
        input,
        status: Status::Done,
        output,
    }
}

fn refused<'a>(words: &'a [&'a str], input: &'a [u8], output: &'a [u8]) -> Case<'a> {
    Case {
        words,
        input,
        status: Status::Refused,
        output,
    }
}

/// How the case ends on this site.
fn ended<L: Ledger>(
    alloc: Global,
    case: &Case,
    site: &mut MemorySite,
    blank: Blank,
) -> Result<Status, NoMemory>
    requires name { blank.name ≡ L.name }
    requires parts { blank.parts ≡ L.parts }
    requires some { 0 < L.parts }
{
    let mut source = MemorySource::new(case.input.to_vec(alloc)?, Vec::new(alloc));
    let mut steps = Steps::<L>::new(blank);
    Ok(run(alloc, case.words, &mut source, site, &mut steps))
}

/// Whether the case ends as is expected.
fn holds(alloc: Global, case: &Case) -> Result<bool, NoMemory> {
    let mut site = MemorySite::new(alloc, Vec::new(alloc), Vec::new(alloc), Vec::new(alloc));
    let status = ended::<Brand>(alloc, case, &mut site, Blank::new(1))?;
    Ok(status == case.status && site.output() == case.output)
}

/// The words of the first case that ends otherwise.
fn first_other<'a>(
    alloc: Global,
    cases: &'a [Case<'a>],
) -> Result<Option<&'a [&'a str]>, NoMemory> {
    for case in cases {
        if !holds(alloc, case)? {
            return Ok(Some(case.words));
        }
    }
    Ok(None)
}

#[test]
fn commands_end_as_expected(rt: HostRuntime) -> Result<(), Fail> {
    let cases = [
        done(
            &["plan", "10"],
            b"",
            b"-1800000000,-900000000,1800000000,900000000 \
        -1800000000,-900000000,1800000000,900000000 0\n",
        ),
        refused(
            &["plan", "10"],
            b"n1 x0 y0\nw\n",
            b"refused line 2 field 1 BadNumber\n",
        ),
        done(&["part", AREA, APART], CROSSING, NO_GRAPH),
        done(&["part", AREA, APART, "2"], CROSSING, NO_GRAPH_RAISED),
        done(&["rest", AREA, CELL], CROSSING, b""),
        done(&["rest", NEAR, CELL], CROSSING, b"w10 n3\n"),
        done(&["cell", AREA, APART, "2"], CROSSING, NO_WAYS),
        done(&["cell", NEAR, CELL], CROSSING, ONE_FAILS),
        done(&["ways", "2", "12", "13"], CROSSING, NO_GRAPH_RAISED),
        done(&["range", "0", "5"], NO_GRAPH, NO_GRAPH),
        done(&["merge"], TWO_GRAPHS, NO_GRAPH),
        refused(&["merge"], TWO_PROFILES, b"refused graph 2\n"),
        refused(&["merge"], b"", b"refused graph 1\n"),
    ];
    let other = first_other(rt.alloc(), &cases)?;
    assert_eq!(rt; other, None);
    Ok(())
}

/// Words that no command has.
const WRONG_WORDS: [&[&str]; 14] = [
    &[],
    &["plan"],
    &["plan", "-1"],
    &["plan", "1", "1000001"],
    &["part", AREA],
    &["part", AREA, CELL, "1"],
    &["part", AREA, "0,0,1800000001,0"],
    &["rest", AREA, "0,0,0,0,0"],
    &["cell", AREA],
    &["cell", AREA, CELL, "1"],
    &["ways", "1"],
    &["ways", "3", "1"],
    &["ways", "1", "5", "5"],
    &["range", "1"],
];

/// The first of these words that is a command's.
fn first_asked<'a>(
    alloc: Global,
    all: &'a [&'a [&'a str]],
) -> Result<Option<&'a [&'a str]>, NoMemory> {
    for words in all {
        let case = Case {
            words,
            input: b"",
            status: Status::Usage,
            output: USAGE,
        };
        if !holds(alloc, &case)? {
            return Ok(Some(words));
        }
    }
    Ok(None)
}

#[test]
fn other_words_are_answered_by_the_usage(rt: HostRuntime) -> Result<(), Fail> {
    let asked = first_asked(rt.alloc(), &WRONG_WORDS)?;
    assert_eq!(rt; asked, None);
    Ok(())
}
