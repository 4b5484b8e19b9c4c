//! The longest restrictions that have words, the last numbers of a store, and lines that are too long.
use crate::session_tests::{SESSION, check_status, empty_site, ended};
use last_words::Status;
use road_base::NoMemory;
use road_io::MemorySite;
use std::alloc::Global;
use std::marker::Brand;
use std::process::Abort;
use std::sync::ledger::Blank;
use std::test::Fail;

/// A run of which the input is empty: its words, how it ends, and what it puts.
type Run<'a> = (&'a [&'a str], Status, &'a [u8]);

/// A run on the site, which puts what it puts behind this output.
fn check_run(
    rt: &impl Abort,
    alloc: Global,
    (words, status, put): &Run,
    site: &mut MemorySite,
    output: &mut Vec<u8>,
) -> Result<(), NoMemory> {
    check_status(rt, alloc, words, b"", site, *status)?;
    output.extend_from_slice(put)?;
    assert_eq!(rt; site.output(), output.as_slice());
    Ok(())
}

/// These runs, one after another on one site.
fn check_each(
    rt: &impl Abort,
    alloc: Global,
    runs: &[Run],
    site: &mut MemorySite,
) -> Result<(), NoMemory> {
    let mut output = Vec::new(alloc);
    for run in runs {
        check_run(rt, alloc, run, site, &mut output)?;
    }
    Ok(())
}

/// The same on a site whose files are empty at first.
fn check_runs(rt: &impl Abort, alloc: Global, runs: &[Run]) -> Result<(), NoMemory> {
    let mut site = empty_site(alloc);
    check_each(rt, alloc, runs, &mut site)
}

/// Behind the last number of 64 bits no change comes.
#[test]
fn numbers_of_changes_end(rt: HostRuntime) -> Result<(), Fail> {
    let runs: [Run; 4] = [
        (
            &["town", "create", "18446744073709551614"],
            Status::Done,
            b"created 18446744073709551614\n",
        ),
        (
            &["town", "apply", "18446744073709551615"],
            Status::Done,
            b"applied 18446744073709551615\n",
        ),
        (
            &["town", "apply", "18446744073709551615"],
            Status::OutOfSequence,
            b"sequence 18446744073709551615 kept 18446744073709551615\n",
        ),
        (
            &["town", "apply", "0"],
            Status::OutOfSequence,
            b"sequence 0 kept 18446744073709551615\n",
        ),
    ];
    check_runs(&rt, rt.alloc(), &runs)?;
    Ok(())
}

/// A chain of ways of so many steps each, but for way 9, and what is put as a store of it is made and audited, with a
/// restriction from the first way over all between to the last.
#[derive(Clone, Copy)]
struct Chain {
    ways: u32,
    steps: u32,
    ninth: u32,
    output: &'static [u8],
}

const CHAINS: [Chain; 3] = [
    // 16 via ways, of 1,024 steps together.
    Chain {
        ways: 18,
        steps: 64,
        ninth: 64,
        output: b"created 5\nr1 no 1\nconditional 0\n",
    },
    // A step more.
    Chain {
        ways: 18,
        steps: 64,
        ninth: 65,
        output: b"created 5\nr1 unused TooLong\nconditional 0\n",
    },
    // 17 via ways, of one step.
    Chain {
        ways: 19,
        steps: 1,
        ninth: 1,
        output: b"created 5\nr1 unused TooLong\nconditional 0\n",
    },
];

/// Adds the lines of the nodes 1 to 1200, of which no two are at the same place.
fn add_nodes(alloc: Global, text: &mut Vec<u8>) -> Result<(), NoMemory> {
    for node in 1u32..1201 {
        let line = format!(in alloc; "n{node} v1 x0.{node:07} y0\n")?;
        text.extend_from_slice(line.as_bytes())?;
    }
    Ok(())
}

/// Adds the line of a way over so many steps from this node on, and answers its last node.
fn add_way(
    alloc: Global,
    text: &mut Vec<u8>,
    way: u32,
    first: u32,
    steps: u32,
) -> Result<u32, NoMemory> {
    let head = format!(in alloc; "w{way} v1 Thighway=residential Nn{first}")?;
    text.extend_from_slice(head.as_bytes())?;
    let mut last = first;
    for _ in 0..steps {
        last = last.saturating_add(1);
        let reference = format!(in alloc; ",n{last}")?;
        text.extend_from_slice(reference.as_bytes())?;
    }
    text.push(b'\n')?;
    Ok(last)
}

/// Adds the lines of the chain's ways, each of which begins where the one before ends.
fn add_ways(alloc: Global, text: &mut Vec<u8>, chain: &Chain) -> Result<(), NoMemory> {
    let mut first = 1;
    for way in 1..=chain.ways {
        let steps = if way == 9 { chain.ninth } else { chain.steps };
        first = add_way(alloc, text, way, first, steps)?;
    }
    Ok(())
}

/// Adds the line of the restriction from way 1 over all between to the last way.
fn add_restriction(alloc: Global, text: &mut Vec<u8>, last: u32) -> Result<(), NoMemory> {
    text.extend_from_slice(b"r1 v1 Ttype=restriction,restriction=no_u_turn Mw1@from")?;
    for way in 2..last {
        let member = format!(in alloc; ",w{way}@via")?;
        text.extend_from_slice(member.as_bytes())?;
    }
    let member = format!(in alloc; ",w{last}@to\n")?;
    text.extend_from_slice(member.as_bytes())?;
    Ok(())
}

/// The lines of the chain, and of its restriction.
fn restricted(alloc: Global, chain: &Chain) -> Result<Vec<u8>, NoMemory> {
    let mut text = Vec::new(alloc);
    add_nodes(alloc, &mut text)?;
    add_ways(alloc, &mut text, chain)?;
    add_restriction(alloc, &mut text, chain.ways)?;
    Ok(text)
}

/// Makes a store of the extract on the site, and audits it.
fn check_audit(
    rt: &impl Abort,
    alloc: Global,
    extract: &[u8],
    output: &[u8],
    site: &mut MemorySite,
) -> Result<(), NoMemory> {
    check_status(
        rt,
        alloc,
        &["town", "create", "5"],
        extract,
        site,
        Status::Done,
    )?;
    check_status(rt, alloc, &["town", "audit"], b"", site, Status::Done)?;
    assert_eq!(rt; site.output(), output);
    Ok(())
}

/// Makes a store of the chain and its restriction, and audits it.
fn check_chain(rt: &impl Abort, alloc: Global, chain: &Chain) -> Result<(), NoMemory> {
    let extract = restricted(alloc, chain)?;
    let mut site = empty_site(alloc);
    check_audit(rt, alloc, &extract, chain.output, &mut site)
}

#[test]
fn restrictions_have_a_length(rt: HostRuntime) -> Result<(), Fail> {
    for chain in &CHAINS {
        check_chain(&rt, rt.alloc(), chain)?;
    }
    Ok(())
}

/// A line without a newline, of 2^24 bytes and two parts of 2^16: the byte too many is the first one of the part that
/// read 256 gives, counted from 0, and there is one more part behind it.
const LONG_LINE: usize = (1 << 24) + (1 << 17);

/// Makes a store on the site, and a run on it whose line is too long, and of which read 257 would fail.
fn check_long(
    rt: &impl Abort,
    alloc: Global,
    words: &[&str],
    line: &[u8],
    site: &mut MemorySite,
) -> Result<(), NoMemory> {
    check_status(rt, alloc, &["town", "create", "5"], b"", site, Status::Done)?;
    let status = ended::<Brand>(alloc, words, line, &[257], site, Blank::new(1))?;
    assert_eq!(rt; status, Status::Limit);
    Ok(())
}

/// A limit ends the run with the part in which it is passed: the read behind that part isn't made, also where it would
/// fail.
#[test]
fn nothing_is_read_behind_a_limit(rt: HostRuntime) -> Result<(), Fail> {
    let line = vec![in rt.alloc(); b'a'; LONG_LINE]?;
    let runs: [&[&str]; 2] = [&["-", "compile"], SESSION];
    for words in runs {
        let mut site = empty_site(rt.alloc());
        check_long(&rt, rt.alloc(), words, &line, &mut site)?;
    }
    Ok(())
}
