//! What lines of a session ask, and the texts of replies.
use drive_queries::{Asked, Rule, Totals, Verdict, message};
use opl_lexer::FaultKind;
use opl_objects::Fault;
use reply_lines::{counts_text, fault_text, step_text, verdict_text};
use road_base::{Dir, NoMemory, NodeId, RelationId, Sequence, Step, WayId};
use road_model::{AccessKey, ClosedBy};
use std::alloc::Global;

fn kind(asked: &Asked) -> &'static str {
    match asked {
        Asked::Empty => "Empty",
        Asked::Seq(_) => "Seq",
        Asked::Graph => "Graph",
        Asked::State => "State",
        Asked::Drive(_) => "Drive",
        Asked::Reach(_, _) => "Reach",
        Asked::Unknown => "Unknown",
    }
}

/// The kind of what the line asks.
fn kind_of(alloc: Global, line: &str) -> &'static str {
    match message(alloc, line) {
        Ok(asked) => kind(&asked),
        Err(_) => "no memory",
    }
}

#[test]
fn messages_are_told_apart(rt: HostRuntime) {
    let cases = [
        ("", "Empty"),
        (" \t", "Empty"),
        ("#seq 5", "Seq"),
        ("#seq 18446744073709551615", "Seq"),
        ("#seq 18446744073709551616", "Unknown"),
        ("#seq", "Unknown"),
        ("#seq 1 2", "Unknown"),
        ("#seq +1", "Unknown"),
        ("#end", "Unknown"),
        ("graph", "Graph"),
        ("graph x", "Unknown"),
        ("state", "State"),
        ("drive", "Unknown"),
        ("drive w1.0", "Unknown"),
        ("drive w1.-1+", "Unknown"),
        ("drive w1.4294967295-", "Drive"),
        ("drive w1.4294967296+", "Unknown"),
        ("drive w1.0.1+", "Unknown"),
        ("drive w.0+", "Unknown"),
        ("drive 1.0+", "Unknown"),
        ("reach 1 -3", "Reach"),
        ("reach 1", "Unknown"),
        ("reach 1 2 3", "Unknown"),
        ("reach a b", "Unknown"),
        ("Reach 1 2", "Unknown"),
    ];
    for (line, kind) in cases {
        assert_eq!(rt; kind_of(rt.alloc(), line), kind, "at {line:?}");
    }
}

/// The number of the frame that the line begins.
fn frame(alloc: Global, line: &str) -> Option<Sequence> {
    match message(alloc, line) {
        Ok(Asked::Seq(number)) => Some(number),
        _ => None,
    }
}

#[test]
fn frames_are_numbered(rt: HostRuntime) {
    let cases = [
        ("#seq 5", 5),
        ("#seq 007", 7),
        ("#seq 18446744073709551615", u64::MAX),
    ];
    for (line, number) in cases {
        assert!(rt;
            frame(rt.alloc(), line) == Some(Sequence(number)),
            "at {line:?}"
        );
    }
}

/// The nodes that the line names.
fn ends(alloc: Global, line: &str) -> Option<(NodeId, NodeId)> {
    match message(alloc, line) {
        Ok(Asked::Reach(from, to)) => Some((from, to)),
        _ => None,
    }
}

#[test]
fn nodes_are_named(rt: HostRuntime) {
    assert!(rt; ends(rt.alloc(), "reach 1 -3") == Some((NodeId(1), NodeId(-3))));
}

const FIRST: Step = Step {
    way: WayId(201),
    index: 0,
    dir: Dir::Forward,
};

const SECOND: Step = Step {
    way: WayId(-5),
    index: 12,
    dir: Dir::Backward,
};

const LAST: Step = Step {
    way: WayId(-5),
    index: 4_294_967_295,
    dir: Dir::Backward,
};

fn has_steps(alloc: Global, line: &str, steps: &[Step]) -> bool {
    match message(alloc, line) {
        Ok(Asked::Drive(drive)) => drive.items() == steps,
        _ => false,
    }
}

#[test]
fn steps_are_read(rt: HostRuntime) {
    assert!(rt; has_steps(rt.alloc(), "drive w201.0+ w-5.12-", &[FIRST, SECOND]));
    assert!(rt; has_steps(rt.alloc(), "\tdrive  w-5.4294967295- ", &[LAST]));
}

fn is_step(alloc: Global, step: Step, text: &str) -> bool {
    let mut out = Vec::new(alloc);
    step_text(step, &mut out).is_ok() && out.as_slice() == text.as_bytes()
}

#[test]
fn steps_are_written(rt: HostRuntime) {
    let cases = [
        (FIRST, "w201.0+"),
        (SECOND, "w-5.12-"),
        (LAST, "w-5.4294967295-"),
    ];
    for (step, text) in cases {
        assert!(rt; is_step(rt.alloc(), step, text), "at {text:?}");
    }
}

fn is_verdict(alloc: Global, verdict: Verdict, text: &str) -> bool {
    let mut out = Vec::new(alloc);
    verdict_text(&verdict, &mut out).is_ok() && out.as_slice() == text.as_bytes()
}

fn deciding(name: AccessKey, side: Dir) -> Rule {
    Rule::Closed(ClosedBy::Deciding {
        name,
        side: Some(side),
    })
}

fn conditional(name: AccessKey, side: Option<Dir>) -> Rule {
    Rule::Closed(ClosedBy::Conditional { name, side })
}

#[test]
fn verdicts_are_written(rt: HostRuntime) {
    let cases = [
        (3, Rule::No(RelationId(303)), "broken 3 no 303"),
        (1, Rule::NoStep, "broken 1 no-step"),
        (1, Rule::NoNode(NodeId(-2)), "broken 1 no-node -2"),
        (
            1,
            Rule::Closed(ClosedBy::Highway),
            "broken 1 closed highway",
        ),
        (
            2,
            deciding(AccessKey::MotorVehicle, Dir::Backward),
            "broken 2 closed motor_vehicle:backward",
        ),
        (1, Rule::Closed(ClosedBy::Area), "broken 1 closed area"),
        (
            1,
            deciding(AccessKey::Access, Dir::Forward),
            "broken 1 closed access:forward",
        ),
        (
            1,
            conditional(AccessKey::Access, None),
            "broken 1 closed access:conditional",
        ),
        (
            3,
            conditional(AccessKey::MotorVehicle, Some(Dir::Backward)),
            "broken 3 closed motor_vehicle:backward:conditional",
        ),
        (1, Rule::WrongWay, "broken 1 wrong-way"),
        (2, Rule::Apart, "broken 2 apart"),
        (2, Rule::Barrier(NodeId(2)), "broken 2 barrier 2"),
        (2, Rule::Reversal(NodeId(102)), "broken 2 reversal 102"),
        (2, Rule::Only(RelationId(5)), "broken 2 only 5"),
    ];
    for (step, rule, text) in cases {
        assert!(rt;
            is_verdict(rt.alloc(), Verdict::Broken { step, rule }, text),
            "at {text:?}"
        );
    }
    assert!(rt; is_verdict(rt.alloc(), Verdict::Legal, "legal"));
}

const UNKNOWN_LINE: Fault = Fault {
    line: 2,
    field: 1,
    kind: FaultKind::UnknownLine,
};

const TOTALS: Totals = Totals {
    ways: 5,
    pieces: 10,
    contexts: 13,
    arcs: 16,
};

/// Writes a fault, and the sizes of a graph behind it.
fn write_both(out: &mut Vec<u8>) -> Result<(), NoMemory> {
    fault_text(&UNKNOWN_LINE, out)?;
    counts_text(&TOTALS, out)
}

#[test]
fn faults_and_sizes_are_written(rt: HostRuntime) {
    let text = "line 2 field 1 UnknownLineways 5 pieces 10 contexts 13 arcs 16";
    let mut out = Vec::new(rt.alloc());
    assert!(rt; write_both(&mut out).is_ok());
    assert!(rt; out.as_slice() == text.as_bytes());
}
