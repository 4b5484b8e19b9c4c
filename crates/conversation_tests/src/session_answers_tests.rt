//! The replies to frames.
use opl_lexer::FaultKind;
use opl_objects::Fault;
use road_base::{NoMemory, Sequence};
use session_answers::{applied, refused_fault, refused_sequence, unfinished};

/// Whether the reply has that text.
fn is(reply: Result<Vec<u8>, NoMemory>, text: &str) -> bool {
    match reply {
        Ok(bytes) => bytes.as_slice() == text.as_bytes(),
        Err(NoMemory) => false,
    }
}

const NOT_UTF8: Fault = Fault {
    line: 3,
    field: 0,
    kind: FaultKind::NotUtf8,
};

#[test]
fn frames_are_replied_to(rt: HostRuntime) {
    let alloc = rt.alloc();
    let five = Sequence(5);
    assert!(rt; is(applied(alloc, five), "applied 5\n"));
    assert!(rt;
        is(
            refused_sequence(alloc, five, Sequence(u64::MAX)),
            "refused 5 sequence 18446744073709551615\n"
        )
    );
    assert!(rt;
        is(
            refused_fault(alloc, five, &NOT_UTF8),
            "refused 5 line 3 field 0 NotUtf8\n"
        )
    );
    assert!(rt; is(unfinished(alloc, five), "refused unfinished 5\n"));
}
