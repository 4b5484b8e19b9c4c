//! The happy path of each public call, with ample memory, and values from the format's tables.
use opl_lexer::{
    FaultKind, LexError, coordinate, fields, long_number, unescape, version, whole, without_return,
};
use std::alloc::{AllocError, Global};

const WHOLES: [(&str, Option<i64>); 11] = [
    ("0", Some(0)),
    ("-007", Some(-7)),
    ("9223372036854775807", Some(i64::MAX)),
    ("-9223372036854775808", Some(i64::MIN)),
    ("9223372036854775808", None),
    ("-9223372036854775809", None),
    ("", None),
    ("-", None),
    ("+1", None),
    ("1.0", None),
    ("x", None),
];

#[test]
fn numbers_are_read(rt: HostRuntime) {
    for (text, value) in WHOLES {
        assert_eq!(rt; whole(text), value, "at {text:?}");
    }
}

const VERSIONS: [(&str, Option<u32>); 5] = [
    ("4294967295", Some(u32::MAX)),
    ("0003", Some(3)),
    ("4294967296", None),
    ("-1", None),
    ("", None),
];

#[test]
fn versions_are_read(rt: HostRuntime) {
    for (text, value) in VERSIONS {
        assert_eq!(rt; version(text), value, "at {text:?}");
    }
}

const LONG_NUMBERS: [(&str, Option<u64>); 6] = [
    ("18446744073709551615", Some(u64::MAX)),
    ("007", Some(7)),
    ("18446744073709551616", None),
    ("-1", None),
    ("+1", None),
    ("", None),
];

#[test]
fn long_numbers_are_read(rt: HostRuntime) {
    for (text, value) in LONG_NUMBERS {
        assert_eq!(rt; long_number(text), value, "at {text:?}");
    }
}

#[test]
fn one_return_is_dropped(rt: HostRuntime) {
    let cases: [(&[u8], &[u8]); 4] = [
        (b"state\r", b"state"),
        (b"state\r\r", b"state\r"),
        (b"\rstate", b"\rstate"),
        (b"", b""),
    ];
    for (line, wanted) in cases {
        assert_eq!(rt; without_return(line), wanted, "at {line:?}");
    }
}

/// A text, a limit and the coordinate, in units of 1e-7 degrees.
const COORDINATES: [(&str, i32, Option<i32>); 9] = [
    ("180", 1_800_000_000, Some(1_800_000_000)),
    ("-90.00000009", 900_000_000, Some(-900_000_000)),
    ("180.0000001", 1_800_000_000, None),
    ("9.5270956", 1_800_000_000, Some(95_270_956)),
    ("-0.001", 900_000_000, Some(-10_000)),
    ("1e2", 1_800_000_000, None),
    ("1.", 1_800_000_000, None),
    (".5", 1_800_000_000, None),
    ("", 1_800_000_000, None),
];

#[test]
fn coordinates_are_read(rt: HostRuntime) {
    for (text, limit, value) in COORDINATES {
        assert_eq!(rt; coordinate(text, limit), value, "at {text:?}");
    }
}

/// What stands behind `to ` when the text is read there.
fn read_behind(alloc: Global, text: &str) -> Result<String, LexError> {
    let mut out = String::from_str(alloc, "to ")?;
    unescape(text, &mut out)?;
    Ok(out)
}

fn is_read_as(alloc: Global, text: &str, read: Option<&str>) -> bool {
    match read_behind(alloc, text) {
        Ok(out) => read == Some(out.as_str()),
        Err(error) => read.is_none() && error == LexError::Kind(FaultKind::BadEscape),
    }
}

#[test]
fn escapes_are_read(rt: HostRuntime) {
    let cases = [
        ("%6e%ame", Some("to name")),
        ("caf%e9%%20%%1F600%", Some("to café 😀")),
        ("no%20%%40%%20%(22:00-06:00)", Some("to no @ (22:00-06:00)")),
        ("", Some("to ")),
        ("%000041%", Some("to A")),
        ("%d800%", None),
        ("%110000%", None),
        ("%0000041%", None),
        ("%+41%", None),
        ("%%", None),
        ("a%", None),
        ("%41", None),
        ("%4g%", None),
    ];
    for (text, read) in cases {
        assert!(rt; is_read_as(rt.alloc(), text, read), "at {text:?}");
    }
}

/// The fields, each with a bar behind it.
fn barred(alloc: Global, line: &str) -> Result<String, AllocError> {
    let mut out = String::new(alloc);
    for field in fields(line) {
        out.push_str(field)?;
        out.push('|')?;
    }
    Ok(out)
}

fn has_fields(alloc: Global, line: &str, wanted: &str) -> bool {
    match barred(alloc, line) {
        Ok(out) => out.as_str() == wanted,
        Err(_) => false,
    }
}

#[test]
fn fields_come_in_order(rt: HostRuntime) {
    let cases = [
        ("", ""),
        (" \t ", ""),
        ("n1 v1 x1 y2", "n1|v1|x1|y2|"),
        ("\tr5  Mn1@,w2@a%20%b\té ", "r5|Mn1@,w2@a%20%b|é|"),
    ];
    for (line, wanted) in cases {
        assert!(rt; has_fields(rt.alloc(), line, wanted), "at {line:?}");
    }
}
