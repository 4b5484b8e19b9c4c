//! Every fault, wherever it may stand.
use opl_lexer::{FaultKind, Mode};
use opl_objects::{Fault, ReadError, Reader};
use road_base::Event;
use std::alloc::{AllocError, Global};
use std::test::Fail;

/// A line in fault, the number of the field, and the kind of the fault.
type Case<'a> = (&'a [u8], u32, FaultKind);

/// Lines of an extract or of a change.
const LINES: &[Case] = &[
    (b"\xff", 0, FaultKind::NotUtf8),
    (b"n1 v1 uj\xc3", 0, FaultKind::NotUtf8),
    (b"# \xff", 0, FaultKind::NotUtf8),
    (b"c1 \xed\xa0\x80", 0, FaultKind::NotUtf8),
    (b"z1 k \xff", 0, FaultKind::NotUtf8),
    (b"z1", 1, FaultKind::UnknownLine),
    (b" \t-n1 v1", 1, FaultKind::UnknownLine),
    (b"N1 v1", 1, FaultKind::UnknownLine),
    (b"\xc3\xa9 v1", 1, FaultKind::UnknownLine),
    (b"n1 k5 v1", 2, FaultKind::UnknownField),
    (b"n1 v1 k5 x1", 3, FaultKind::UnknownField),
    (b"n1 v1 x1 y1 \xc3\xa9", 5, FaultKind::UnknownField),
    (b"n1 v1 Nn1", 3, FaultKind::UnknownField),
    (b"w1 v1 x1", 3, FaultKind::UnknownField),
    (b"w1 v1 Mn1@", 3, FaultKind::UnknownField),
    (b"r1 v1 Nn1", 3, FaultKind::UnknownField),
    (b"r1 v1 y1", 3, FaultKind::UnknownField),
    (b"n1 v1 -", 3, FaultKind::UnknownField),
    (b"n1 v1 v1 x1", 3, FaultKind::Repeated),
    (b"n1 v1 vx", 3, FaultKind::Repeated),
    (b"n1 v1 x1 y1 x", 5, FaultKind::Repeated),
    (b"n1 v1 T  T", 4, FaultKind::Repeated),
    (b"n1 v1 Ta=b Tc=d x0 y0", 4, FaultKind::Repeated),
    (b"n1 c1 v1 i2 c", 5, FaultKind::Repeated),
    (b"n1 v1 dV\tdV", 4, FaultKind::Repeated),
    (b"w1 v1 Nn1 Nn1", 4, FaultKind::Repeated),
    (b"r1 v1 M M", 4, FaultKind::Repeated),
    (b"n v1", 1, FaultKind::BadNumber),
    (b"n- v1", 1, FaultKind::BadNumber),
    (b"n+1 v1", 1, FaultKind::BadNumber),
    (b"w1.5 v1", 1, FaultKind::BadNumber),
    (b"n9223372036854775808 v1", 1, FaultKind::BadNumber),
    (b"r-9223372036854775809 v1", 1, FaultKind::BadNumber),
    (b"n1 v", 2, FaultKind::BadNumber),
    (b"n1 x1 v-1 k", 3, FaultKind::BadNumber),
    (b"n1 v4294967296", 2, FaultKind::BadNumber),
    (b"n1 v1 Ta%=b", 3, FaultKind::BadEscape),
    (b"n1 v1 Ta=%", 3, FaultKind::BadEscape),
    (b"n1 v1 Ta=%%", 3, FaultKind::BadEscape),
    (b"n1 v1 Ta=%d800%", 3, FaultKind::BadEscape),
    (b"n1 v1 Ta=b,c=%d800%", 3, FaultKind::BadEscape),
    (b"n1 v1 Ta=%110000%", 3, FaultKind::BadEscape),
    (b"n1 v1 Ta=%0000041%", 3, FaultKind::BadEscape),
    (b"n1 v1 Ta=%+1%", 3, FaultKind::BadEscape),
    (b"n1 v1 Ta%4,1%=b", 3, FaultKind::BadEscape),
    (b"n1 v1 Ta%", 3, FaultKind::BadEscape),
    (b"n1 v1 Ta%=b=c", 3, FaultKind::BadEscape),
    (b"r1 v1 Mn1@%zz%", 3, FaultKind::BadEscape),
    (b"n1 v1 Ta", 3, FaultKind::BadTag),
    (b"n1 v1 Ta=b=c", 3, FaultKind::BadTag),
    (b"n1 v1 Ta=b=%", 3, FaultKind::BadTag),
    (b"n1 v1 Ta=b,", 3, FaultKind::BadTag),
    (b"n1 v1 T,a=b", 3, FaultKind::BadTag),
    (b"n1 v1 Ta=b,c,d=%", 3, FaultKind::BadTag),
    (b"r1 v1 Mw5", 3, FaultKind::BadMember),
    (b"r1 v1 Mn1%", 3, FaultKind::BadMember),
    (b"r1 v1 Mx1@from", 3, FaultKind::BadMember),
    (b"r1 v1 Mn@from", 3, FaultKind::BadMember),
    (b"r1 v1 M@from", 3, FaultKind::BadMember),
    (b"r1 v1 Mn1@a,", 3, FaultKind::BadMember),
    (b"r1 v1 Mn1@a,n2a@%", 3, FaultKind::BadMember),
    (b"w1 v1 Nn1,x2", 3, FaultKind::BadRef),
    (b"w1 v1 N1", 3, FaultKind::BadRef),
    (b"w1 v1 Nn", 3, FaultKind::BadRef),
    (b"w1 v1 N,n1", 3, FaultKind::BadRef),
    (b"w1 v1 Nn1,", 3, FaultKind::BadRef),
    (b"w1 v1 Nn1x5", 3, FaultKind::BadRef),
    (b"w1 v1 Nn1y5", 3, FaultKind::BadRef),
    (b"w1 v1 Nn1x5y5x5", 3, FaultKind::BadRef),
    (b"w1 v1 Nn1x5ey5", 3, FaultKind::BadRef),
    (b"w1 v1 Nn9223372036854775808", 3, FaultKind::BadRef),
    (b"n1 v1 x1e2 y0", 3, FaultKind::BadCoordinate),
    (b"n1 v1 y0 x1.", 4, FaultKind::BadCoordinate),
    (b"n1 v1 x.5 y0", 3, FaultKind::BadCoordinate),
    (b"n1 v1 x+1 y0", 3, FaultKind::BadCoordinate),
    (b"n1 v1 x- y0", 3, FaultKind::BadCoordinate),
    (b"n1 v1 x180.0000001 y0", 3, FaultKind::BadCoordinate),
    (b"n1 v1 x0 y-90.0000001", 4, FaultKind::BadCoordinate),
    (b"n1 v1 dD y91", 4, FaultKind::BadCoordinate),
    (b"n1 v1 d", 3, FaultKind::BadFlag),
    (b"n1 v1 dX", 3, FaultKind::BadFlag),
    (b"n1 dv v1", 2, FaultKind::BadFlag),
    (b"n1 v1 dVD k", 3, FaultKind::BadFlag),
];

/// Lines of a change alone.
const CHANGE_LINES: &[Case] = &[
    (b"n1 x0 y0", 0, FaultKind::NoVersion),
    (b"w1", 0, FaultKind::NoVersion),
    (b"r1 dD", 0, FaultKind::NoVersion),
    (b"n1 x0 k", 3, FaultKind::UnknownField),
    (b"n1 x0 y91", 3, FaultKind::BadCoordinate),
];

/// What stands before and behind a line in fault, and the number of the line.
const PLACES: &[(&[u8], &[u8], u64)] = &[
    (b"", b"", 1),
    (b"", b"\r", 1),
    (b"", b"\n", 1),
    (b"n7 v1\n", b"\r\n", 2),
    (b"# \n\nn7 v1 x1 y1\r\n", b"\nw7 v1\n", 4),
    (b"c1\n", b"\nz\n\xff", 2),
];

fn joined(alloc: Global, front: &[u8], line: &[u8], behind: &[u8]) -> Result<Vec<u8>, AllocError> {
    let mut text = Vec::new(alloc);
    text.extend_from_slice(front)?;
    text.extend_from_slice(line)?;
    text.extend_from_slice(behind)?;
    Ok(text)
}

/// What is read of a text that is cut before this byte. A fault in front of it is answered again at the end.
fn read_cut(alloc: Global, mode: Mode, text: &[u8], at: usize) -> Result<Vec<Event>, ReadError> {
    let (front, behind) = text.split_at(at.min(text.len()));
    let mut reader = Reader::new(alloc, mode);
    let _answered_again = reader.feed(front);
    let _answered_again = reader.feed(behind);
    reader.finish()
}

/// Whether the text has this fault, wherever it is cut.
fn is_refused(alloc: Global, mode: Mode, text: &[u8], fault: Fault) -> bool {
    for at in 0..text.len() + 1 {
        match read_cut(alloc, mode, text, at) {
            Err(ReadError::Fault(found)) if found == fault => {}
            _ => return false,
        }
    }
    true
}

/// Whether the line has its fault at each place.
fn is_refused_everywhere(alloc: Global, mode: Mode, case: &Case) -> Result<bool, AllocError> {
    let (line, field, kind) = *case;
    for (front, behind, number) in PLACES {
        let text = joined(alloc, front, line, behind)?;
        let fault = Fault {
            line: *number,
            field,
            kind,
        };
        if !is_refused(alloc, mode, text.as_slice(), fault) {
            return Ok(false);
        }
    }
    Ok(true)
}

/// The first of the lines that has its fault not at each place.
fn first_other(
    alloc: Global,
    mode: Mode,
    cases: &[Case<'static>],
) -> Result<Option<&'static [u8]>, AllocError> {
    for case in cases {
        if !is_refused_everywhere(alloc, mode, case)? {
            return Ok(Some(case.0));
        }
    }
    Ok(None)
}

#[test]
fn each_fault_is_named_where_it_stands(rt: HostRuntime) -> Result<(), Fail> {
    assert_eq!(rt; first_other(rt.alloc(), Mode::Extract, LINES)?, None);
    assert_eq!(rt; first_other(rt.alloc(), Mode::Change, LINES)?, None);
    assert_eq!(rt; first_other(rt.alloc(), Mode::Change, CHANGE_LINES)?, None);
    Ok(())
}

/// A way with so many references, each to node 1, and what stands behind them.
fn long_way(alloc: Global, count: usize, behind: &str) -> Result<String, AllocError> {
    let mut line = String::from_str(alloc, "w1 v1 Nn1")?;
    for _ in 1..count {
        line.push_str(",n1")?;
    }
    line.push_str(behind)?;
    Ok(line)
}

fn read_whole(alloc: Global, count: usize, behind: &str) -> Result<usize, ReadError> {
    let line = long_way(alloc, count, behind)?;
    Ok(read_cut(alloc, Mode::Change, line.as_bytes(), 0)?.len())
}

/// How many references there are, what stands behind them, and the fault.
const LONG_WAYS: [(usize, &str, FaultKind); 4] = [
    (65_535, ",", FaultKind::TooMany),
    (65_535, ",x", FaultKind::TooMany),
    (65_536, "", FaultKind::TooMany),
    (65_534, ",x,n1,n1", FaultKind::BadRef),
];

#[test]
fn lists_end_at_65535_items(rt: HostRuntime) {
    assert_eq!(rt; read_whole(rt.alloc(), 65_535, ""), Ok(1));
    for (count, behind, kind) in LONG_WAYS {
        let fault = Fault {
            line: 1,
            field: 3,
            kind,
        };
        let read = read_whole(rt.alloc(), count, behind);
        assert_eq!(rt; read, Err(ReadError::Fault(fault)), "{count}{behind}");
    }
}
