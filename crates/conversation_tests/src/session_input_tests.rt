//! Sessions, cut into parts.
ghost use Rattle.std.specs.Prelude.{◌<◌};

use session_input::{Change, Input, InputEnd, InputStop, Line, Received};
use std::alloc::{AllocError, Global};
use std::process::Abort;
use std::test::Fail;

/// A message in a few words: the text of a line in brackets, or the number of a frame and what it holds.
fn describe(alloc: Global, received: &Received) -> Result<String, AllocError> {
    match received {
        Received::Line(line) => match line.text() {
            Some(text) => format!(in alloc; "[{text}]"),
            None => String::from_str(alloc, "no text"),
        },
        Received::Frame(number, Change::Events(events)) => {
            format!(in alloc; "frame {} of {}", number.0, events.len())
        }
        Received::Frame(number, Change::Faulty(fault)) => format!(in alloc;
            "frame {} line {} field {} {:?}",
            number.0, fault.line, fault.field, fault.kind
        ),
    }
}

/// Adds the message.
fn add(alloc: Global, received: &Received<'_>, messages: &mut String) -> Result<(), AllocError> {
    messages.push_str(describe(alloc, received)?.as_str())
}

/// Takes the part, and adds what it ends to the messages.
fn take_all(
    alloc: Global,
    input: &mut Input,
    part: &[u8],
    messages: &mut String,
) -> Result<(), Fail> {
    let mut rest = part;
    while !rest.is_empty() {
        let taken = input.take(rest)?;
        if let Some(received) = &taken.received {
            add(alloc, received, messages)?;
            messages.push_str(", ")?;
        }
        rest = &rest[taken.used..];
    }
    Ok(())
}

/// Adds how the session ends.
fn add_ending(alloc: Global, ending: &InputEnd, messages: &mut String) -> Result<(), AllocError> {
    match ending {
        InputEnd::Done => messages.push_str("done"),
        InputEnd::Last(received) => {
            messages.push_str("last ")?;
            add(alloc, received, messages)
        }
        InputEnd::Unfinished(number) => {
            messages.push_str(format!(in alloc; "unfinished {}", number.0)?.as_str())
        }
    }
}

/// Takes the parts in turn, and adds what they end to the messages.
fn take_parts(
    alloc: Global,
    input: &mut Input,
    parts: &[&[u8]],
    messages: &mut String,
) -> Result<(), Fail> {
    for part in parts {
        take_all(alloc, input, part, messages)?;
    }
    Ok(())
}

/// Adds the messages of a session that comes in these parts, and how it ends.
fn add_session(alloc: Global, parts: &[&[u8]], messages: &mut String) -> Result<(), Fail> {
    let mut input = Input::new(alloc);
    take_parts(alloc, &mut input, parts, messages)?;
    let ending = input.finish()?;
    Ok(add_ending(alloc, &ending, messages)?)
}

/// The messages of a session that comes in these parts, and how it ends.
fn messages(alloc: Global, parts: &[&[u8]]) -> Result<String, Fail> {
    let mut messages = String::new(alloc);
    add_session(alloc, parts, &mut messages)?;
    Ok(messages)
}

/// Whether the session that comes in these parts has these messages.
fn has_messages(alloc: Global, parts: &[&[u8]], wanted: &str) -> Result<bool, Fail> {
    let messages = messages(alloc, parts)?;
    Ok(messages.as_str() == wanted)
}

/// Sessions, and their messages.
const SESSIONS: &[(&[u8], &str)] = &[
    (b"", "done"),
    (b"graph\nstate\n", "[graph], [state], done"),
    (
        b"graph\r\n\n \t\r\nstate\r",
        "[graph], [], [ \t], last [state]",
    ),
    (b"graph\r\r\n", "[graph\r], done"),
    (b" reach 1  2\nreach\tw7", "[ reach 1  2], last [reach\tw7]"),
    (
        b"#seq 5\nn1 v1 x1 y2\n#end\ngraph\n",
        "frame 5 of 1, [graph], done",
    ),
    (
        b"#seq 5\r\nn1 v1 x1 y2\r\nn2 v1 dD\r\n #end\t\r\n",
        "frame 5 of 2, done",
    ),
    (b"#seq 5\n#end", "last frame 5 of 0"),
    (b"#seq 6", "unfinished 6"),
    (b"#seq 6\n", "unfinished 6"),
    (b"#seq 6\nn1 v1 x1 y2", "unfinished 6"),
    (b"#seq 6\nn1 v1 x1 y2\n", "unfinished 6"),
    (
        b"#seq 7\n#seq 9\n\n#end 1\n#end\n#end\n",
        "frame 7 of 0, [#end], done",
    ),
    (
        b"gr\xc3\xa4ph\n\xff\ngr\xc3\nstate\n",
        "[gr\u{e4}ph], no text, no text, [state], done",
    ),
    (
        b"#seq 8\n\xff\n#end\n",
        "frame 8 line 1 field 0 NotUtf8, done",
    ),
    (
        b"#seq 8\nn1 v1\nq\nz\n#end\nstate\n",
        "frame 8 line 2 field 1 UnknownLine, [state], done",
    ),
];

/// Lines that begin no frame, and the largest number of one.
const NUMBERS: &[(&[u8], &str)] = &[
    (b"#seq\n#seq 4 4\n", "[#seq], [#seq 4 4], done"),
    (b"#seq -4\n#seq +4\n", "[#seq -4], [#seq +4], done"),
    (
        b"#seq 18446744073709551616\n",
        "[#seq 18446744073709551616], done",
    ),
    (
        b"#seq 18446744073709551615\n#end\n",
        "frame 18446744073709551615 of 0, done",
    ),
];

/// Whether the session has these messages wherever it is cut in two.
fn is_cut_anywhere(alloc: Global, session: &[u8], wanted: &str) -> Result<bool, Fail> {
    for at in 0..session.len() + 1 {
        let (front, back) = session.split_at(at);
        if !has_messages(alloc, &[front, back], wanted)? {
            return Ok(false);
        }
    }
    Ok(true)
}

/// Each of the sessions is cut in two anywhere.
fn check_cut(rt: &impl Abort, alloc: Global, sessions: &[(&[u8], &str)]) -> Result<(), Fail> {
    for (session, wanted) in sessions {
        assert!(rt; is_cut_anywhere(alloc, session, wanted)?, "{wanted:?}");
    }
    Ok(())
}

#[test]
fn sessions_are_cut_anywhere(rt: HostRuntime) -> Result<(), Fail> {
    check_cut(&rt, rt.alloc(), SESSIONS)?;
    check_cut(&rt, rt.alloc(), NUMBERS)
}

/// Whether the session has these messages where each part, but for the last one, has so many bytes.
fn has_messages_by(alloc: Global, session: &[u8], size: usize, wanted: &str) -> Result<bool, Fail>
    requires { 0 < size }
{
    let mut parts = Vec::new(alloc);
    for part in session.chunks(size) {
        parts.push(part)?;
    }
    has_messages(alloc, parts.as_slice(), wanted)
}

#[test]
fn sessions_come_in_short_parts(rt: HostRuntime) -> Result<(), Fail> {
    for (session, wanted) in SESSIONS {
        for size in 1..4 {
            assert!(rt;
                has_messages_by(rt.alloc(), session, size, wanted)?,
                "{wanted:?} by {size}"
            );
        }
    }
    Ok(())
}

/// How a line's text is held.
fn holding(received: Option<Received>) -> &'static str {
    match received {
        Some(Received::Line(Line::Text(_))) => "lent",
        Some(Received::Line(Line::Held(_))) => "held",
        Some(Received::Line(Line::NoText)) => "no text",
        Some(Received::Frame(_, _)) => "a frame",
        None => "nothing yet",
    }
}

/// Whether a session that begins with these two parts has nothing at the first one's end, and then a line that is held
/// so.
fn holds_line(alloc: Global, front: &[u8], back: &[u8], wanted: &str) -> Result<bool, InputStop> {
    let mut input = Input::new(alloc);
    let before = holding(input.take(front)?.received);
    Ok(before == "nothing yet" && holding(input.take(back)?.received) == wanted)
}

/// Parts of a session, and how the line that ends in the second one is held.
const HOLDINGS: &[(&[u8], &[u8], &str)] = &[
    (b"", b"graph\r\nstate\n", "lent"),
    (b"gra", b"ph\nstate\n", "held"),
    (b"graph", b"\n", "held"),
    (b"", b"\xff\n", "no text"),
    (b"gr\xc3", b"ph\n", "no text"),
    (b"gr\xc3", b"\xa4ph\n", "held"),
    (b"#seq 5\n", b"#end\n", "a frame"),
];

#[test]
fn lines_are_lent(rt: HostRuntime) -> Result<(), Fail> {
    for (front, back, wanted) in HOLDINGS {
        assert!(rt;
            holds_line(rt.alloc(), front, back, wanted).is_ok_and(|holds| holds),
            "{back:?}"
        );
    }
    Ok(())
}

/// A line of 2^24 bytes.
fn longest_line(alloc: Global) -> Result<Vec<u8>, AllocError> {
    let mut line = Vec::with_capacity(alloc, 16_777_218)?;
    line.resize(16_777_216, b'a')?;
    line.push(b'\n')?;
    Ok(line)
}

/// Whether a session of these bytes is too long.
fn is_too_long(alloc: Global, bytes: &[u8]) -> bool {
    let mut input = Input::new(alloc);
    matches!(input.take(bytes), Err(InputStop::TooLong))
}

/// Whether the bytes are a line of as many bytes less one, which comes in one part.
fn is_whole_line(alloc: Global, bytes: &[u8]) -> bool {
    match Input::new(alloc).take(bytes) {
        Ok(taken) => match &taken.received {
            Some(Received::Line(Line::Text(text))) => text.len() + 1 == bytes.len(),
            _ => false,
        },
        Err(_) => false,
    }
}

/// The line, and the same with a byte more.
fn check_limit(rt: &impl Abort, alloc: Global, line: &mut Vec<u8>) -> Result<(), Fail> {
    assert!(rt; is_whole_line(alloc, line.as_slice()));
    line.insert(0, b'a')?;
    assert!(rt; is_too_long(alloc, line.as_slice()));
    Ok(())
}

#[test]
fn lines_have_a_limit(rt: HostRuntime) -> Result<(), Fail> {
    let mut line = longest_line(rt.alloc())?;
    check_limit(&rt, rt.alloc(), &mut line)
}
