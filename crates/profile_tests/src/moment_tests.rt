//! Moments of civil time, and what conditional values say at them.
use moment_rules::{Reading, parse_moment, read_conditional};
use std::alloc::{AllocError, Global};
use std::test::Fail;

/// The day and the minute of a text, where it is a moment's.
fn moment_of(text: &str) -> Option<(u8, u16)> {
    let at = parse_moment(text)?;
    Some((at.day, at.minute))
}

#[test]
fn moments_are_read(rt: HostRuntime) {
    let cases = [
        ("2024-05-06T23:00", Some((0, 1380))),
        ("2024-05-07T05:59", Some((1, 359))),
        ("2024-05-11T05:00", Some((5, 300))),
        ("2024-05-12T23:59", Some((6, 1439))),
        ("2024-02-29T00:00", Some((3, 0))),
        ("0000-01-01T00:00", Some((5, 0))),
        ("0000-02-29T12:30", Some((1, 750))),
        ("9999-12-31T23:59", Some((4, 1439))),
        // the calendar has no such date
        ("2023-02-29T12:00", None),
        ("1900-02-29T12:00", None),
        ("2024-04-31T12:00", None),
        ("2024-13-01T12:00", None),
        ("2024-00-10T12:00", None),
        ("2024-10-00T12:00", None),
        ("2024-01-32T12:00", None),
        // the day has no such time
        ("2024-05-06T24:00", None),
        ("2024-05-06T23:60", None),
        ("2024-05-06T99:99", None),
        // other forms
        ("", None),
        ("2024-05-06", None),
        ("2024-05-06T23:0", None),
        ("2024-05-06T23:000", None),
        ("2024-05-06T23:00:00", None),
        ("2024-05-06T23:00Z", None),
        ("2024-05-06t23:00", None),
        ("2024-05-06 23:00", None),
        ("2024/05/06T23:00", None),
        ("2024-5-06T23:00", None),
        ("+024-05-06T23:00", None),
        ("-024-05-06T23:00", None),
        ("2024-05-06T+3:00", None),
        (" 2024-05-06T23:00", None),
        ("2024-05-06T23:00 ", None),
        ("2024-05-06T2\u{663}:00", None),
    ];
    for (text, read) in cases {
        assert!(rt; moment_of(text) == read, "at {text:?}");
    }
}

/// The weekday of the first of January of each year from 1583 to 2401, from 0 for Monday on, as Python's
/// `datetime.date.weekday` has it.
const JANUARY_FIRSTS: [&str; 9] = [
    "5612346012456023450123560134561234601245602345012356013456123460124560234501235601345612346012456023",
    "4501235601345612345601345612346012456023450123560134561234601245602345012356013456123460124560234501",
    "2356013456123460123456123460124560234501235601345612346012456023450123560134561234601245602345012356",
    "0134561234601245601234601245602345012356013456123460124560234501235601345612346012456023450123560134",
    "5612346012456023450123560134561234601245602345012356013456123460124560234501235601345612346012456023",
    "4501235601345612345601345612346012456023450123560134561234601245602345012356013456123460124560234501",
    "2356013456123460123456123460124560234501235601345612346012456023450123560134561234601245602345012356",
    "0134561234601245601234601245602345012356013456123460124560234501235601345612346012456023450123560134",
    "5612346012456023450",
];

/// The weekday of the first of January of a year from 1583 on.
fn january_first(year: usize) -> Option<usize> {
    let at = year.checked_sub(1583)?;
    let digit = JANUARY_FIRSTS.get(at / 100)?.as_bytes().get(at % 100)?;
    Some(digit.checked_sub(b'0')? as usize)
}

/// The weekday so many days later.
fn later(weekday: usize, days: usize) -> usize {
    (weekday % 7 + days % 7) % 7
}

/// Whether a year is a leap year, which the first of January behind it tells.
fn is_leap_year(year: usize) -> bool {
    match (january_first(year), january_first(year.saturating_add(1))) {
        (Some(first), Some(next)) => later(first, 366) == next,
        _ => false,
    }
}

/// How many days the months of a year have.
fn month_lengths(leap: bool) -> [usize; 12] {
    let february = if leap { 29 } else { 28 };
    [31, february, 31, 30, 31, 30, 31, 31, 30, 31, 30, 31]
}

/// The weekday that a moment on that day has, where it is one.
fn weekday(
    alloc: Global,
    year: usize,
    month: usize,
    day: usize,
) -> Result<Option<usize>, AllocError> {
    let text = format!(in alloc; "{year:04}-{month:02}-{day:02}T12:00")?;
    match parse_moment(text.as_str()) {
        Some(at) => Ok(Some(at.day as usize)),
        None => Ok(None),
    }
}

/// Whether a month of this length, whose first day has this weekday, is read right: its days, and none behind them.
fn agrees_in_month(
    alloc: Global,
    year: usize,
    month: usize,
    length: usize,
    first: usize,
) -> Result<bool, Fail> {
    for day in 1..=31usize {
        let wanted = if day <= length {
            Some(later(first, day - 1))
        } else {
            None
        };
        if weekday(alloc, year, month, day)? != wanted {
            return Ok(false);
        }
    }
    Ok(true)
}

/// Whether a year is read right, each day of it.
fn agrees_in_year(alloc: Global, year: usize) -> Result<bool, Fail> {
    let Some(mut first) = january_first(year) else {
        return Ok(false);
    };
    let mut month = 1usize;
    for length in month_lengths(is_leap_year(year)) {
        if !agrees_in_month(alloc, year, month % 100, length, first)? {
            return Ok(false);
        }
        first = later(first, length);
        month = month % 100 + 1;
    }
    Ok(january_first(year.saturating_add(1)) == Some(first))
}

#[test]
fn weekdays_are_those_of_the_table(rt: HostRuntime) -> Result<(), Fail> {
    for year in 1583..=2400usize {
        assert!(rt; agrees_in_year(rt.alloc(), year)?, "in {year}");
    }
    Ok(())
}

/// On Monday, the 6th of May 2024.
const HALF_PAST_EIGHT: &str = "2024-05-06T08:30";

/// A value, a moment, and what the value says at it: `quiet` where no part applies, or the last part's value. The 6th
/// of May 2024 is a Monday.
const RANGES: [(&str, &str, &str); 39] = [
    // over midnight: the range belongs to the day on which it begins
    ("no @ (Mo-Fr 22:00-06:00)", "2024-05-11T05:00", "no"),
    ("no @ (Mo-Fr 22:00-06:00)", "2024-05-11T23:00", "quiet"),
    ("no @ (Mo-Fr 22:00-06:00)", "2024-05-13T05:00", "quiet"),
    ("no @ (Mo-Fr 22:00-06:00)", "2024-05-06T23:00", "no"),
    ("no @ (Mo-Fr 22:00-06:00)", "2024-05-07T05:59", "no"),
    ("no @ (Mo-Fr 22:00-06:00)", "2024-05-07T06:00", "quiet"),
    ("no @ (Mo-Fr 22:00-06:00)", "2024-05-06T21:59", "quiet"),
    ("no @ (Mo-Fr 22:00-06:00)", "2024-05-06T22:00", "no"),
    ("no @ (Mo-Fr 22:00-06:00)", "2024-05-10T23:59", "no"),
    ("no @ (Mo-Fr 22:00-06:00)", "2024-05-11T00:00", "no"),
    ("no @ (Mo-Fr 22:00-06:00)", "2024-05-12T23:00", "quiet"),
    // without days each day is meant
    ("no @ (22:00-06:00)", "2024-05-12T05:59", "no"),
    ("no @ (22:00-06:00)", "2024-05-12T06:00", "quiet"),
    ("no @ (22:00-06:00)", "2024-05-06T22:00", "no"),
    // over Sunday
    ("no @ Sa-Mo; yes @ Su", "2024-05-10T12:00", "quiet"),
    ("no @ Sa-Mo; yes @ Su", "2024-05-11T12:00", "no"),
    ("no @ Sa-Mo; yes @ Su", "2024-05-12T12:00", "yes"),
    ("no @ Sa-Mo; yes @ Su", "2024-05-06T12:00", "no"),
    ("no @ Sa-Mo; yes @ Su", "2024-05-07T12:00", "quiet"),
    ("no @ (Su 20:00-04:00)", "2024-05-12T20:00", "no"),
    ("no @ (Su 20:00-04:00)", "2024-05-06T03:59", "no"),
    ("no @ (Su 20:00-04:00)", "2024-05-12T03:59", "quiet"),
    ("no @ (Su 20:00-04:00)", "2024-05-06T20:00", "quiet"),
    // one day, a range of one day, and a range round the week
    ("no @ We", "2024-05-08T00:00", "no"),
    ("no @ We", "2024-05-09T00:00", "quiet"),
    ("no @ Mo-Mo", "2024-05-06T00:00", "no"),
    ("no @ Mo-Mo", "2024-05-07T00:00", "quiet"),
    ("no @ Tu-Mo", "2024-05-06T00:00", "no"),
    ("no @ Tu-Mo", "2024-05-07T00:00", "no"),
    ("no @ Tu-Mo", "2024-05-10T00:00", "no"),
    // whole days
    ("no @ 00:00-24:00", "2024-05-07T00:00", "no"),
    ("no @ 00:00-24:00", "2024-05-07T23:59", "no"),
    ("no @ Tu 12:00-24:00", "2024-05-07T11:59", "quiet"),
    ("no @ Tu 12:00-24:00", "2024-05-07T23:59", "no"),
    ("no @ Tu 12:00-24:00", "2024-05-08T00:00", "quiet"),
    ("no @ 12:00-00:00", "2024-05-08T23:59", "no"),
    ("no @ 12:00-00:00", "2024-05-08T00:00", "quiet"),
    ("no @ 07:00-09:00", "2024-05-06T07:00", "no"),
    ("no @ 07:00-09:00", "2024-05-06T09:00", "quiet"),
];

/// The same of lists, of several parts, and of what stands around them.
const PARTS: [(&str, &str, &str); 17] = [
    // lists
    (
        "no @ (Mo,We-Th,Su 07:00-09:00,16:00-18:00)",
        "2024-05-06T08:00",
        "no",
    ),
    (
        "no @ (Mo,We-Th,Su 07:00-09:00,16:00-18:00)",
        "2024-05-06T17:00",
        "no",
    ),
    (
        "no @ (Mo,We-Th,Su 07:00-09:00,16:00-18:00)",
        "2024-05-06T12:00",
        "quiet",
    ),
    (
        "no @ (Mo,We-Th,Su 07:00-09:00,16:00-18:00)",
        "2024-05-07T08:00",
        "quiet",
    ),
    (
        "no @ (Mo,We-Th,Su 07:00-09:00,16:00-18:00)",
        "2024-05-09T16:00",
        "no",
    ),
    (
        "no @ (Mo,We-Th,Su 07:00-09:00,16:00-18:00)",
        "2024-05-12T17:59",
        "no",
    ),
    // several parts: the last that applies
    (
        "no @ Mo-Su; destination @ (08:00-20:00); yes @ (We)",
        "2024-05-06T07:00",
        "no",
    ),
    (
        "no @ Mo-Su; destination @ (08:00-20:00); yes @ (We)",
        "2024-05-06T08:00",
        "destination",
    ),
    (
        "no @ Mo-Su; destination @ (08:00-20:00); yes @ (We)",
        "2024-05-08T08:00",
        "yes",
    ),
    ("yes @ (We); no @ Mo-Su", "2024-05-08T08:00", "no"),
    // spaces, parentheses and values of any kind
    ("no@Mo", "2024-05-06T12:00", "no"),
    ("  no  @  Mo  ", "2024-05-06T12:00", "no"),
    ("no @(Mo)", "2024-05-06T12:00", "no"),
    ("no @ (Mo) ;yes@Tu", "2024-05-06T12:00", "no"),
    ("psv:motor @ (Mo)", "2024-05-06T12:00", "psv:motor"),
    ("für @ Mo", "2024-05-06T12:00", "für"),
    ("(no) @ Mo", "2024-05-06T12:00", "(no)"),
];

/// Values that have a part of another form, or a condition that would need more than a day and a minute.
const OTHER_FORMS: [&str; 32] = [
    "",
    "no",
    "@ Mo",
    "no @",
    "no @ ()",
    "no @ (",
    "no @ )",
    "no @ (Mo",
    "no @ Mo)",
    "no @ ((Mo))",
    "no @ ( Mo)",
    "no @ (Mo )",
    "no @ Mo @ Tu",
    "no way @ Mo",
    "no @ PH",
    "no @ (PH)",
    "no @ (Mo-Fr,PH)",
    "no @ (SH)",
    "no @ (Jan-Mar)",
    "no @ (week 1-10)",
    "no @ (sunset-sunrise)",
    "no @ (weight>7.5)",
    "no @ (08:00-08:00)",
    "no @ PH; no @ Mo",
    "no @ Mo; no @ PH; yes @ Mo",
    "no @ Mo; no @ PH",
    "no @ Mo;",
    "; no @ Mo",
    "no @ Mo;;yes @ Mo",
    ";",
    "; ;",
    "no @ Mo; ",
];

/// Values whose days or times are spelled otherwise.
const OTHER_DAYS_AND_TIMES: [&str; 29] = [
    "no @ 24:00-06:00",
    "no @ 08:00-24:01",
    "no @ 08:00-25:00",
    "no @ 08:60-09:00",
    "no @ 8:00-9:00",
    "no @ 08:00",
    "no @ 08:00-",
    "no @ 08:00-09:00+",
    "no @ 08:00-09:00-10:00",
    "no @ 08.00-09.00",
    "no @ Mo-",
    "no @ -Mo",
    "no @ Mo-Tu-We",
    "no @ mo",
    "no @ MO",
    "no @ Mon",
    "no @ Mo,",
    "no @ ,Mo",
    "no @ Mo,,Tu",
    "no @ Mo, Tu",
    "no @ Mo - Tu",
    "no @ Mo  08:00-09:00",
    "no @ 08:00-09:00 Mo",
    "no @ Mo Tu",
    "no @ Mo 08:00-09:00 Tu",
    "no @ Mo 08:00-09:00, 10:00-11:00",
    "no @ Mo\t",
    "no @ Mo AND 08:00-09:00",
    "off",
];

/// What a value says at the moment of a text.
fn said<'a>(value: &'a str, at: &str) -> &'a str {
    let Some(at) = parse_moment(at) else {
        return "no moment";
    };
    match read_conditional(value, at) {
        Reading::Unread => "unread",
        Reading::Quiet => "quiet",
        Reading::Value(value) => value,
    }
}

#[test]
fn ranges_pass_midnight_and_sunday(rt: HostRuntime) {
    for (value, at, wanted) in RANGES {
        assert!(rt; said(value, at) == wanted, "{value:?} at {at:?}");
    }
}

#[test]
fn parts_are_read(rt: HostRuntime) {
    for (value, at, wanted) in PARTS {
        assert!(rt; said(value, at) == wanted, "{value:?} at {at:?}");
    }
}

#[test]
fn other_forms_stay_unread(rt: HostRuntime) {
    for value in OTHER_FORMS {
        assert!(rt; said(value, HALF_PAST_EIGHT) == "unread", "{value:?}");
    }
}

#[test]
fn other_days_and_times_stay_unread(rt: HostRuntime) {
    for value in OTHER_DAYS_AND_TIMES {
        assert!(rt; said(value, HALF_PAST_EIGHT) == "unread", "{value:?}");
    }
}

/// The text, and so many times another behind it.
fn repeated(alloc: Global, front: &str, part: &str, times: usize) -> Result<String, AllocError> {
    let mut text = String::from_str(alloc, front)?;
    for _ in 0..times {
        text.push_str(part)?;
    }
    Ok(text)
}

/// Whether a long value, with some last part behind it, says this.
fn says(
    alloc: Global,
    front: &str,
    part: &str,
    last: &str,
    wanted: &str,
) -> Result<bool, AllocError> {
    let mut value = repeated(alloc, front, part, 16_000_000 / part.len().max(1))?;
    value.push_str(last)?;
    Ok(said(value.as_str(), HALF_PAST_EIGHT) == wanted)
}

/// Values of sixteen megabytes are read once from front to end.
#[test]
fn long_values_are_read(rt: HostRuntime) -> Result<(), Fail> {
    let cases = [
        ("", ";", "", "unread"),
        ("", " ", "no @ Mo", "no"),
        ("", "yes @ Mo;", "no @ Mo", "no"),
        ("", "yes @ Tu;", "no @ PH", "unread"),
        ("no @ ", "Tu,", "Mo", "no"),
        ("no @ ", "Tu,", "Tu", "quiet"),
        ("no @ ", "Mo,", "PH", "unread"),
        ("no @ ", "10:00-12:00,", "08:00-09:00", "no"),
        ("no @ ", "(", ")", "unread"),
        ("no @ ", "@", "Mo", "unread"),
        ("no @ Mo", "-", "Tu", "unread"),
    ];
    for (front, part, last, wanted) in cases {
        assert!(rt;
            says(rt.alloc(), front, part, last, wanted)?,
            "{front:?} {part:?} {last:?}"
        );
    }
    Ok(())
}
