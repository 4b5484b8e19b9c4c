//! Times of day in a condition.
ghost use Rattle.std.specs.Prelude.{◌≡◌, option_map};
ghost use Rattle.moment_rules.specs.Times.{clock_time, time_range, times_of, has_minute, has_a_minute};

use crate::cutting::{cut, one_or_two};
use crate::shapes::{has_shape, two_digits};

/// From a minute of the day on until another one, over midnight where that comes before the first.
#[derive(Clone, Copy)]
pub struct TimeRange {
    pub from: u16,
    pub until: u16,
}

/// The minute of the day that `HH:MM` means, which is at most the latest.
pub fn clock_time(latest: u16, text: &str) -> Option<u16>
    ensures { result ≡ clock_time latest text.now }
{
    let bytes = text.as_bytes();
    if !has_shape(b"00:00", bytes) {
        return None;
    }
    let minute_of_hour = two_digits(bytes, 3);
    let minute = 60 * two_digits(bytes, 0) as u16 + minute_of_hour as u16;
    if minute_of_hour > 59 || minute > latest {
        return None;
    }
    Some(minute)
}

/// Two times that differ, with a hyphen between them: the first at most 23:59, the second at most 24:00.
fn time_range(text: &str) -> Option<TimeRange>
    ensures { result ≡ time_range text.now }
{
    let (from, until) = one_or_two(text, b'-')?;
    let until = until?;
    let from = clock_time(1439, from)?;
    let until = clock_time(1440, until)?;
    if from == until {
        return None;
    }
    Some(TimeRange { from, until })
}

/// Whether the minute lies in the range, where its day is meant or not, and the day before it.
fn has_minute(meant: bool, before: bool, minute: u16, range: TimeRange) -> bool
    ensures { result ≡ has_minute meant before minute range }
{
    if range.from < range.until {
        return meant && range.from <= minute && minute < range.until;
    }
    if range.from <= minute && meant {
        return true;
    }
    before && minute < range.until
}

/// Whether the minute lies in one of the ranges that the text names, where its day is meant or not, and the day before
/// it. None where the text isn't ranges of times.
pub fn has_a_minute(meant: bool, before: bool, minute: u16, text: &str) -> Option<bool>
    ensures { result ≡ option_map (has_a_minute meant before minute) (times_of text.now) }
{
    let mut found = false;
    let mut rest = Some(text);
    while let Some(left) = rest {
        let (part, behind) = cut(left, b',');
        let range = time_range(part)?;
        if has_minute(meant, before, minute, range) {
            found = true;
        }
        rest = behind;
    }
    Some(found)
}
