//! Days of the week in a condition.
ghost use Rattle.std.specs.Prelude.{◌≡◌, ◌≤◌, option_map};
ghost use Rattle.moment_rules.specs.Days.{day_before, day_named, day_range, days_of, has_day, has_a_day};

use crate::cutting::{cut, one_or_two};

/// From a day on to another, past Sunday where the last comes before the first. Monday is 0, Sunday 6.
#[derive(Clone, Copy)]
pub struct DayRange {
    pub first: u8,
    pub last: u8,
}

/// The day of this name.
fn day_named(name: &str) -> Option<u8>
    ensures { result ≡ day_named name.now }
{
    match name {
        "Mo" => Some(0),
        "Tu" => Some(1),
        "We" => Some(2),
        "Th" => Some(3),
        "Fr" => Some(4),
        "Sa" => Some(5),
        "Su" => Some(6),
        _ => None,
    }
}

/// One day, or two with a hyphen between them.
fn day_range(text: &str) -> Option<DayRange>
    ensures { result ≡ day_range text.now }
{
    match one_or_two(text, b'-')? {
        (name, None) => {
            let day = day_named(name)?;
            Some(DayRange {
                first: day,
                last: day,
            })
        }
        (first, Some(last)) => {
            let first = day_named(first)?;
            let last = day_named(last)?;
            Some(DayRange { first, last })
        }
    }
}

/// Whether the day lies in the range.
fn has_day(day: u8, range: DayRange) -> bool
    ensures { result ≡ has_day day range }
{
    if range.first <= range.last {
        range.first <= day && day <= range.last
    } else {
        range.first <= day || day <= range.last
    }
}

/// Whether the day is one of those that the text names. None where the text isn't days and ranges of days.
pub fn has_a_day(day: u8, text: &str) -> Option<bool>
    ensures { result ≡ option_map (has_a_day day) (days_of text.now) }
{
    let mut found = false;
    let mut rest = Some(text);
    while let Some(left) = rest {
        let (part, behind) = cut(left, b',');
        let range = day_range(part)?;
        if has_day(day, range) {
            found = true;
        }
        rest = behind;
    }
    Some(found)
}

/// The day before this one.
pub fn day_before(day: u8) -> u8
    ensures { result ≡ day_before day }
{
    if day == 0 { 6 } else { day - 1 }
}
