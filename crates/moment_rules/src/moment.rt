//! Moments of civil time.
ghost use Rattle.std.specs.Prelude.{◌≡◌, ◌≤◌, ◌<◌, ◌↔◌, pos, IsSome, IfSome};
ghost use Rattle.jiff_core.specs.Calendar.{IsDate, days_from_civil, weekday_number};
ghost use Rattle.moment_rules.specs.Moments.{IsMoment, weekday_of, minute_of_day};

use crate::shapes::{four_digits, has_shape, two_digits};
use jiff::civil::Date;

/// A moment of a week of civil time: its day, from 0 for Monday to 6 for Sunday, and its minute of the day, from 0 to
/// 1439.
#[derive(Clone, Copy, PartialEq, Eq, Debug)]
pub struct Moment {
    pub day: u8,
    pub minute: u16,
    ghost day_in: { day ≤ 6 },
    ghost minute_in: { minute ≤ 1439 },
}

/// The weekday that `jiff` gives to the date. None exactly where its calendar doesn't have the date.
fn weekday(year: u16, month: u8, day: u8) -> Option<u8>
    requires year { year < 10000 }
    requires month { month < 100 }
    requires day { day < 100 }
    ensures exact { IsSome result ↔ IsDate (pos year) (pos month) (pos day) }
    ensures value { IfSome result (λ weekday. weekday ≡ weekday_number (days_from_civil (pos year) month day)) }
    ensures bound { IfSome result (λ weekday. weekday ≤ 6) }
{
    match Date::new(year as i16, month as i8, day as i8) {
        Ok(date) => Some(date.weekday().to_monday_zero_offset() as u8),
        Err(_) => None,
    }
}

/// The moment of a text `YYYY-MM-DDTHH:MM`, as `2024-05-06T23:00`: the weekday of the date as `jiff` has it, and the
/// minute of its day. None exactly where the text isn't of this form, the calendar doesn't have the date, or the day
/// doesn't have the time.
pub fn parse_moment(text: &str) -> Option<Moment>
    ensures exact { IsSome result ↔ IsMoment text.now }
    ensures day { IfSome result (λ at. at.day ≡ weekday_of text.now) }
    ensures minute { IfSome result (λ at. at.minute ≡ minute_of_day text.now) }
{
    let bytes = text.as_bytes();
    if !has_shape(b"0000-00-00T00:00", bytes) {
        return None;
    }
    let year = four_digits(bytes, 0);
    let day = weekday(year, two_digits(bytes, 5), two_digits(bytes, 8))?;
    let hour = two_digits(bytes, 11);
    let minute = two_digits(bytes, 14);
    if hour > 23 || minute > 59 {
        return None;
    }
    let minute = 60 * hour as u16 + minute as u16;
    Some(Moment { day, minute })
}
