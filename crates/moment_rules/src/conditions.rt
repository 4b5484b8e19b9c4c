//! Whether a condition applies at a moment.
ghost use Rattle.std.specs.Prelude.{◌≡◌, option_map, None};
ghost use Rattle.std.specs.Option.{option_or};
ghost use Rattle.moment_rules.specs.Days.{days_of};
ghost use Rattle.moment_rules.specs.Times.{times_of};
ghost use Rattle.moment_rules.specs.Conditions.{applies, condition_between, condition_of};

use crate::Moment;
use crate::cutting::one_or_two;
use crate::days::{day_before, has_a_day};
use crate::times::has_a_minute;

/// Whether days alone, or times alone, apply at the moment. None where the text is neither.
fn days_or_times(text: &str, at: Moment) -> Option<bool>
    ensures { result ≡ option_map (applies at) (condition_between (text.now, None)) }
{
    match has_a_day(at.day, text) {
        Some(meant) => Some(meant),
        None => has_a_minute(true, true, at.minute, text),
    }
}

/// Whether the condition applies at the moment. None where the text is none that is read.
pub fn applies(text: &str, at: Moment) -> Option<bool>
    ensures { result ≡ option_map (applies at) (condition_of text.now) }
{
    let (first, second) = one_or_two(text, b' ')?;
    let Some(times) = second else {
        return days_or_times(first, at);
    };
    let meant = has_a_day(at.day, first)?;
    let before = has_a_day(day_before(at.day), first)?;
    has_a_minute(meant, before, at.minute, times)
}
