//! Words that are numbers or steps.
ghost use Rattle.std.specs.Prelude.{◌≡◌, ◌-◌, ◌^◌, None, Some, IfSome, IfNone, length, take, slice_get};
ghost use Rattle.std.specs.Option.{option_and_then};
ghost use Rattle.opl_lexer.specs.Letters.{point};
ghost use Rattle.opl_lexer.specs.Parts.{parts};
ghost use Rattle.opl_lexer.specs.Numbers.{number_below};
ghost use Rattle.drive_queries.specs.Messages.{dir_of, step_along, signed_step, step_of};

use opl_lexer::{version, whole};
use road_base::{Dir, Step, WayId};

/// The number of 32 bits that digits alone spell.
fn number(word: &str) -> Option<u32>
    ensures { result ≡ number_below (2 ^ 32) word.now }
{
    version(word)
}

/// The step in this direction whose way and position are parted by a point.
fn step_along(dir: Dir, word: &str) -> Option<Step>
    ensures { result ≡ step_along dir (parts point word.now) }
{
    let (way, index) = word.split_once('.')?;
    let way = WayId(whole(way)?);
    let index = number(index)?;
    Some(Step { way, index, dir })
}

/// What stands before the sign at the end, and the direction that the sign means.
fn before_sign(word: &str) -> Option<(&str, Dir)>
    ensures front { IfSome result (λ found. found.0.now ≡ take (length word.now - 1) word.now) }
    ensures dir { IfSome result (λ found.
        option_and_then dir_of (slice_get word.now (length word.now - 1)) ≡ Some found.1) }
    ensures none { IfNone result (option_and_then dir_of (slice_get word.now (length word.now - 1)) ≡ None) }
{
    if let Some(front) = word.strip_suffix('+') {
        return Some((front, Dir::Forward));
    }
    let front = word.strip_suffix('-')?;
    Some((front, Dir::Backward))
}

/// The step that is spelled behind its letter.
fn signed_step(word: &str) -> Option<Step>
    ensures { result ≡ signed_step word.now }
{
    let (front, dir) = before_sign(word)?;
    step_along(dir, front)
}

/// The step that the word is: `wW.I+` or `wW.I-`, on way W between the positions I and I + 1 of its line.
pub fn step_of(word: &str) -> Option<Step>
    ensures { result ≡ step_of word.now }
{
    signed_step(word.strip_prefix('w')?)
}
