//! Where a text is cut.
ghost use Rattle.std.specs.Prelude.{◌≡◌, ◌∷◌, ◌<◌, Some, None, IfSome, IfNone, length, option_copied};
ghost use Rattle.opl_lexer.specs.Parts.{parts};
ghost use Rattle.moment_rules.specs.Shapes.{one_or_two, parts_left};

use memchr::memchr;

/// The text before the first such byte, and the text behind it where there is one.
pub fn cut(text: &str, stop: u8) -> (&str, Option<&str>)
    requires { stop < 128 }
    ensures parts { parts stop text.now ≡ result.0.now ∷ parts_left stop (option_copied result.1) }
    ensures shorter { IfSome result.1 (λ rest. length rest.now < length text.now) }
{
    let Some(at) = memchr(stop, text.as_bytes()) else {
        return (text, None);
    };
    let (front, _) = text.split_at(at);
    (front, Some(&text[at + 1..]))
}

/// The text before the only such byte and the text behind it, or the whole text where there is none. None where there
/// are more.
pub fn one_or_two(text: &str, stop: u8) -> Option<(&str, Option<&str>)>
    requires { stop < 128 }
    ensures some { IfSome result (λ found.
        one_or_two (parts stop text.now) ≡ Some (found.0.now, option_copied found.1)) }
    ensures none { IfNone result (one_or_two (parts stop text.now) ≡ None) }
{
    let (first, rest) = cut(text, stop);
    let Some(rest) = rest else {
        return Some((first, None));
    };
    match cut(rest, stop) {
        (second, None) => Some((first, Some(second))),
        (_, Some(_)) => None,
    }
}
