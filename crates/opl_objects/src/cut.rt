//! Where a text is cut.
ghost use Rattle.std.specs.Prelude.{◌≡◌, ◌∷◌, ◌<◌, IfNone, IfSome, option_copied};
ghost use Rattle.opl_lexer.specs.Parts.{parts, Lacks, IsCutAt};
ghost use Rattle.opl_objects.specs.Cutting.{other_parts};

/// The text before the first such byte, and the text behind it where there is one.
#[inline]
pub fn at_first(text: &str, stop: u8) -> (&str, Option<&str>)
    requires { stop < 128 }
    ensures parts { parts stop text.now ≡ result.0.now ∷ other_parts stop (option_copied result.1) }
    ensures cut { IfSome result.1 (λ rest. IsCutAt stop text.now result.0.now rest.now) }
    ensures whole { IfNone result.1 (result.0.now ≡ text.now) }
    ensures lacks { IfNone result.1 (Lacks stop text.now) }
{
    let bytes = text.as_bytes();
    for at in 0..bytes.len() {
        if bytes[at] == stop {
            let (front, _) = text.split_at(at);
            return (front, Some(&text[at + 1..]));
        }
    }
    (text, None)
}
