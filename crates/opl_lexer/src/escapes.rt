//! Texts with escapes: `%h%` stands for the character whose code is h.
ghost use Rattle.std.specs.Prelude.{◌≡◌, ◌<◌, ◌≤◌, ◌++◌, ℕ, List, [], ◌==◌, length, slice_index, Some, None};
ghost use Rattle.std.specs.Prelude.{IsErrOf, ◌⊎◌, SomeIff, IfSome, IfNone, IfErr, OnOk, OnErr, option_map, IsTrue};
ghost use Rattle.std.specs.Str.Parse.{IsNumeral, digits_value};
ghost use Rattle.std.specs.String.{string_bytes};
ghost use Rattle.opl_lexer.specs.Letters.{percent_sign, plus_sign};
ghost use Rattle.opl_lexer.specs.Parts.{Lacks, IsCutAt};
ghost use Rattle.opl_lexer.specs.Escapes.{is_code, unescaped};
ghost use Rattle.opl_lexer.specs.declared.fault.FaultKind.TheVariants.{BadEscape};
ghost use Rattle.opl_lexer.specs.declared.fault.LexError.TheVariants.{Kind, NoMemory};

use crate::{FaultKind, LexError};
use memchr::memchr;

const BAD_ESCAPE: LexError = LexError::Kind(FaultKind::BadEscape);

/// The longest code of a character.
const MOST_DIGITS: usize = 6;

/// What stands before the first percent sign, and what stands behind it.
fn cut(text: &str) -> Option<(&str, &str)>
    ensures some { IfSome result (λ parts. IsCutAt percent_sign text.now parts.0.now parts.1.now) }
    ensures shorter { IfSome result (λ parts. length parts.1.now < length text.now) }
    ensures none { IfNone result (Lacks percent_sign text.now) }
{
    let Some(at) = memchr(b'%', text.as_bytes()) else {
        return None;
    };
    let (front, _) = text.split_at(at);
    Some((front, &text[at + 1..]))
}

/// Whether a plus stands in front.
fn has_plus(bytes: &[u8]) -> bool
    ensures { result ≡ (slice_index bytes.now 0 == plus_sign) }
{
    match bytes {
        [first, ..] => *first == b'+',
        [] => false,
    }
}

/// The value of one to six hexadecimal digits.
fn code_value(code: &str) -> Option<u32>
    ensures { SomeIff result (IsNumeral 16 code.now × (length code.now ≤ 6)) (digits_value 16 code.now) }
{
    if code.len() > MOST_DIGITS || has_plus(code.as_bytes()) {
        return None;
    }
    u32::from_str_radix(code, 16).ok()
}

/// The character with this code.
fn character(code: &str) -> Option<char>
    ensures { SomeIff result (IsTrue (is_code code.now)) (digits_value 16 code.now) }
{
    let Some(value) = code_value(code) else {
        return None;
    };
    char::from_u32(value)
}

/// Appends the text with its escapes read. A refusal leaves a part of it behind `out`.
fn append(text: &str, out: &mut String) -> Result<(), LexError>
    ensures ok { OnOk result (option_map (λ read. string_bytes out.old ++ read) (unescaped text.now)
        ≡ Some (string_bytes out.new)) }
    ensures bad { IsErrOf result (Kind BadEscape) → unescaped text.now ≡ None }
    ensures only { IfErr result (λ e. (e ≡ Kind BadEscape) ⊎ (e ≡ NoMemory)) }
    ensures keeps { (part : List ℕ) × (string_bytes out.new ≡ string_bytes out.old ++ part) }
{
    let mut rest = text;
    while let Some((front, behind)) = cut(rest) {
        let Some((code, behind)) = cut(behind) else {
            return Err(BAD_ESCAPE);
        };
        let Some(read) = character(code) else {
            return Err(BAD_ESCAPE);
        };
        out.push_str(front)?;
        out.push(read)?;
        rest = behind;
    }
    out.push_str(rest)?;
    Ok(())
}

/// Appends the text with its escapes read: `%h%` stands for one character, h its code in one to six hexadecimal digits
/// of either case. `BadEscape` comes exactly where a percent sign doesn't begin such a form, or a code isn't a Unicode
/// scalar value. At every refusal `out` is as before.
pub fn unescape(text: &str, out: &mut String) -> Result<(), LexError>
    ensures ok { OnOk result (option_map (λ read. string_bytes out.old ++ read) (unescaped text.now)
        ≡ Some (string_bytes out.new)) }
    ensures bad { IsErrOf result (Kind BadEscape) → unescaped text.now ≡ None }
    ensures only { IfErr result (λ e. (e ≡ Kind BadEscape) ⊎ (e ≡ NoMemory)) }
    ensures err { OnErr result (string_bytes out.new ≡ string_bytes out.old) }
{
    let len = out.len();
    let done = append(text, out);
    if done.is_err() {
        out.truncate(len);
    }
    done
}
