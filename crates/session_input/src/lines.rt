//! The lines of a session.
ghost use Rattle.std.specs.Prelude.{◌≡◌, ◌↔◌, ◌++◌, [], ◌∷◌, codes, length, take, IfSome, IfNone, IsTrue};
ghost use Rattle.opl_lexer.specs.Letters.{newline};
ghost use Rattle.opl_lexer.specs.Fields.{fields as fields_of};
ghost use Rattle.opl_lexer.specs.Parts.{Lacks};
ghost use Rattle.session_input.specs.Messages.{IsFrameEnd, line_text, frame_of_words};
ghost use Rattle.session_input.specs.Texts.{text_of};
ghost use Rattle.session_input.specs.Holding.{IsFirstLine};

use crate::line::Line;
use memchr::memchr;
use opl_lexer::{fields, long_number, without_return};
use road_base::Sequence;

/// The bytes up to the first newline, and with it.
#[inline]
pub fn first_line(bytes: &[u8]) -> Option<&[u8]>
    ensures some { IfSome result (λ line. IsFirstLine bytes.now line.now) }
    ensures none { IfNone result (Lacks newline bytes.now) }
{
    let at = memchr(b'\n', bytes)?;
    let (line, _) = bytes.split_at(at + 1);
    Some(line)
}

/// Whether the only word of the text is `#end`.
fn is_end(text: &str) -> bool
    ensures { IsTrue result ↔ (fields_of text.now ≡ codes "#end" ∷ []) }
{
    let mut words = fields(text);
    words.next() == Some("#end") && words.next().is_none()
}

/// Whether the line ends a frame: its only word is `#end`.
pub fn is_frame_end(line: &[u8]) -> bool
    ensures { IsTrue result ↔ IsFrameEnd line.now }
{
    match std::str::from_utf8(without_return(line)) {
        Ok(text) => is_end(text),
        Err(_) => false,
    }
}

/// The number of the frame that a line with this text begins: it stands alone behind `#seq`.
pub fn begun_frame(text: &str) -> Option<u64>
    ensures { result ≡ frame_of_words (fields_of text.now) }
{
    let mut words = fields(text);
    let (Some("#seq"), Some(number), None) = (words.next(), words.next(), words.next()) else {
        return None;
    };
    long_number(number)
}

/// The line, without its newline, lent.
pub fn lent_line(line: &[u8]) -> Line<'_>
    ensures { text_of result ≡ line_text line.now }
{
    let Ok(text) = std::str::from_utf8(without_return(line)) else {
        return Line::NoText;
    };
    Line::Text(text)
}

/// The line, without its newline, kept. Takes no memory.
pub fn held_line<'a>(line: Vec<u8>) -> Line<'a>
    ensures { text_of result ≡ line_text line.items }
{
    let length = without_return(&line).len();
    let mut line = line;
    line.truncate(length);
    match String::from_utf8(line) {
        Ok(text) => Line::Held(text),
        Err(_) => Line::NoText,
    }
}
