//! What a whole line leads to.
ghost use Rattle.std.specs.Prelude.{◌≡◌, ◌≤◌, ◌<◌, ◌+◌, ◌++◌, ◌^◌, [], ◌∷◌, ℕ, List, length, IfOk, IfErr};
ghost use Rattle.opl_lexer.specs.Letters.{newline};
ghost use Rattle.opl_lexer.specs.Parts.{Lacks};
ghost use Rattle.std.specs.Option.{option_and_then, option_map};
ghost use Rattle.opl_lexer.specs.Fields.{fields};
ghost use Rattle.session_input.specs.Messages.{IsFrameEnd, line_text, frame_of_words};
ghost use Rattle.session_input.specs.Texts.{text_of};
ghost use Rattle.session_input.specs.Holding.{HasFrame, IsWholeLine, LeadsTo, next_size};

use crate::line::Line;
use crate::lines::{begun_frame, is_frame_end};
use crate::open_frame::OpenFrame;
use crate::received::{InputStop, Received};
use road_base::Sequence;
use std::alloc::Global;

/// What stands behind a line.
#[derive(Drop)]
pub enum Behind<'a> {
    /// A frame that hasn't ended.
    Open(OpenFrame),
    /// A message, which the line ended.
    Ended(Received<'a>),
}

/// The number of the frame that the line begins.
fn number_of(line: &Line<'_>) -> Option<Sequence>
    ensures { option_map (λ n. n.0) result ≡ option_and_then (λ text. frame_of_words (fields text)) (text_of line.now) }
{
    Some(Sequence(begun_frame(line.text()?)?))
}

/// Takes a line outside a frame.
pub fn take_outside<'a>(alloc: Global, line: Line<'a>) -> Behind<'a>
    ensures next { (bytes : List ℕ) → Lacks newline bytes → text_of line.entry ≡ line_text bytes
        → LeadsTo (bytes ++ (newline ∷ [])) result }
    ensures size { next_size result ≡ 0 }
{
    match number_of(&line) {
        Some(number) => Behind::Open(OpenFrame::new(alloc, number)),
        None => Behind::Ended(Received::Line(line)),
    }
}

/// The message that the frame is, whatever line ends it.
fn end_frame<'a>(frame: OpenFrame) -> Result<Behind<'a>, InputStop>
    ensures next { IfOk result (λ next. (front line : List ℕ)
        → HasFrame front frame
        → Lacks newline line
        → IsFrameEnd line
        → LeadsTo (front ++ (line ++ (newline ∷ []))) next) }
    ensures size { IfOk result (λ next. next_size next ≡ 0) }
    ensures stopped { IfErr result (λ e. e ≡ InputStop.NoMemory) }
{
    let number = frame.number();
    let change = frame.change()?;
    Ok(Behind::Ended(Received::Frame(number, change)))
}

/// Takes a line in a frame, with its newline.
pub fn take_inside<'a>(frame: OpenFrame, whole: &[u8]) -> Result<Behind<'a>, InputStop>
    requires some { 0 < length whole.now }
    requires room { frame.size + length whole.now < 2 ^ 64 }
    ensures next { IfOk result (λ next. (front : List ℕ)
        → HasFrame front frame
        → IsWholeLine whole.now
        → LeadsTo (front ++ whole.now) next) }
    ensures size { IfOk result (λ next. next_size next ≤ frame.size + length whole.now) }
    ensures stopped { IfErr result (λ e. e ≡ InputStop.NoMemory) }
{
    let (line, _) = whole.split_at(whole.len() - 1);
    if is_frame_end(line) {
        return end_frame(frame);
    }
    let mut frame = frame;
    frame.feed(whole)?;
    Ok(Behind::Open(frame))
}
