//! What a line asks that is about pins.
ghost use Rattle.std.specs.Prelude.{◌≡◌, IfOk, IfSome};
ghost use Rattle.opl_lexer.specs.Left.{fields_left};
ghost use Rattle.drive_queries.specs.Messages.{AsksSteps};
ghost use Rattle.road_model.specs.Questions.{HasSteps};
ghost use Rattle.session_replies.specs.PinMessages.{AsksQuestion, pin_message, question_of, reader_alone};
ghost use Rattle.session_replies.specs.PinMessages.{asked_pin, asked_release, asked_reader};

use drive_queries::{Asked, asked_of};
use opl_lexer::{FieldIter, fields, version};
use road_base::NoMemory;
use road_model::Question;
use std::alloc::Global;

/// What a line asks of what is pinned. A reader is named by its number.
#[derive(Drop)]
pub enum PinMessage {
    /// `pin K`: the newest state is kept for reader K.
    Pin(u32),
    /// `release K`: nothing is kept for reader K any more.
    Release(u32),
    /// `ask K graph`, `state`, `drive STEP ..` or `reach A B`: the same of the state that is kept for reader K.
    Ask(u32, Question),
}

/// The number of a reader, alone.
fn reader_alone(mut words: FieldIter<'_>) -> Option<u32>
    ensures { result ≡ reader_alone (fields_left words.entry) }
{
    let word = words.next()?;
    if words.next().is_some() {
        return None;
    }
    version(word)
}

fn asked_pin(words: FieldIter<'_>) -> Option<PinMessage>
    ensures { result ≡ asked_pin (fields_left words.entry) }
{
    let reader = reader_alone(words)?;
    Some(PinMessage::Pin(reader))
}

fn asked_release(words: FieldIter<'_>) -> Option<PinMessage>
    ensures { result ≡ asked_release (fields_left words.entry) }
{
    let reader = reader_alone(words)?;
    Some(PinMessage::Release(reader))
}

/// The question of the same name.
fn question_of(asked: Asked) -> Option<Question>
    requires steps { AsksSteps asked }
    ensures is { result ≡ question_of asked }
    ensures steps { IfSome result HasSteps }
{
    match asked {
        Asked::Graph => Some(Question::Graph),
        Asked::State => Some(Question::State),
        Asked::Drive(drive) => Some(Question::Drive(drive)),
        Asked::Reach(from, to) => Some(Question::Reach(from, to)),
        Asked::Empty => None,
        Asked::Seq(_) => None,
        Asked::Unknown => None,
    }
}

/// The number of a reader, and what is asked of the state that is kept for it.
fn asked_reader(alloc: Global, mut words: FieldIter<'_>) -> Result<Option<PinMessage>, NoMemory>
    ensures asks { IfOk result (λ asks. asks ≡ asked_reader (fields_left words.entry)) }
    ensures steps { IfOk result (λ asks. IfSome asks AsksQuestion) }
{
    let Some(word) = words.next() else {
        return Ok(None);
    };
    let Some(reader) = version(word) else {
        return Ok(None);
    };
    let asked = asked_of(alloc, words)?;
    match question_of(asked) {
        Some(question) => Ok(Some(PinMessage::Ask(reader, question))),
        None => Ok(None),
    }
}

/// What the line asks, if it is about pins. Takes time linear in the line.
pub fn pin_message(alloc: Global, line: &str) -> Result<Option<PinMessage>, NoMemory>
    ensures asks { IfOk result (λ asks. asks ≡ pin_message line.now) }
    ensures steps { IfOk result (λ asks. IfSome asks AsksQuestion) }
{
    let mut words = fields(line);
    let Some(name) = words.next() else {
        return Ok(None);
    };
    match name {
        "pin" => Ok(asked_pin(words)),
        "release" => Ok(asked_release(words)),
        "ask" => asked_reader(alloc, words),
        _ => Ok(None),
    }
}
