//! The replies to messages about pins.
ghost use Rattle.std.specs.Prelude.{◌≡◌, Option, IfOk, List, ℕ};
ghost use Rattle.road_base.specs.History.{History};
ghost use Rattle.road_model.specs.Questions.{HasSteps};
ghost use Rattle.pinned_readers.specs.PinnedRuns.{Pins, PinAnswer, IsPinStep, IsAskStep, IsReleaseStep, IsReplyTo};
ghost use Rattle.pinned_readers.specs.Followers.{StandsFor, Goes};
ghost use Rattle.session_answers.specs.Said.{said};
ghost use Rattle.session_replies.specs.PinMessages.{AsksQuestion};
ghost use Rattle.session_replies.specs.PinReplies.{IsPinReply};
ghost use Rattle.session_replies.specs.PinTexts.{pin_line, release_line, ask_line};

use crate::pin_messages::PinMessage;
use crate::pin_texts::{no_pin, pin_text, release_text};
use crate::texts::line_alone;
use pinned_readers::{AskError, Readers};
use road_base::NoMemory;
use road_model::{Follower, Question};
use session_answers::Reply;
use std::alloc::Global;

/// The reply to what a line asks about pins.
pub fn pin_message_reply<F: Follower>(
    alloc: Global,
    readers: &mut Readers<F>,
    asks: &PinMessage,
) -> Result<Reply, NoMemory>
    requires steps { AsksQuestion asks.now }
    ensures replies { IfOk result (λ r. Goes F.objects readers.old readers.new (λ h pins then.
        IsPinReply (F.replies (F.fixed readers.old.newest)) h pins asks.now (said r) then)) }
    ensures newest { readers.new.newest ≡ readers.old.newest }
{
    match asks {
        PinMessage::Pin(reader) => pin_reply(alloc, readers, *reader),
        PinMessage::Release(reader) => release_reply(alloc, readers, *reader),
        PinMessage::Ask(reader, question) => ask_reply(alloc, readers, *reader, question),
    }
}

/// The reply to `pin K`.
fn pin_reply<F: Follower>(
    alloc: Global,
    readers: &mut Readers<F>,
    reader: u32,
) -> Result<Reply, NoMemory>
    ensures step { IfOk result (λ r. Goes F.objects readers.old readers.new (λ h pins then.
        (answer : PinAnswer) × IsPinStep h pins reader answer then × (said r ≡ pin_line reader answer))) }
    ensures newest { readers.new.newest ≡ readers.old.newest }
{
    let answer = readers.pin(reader);
    let line = pin_text(alloc, reader, &answer)?;
    Ok(line_alone(alloc, line))
}

/// The reply to `release K`.
fn release_reply<F: Follower>(
    alloc: Global,
    readers: &mut Readers<F>,
    reader: u32,
) -> Result<Reply, NoMemory>
    ensures step { IfOk result (λ r. Goes F.objects readers.old readers.new (λ h pins then.
        (answer : Option ℕ) × IsReleaseStep pins reader answer then × (said r ≡ release_line reader answer))) }
    ensures newest { readers.new.newest ≡ readers.old.newest }
{
    let answer = readers.release(reader);
    let line = release_text(alloc, reader, &answer)?;
    Ok(line_alone(alloc, line))
}

/// The reply to what is asked of the state that is kept for a reader.
fn ask_reply<F: Follower>(
    alloc: Global,
    readers: &Readers<F>,
    reader: u32,
    question: &Question,
) -> Result<Reply, NoMemory>
    requires { HasSteps question.now }
    ensures { IfOk result (λ r. (h : History) (pins : Pins)
        → StandsFor F.objects readers.now h pins
        → (answer : Option (List ℕ))
        × IsAskStep (IsReplyTo (F.replies (F.fixed readers.now.newest)) question.now) h pins reader answer
        × (said r ≡ ask_line reader answer)) }
{
    let mut line = Vec::new(alloc);
    match readers.ask(reader, question, &mut line) {
        Ok(()) => Ok(line_alone(alloc, line)),
        Err(AskError::NoPin) => Ok(line_alone(alloc, no_pin(alloc, reader)?)),
        Err(AskError::NoMemory) => Err(NoMemory),
    }
}
