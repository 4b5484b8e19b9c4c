//! What a line of a session asks.
ghost use Rattle.std.specs.Prelude.{◌≡◌, IfOk};
ghost use Rattle.opl_lexer.specs.Left.{fields_left};
ghost use Rattle.drive_queries.specs.Messages.{asked, asked_of, asked_frame, asked_alone, asked_drive, asked_reach};
ghost use Rattle.drive_queries.specs.Messages.{AsksSteps};

use crate::step_words::step_of;
use opl_lexer::{FieldIter, fields, long_number, whole};
use road_base::{Drive, NoMemory, NodeId, Sequence};
use std::alloc::Global;

/// What a line outside a frame asks.
#[derive(Drop)]
pub enum Asked {
    /// Nothing: the line has no word.
    Empty,
    /// `#seq N`: a frame with this number begins.
    Seq(Sequence),
    /// `graph`: the bytes of the graph.
    Graph,
    /// `state`: the kept number, and how large the graph is.
    State,
    /// `drive STEP ..`: whether the drive is legal. It has one step at least.
    Drive(Drive),
    /// `reach A B`: a drive from node A to node B.
    Reach(NodeId, NodeId),
    /// Anything else.
    Unknown,
}

/// The number of a frame, alone.
fn asked_frame(mut words: FieldIter<'_>) -> Asked
    ensures { result ≡ asked_frame (fields_left words.entry) }
{
    let Some(word) = words.next() else {
        return Asked::Unknown;
    };
    if words.next().is_some() {
        return Asked::Unknown;
    }
    match long_number(word) {
        Some(number) => Asked::Seq(Sequence(number)),
        None => Asked::Unknown,
    }
}

/// The message, where no other word follows.
fn asked_alone(message: Asked, mut words: FieldIter<'_>) -> Asked
    ensures { result ≡ asked_alone message (fields_left words.entry) }
{
    if words.next().is_some() {
        return Asked::Unknown;
    }
    message
}

/// A drive of the steps that the words are, at least one. Takes time linear in the words.
pub fn asked_drive(alloc: Global, words: FieldIter<'_>) -> Result<Asked, NoMemory>
    ensures asks { IfOk result (λ message. message ≡ asked_drive (fields_left words.entry)) }
    ensures drives { IfOk result AsksSteps }
{
    let mut steps = Vec::new(alloc);
    for word in words {
        let Some(step) = step_of(word) else {
            return Ok(Asked::Unknown);
        };
        steps.push(step)?;
    }
    if steps.is_empty() {
        return Ok(Asked::Unknown);
    }
    Ok(Asked::Drive(Drive::from_list(steps)))
}

/// The numbers of two nodes.
pub fn asked_reach(mut words: FieldIter<'_>) -> Asked
    ensures { result ≡ asked_reach (fields_left words.entry) }
{
    let (Some(from), Some(to), None) = (words.next(), words.next(), words.next()) else {
        return Asked::Unknown;
    };
    match (whole(from), whole(to)) {
        (Some(from), Some(to)) => Asked::Reach(NodeId(from), NodeId(to)),
        _ => Asked::Unknown,
    }
}

/// What the words ask. Takes time linear in them.
pub fn asked_of(alloc: Global, mut words: FieldIter<'_>) -> Result<Asked, NoMemory>
    ensures asks { IfOk result (λ message. message ≡ asked_of (fields_left words.entry)) }
    ensures drives { IfOk result AsksSteps }
{
    let Some(name) = words.next() else {
        return Ok(Asked::Empty);
    };
    match name {
        "#seq" => Ok(asked_frame(words)),
        "graph" => Ok(asked_alone(Asked::Graph, words)),
        "state" => Ok(asked_alone(Asked::State, words)),
        "drive" => asked_drive(alloc, words),
        "reach" => Ok(asked_reach(words)),
        _ => Ok(Asked::Unknown),
    }
}

/// What the line asks. Its words stand between spaces and tabs. Takes time linear in the line.
pub fn message(alloc: Global, line: &str) -> Result<Asked, NoMemory>
    ensures asks { IfOk result (λ message. message ≡ asked line.now) }
    ensures drives { IfOk result AsksSteps }
{
    asked_of(alloc, fields(line))
}
