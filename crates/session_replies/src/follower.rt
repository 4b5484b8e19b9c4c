//! The road network as one that follows a map and answers questions about it.
ghost use Rattle.std.specs.Prelude.{◌≡◌, ◌++◌, IfOk, OnOk, OnErr};
ghost use Rattle.road_base.specs.Profiles.{IsProfile};
ghost use Rattle.road_model.specs.Questions.{HasSteps};
ghost use Rattle.road_model.specs.Rules.{Rules};
ghost use Rattle.session_answers.specs.Said.{said};
ghost use Rattle.session_replies.specs.Replies.{answers_to, road_costs};

use crate::queries::{drive_reply, graph_reply, reach_reply, state_reply};
use change_apply::Engine;
use road_base::{Event, NoMemory, Sequence, Steps};
use road_model::{Follower, Profile, Question};
use session_answers::Reply;
use std::alloc::Global;
use std::sync::ledger::Ledger;

/// Answers questions about the objects of an engine and their blocks, under its profile. A copy shares all with it.
#[derive(Drop)]
pub struct RoadFollower<P: Profile> {
    pub alloc: Global,
    pub engine: Engine<P>,
    ghost known: { IsProfile (P.rules engine.profile).number },
}

impl<P: Profile> RoadFollower<P> {
    /// Answers over this engine. Takes no memory.
    pub fn new(alloc: Global, engine: Engine<P>) -> RoadFollower<P>
        requires known { IsProfile (P.rules engine.profile).number }
        ensures { result.engine ≡ engine }
    {
        RoadFollower { alloc, engine }
    }
}

impl<P: Profile> Follower for RoadFollower<P> {
    ghost Fixed = { Rules };

    ghost fixed = { λ f. P.rules f.engine.profile };

    ghost objects = { λ f. f.engine.world };

    ghost replies = { answers_to };

    ghost most = { λ _. road_costs };

    fn copy(&self) -> Result<RoadFollower<P>, NoMemory> {
        let engine = self.engine.copy()?;
        Ok(RoadFollower {
            alloc: self.alloc,
            engine,
        })
    }

    fn follow<L: Ledger>(
        &mut self,
        events: &[Event],
        steps: &mut Steps<L>,
    ) -> Result<(), NoMemory> {
        self.engine.follow(events, steps)?;
        Ok(())
    }

    fn ask(
        &self,
        number: Sequence,
        question: &Question,
        out: &mut Vec<u8>,
    ) -> Result<(), NoMemory> {
        let reply = reply_about(self.alloc, &self.engine, number, question)?;
        put(reply, out)
    }
}

/// The reply to a question, asked after the change of that number.
fn reply_about<P: Profile>(
    alloc: Global,
    engine: &Engine<P>,
    number: Sequence,
    question: &Question,
) -> Result<Reply, NoMemory>
    requires number { IsProfile (P.rules engine.now.profile).number }
    requires steps { HasSteps question.now }
    ensures { IfOk result (λ r.
        answers_to (P.rules engine.now.profile) engine.now.world number.0 question.now (said r)) }
{
    match question {
        Question::Graph => graph_reply(alloc, engine),
        Question::State => state_reply(alloc, engine, number),
        Question::Drive(drive) => drive_reply(alloc, engine, drive.items()),
        Question::Reach(a, b) => reach_reply(alloc, engine, *a, *b),
    }
}

/// Appends the bytes of the reply, or nothing where no memory is found. Where nothing stands there yet, what is behind
/// the line, as a whole graph, is moved there and not copied.
fn put(reply: Reply, out: &mut Vec<u8>) -> Result<(), NoMemory>
    ensures bytes { OnOk result (out.new.items ≡ out.old.items ++ said reply) }
    ensures err { OnErr result (out.new.items ≡ out.old.items) }
{
    if out.is_empty() {
        *out = in_one(reply)?;
        return Ok(());
    }
    append(&reply, out)
}

/// The bytes of the reply in one list. What is behind the line stays in its memory, and the line comes in front.
fn in_one(reply: Reply) -> Result<Vec<u8>, NoMemory>
    ensures { IfOk result (λ v. v.items ≡ said reply) }
{
    let Reply { line, mut behind } = reply;
    behind.extend_from_slice(&line)?;
    behind.rotate_right(line.len());
    Ok(behind)
}

/// Appends the bytes of the reply, or nothing where no memory is found.
fn append(reply: &Reply, out: &mut Vec<u8>) -> Result<(), NoMemory>
    ensures bytes { OnOk result (out.new.items ≡ out.old.items ++ said reply.now) }
    ensures err { OnErr result (out.new.items ≡ out.old.items) }
{
    let before = out.len();
    out.extend_from_slice(&reply.line)?;
    let behind = out.extend_from_slice(&reply.behind);
    if behind.is_err() {
        out.truncate(before);
    }
    Ok(behind?)
}
