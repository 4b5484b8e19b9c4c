//! The road network, which answers a session.
ghost use Rattle.std.specs.Prelude.{◌≡◌, IfOk};
ghost use Rattle.std.specs.FinMap.{empty};
ghost use Rattle.road_base.specs.History.{History, HasObjects, kept as kept_number};
ghost use Rattle.road_base.specs.Profiles.{IsProfile};
ghost use Rattle.road_model.specs.Rules.{Rules};
ghost use Rattle.pinned_readers.specs.PinnedRuns.{Pins};
ghost use Rattle.pinned_readers.specs.Followers.{StandsFor};
ghost use Rattle.session_replies.specs.Replies.{road_replies, road_costs};

use crate::follower::RoadFollower;
use crate::pin_messages::pin_message;
use crate::pin_replies::pin_message_reply;
use crate::queries::{newest_reply, unknown_reply};
use change_apply::Engine;
use pinned_readers::Readers;
use road_base::laws::{applied_stands, history_objects};
use road_base::{Event, NoMemory, Sequence, Steps};
use road_model::{Follower, Profile};
use session_answers::{Answerer, Reply};
use session_input::Line;
use std::alloc::Global;
use std::sync::ledger::Ledger;
use touched_ways::laws::some_touched_ways;

/// Answers the lines of a session over the objects of an engine and their blocks, under its profile. For readers who
/// have pinned them it keeps older states beside the newest one.
#[derive(Drop)]
pub struct RoadAnswerer<P: Profile> {
    pub alloc: Global,
    pub readers: Readers<RoadFollower<P>>,
}

impl<P: Profile> RoadAnswerer<P> {
    /// Answers over this engine, which has come to the change of this number. Nothing is pinned.
    pub fn new(
        alloc: Global,
        number: Sequence,
        engine: Engine<P>,
    ) -> Result<RoadAnswerer<P>, NoMemory>
        requires known { IsProfile (P.rules engine.profile).number }
        ensures profile { IfOk result (λ a. a.readers.newest.engine.profile ≡ engine.profile) }
        ensures stands { IfOk result (λ a. (h : History)
            → number.0 ≡ kept_number h
            → HasObjects h engine.world
            → StandsFor ⟦<RoadFollower<P> as Follower>⟧.objects a.readers h empty) }
    {
        let readers = Readers::new(alloc, number, RoadFollower::new(alloc, engine))?;
        Ok(RoadAnswerer { alloc, readers })
    }
}

impl<P: Profile> Answerer for RoadAnswerer<P> {
    ghost Beside = { Pins };

    ghost Fixed = { Rules };

    ghost fixed = { λ a. P.rules a.readers.newest.engine.profile };

    ghost replies = { road_replies };

    ghost costs = { λ _. road_costs };

    ghost stands = { λ a h pins. StandsFor ⟦<RoadFollower<P> as Follower>⟧.objects a.readers h pins };

    fn reply(&mut self, kept: Sequence, line: &Line<'_>) -> Result<Reply, NoMemory> {
        history_objects();
        let Some(text) = line.text() else {
            return unknown_reply(self.alloc);
        };
        let about_pins = pin_message(self.alloc, text)?;
        match about_pins {
            Some(asks) => pin_message_reply(self.alloc, &mut self.readers, &asks),
            None => newest_reply(self.alloc, &self.readers.newest().engine, kept, text),
        }
    }

    fn follow<L: Ledger>(
        &mut self,
        number: Sequence,
        events: &[Event],
        steps: &mut Steps<L>,
    ) -> Result<(), NoMemory> {
        history_objects();
        applied_stands();
        some_touched_ways();
        if number.0 <= self.readers.number().0 {
            // The numbers of changes rise, so none has this one.
            return Ok(());
        }
        self.readers.apply(events, steps)
    }
}
