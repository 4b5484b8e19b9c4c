//! The answer to one message.
ghost use Rattle.std.specs.Prelude.{◌≡◌, ℕ, List, false, Some, IfSome, OnOk};
ghost use Rattle.opl_lexer.specs.declared.mode.Mode.TheVariants.{Change as ChangeMode};
ghost use Rattle.opl_lexer.specs.Reading.{ReadAll, input_fault};
ghost use Rattle.opl_objects.specs.StreamLines.{fault_at};
ghost use Rattle.road_io.specs.Told.{Told};
ghost use Rattle.sequence_journal.specs.Adding.{IsNext};
ghost use Rattle.session_input.specs.Messages.{Message, Line as LineMessage, Frame as FrameMessage};
ghost use Rattle.session_input.specs.Reading.{IsChange, Means};
ghost use Rattle.session_input.specs.Texts.{text_of};
ghost use Rattle.session.specs.Conversing.{IsReadyAt};
ghost use Rattle.session.specs.Answering.{Answers, CountsStops};
ghost use Rattle.session.specs.BuildingOn.{CostsNothing, AnswerBuilds};
ghost use Rattle.session.specs.Talking.{held, replies_of, costs_of, fixed_of};

use crate::putting::{put_both, put_chunk};
use crate::stop::{Stop, stop_of};
use crate::stores::store_laws;
use crate::talk::Talk;
use opl_objects::Fault;
use road_base::{Event, Sequence, Steps};
use road_io::Site;
use session_answers::{Answerer, applied, refused_fault, refused_sequence};
use session_input::{Change, Line, Received};
use std::sync::ledger::Ledger;

impl<A: Answerer> Talk<A> {
    /// Answers a line outside a frame.
    fn answer_line<W: Site>(&mut self, line: &Line<'_>, site: &mut W) -> Result<(), Stop>
        ensures told { Told (λ w v. (from : _) → held self.old from w
            → Answers (replies_of self.old) from (LineMessage (text_of line.now)) (held self.new) result w v)
            (W.outside site.old) (W.outside site.new) }
        ensures builds { OnOk result (Told (λ w v. (from : _) → held self.old from w
            → CostsNothing (costs_of self.old) from (LineMessage (text_of line.now)) (held self.new) v)
            (W.outside site.old) (W.outside site.new)) }
        ensures calls { CountsStops (W.faults site.old) (W.faults site.new) result }
        ensures journal { self.new.journal ≡ self.old.journal }
        ensures fixed { fixed_of self.new ≡ fixed_of self.old }
    {
        store_laws();
        let kept = self.journal.kept();
        let Ok(reply) = self.answerer.reply(kept, line) else {
            return Err(Stop::NoMemory);
        };
        put_both(site, &reply.line, &reply.behind)
    }

    /// Refuses a frame whose number isn't the next one.
    fn refuse_number<W: Site>(&self, number: Sequence, site: &mut W) -> Result<(), Stop>
        requires { IsNext self.now.journal number → ⊥ }
        ensures told { Told (λ w v. (from : _) (body : List ℕ) → held self.now from w
            → Answers (replies_of self.now) from (FrameMessage number.0 body) (held self.now) result w v)
            (W.outside site.old) (W.outside site.new) }
        ensures builds { Told (λ w v. (from : _) (body : List ℕ) → held self.now from w
            → CostsNothing (costs_of self.now) from (FrameMessage number.0 body) (held self.now) v)
            (W.outside site.old) (W.outside site.new) }
        ensures calls { CountsStops (W.faults site.old) (W.faults site.new) result }
    {
        store_laws();
        let Ok(line) = refused_sequence(self.alloc, number, self.journal.kept()) else {
            return Err(Stop::NoMemory);
        };
        put_chunk(site, &line)
    }

    /// Refuses a frame that has the next number, and a fault.
    fn refuse_fault<W: Site>(
        &self,
        number: Sequence,
        fault: &Fault,
        site: &mut W,
    ) -> Result<(), Stop>
        requires { IsNext self.now.journal number }
        ensures told { Told (λ w v. (from : _) (body : List ℕ)
            → input_fault ChangeMode body ≡ Some (fault_at fault.now)
            → held self.now from w
            → Answers (replies_of self.now) from (FrameMessage number.0 body) (held self.now) result w v)
            (W.outside site.old) (W.outside site.new) }
        ensures builds { Told (λ w v. (from : _) (body : List ℕ)
            → input_fault ChangeMode body ≡ Some (fault_at fault.now)
            → held self.now from w
            → CostsNothing (costs_of self.now) from (FrameMessage number.0 body) (held self.now) v)
            (W.outside site.old) (W.outside site.new) }
        ensures calls { CountsStops (W.faults site.old) (W.faults site.new) result }
    {
        store_laws();
        let Ok(line) = refused_fault(self.alloc, number, fault) else {
            return Err(Stop::NoMemory);
        };
        put_chunk(site, &line)
    }

    /// Accepts a frame that has the next number and no fault, where there is room for it: its change is spelled, what
    /// answers follows it, it is kept, and then it is told so.
    fn accept<W: Site, L: Ledger>(
        &mut self,
        number: Sequence,
        events: &[Event],
        site: &mut W,
        steps: &mut Steps<L>,
    ) -> Result<(), Stop>
        requires next { IsNext self.old.journal number }
        requires not_closed { self.old.journal.closed ≡ false }
        requires ready { IfSome (W.outside site.old) (IsReadyAt (held self.old)) }
        ensures told { Told (λ w v. (from : _) (body : List ℕ) → ReadAll ChangeMode body events.now
            → held self.old from w
            → Answers (replies_of self.old) from (FrameMessage number.0 body) (held self.new) result w v)
            (W.outside site.old) (W.outside site.new) }
        ensures builds { Told (λ w v. (from : _) (body : List ℕ) → ReadAll ChangeMode body events.now
            → held self.old from w
            → AnswerBuilds (costs_of self.old) from (FrameMessage number.0 body) (held self.new) result steps.old
            steps.new v) (W.outside site.old) (W.outside site.new) }
        ensures calls { CountsStops (W.faults site.old) (W.faults site.new) result }
        ensures not_closed { OnOk result (self.new.journal.closed ≡ false) }
        ensures fixed { fixed_of self.new ≡ fixed_of self.old }
    {
        store_laws();
        let Ok(line) = applied(self.alloc, number) else {
            return Err(Stop::NoMemory);
        };
        let Ok(spelled) = self.journal.spell(self.alloc, number, events) else {
            return Err(Stop::NoMemory);
        };
        let Some(change) = spelled else {
            return Err(Stop::Limit);
        };
        let Ok(()) = self.answerer.follow(number, events, steps) else {
            return Err(Stop::NoMemory);
        };
        match self.journal.add(site, &change) {
            Ok(()) => put_chunk(site, &line),
            Err(error) => Err(stop_of(error)),
        }
    }

    /// Answers a frame: its number is looked at first, then its first fault.
    fn answer_frame<W: Site, L: Ledger>(
        &mut self,
        number: Sequence,
        change: &Change,
        site: &mut W,
        steps: &mut Steps<L>,
    ) -> Result<(), Stop>
        requires not_closed { self.old.journal.closed ≡ false }
        requires ready { IfSome (W.outside site.old) (IsReadyAt (held self.old)) }
        ensures told { Told (λ w v. (from : _) (body : List ℕ) → IsChange body change.now
            → held self.old from w
            → Answers (replies_of self.old) from (FrameMessage number.0 body) (held self.new) result w v)
            (W.outside site.old) (W.outside site.new) }
        ensures builds { Told (λ w v. (from : _) (body : List ℕ) → IsChange body change.now
            → held self.old from w
            → AnswerBuilds (costs_of self.old) from (FrameMessage number.0 body) (held self.new) result steps.old
            steps.new v) (W.outside site.old) (W.outside site.new) }
        ensures calls { CountsStops (W.faults site.old) (W.faults site.new) result }
        ensures not_closed { OnOk result (self.new.journal.closed ≡ false) }
        ensures fixed { fixed_of self.new ≡ fixed_of self.old }
    {
        if self.journal.check(number).is_err() {
            return self.refuse_number(number, site);
        }
        match change {
            Change::Faulty(fault) => self.refuse_fault(number, fault, site),
            Change::Events(events) => self.accept(number, events, site, steps),
        }
    }

    /// Answers a message: puts its reply, and keeps the change of an accepted frame before.
    pub fn answer<W: Site, L: Ledger>(
        &mut self,
        received: &Received<'_>,
        site: &mut W,
        steps: &mut Steps<L>,
    ) -> Result<(), Stop>
        requires not_closed { self.old.journal.closed ≡ false }
        requires ready { IfSome (W.outside site.old) (IsReadyAt (held self.old)) }
        ensures told { Told (λ w v. (from : _) (message : Message) → Means message received.now
            → held self.old from w
            → Answers (replies_of self.old) from message (held self.new) result w v)
            (W.outside site.old) (W.outside site.new) }
        ensures builds { Told (λ w v. (from : _) (message : Message) → Means message received.now
            → held self.old from w
            → AnswerBuilds (costs_of self.old) from message (held self.new) result steps.old steps.new v)
            (W.outside site.old) (W.outside site.new) }
        ensures calls { CountsStops (W.faults site.old) (W.faults site.new) result }
        ensures not_closed { OnOk result (self.new.journal.closed ≡ false) }
        ensures fixed { fixed_of self.new ≡ fixed_of self.old }
    {
        match received {
            Received::Line(line) => self.answer_line(line, site),
            Received::Frame(number, change) => self.answer_frame(*number, change, site, steps),
        }
    }
}
