//! Readers, and the followers that are held for them.
ghost use Rattle.std.specs.Prelude.{◌≡◌, ◌↔◌, ◌⊎◌, ◌+◌, ◌<◌, ◌≤◌, ◌^◌, ◌++◌, ℕ, List, Option, None, Some, IsSome};
ghost use Rattle.std.specs.Prelude.{IfOk, IfErr, IfSome, OnOk, OnErr, Err};
ghost use Rattle.std.specs.FinMap.{empty, get, insert, len};
ghost use Rattle.road_base.specs.History.{History, HasObjects, kept, with_change};
ghost use Rattle.road_base.specs.Applying.{IsApplied};
ghost use Rattle.road_model.specs.Questions.{HasSteps};
ghost use Rattle.pinned_readers.specs.declared.errors.AskError.TheVariants.{NoPin as IsNotPinned};
ghost use Rattle.pinned_readers.specs.PinnedRuns.{Pins, IsPinnedNumber, most_readers};
ghost use Rattle.pinned_readers.specs.PinnedRuns.{IsPinStep, IsAskStep, IsReleaseStep, IsReplyTo};
ghost use Rattle.pinned_readers.specs.Followers.{IsDropped, IsKept, StandsFor, Goes, held, pin_answer, release_answer};

use crate::errors::{AskError, NoPin, PinError};
use crate::older::OlderStates;
use crate::pins::PinTable;
use road_base::laws::history_objects;
use road_base::{Event, NoMemory, Sequence, Steps};
use road_model::{Follower, Question};
use std::alloc::Global;
use std::marker::Model;
use std::mem::replace;
use std::sync::ledger::Ledger;

/// How many readers may be pinned.
const MOST_READERS: usize = 64;

/// The newest state of a world, with readers who have pinned it or older ones. A number is that of the last change of a
/// state. Contracts see the newest number and its follower, those of the older numbers that are pinned, and the pins.
#[derive(Drop)]
pub struct Readers<F: Follower> {
    number: Sequence,
    newest: F,
    older: OlderStates<F>,
    pins: PinTable,
}

impl<F: Follower> Model for Readers<F> {
    ghost use Rattle.pinned_readers.specs.Followers.{Followers, coded_followers, AreNeeded};

    ghost Value = { Followers F };

    ghost coded = { coded_followers F.code };

    ghost view = { λ s. record { number = s.number.0; newest = s.newest; older = s.older; pins = s.pins } };

    ghost invariant = { λ s. AreNeeded F.fixed
        (record { number = s.number.0; newest = s.newest; older = s.older; pins = s.pins }) };
}

impl<F: Follower> Readers<F> {
    /// The state behind the change of that number; nobody is pinned. Where no memory is found the state is dropped.
    pub fn new(alloc: Global, number: Sequence, state: F) -> Result<Readers<F>, NoMemory>
        ensures number { IfOk result (λ s. s.number ≡ number.0) }
        ensures newest { IfOk result (λ s. s.newest ≡ state) }
        ensures pins { IfOk result (λ s. s.pins ≡ empty) }
        ensures stands { IfOk result (λ s. (h : History)
            → number.0 ≡ kept h
            → HasObjects h (F.objects state)
            → StandsFor F.objects s h empty) }
    {
        Ok(Readers {
            number,
            newest: state,
            older: OlderStates::new(alloc),
            pins: PinTable::new(alloc),
        })
    }

    /// Pins the reader at the newest number, and answers it. `Busy` where it is pinned already, else `Full` where 64
    /// readers are.
    pub fn pin(&mut self, reader: u32) -> Result<Sequence, PinError>
        ensures step { IfSome (pin_answer result) (λ answer. Goes F.objects self.old self.new
            (λ h pins then. IsPinStep h pins reader answer then)) }
        ensures err { OnErr result (self.new ≡ self.old) }
        ensures number { self.new.number ≡ self.old.number }
        ensures newest { self.new.newest ≡ self.old.newest }
    {
        if self.pins.get(reader).is_some() {
            return Err(PinError::Busy);
        }
        if self.pins.len() >= MOST_READERS {
            return Err(PinError::Full);
        }
        let Ok(()) = self.pins.insert(reader, self.number) else {
            return Err(PinError::NoMemory);
        };
        Ok(self.number)
    }

    /// Appends a reply to the question, for the state that the reader has pinned. `NoPin` where it is not pinned. Where
    /// it refuses it appends nothing.
    pub fn ask(&self, reader: u32, question: &Question, out: &mut Vec<u8>) -> Result<(), AskError>
        requires { HasSteps question.now }
        ensures reply { OnOk result ((r : List ℕ)
            × (out.new.items ≡ out.old.items ++ r)
            × ((h : History) (pins : Pins)
            → StandsFor F.objects self.now h pins
            → IsAskStep (IsReplyTo (F.replies (F.fixed self.now.newest)) question.now) h pins reader (Some r))) }
        ensures no_pin { IfErr result (λ e. e ≡ IsNotPinned → (h : History) (pins : Pins)
            → StandsFor F.objects self.now h pins
            → IsAskStep (IsReplyTo (F.replies (F.fixed self.now.newest)) question.now) h pins reader None) }
        ensures err { OnErr result (out.new.items ≡ out.old.items) }
    {
        let Some(number) = self.pins.get(reader) else {
            return Err(AskError::NoPin);
        };
        match self.follower(number).ask(number, question, out) {
            Ok(()) => Ok(()),
            Err(_) => Err(AskError::NoMemory),
        }
    }

    /// The follower that is held at the number.
    fn follower(&self, number: Sequence) -> &F
        requires { IsSome (get (held self.now) number.0) }
        ensures held { get (held self.now) number.0 ≡ Some result.now }
        ensures fixed { F.fixed result.now ≡ F.fixed self.now.newest }
    {
        match self.older.get(number) {
            Some(follower) => follower,
            None => &self.newest,
        }
    }

    /// Releases the reader, and answers the number that it had pinned. A state that nobody else has pinned is dropped,
    /// if it isn't the newest one. Takes no memory.
    pub fn release(&mut self, reader: u32) -> Result<Sequence, NoPin>
        ensures step { Goes F.objects self.old self.new
            (λ h pins then. IsReleaseStep pins reader (release_answer result) then) }
        ensures err { OnErr result (self.new ≡ self.old) }
        ensures number { self.new.number ≡ self.old.number }
        ensures newest { self.new.newest ≡ self.old.newest }
    {
        let Some(number) = self.pins.get(reader) else {
            return Err(NoPin);
        };
        self.pins.remove(reader);
        drop_unneeded(number, &self.pins, &mut self.older);
        Ok(number)
    }

    /// Goes on to what the events leave, which gets the next number. Where somebody has pinned the newest state, a copy
    /// of it follows, and it stays for its readers.
    pub fn apply<L: Ledger>(
        &mut self,
        events: &[Event],
        steps: &mut Steps<L>,
    ) -> Result<(), NoMemory>
        requires { self.old.number + 1 < 2 ^ 64 }
        ensures follows { OnOk result ((h : History) (pins : Pins)
            → StandsFor F.objects self.old h pins
            → StandsFor F.objects self.new (with_change h events.now) pins) }
        ensures number { OnOk result (self.new.number ≡ self.old.number + 1) }
        ensures err { OnErr result (self.new ≡ self.old) }
        ensures fixed { F.fixed self.new.newest ≡ F.fixed self.old.newest }
        ensures few { (steps.new ≡ steps.old)
            ⊎ ((n : ℕ) × F.most (F.fixed self.old.newest) (F.objects self.old.newest) events.now n
            × (steps.new ≤ steps.old + n)) }
    {
        history_objects();
        let number = self.number;
        follow(
            number,
            &self.pins,
            &mut self.newest,
            &mut self.older,
            events,
            steps,
        )?;
        self.number = Sequence(number.0 + 1);
        Ok(())
    }

    /// The newest follower.
    pub fn newest(&self) -> &F
        ensures newest { result.now ≡ self.now.newest }
        ensures stands { (h : History) (pins : Pins)
            → StandsFor F.objects self.now h pins
            → HasObjects h (F.objects result.now) }
    {
        &self.newest
    }

    /// The number of the last change of the newest state.
    pub fn number(&self) -> Sequence
        ensures number { result.0 ≡ self.now.number }
        ensures kept { (h : History) (pins : Pins) → StandsFor F.objects self.now h pins → result.0 ≡ kept h }
    {
        self.number
    }

    /// How many followers are held: that of the newest number, and one at each older number that is pinned.
    pub fn kept(&self) -> usize
        ensures count { result ≡ len (held self.now) }
        ensures needed { (n : ℕ)
            → IsSome (get (held self.now) n) ↔ ((n ≡ self.now.number) ⊎ IsPinnedNumber self.now.pins n) }
        ensures few { result ≤ most_readers + 1 }
    {
        self.older.len() + 1
    }
}

/// Drops the follower at the number, if nobody is pinned there.
fn drop_unneeded<F: Drop>(number: Sequence, pins: &PinTable, older: &mut OlderStates<F>)
    ensures { IsDropped pins.now number.0 older.old older.new }
{
    if !pins.has_number(number) {
        older.remove(number);
    }
}

/// Lets the newest follower go on, or a copy of it where somebody is pinned at its number: then it stays there. Where
/// no memory is found both are as before.
fn follow<F: Follower, L: Ledger>(
    number: Sequence,
    pins: &PinTable,
    newest: &mut F,
    older: &mut OlderStates<F>,
    events: &[Event],
    steps: &mut Steps<L>,
) -> Result<(), NoMemory>
    ensures kept { OnOk result (IsKept pins.now number.0 newest.old older.old older.new) }
    ensures follows { OnOk result (IsApplied (F.objects newest.old) events.now (F.objects newest.new)) }
    ensures older { OnErr result (older.new ≡ older.old) }
    ensures newest { OnErr result (newest.new ≡ newest.old) }
    ensures fixed { F.fixed newest.new ≡ F.fixed newest.old }
    ensures few { (steps.new ≡ steps.old)
        ⊎ ((n : ℕ) × F.most (F.fixed newest.old) (F.objects newest.old) events.now n × (steps.new ≤ steps.old + n)) }
{
    if pins.has_number(number) {
        follow_apart(number, newest, older, events, steps)
    } else {
        newest.follow(events, steps)
    }
}

/// Lets a copy of the newest follower go on, and keeps the newest one at its number. Where no memory is found both are
/// as before.
fn follow_apart<F: Follower, L: Ledger>(
    number: Sequence,
    newest: &mut F,
    older: &mut OlderStates<F>,
    events: &[Event],
    steps: &mut Steps<L>,
) -> Result<(), NoMemory>
    ensures kept { OnOk result (older.new ≡ insert older.old number.0 newest.old) }
    ensures follows { OnOk result (IsApplied (F.objects newest.old) events.now (F.objects newest.new)) }
    ensures older { OnErr result (older.new ≡ older.old) }
    ensures newest { OnErr result (newest.new ≡ newest.old) }
    ensures fixed { F.fixed newest.new ≡ F.fixed newest.old }
    ensures few { (steps.new ≡ steps.old)
        ⊎ ((n : ℕ) × F.most (F.fixed newest.old) (F.objects newest.old) events.now n × (steps.new ≤ steps.old + n)) }
{
    let mut next = newest.copy()?;
    next.follow(events, steps)?;
    let last = replace(newest, next);
    match older.insert(number, last) {
        Ok(()) => Ok(()),
        Err(last) => {
            *newest = last;
            Err(NoMemory)
        }
    }
}
