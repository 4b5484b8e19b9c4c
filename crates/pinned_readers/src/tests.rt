//! Readers of a world whose follower tells how many changes it has followed.
ghost use Rattle.std.specs.Prelude.{◌≡◌, ◌<◌};

use crate::{AskError, NoPin, PinError, Readers};
use road_base::{Event, NoMemory, Sequence, Steps};
use road_model::{Follower, Question};
use std::alloc::Global;
use std::marker::Brand;
use std::sync::ledger::{Blank, Ledger};
use std::test::Fail;

/// A follower of changes without events, to whom every question is how many there were.
#[derive(Drop)]
struct Counting {
    changes: u8,
}

impl Follower for Counting {
    ghost use Rattle.std.specs.FinMap.{empty};

    ghost Fixed = { Unit {0} };

    ghost fixed = { λ _. tt };

    ghost objects = { λ _. empty };

    ghost replies = { λ _ _ _ _ _. Unit {0} };

    ghost most = { λ _ _ _ _. Unit {0} };

    fn copy(&self) -> Result<Counting, NoMemory> {
        Ok(Counting {
            changes: self.changes,
        })
    }

    fn follow<L: Ledger>(
        &mut self,
        events: &[Event],
        _steps: &mut Steps<L>,
    ) -> Result<(), NoMemory> {
        if !events.is_empty() || self.changes == u8::MAX {
            return Err(NoMemory);
        }
        self.changes += 1;
        Ok(())
    }

    fn ask(
        &self,
        _number: Sequence,
        _question: &Question,
        out: &mut Vec<u8>,
    ) -> Result<(), NoMemory> {
        out.push(self.changes)?;
        Ok(())
    }
}

/// What is done.
#[derive(Clone, Copy)]
enum Act {
    Pin(u32),
    Ask(u32),
    Release(u32),
    Change,
}

/// What is answered: the number of a pin or a release, or the reply to a question.
#[derive(Clone, Copy, PartialEq, Eq, Debug)]
enum Answer {
    Number(u64),
    Replied(u8),
    Changed,
    Busy,
    Full,
    NoPin,
    NoMemory,
}

fn pinned(readers: &mut Readers<Counting>, reader: u32) -> Answer {
    match readers.pin(reader) {
        Ok(number) => Answer::Number(number.0),
        Err(PinError::Busy) => Answer::Busy,
        Err(PinError::Full) => Answer::Full,
        Err(PinError::NoMemory) => Answer::NoMemory,
    }
}

fn asked(alloc: Global, readers: &Readers<Counting>, reader: u32) -> Answer {
    let mut out = Vec::new(alloc);
    match readers.ask(reader, &Question::State, &mut out) {
        Ok(()) => replied(out.as_slice()),
        Err(AskError::NoPin) => Answer::NoPin,
        Err(AskError::NoMemory) => Answer::NoMemory,
    }
}

fn replied(out: &[u8]) -> Answer {
    match out {
        [changes] => Answer::Replied(*changes),
        _ => Answer::NoMemory,
    }
}

fn released(readers: &mut Readers<Counting>, reader: u32) -> Answer {
    match readers.release(reader) {
        Ok(number) => Answer::Number(number.0),
        Err(NoPin) => Answer::NoPin,
    }
}

fn changed<L: Ledger>(readers: &mut Readers<Counting>, steps: &mut Steps<L>) -> Answer {
    if readers.number().0 == u64::MAX {
        return Answer::NoMemory;
    }
    match readers.apply(&[], steps) {
        Ok(()) => Answer::Changed,
        Err(NoMemory) => Answer::NoMemory,
    }
}

fn answer_to<L: Ledger>(
    alloc: Global,
    readers: &mut Readers<Counting>,
    act: Act,
    steps: &mut Steps<L>,
) -> Answer {
    match act {
        Act::Pin(reader) => pinned(readers, reader),
        Act::Ask(reader) => asked(alloc, readers, reader),
        Act::Release(reader) => released(readers, reader),
        Act::Change => changed(readers, steps),
    }
}

/// From number 7 on: what is answered, and how many followers are held then.
const ACTS: [(Act, Answer, usize); 20] = [
    (Act::Pin(1), Answer::Number(7), 1),
    (Act::Pin(2), Answer::Number(7), 1),
    (Act::Pin(1), Answer::Busy, 1),
    (Act::Ask(1), Answer::Replied(0), 1),
    (Act::Change, Answer::Changed, 2),
    (Act::Change, Answer::Changed, 2),
    (Act::Ask(1), Answer::Replied(0), 2),
    (Act::Pin(3), Answer::Number(9), 2),
    (Act::Ask(3), Answer::Replied(2), 2),
    (Act::Change, Answer::Changed, 3),
    (Act::Pin(4), Answer::Number(10), 3),
    (Act::Release(4), Answer::Number(10), 3),
    (Act::Release(1), Answer::Number(7), 3),
    (Act::Ask(1), Answer::NoPin, 3),
    (Act::Ask(2), Answer::Replied(0), 3),
    (Act::Release(2), Answer::Number(7), 2),
    (Act::Release(2), Answer::NoPin, 2),
    (Act::Ask(3), Answer::Replied(2), 2),
    (Act::Release(3), Answer::Number(9), 1),
    (Act::Ask(3), Answer::NoPin, 1),
];

/// The first act that is answered otherwise.
fn differs<L: Ledger>(alloc: Global, steps: &mut Steps<L>) -> Result<Option<usize>, Fail> {
    let mut readers = Readers::new(alloc, Sequence(7), Counting { changes: 0 })?;
    for (place, (act, wanted, held)) in ACTS.iter().enumerate() {
        let answered = answer_to(alloc, &mut readers, *act, steps);
        if answered != *wanted || readers.kept() != *held {
            return Ok(Some(place));
        }
    }
    Ok(None)
}

/// The same with a ledger of its own.
fn acts_differ<L: Ledger>(alloc: Global, blank: Blank) -> Result<Option<usize>, Fail>
    requires name { blank.name ≡ L.name }
    requires parts { blank.parts ≡ L.parts }
    requires some { 0 < L.parts }
{
    let mut steps = Steps::<L>::new(blank);
    differs(alloc, &mut steps)
}

#[test]
fn readers_keep_what_they_pinned(rt: HostRuntime) -> Result<(), Fail> {
    assert_eq!(rt; acts_differ::<Brand>(rt.alloc(), Blank::new(1))?, None);
    Ok(())
}

/// Whether 64 readers are pinned at number 7.
fn all_pinned(readers: &mut Readers<Counting>) -> bool {
    for reader in 0..64 {
        if pinned(readers, reader) != Answer::Number(7) {
            return false;
        }
    }
    true
}

/// Whether they are released.
fn all_released(readers: &mut Readers<Counting>) -> bool {
    for reader in 0..64 {
        if released(readers, reader) != Answer::Number(7) {
            return false;
        }
    }
    true
}

/// How many followers are held for 64 readers at one number, then behind a change, then when all are released. Nobody
/// else can be pinned meanwhile, and who is pinned is told so first.
fn held_for_many<L: Ledger>(alloc: Global, steps: &mut Steps<L>) -> Result<[usize; 3], Fail> {
    let mut readers = Readers::new(alloc, Sequence(7), Counting { changes: 0 })?;
    if !all_pinned(&mut readers)
        || pinned(&mut readers, 64) != Answer::Full
        || pinned(&mut readers, 63) != Answer::Busy
    {
        return Ok([0, 0, 0]);
    }
    let before = readers.kept();
    if changed(&mut readers, steps) != Answer::Changed {
        return Ok([before, 0, 0]);
    }
    let behind = readers.kept();
    if !all_released(&mut readers) {
        return Ok([before, behind, 0]);
    }
    Ok([before, behind, readers.kept()])
}

/// The same with a ledger of its own.
fn held<L: Ledger>(alloc: Global, blank: Blank) -> Result<[usize; 3], Fail>
    requires name { blank.name ≡ L.name }
    requires parts { blank.parts ≡ L.parts }
    requires some { 0 < L.parts }
{
    let mut steps = Steps::<L>::new(blank);
    held_for_many(alloc, &mut steps)
}

#[test]
fn one_follower_is_held_for_all_readers_at_a_number(rt: HostRuntime) -> Result<(), Fail> {
    assert_eq!(rt; held::<Brand>(rt.alloc(), Blank::new(1))?, [1, 2, 1]);
    Ok(())
}
