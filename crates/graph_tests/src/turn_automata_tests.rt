//! Hand-made words over the steps 1 to 9 of one way.
use restrictions::{Word, WordList};
use road_base::{Dir, Drive, NoMemory, RelationId, Step, WayId};
use std::alloc::Global;
use std::test::Fail;
use turn_automata::Automaton;

fn step(index: u32) -> Step {
    Step {
        way: WayId(1),
        index,
        dir: Dir::Forward,
    }
}

fn word(alloc: Global, only: bool, binding: u32, indexes: &[u32]) -> Result<Word, NoMemory> {
    let mut steps = Vec::new(alloc);
    for index in indexes {
        steps.push(step(*index))?;
    }
    Ok(Word {
        relation: RelationId(1),
        only,
        binding,
        steps: Drive::from_list(steps),
    })
}

/// No 1 2 3, No 2 4, Only 5 6 7 8 from two steps on, No 6 9.
const WORDS: [(bool, u32, &[u32]); 4] = [
    (false, 1, &[1, 2, 3]),
    (false, 1, &[2, 4]),
    (true, 2, &[5, 6, 7, 8]),
    (false, 1, &[6, 9]),
];

fn words(alloc: Global) -> Result<WordList, NoMemory> {
    let mut list = Vec::new(alloc);
    for (only, binding, indexes) in WORDS.iter() {
        list.push(word(alloc, *only, *binding, indexes)?)?;
    }
    Ok(WordList::from_list(list))
}

/// How many steps are watched after the drive, None where a step was stopped.
fn watched(automaton: &Automaton, first: u32, others: &[u32]) -> Option<usize> {
    let mut state = automaton.start(step(first));
    for index in others {
        match automaton.go(state, step(*index)) {
            Some(next) => state = next,
            None => return None,
        }
    }
    Some(automaton.watched_len(state))
}

/// The first step of a drive, the others, and how many steps are then watched.
const ROWS: [(u32, &[u32], Option<usize>); 12] = [
    (1, &[2], Some(2)),
    (1, &[2, 3], None),
    (2, &[3], Some(0)),
    (1, &[2, 4], None),
    (1, &[1, 2], Some(2)),
    (5, &[9], Some(0)),
    (5, &[6], Some(2)),
    (5, &[6, 1], None),
    (5, &[6, 7], Some(3)),
    (5, &[6, 7, 1], None),
    (5, &[6, 7, 8], Some(0)),
    (6, &[9], None),
];

#[test]
fn drives_are_watched(rt: HostRuntime) -> Result<(), Fail> {
    let automaton = Automaton::of(rt.alloc(), &words(rt.alloc())?)?;
    for (first, others, expected) in ROWS.iter() {
        assert_eq!(rt; watched(&automaton, *first, others), *expected);
    }
    Ok(())
}
