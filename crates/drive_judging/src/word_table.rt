//! What judging a drive needs: the words of restrictions that may bind it, the lines of its ways, and what leaves the
//! nodes at which it goes back.
ghost use Rattle.std.specs.Prelude.{◌≡◌, ◌↔◌, IfOk, OnOk, IsTrue, Contains};
ghost use Rattle.std.specs.List.{All};
ghost use Rattle.road_base.specs.declared.ids.WayId.{WayId};
ghost use Rattle.road_base.specs.declared.ids.RelationId.{RelationId};
ghost use Rattle.road_base.specs.declared.ids.Step.{Step};
ghost use Rattle.road_model.specs.Networks.{map_of, on};
ghost use Rattle.restrictions.specs.declared.word_list.Word.{Word};
ghost use Rattle.restrictions.specs.Words.{IsRestriction};
ghost use Rattle.drive_judging.specs.Tables.{BeginsOn};
ghost use Rattle.drive_judging.specs.WordTables.{IsTableOf};
ghost use Rattle.drive_judging.specs.DriveWords.{AreInOrder, AreInWordOrder, GainsWords, AreWordsOn, IsMemberOf};
ghost use Rattle.drive_judging.specs.DriveWords.{LiesOn, steps_cmp};

use crate::dead_ends::{Leaving, leaving_at_reversals};
use crate::drive_lines::{DriveLine, lines_of};
use ordered_lists::leave_once;
use restrictions::{Word, WordList, WordsError, words};
use road_base::{NoMemory, NodeId, RelationId, Step, WayId};
use road_model::laws::{name_order, number_order, words_on_ways};
use road_model::{Network, Profile, World};
use std::alloc::Global;
use std::cmp::Ordering;
use std::collections::BTreeMap;
use turn_automata::Automaton;

/// What judging a drive needs: the words whose first step is one of the drive's, the lines of its ways, and which
/// drivable steps leave the nodes at which it goes back.
#[derive(Drop)]
pub struct WordTable {
    pub(crate) automaton: Automaton,
    pub(crate) lines: BTreeMap<WayId, DriveLine>,
    pub(crate) leaving: BTreeMap<NodeId, Leaving>,
}

impl WordTable {
    /// All words whose first step is in the drive, sorted by their steps, the line of each way of the drive, and what
    /// leaves the nodes at which it goes back.
    ///
    /// Each restriction that names a way of the drive is judged once, and each of its ways gone over once, as is
    /// each way at the nodes where the drive goes back. Of n words two are compared n log n times.
    pub fn of<M: World, P: Profile>(
        alloc: Global,
        world: &M,
        profile: &P,
        drive: &[Step],
    ) -> Result<WordTable, NoMemory>
        ensures { IfOk result (λ table. IsTableOf (M.objects world.now) (P.rules profile.now) drive.now table) }
    {
        table_on(alloc, &Network::new(world, *profile), drive)
    }
}

/// What judging the drive on the network needs.
fn table_on<M: World, P: Profile>(
    alloc: Global,
    network: &Network<'_, M, P>,
    drive: &[Step],
) -> Result<WordTable, NoMemory>
    ensures { IfOk result (on network.now IsTableOf drive.now) }
{
    words_on_ways(&network.profile);
    let ways = ways_of(alloc, drive)?;
    let lines = lines_of(alloc, network.world, ways.as_slice())?;
    let leaving = leaving_at_reversals(alloc, network, &lines, drive)?;
    let relations = relations_of(alloc, network.world, ways.as_slice())?;
    let steps = in_order(alloc, drive)?;
    let mut words = words_of(alloc, network, relations.as_slice(), steps.as_slice())?;
    put_in_order(&mut words);
    let automaton = Automaton::of(alloc, &WordList::from_list(words))?;
    Ok(WordTable {
        automaton,
        lines,
        leaving,
    })
}

/// The ways of the steps, each once.
fn ways_of(alloc: Global, steps: &[Step]) -> Result<Vec<WayId>, NoMemory>
    ensures { IfOk result (λ v. (w : WayId) → Contains v.items w ↔ LiesOn steps.now w) }
{
    name_order();
    let mut ways = Vec::with_capacity(alloc, steps.len())?;
    for step in steps {
        ways.push(step.way)?;
    }
    leave_once(&mut ways);
    Ok(ways)
}

/// The restrictions of which one of the ways is a member, each once.
fn relations_of<M: World>(
    alloc: Global,
    world: &M,
    ways: &[WayId],
) -> Result<Vec<RelationId>, NoMemory>
    ensures { IfOk result (λ v. (r : RelationId) → Contains v.items r
        ↔ IsMemberOf (M.objects world.now) ways.now r) }
{
    number_order();
    let mut relations = Vec::new(alloc);
    for way in ways {
        relations.extend_from_slice(world.rules_of_way(*way))?;
    }
    leave_once(&mut relations);
    Ok(relations)
}

/// The steps, sorted.
fn in_order(alloc: Global, drive: &[Step]) -> Result<Vec<Step>, NoMemory>
    ensures sorted { IfOk result (λ v. AreInOrder v.items) }
    ensures same { IfOk result (λ v. (s : Step) → Contains v.items s ↔ Contains drive.now s) }
{
    let mut steps = Vec::from_slice(alloc, drive)?;
    steps.sort_unstable();
    Ok(steps)
}

/// The words of these restrictions that begin with one of the steps, which are sorted. A restriction that is of no use
/// gives none.
fn words_of<M: World, P: Profile>(
    alloc: Global,
    network: &Network<'_, M, P>,
    relations: &[RelationId],
    steps: &[Step],
) -> Result<Vec<Word>, NoMemory>
    requires restrictions { All (IsRestriction (map_of network.now)) relations.now }
    requires sorted { AreInOrder steps.now }
    ensures { IfOk result (λ v. on network.now AreWordsOn steps.now relations.now v.items) }
{
    let mut list = Vec::new(alloc);
    for relation in relations {
        add_words(&mut list, network, *relation, steps)?;
    }
    Ok(list)
}

/// Adds the words of the restriction that begin with one of the steps, which are sorted.
fn add_words<M: World, P: Profile>(
    list: &mut Vec<Word>,
    network: &Network<'_, M, P>,
    relation: RelationId,
    steps: &[Step],
) -> Result<(), NoMemory>
    requires restriction { IsRestriction (map_of network.now) relation }
    requires sorted { AreInOrder steps.now }
    ensures { OnOk result (on network.now GainsWords steps.now relation list.old.items list.new.items) }
{
    match words(*list.allocator(), network.world, &network.profile, relation) {
        Ok(all) => {
            let mut more = all.into_list();
            more.retain(|word| begins_on(word, steps));
            list.append(&mut more)?;
            Ok(())
        }
        Err(WordsError::Unusable(_)) => Ok(()),
        Err(WordsError::NoMemory) => Err(NoMemory),
    }
}

/// Whether the word's first step is one of these, which are sorted.
fn begins_on(word: &Word, steps: &[Step]) -> bool
    requires { AreInOrder steps.now }
    ensures { IsTrue result ↔ BeginsOn steps.now word.now.steps }
{
    match word.steps.items().first() {
        Some(first) => is_among(steps, *first),
        None => false,
    }
}

/// Whether the step is one of these, which are sorted.
fn is_among(steps: &[Step], step: Step) -> bool
    requires { AreInOrder steps.now }
    ensures { IsTrue result ↔ Contains steps.now step }
{
    steps.binary_search(&step).is_ok()
}

/// Sorts the words by their steps.
fn put_in_order(words: &mut Vec<Word>)
    ensures sorted { AreInWordOrder words.new.items }
    ensures same { (w : Word) → Contains words.new.items w ↔ Contains words.old.items w }
{
    words.sort_unstable_by(|a, b| by_steps(a, b));
}

/// Compares the steps of words one by one.
fn by_steps(a: &Word, b: &Word) -> Ordering
    ensures { result ≡ steps_cmp a.now.steps b.now.steps }
{
    a.steps.items().cmp(b.steps.items())
}
