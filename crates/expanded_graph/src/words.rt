//! The words that matter on ways.
ghost use Rattle.std.specs.Prelude.{◌≡◌, ◌<◌, ◌⊎◌, length, take, Contains, IfOk, IsTrue, OnOk, Some, slice_get};
ghost use Rattle.std.specs.List.{All};
ghost use Rattle.std.specs.FinMap.{IsAntisymmetric};
ghost use Rattle.road_base.specs.declared.ids.WayId.{WayId};
ghost use Rattle.road_base.specs.declared.ids.Step.{Step};
ghost use Rattle.road_model.specs.Networks.{on, map_of};
ghost use Rattle.road_model.specs.Words.{IsWord};
ghost use Rattle.restrictions.specs.declared.word_list.Word.{Word};
ghost use Rattle.restrictions.specs.Words.{IsRestriction};
ghost use Rattle.expanded_graph.specs.Near.{AreWordsNear, HasStepOn};
ghost use Rattle.expanded_graph.specs.Known.{AreRelationsOn, AreWordsOf, GainsApart, GainsWords};

use ordered_lists::leave_once;
use restrictions::{Word, WordList, WordsError, words};
use road_base::{NoMemory, RelationId, Step, WayId};
use road_model::laws::{name_order, number_order, words_on_ways};
use road_model::{Network, Profile, World};
use std::alloc::Global;

/// Words of the map, among them all that are near one of the ways: the words of the ways' relations, which are all
/// that have a step on one of them, and those of the relations of the other ways on which these words have steps.
/// Each relation is judged once. Takes the time of the words, and of a search among the ways for each of their steps.
/// The ways ascend; where they don't, some relations may be judged twice.
pub fn words_near<M: World, P: Profile>(
    alloc: Global,
    network: &Network<'_, M, P>,
    ways: &[WayId],
) -> Result<WordList, NoMemory>
    ensures words { IfOk result (λ words. (u : Word) → Contains words u
        → on network.now IsWord u.relation u.only u.binding u.steps) }
    ensures near { IfOk result (λ words. (w : WayId) → Contains ways.now w
        → on network.now AreWordsNear w words) }
{
    words_on_ways(&network.profile);
    let own = relations_of(alloc, network, ways, &[])?;
    let mut words = words_of(alloc, network, own.as_slice())?;
    let others = ways_of(alloc, words.as_slice(), ways)?;
    let further = relations_of(alloc, network, others.as_slice(), own.as_slice())?;
    let mut more = words_of(alloc, network, further.as_slice())?;
    words.append(&mut more)?;
    Ok(WordList::from_list(words))
}

/// The relations of these ways but the known ones, each once, ascending. The known ones ascend; where they don't,
/// some of them may be listed as well.
fn relations_of<M: World, P: Profile>(
    alloc: Global,
    network: &Network<'_, M, P>,
    ways: &[WayId],
    known: &[RelationId],
) -> Result<Vec<RelationId>, NoMemory>
    ensures { IfOk result (λ v. AreRelationsOn (map_of network.now) ways.now known.now v.items) }
{
    number_order();
    let mut list = Vec::new(alloc);
    for way in ways {
        add_apart(&mut list, network.world.rules_of_way(*way), known)?;
    }
    leave_once(&mut list);
    Ok(list)
}

/// The words of these restrictions. One that is of no use gives none.
fn words_of<M: World, P: Profile>(
    alloc: Global,
    network: &Network<'_, M, P>,
    relations: &[RelationId],
) -> Result<Vec<Word>, NoMemory>
    requires { All (IsRestriction (map_of network.now)) relations.now }
    ensures { IfOk result (λ v. on network.now AreWordsOf relations.now v.items) }
{
    let mut list = Vec::new(alloc);
    for relation in relations {
        add_words(alloc, &mut list, network, *relation)?;
    }
    Ok(list)
}

/// Adds the words of the restriction.
fn add_words<M: World, P: Profile>(
    alloc: Global,
    list: &mut Vec<Word>,
    network: &Network<'_, M, P>,
    relation: RelationId,
) -> Result<(), NoMemory>
    requires { IsRestriction (map_of network.now) relation }
    ensures { OnOk result (on network.now GainsWords relation list.old.items list.new.items) }
{
    match words(alloc, network.world, &network.profile, relation) {
        Ok(more) => {
            let mut more = more.into_list();
            list.append(&mut more)?;
            Ok(())
        }
        Err(WordsError::Unusable(_)) => Ok(()),
        Err(WordsError::NoMemory) => Err(NoMemory),
    }
}

/// The ways on which the words have steps but the known ones, each once, ascending. The known ones ascend; where they
/// don't, some of them may be listed as well.
fn ways_of(alloc: Global, words: &[Word], known: &[WayId]) -> Result<Vec<WayId>, NoMemory>
    ensures { IfOk result (λ v. (u : Word) (w : WayId) → Contains words.now u → HasStepOn w u.steps
        → Contains known.now w ⊎ Contains v.items w) }
{
    name_order();
    let mut list = Vec::new(alloc);
    for word in words {
        add_ways(&mut list, word.steps.items(), known)?;
    }
    leave_once(&mut list);
    Ok(list)
}

/// Adds the ways of the steps but the known ones.
fn add_ways(list: &mut Vec<WayId>, steps: &[Step], known: &[WayId]) -> Result<(), NoMemory>
    ensures { OnOk result (GainsApart known.now (λ w. HasStepOn w steps.now) list.old.items list.new.items) }
{
    name_order();
    for at in 0..steps.len() {
        if !goes_along(steps, at) {
            add_one_apart(list, steps[at].way, known)?;
        }
    }
    Ok(())
}

/// Whether the step at the place lies on the way of the step before it.
fn goes_along(steps: &[Step], at: usize) -> bool
    requires { at < length steps.now }
    ensures { IsTrue result → (s : Step) → slice_get steps.now at ≡ Some s → HasStepOn s.way (take at steps.now) }
{
    at > 0 && steps[at - 1].way == steps[at].way
}

/// Adds the items but the known ones.
fn add_apart<T: Ord + Copy>(list: &mut Vec<T>, items: &[T], known: &[T]) -> Result<(), NoMemory>
    requires { IsAntisymmetric T.cmp }
    ensures { OnOk result (GainsApart known.now (Contains items.now) list.old.items list.new.items) }
{
    for item in items {
        add_one_apart(list, *item, known)?;
    }
    Ok(())
}

/// Adds the item, unless a search finds it among the known ones.
fn add_one_apart<T: Ord + Copy>(list: &mut Vec<T>, item: T, known: &[T]) -> Result<(), NoMemory>
    requires { IsAntisymmetric T.cmp }
    ensures { OnOk result (GainsApart known.now (λ x. x ≡ item) list.old.items list.new.items) }
{
    if known.binary_search(&item).is_err() {
        list.push(item)?;
    }
    Ok(())
}
