//! The words of a restriction that is of use.
ghost use Rattle.std.specs.Prelude.{◌≡◌, ◌++◌, OnOk, IfOk};
ghost use Rattle.road_model.specs.Networks.{made_on};
ghost use Rattle.road_model.specs.Restrictions.{via_order, vias};
ghost use Rattle.road_model.specs.Rules.{is_only};
ghost use Rattle.road_model.specs.Words.{binding_of};
ghost use Rattle.restrictions.specs.Spelling.{word_of, words_at, words_from, words_of, words_over};

use crate::end_steps::{Side, ends_of};
use crate::passages::{Passage, pass_ways};
use crate::roles::Roles;
use crate::runs::first_ends;
use crate::word_list::Word;
use road_base::{Drive, Key, NoMemory, NodeId, RelationId, Step};
use road_model::{Network, Profile, RuleKind, World};
use std::alloc::Global;

/// What the words of a restriction share.
#[derive(Clone, Copy)]
pub struct WordRule {
    pub relation: RelationId,
    pub only: bool,
    pub binding: u32,
}

/// What the words of the restriction share.
pub fn rule_of<P: Profile>(profile: &P, relation: RelationId, roles: &Roles<'_>) -> WordRule
    ensures relation { result.relation ≡ relation }
    ensures only { result.only ≡ is_only ((P.rules profile.now).rule roles.now.body.now.tags) }
    ensures binding { result.binding ≡ binding_of (vias roles.now.body.now) }
{
    WordRule {
        relation,
        only: matches!(profile.rule(&roles.body.tags), RuleKind::Only),
        binding: binding_of(roles.vias.as_slice()),
    }
}

/// How many steps must have been driven before an Only rule with these via members binds.
fn binding_of(vias: &[Key]) -> u32
    ensures { result ≡ binding_of vias.now }
{
    match vias {
        [Key::Way(_), ..] => 2,
        _ => 1,
    }
}

/// All words of a restriction that is of use, whose via members are passed in this order.
pub fn words_of<M: World, P: Profile>(
    alloc: Global,
    network: &Network<'_, M, P>,
    rule: WordRule,
    roles: &Roles<'_>,
    order: &[Key],
) -> Result<Vec<Word>, NoMemory>
    requires { order.now ≡ made_on network.now via_order roles.now.body.now }
    ensures { IfOk result (λ words. words.items ≡ made_on network.now words_of rule roles.now.body.now) }
{
    let mut words = Vec::new(alloc);
    if let [Key::Node(node)] = order {
        let passage = Passage {
            enter: *node,
            steps: Vec::new(alloc),
            leave: *node,
        };
        add_words_at(alloc, &mut words, network.world, rule, roles, &passage)?;
        return Ok(words);
    }
    let Some(ends) = first_ends(network.world, order) else {
        return Ok(words);
    };
    add_words_over(alloc, &mut words, network, rule, roles, order, ends.first)?;
    add_words_over(alloc, &mut words, network, rule, roles, order, ends.last)?;
    Ok(words)
}

/// Adds the words over via ways that are passed in this order and entered at the node.
fn add_words_over<M: World, P: Profile>(
    alloc: Global,
    words: &mut Vec<Word>,
    network: &Network<'_, M, P>,
    rule: WordRule,
    roles: &Roles<'_>,
    order: &[Key],
    enter: NodeId,
) -> Result<(), NoMemory>
    requires { order.now ≡ made_on network.now via_order roles.now.body.now }
    ensures { OnOk result (words.new.items
        ≡ words.old.items ++ made_on network.now words_over rule roles.now.body.now enter) }
{
    let Some(passage) = pass_ways(alloc, network, order, enter)? else {
        return Ok(());
    };
    add_words_at(alloc, words, network.world, rule, roles, &passage)
}

/// Adds the words over what the via members spell.
fn add_words_at<M: World>(
    alloc: Global,
    words: &mut Vec<Word>,
    world: &M,
    rule: WordRule,
    roles: &Roles<'_>,
    passage: &Passage,
) -> Result<(), NoMemory>
    ensures { OnOk result (words.new.items
        ≡ words.old.items
        ++ words_at (M.objects world.now) rule roles.now.body.now
        passage.now.enter passage.now.steps.items passage.now.leave) }
{
    let firsts = ends_of(
        alloc,
        world,
        Side::Into,
        roles.froms.as_slice(),
        passage.enter,
    )?;
    let lasts = ends_of(
        alloc,
        world,
        Side::OutOf,
        roles.tos.as_slice(),
        passage.leave,
    )?;
    let via = passage.steps.as_slice();
    for first in firsts.as_slice() {
        add_words_from(alloc, words, rule, *first, via, lasts.as_slice())?;
    }
    Ok(())
}

/// Adds the words that begin with this step.
fn add_words_from(
    alloc: Global,
    words: &mut Vec<Word>,
    rule: WordRule,
    first: Step,
    via: &[Step],
    lasts: &[Step],
) -> Result<(), NoMemory>
    ensures { OnOk result (words.new.items ≡ words.old.items ++ words_from rule first via.now lasts.now) }
{
    for last in lasts {
        words.push(word_of(alloc, rule, first, via, *last)?)?;
    }
    Ok(())
}

/// The word of these steps.
fn word_of(
    alloc: Global,
    rule: WordRule,
    first: Step,
    via: &[Step],
    last: Step,
) -> Result<Word, NoMemory>
    ensures { IfOk result (λ word. word ≡ word_of rule first via.now last) }
{
    let mut steps = Vec::with_capacity(alloc, via.len() + 2)?;
    steps.push(first)?;
    steps.extend_from_slice(via)?;
    steps.push(last)?;
    Ok(Word {
        relation: rule.relation,
        only: rule.only,
        binding: rule.binding,
        steps: Drive::from_list(steps),
    })
}
