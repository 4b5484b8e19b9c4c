//! The words of a restriction, or why it gives none.
ghost use Rattle.std.specs.Prelude.{◌≡◌, IfOk, IfErr, OnOk};
ghost use Rattle.restrictions.specs.declared.relation_words.WordsError.TheVariants.{NoMemory as NoMemoryError};
ghost use Rattle.restrictions.specs.Words.{AreWords, IsOfUse, IsRestriction, SaysCause};

use crate::first_cause::usable_order;
use crate::roles::roles_of;
use crate::spelling::{rule_of, words_of};
use crate::word_list::WordList;
use road_base::{NoMemory, RelationId};
use road_model::{Network, Profile, Unusable, World};
use std::alloc::{AllocError, Global};

/// Why a restriction gives no words.
#[derive(Clone, Copy, PartialEq, Eq, Debug)]
pub enum WordsError {
    /// It is of no use, for this cause.
    Unusable(Unusable),
    /// No memory was found.
    NoMemory,
}

impl From<NoMemory> for WordsError {
    ghost from_gives = { λ _ e. e ≡ NoMemoryError };

    fn from(_error: NoMemory) -> WordsError {
        WordsError::NoMemory
    }
}

impl From<AllocError> for WordsError {
    ghost from_gives = { λ _ e. e ≡ NoMemoryError };

    fn from(_error: AllocError) -> WordsError {
        WordsError::NoMemory
    }
}

/// The words of the restriction, each once, or the first cause for which it is of no use.
///
/// Any from member, any to member and any fitting directions of the via ways give a word (OSM wiki,
/// Relation:restriction). The order in which the via ways are passed is found once. The relation is a visible
/// restriction.
pub fn words<M: World, P: Profile>(
    alloc: Global,
    world: &M,
    profile: &P,
    relation: RelationId,
) -> Result<WordList, WordsError>
    requires { IsRestriction (M.objects world.now) relation }
    ensures usable { OnOk result (IsOfUse (M.objects world.now) (P.rules profile.now) relation) }
    ensures words { IfOk result (λ words. AreWords (M.objects world.now) (P.rules profile.now) relation words) }
    ensures cause { IfErr result (SaysCause (M.objects world.now) (P.rules profile.now) relation) }
{
    let Some(body) = world.relation(relation) else {
        unreachable!()
    };
    let roles = roles_of(alloc, body)?;
    let network = Network::new(world, *profile);
    let order = match usable_order(&network, &roles) {
        Ok(order) => order,
        Err(cause) => return Err(WordsError::Unusable(cause)),
    };
    let rule = rule_of(profile, relation, &roles);
    let words = words_of(alloc, &network, rule, &roles, order)?;
    Ok(WordList::from_list(words))
}
