//! What becomes of each restriction: how many words it gives, or why it gives none.
ghost use Rattle.std.specs.Prelude.{◌≡◌, Some, IfOk, string_bytes};
ghost use Rattle.road_base.specs.declared.objects.Relation.{Relation};
ghost use Rattle.road_base.specs.Objects.{relation_of};
ghost use Rattle.road_model.specs.Words.{kind_of};
ghost use Rattle.restrictions.specs.Words.{IsOfUse, IsRestriction};
ghost use Rattle.osmroad.specs.Audit.{IsFinding, cause_name, rule_kind_name, rule_line};

use back_references::Indexed;
use restrictions::{WordsError, words};
use road_base::{NoMemory, RelationId};
use road_model::{Network, Profile, RuleKind, Unusable, World};
use std::alloc::{AllocError, Global};

/// What becomes of a restriction.
#[derive(Clone, Copy, PartialEq, Eq, Debug)]
pub enum Finding {
    /// It forbids, or demands where `only` is set, and gives so many different words.
    Words { only: bool, count: usize },
    /// It is of no use, for this cause.
    Unused(Unusable),
}

/// What becomes of the visible restriction.
pub fn finding_of<P: Profile>(
    alloc: Global,
    network: &Network<'_, Indexed, P>,
    relation: RelationId,
) -> Result<Finding, NoMemory>
    requires { IsRestriction network.now.world.now relation }
    ensures { IfOk result (IsFinding network.now.world.now (P.rules network.now.profile) relation) }
{
    match words(alloc, network.world, &network.profile, relation) {
        Ok(words) => Ok(Finding::Words {
            only: demands(network, relation),
            count: words.items().len(),
        }),
        Err(WordsError::Unusable(cause)) => Ok(Finding::Unused(cause)),
        Err(WordsError::NoMemory) => Err(NoMemory),
    }
}

/// Whether a restriction that is of use demands, and doesn't forbid.
fn demands<P: Profile>(network: &Network<'_, Indexed, P>, relation: RelationId) -> bool
    requires { IsOfUse network.now.world.now (P.rules network.now.profile) relation }
    ensures { (body : Relation) → relation_of network.now.world.now relation ≡ Some body
        → (P.rules network.now.profile).rule body.tags ≡ kind_of result }
{
    match network.world.relation(relation) {
        Some(body) => matches!(network.profile.rule(&body.tags), RuleKind::Only),
        None => false,
    }
}

/// The name of a kind of restriction.
fn rule_kind_text(only: bool) -> &'static str
    ensures { result.now ≡ rule_kind_name only }
{
    match only {
        true => "only",
        false => "no",
    }
}

/// The name of a cause.
fn cause_text(cause: Unusable) -> &'static str
    ensures { result.now ≡ cause_name cause }
{
    match cause {
        Unusable::NotThisVehicle => "NotThisVehicle",
        Unusable::NoValue => "NoValue",
        Unusable::Members => "Members",
        Unusable::Missing => "Missing",
        Unusable::NotAnEnd => "NotAnEnd",
        Unusable::NotConnected => "NotConnected",
        Unusable::ClosedVia => "ClosedVia",
        Unusable::TooLong => "TooLong",
    }
}

/// The line of the restriction.
pub fn rule_text(
    alloc: Global,
    relation: RelationId,
    finding: Finding,
) -> Result<String, AllocError>
    ensures { IfOk result (λ text. string_bytes text
        ≡ rule_line (record { relation = relation; finding = finding })) }
{
    let number = relation.0;
    match finding {
        Finding::Words { only, count } => {
            let kind = rule_kind_text(only);
            format!(in alloc; "r{number} {kind} {count}\n")
        }
        Finding::Unused(cause) => {
            let name = cause_text(cause);
            format!(in alloc; "r{number} unused {name}\n")
        }
    }
}
