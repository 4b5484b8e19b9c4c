//! What a restriction says to a car.
ghost use Rattle.std.specs.Prelude.{◌≡◌, codes, reverse};
ghost use Rattle.road_base.specs.Tags.{value_of};
ghost use Rattle.access_profile.specs.Restricting.{behind_spaces, is_car_name, is_excepted, kind_of, names_car, rule};
ghost use Rattle.access_profile.specs.Restricting.{without_spaces};

use road_base::Tags;
use road_model::RuleKind;

/// What a restriction with these tags says to a car (OSM wiki, Relation:restriction).
#[tactic(auto, unfolding(crate::specs::Restricting::rule))]
pub fn rule(tags: &Tags) -> RuleKind
    ensures { result ≡ rule tags.now }
{
    if is_excepted(tags) {
        return RuleKind::Freed;
    }
    if let Some(value) = tags.get("restriction:motorcar") {
        return kind_of(value);
    }
    match tags.get("restriction") {
        Some(value) => kind_of(value),
        None => RuleKind::Absent,
    }
}

/// Whether cars are excepted.
fn is_excepted(tags: &Tags) -> bool
    ensures { result ≡ is_excepted (value_of (codes "except") tags.now) }
{
    match tags.get("except") {
        Some(value) => names_car(value.as_bytes()),
        None => false,
    }
}

/// Whether a part of the value, between semicolons, names a car.
#[tactic(auto, unfolding(crate::specs::Restricting::names_car))]
fn names_car(value: &[u8]) -> bool
    ensures { result ≡ names_car value.now }
{
    value
        .split(|byte| *byte == b';')
        .any(|part| is_car(without_spaces(part)))
}

#[tactic(auto, unfolding(crate::specs::Restricting::is_car_name))]
fn is_car(name: &[u8]) -> bool
    ensures { result ≡ is_car_name name.now }
{
    name == b"motorcar".as_slice()
        || name == b"motor_vehicle".as_slice()
        || name == b"vehicle".as_slice()
}

/// The text without the spaces on both sides.
#[tactic(auto, unfolding(crate::specs::Restricting::without_spaces))]
fn without_spaces(text: &[u8]) -> &[u8]
    ensures { result.now ≡ without_spaces text.now }
{
    before_spaces(behind_spaces(text))
}

/// The text without the spaces in front.
fn behind_spaces(text: &[u8]) -> &[u8]
    ensures { result.now ≡ behind_spaces text.now }
{
    let mut rest = text;
    while let [b' ', behind @ ..] = rest {
        rest = behind;
    }
    rest
}

/// The text without the spaces at its end.
fn before_spaces(text: &[u8]) -> &[u8]
    ensures { result.now ≡ reverse (behind_spaces (reverse text.now)) }
{
    let mut rest = text;
    while let [before @ .., b' '] = rest {
        rest = before;
    }
    rest
}

/// What the value of a restriction says.
#[tactic(auto, unfolding(crate::specs::Restricting::kind_of))]
fn kind_of(value: &str) -> RuleKind
    ensures { result ≡ kind_of value.now }
{
    if value.as_bytes().starts_with(b"no_") {
        RuleKind::No
    } else if value.as_bytes().starts_with(b"only_") {
        RuleKind::Only
    } else {
        RuleKind::Absent
    }
}
