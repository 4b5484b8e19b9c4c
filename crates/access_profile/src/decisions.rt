//! What decides on access, and what it says.
ghost use Rattle.std.specs.Prelude.{◌≡◌};
ghost use Rattle.access_profile.specs.Decisions.{decision_of, permission_of, said_by_key};

use crate::deciding_key::{deciding, full_key};
use barrier_rules::is_open_value;
use road_base::{Dir, Tags};
use road_model::AccessKey;

/// Whom a value of an access key lets pass by car: all, destination traffic alone, or nobody.
#[derive(Clone, Copy)]
pub enum Permission {
    All,
    Destination,
    Nobody,
}

/// What decides on access to a way in a direction: the key, with the direction that it names, if it names one; whether
/// it has the ending `:conditional` behind both; and whom its value lets pass.
#[derive(Clone, Copy)]
pub struct Decision {
    pub name: AccessKey,
    pub side: Option<Dir>,
    pub conditional: bool,
    pub permission: Permission,
}

/// What the key that decides on access says, by its value. None exactly where the tags carry no access key.
#[tactic(auto, unfolding(crate::specs::Decisions::decision_of))]
pub fn decision_of(tags: &Tags, dir: Dir) -> Option<Decision>
    ensures { result ≡ decision_of tags.now dir }
{
    let Some((name, side)) = deciding(tags, dir) else {
        return None;
    };
    said_by_key(tags, name, side)
}

/// What the key says, with the direction that it names. None exactly where the tags don't carry it.
pub fn said_by_key(tags: &Tags, name: AccessKey, side: Option<Dir>) -> Option<Decision>
    ensures { result ≡ said_by_key tags.now (name, side) }
{
    let Some(value) = tags.get(full_key(name, side)) else {
        return None;
    };
    Some(Decision {
        name,
        side,
        conditional: false,
        permission: permission_of(value),
    })
}

/// Whom the value lets pass (OSM wiki, Key:access and Tag:access=destination).
pub fn permission_of(value: &str) -> Permission
    ensures { result ≡ permission_of value.now }
{
    if !is_open_value(value) {
        Permission::Nobody
    } else if value == "destination" {
        Permission::Destination
    } else {
        Permission::All
    }
}
