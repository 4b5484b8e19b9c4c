//! The key that decides on access.
ghost use Rattle.std.specs.Prelude.{◌≡◌, ℕ, List, None, true};
ghost use Rattle.road_base.specs.Tags.{value_of};
ghost use Rattle.access_profile.specs.Deciding.{deciding, deciding_keys, full_key};
ghost use Rattle.access_profile.specs.FirstLetters.{may_be_access_key};

use road_base::{Dir, Tags, Text};
use road_model::AccessKey;

/// So many tags are gone through before the keys are searched one by one. Most ways have fewer.
const FEW: usize = 32;

/// The key that decides on access to a way in the direction, and the direction that the key names, if it names one:
/// the first that the tags carry of `motorcar`, `motor_vehicle`, `vehicle` and `access`, each first with the ending
/// for the direction (OSM wiki, Key:access). None exactly where they carry none.
#[tactic(auto, unfolding(crate::specs::Deciding::deciding))]
pub fn deciding(tags: &Tags, dir: Dir) -> Option<(AccessKey, Option<Dir>)>
    ensures { result ≡ deciding tags.now dir }
{
    if lacks_access_keys(tags.items()) {
        return None;
    }
    deciding_keys(dir)
        .iter()
        .copied()
        .find(|key| tags.get(full_key(key.0, key.1)).is_some())
}

/// Whether these are few tags, and none of their keys begins with the letter of an access key: then the tags carry no
/// access key, with whatever ending.
pub fn lacks_access_keys(tags: &[(Text, Text)]) -> bool
    ensures { result ≡ true → (key : List ℕ) → may_be_access_key key ≡ true → value_of key tags.now ≡ None }
{
    if tags.len() > FEW {
        return false;
    }
    for tag in tags {
        if may_be_access_key(tag.0.as_str().as_bytes()) {
            return false;
        }
    }
    true
}

/// Whether the key begins with the letter of an access key.
fn may_be_access_key(key: &[u8]) -> bool
    ensures { result ≡ may_be_access_key key.now }
{
    match key {
        [first, ..] => *first == b'a' || *first == b'm' || *first == b'v',
        [] => false,
    }
}

/// The keys that may decide in the direction, in their order.
pub fn deciding_keys(dir: Dir) -> [(AccessKey, Option<Dir>); 8]
    ensures { result ≡ deciding_keys dir }
{
    [
        (AccessKey::Motorcar, Some(dir)),
        (AccessKey::Motorcar, None),
        (AccessKey::MotorVehicle, Some(dir)),
        (AccessKey::MotorVehicle, None),
        (AccessKey::Vehicle, Some(dir)),
        (AccessKey::Vehicle, None),
        (AccessKey::Access, Some(dir)),
        (AccessKey::Access, None),
    ]
}

/// The key as tags hold it, as `motor_vehicle:backward`.
pub fn full_key(name: AccessKey, side: Option<Dir>) -> &'static str
    ensures { result.now ≡ full_key (name, side) }
{
    match side {
        None => name.as_str(),
        Some(Dir::Forward) => match name {
            AccessKey::Motorcar => "motorcar:forward",
            AccessKey::MotorVehicle => "motor_vehicle:forward",
            AccessKey::Vehicle => "vehicle:forward",
            AccessKey::Access => "access:forward",
        },
        Some(Dir::Backward) => match name {
            AccessKey::Motorcar => "motorcar:backward",
            AccessKey::MotorVehicle => "motor_vehicle:backward",
            AccessKey::Vehicle => "vehicle:backward",
            AccessKey::Access => "access:backward",
        },
    }
}
