//! The profile of each number.
ghost use Rattle.std.specs.Prelude.{◌≡◌};
ghost use Rattle.road_base.specs.Profiles.{IsProfile};

use access_profile::ProfileOf;

/// The profile of a known number.
pub fn profile_of(number: u32) -> ProfileOf
    requires { IsProfile number }
    ensures { result.number ≡ number }
{
    match ProfileOf::new(number) {
        Some(profile) => profile,
        None => unreachable!(),
    }
}
