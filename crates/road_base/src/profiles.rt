//! Which numbers are those of profiles.
ghost use Rattle.std.specs.Prelude.{◌≡◌};
ghost use Rattle.road_base.specs.Profiles.{is_profile_number};

/// Whether there is a profile of this number.
pub fn is_profile(number: u32) -> bool
    ensures { result ≡ is_profile_number number }
{
    number == 1 || number == 2
}
