//! A world and a profile.
ghost use Rattle.road_model.specs.OnNetwork.{AreObjectsAndRules};

use crate::{Profile, World};

/// A world and the profile of a vehicle: all that says where one may drive. Contracts say what holds of its object
/// map and of the profile's rules by the word `on`: `on network.now IsPiece p` is `IsPiece M P p` for these two.
#[derive(Drop)]
pub struct Network<'a, M: World, P: Profile> {
    pub world: &'a M,
    pub profile: P,
    /// That there are an object map and rules. It makes the two known to the word `on`.
    ghost are: { ∥ AreObjectsAndRules (M.objects world.now) (P.rules profile) ∥₁ },
}

impl<'a, M: World, P: Profile> Network<'a, M, P> {
    ghost use Rattle.std.specs.Prelude.{◌≡◌};

    /// The world, for the profile. Takes no memory.
    pub fn new(world: &'a M, profile: P) -> Network<'a, M, P>
        ensures world { result.world.now ≡ world.now }
        ensures profile { result.profile ≡ profile }
    {
        Network { world, profile }
    }
}
