//! Laws of the definitions, each the contract of a function that does nothing.
ghost use Rattle.std.specs.Prelude.{◌≡◌, ◌↔◌, List, false};
ghost use Rattle.road_base.specs.Objects.{Objects};
ghost use Rattle.road_base.specs.Tags.{TagList};
ghost use Rattle.road_base.specs.declared.ids.Dir.{Dir};
ghost use Rattle.road_base.specs.declared.ids.Step.{Step};
ghost use Rattle.road_model.specs.Network.{Legal};
ghost use Rattle.destination_drives.specs.Zones.{Zoned};
ghost use Rattle.destination_drives.specs.ZoneWalks.{AreZoneWalked};

use road_model::Profile;
use road_model::laws::walk_law;

/// Pairs of a context and a phase are the states of a second graph. Spelling is a one-to-one map from its walks, which
/// start at a context of one piece in the phase that the piece's mark gives and follow arcs along which the phase goes
/// on, onto the legal drives from junction to junction that go through no zone.
pub fn zone_walk_law<P: Profile>(profile: &P)
    ensures { (M : Objects) → AreZoneWalked M (P.rules profile.now) }
{
    walk_law(profile);
}

/// Under a profile that has no zones, the drives that go through none are the legal ones.
pub fn no_zones<P: Profile>(profile: &P)
    ensures { ((tags : TagList) (dir : Dir) → (P.rules profile.now).zone tags dir ≡ false)
        → (M : Objects) (d : List Step)
        → Zoned M (P.rules profile.now) d ↔ Legal M (P.rules profile.now) d }
{}
