//! What holds of the profiles at a moment: functions that do nothing, whose contracts are statements about definitions.
ghost use Rattle.std.specs.Prelude.{◌≡◌, ℕ};
ghost use Rattle.road_base.specs.declared.ids.Dir.{Dir};
ghost use Rattle.road_base.specs.Tags.{TagList};
ghost use Rattle.access_profile.specs.Profiles.{rules_of};
ghost use Rattle.moment_rules.specs.declared.moment.Moment.{Moment};
ghost use Rattle.moment_rules.specs.AtMoment.{rules_at};
ghost use Rattle.moment_rules.specs.MomentDecisions.{AreQuiet};

/// Where no part of a conditional access key that is read applies, the profile at the moment answers as it does at any
/// other time. What it says of nodes and restrictions never goes by the moment.
pub fn quiet_moments()
    ensures direction { (n : ℕ) (at : Moment) (tags : TagList) (dir : Dir) → AreQuiet at tags dir
        → (rules_at n at).direction tags dir ≡ (rules_of n).direction tags dir }
    ensures zone { (n : ℕ) (at : Moment) (tags : TagList) (dir : Dir) → AreQuiet at tags dir
        → (rules_at n at).zone tags dir ≡ (rules_of n).zone tags dir }
    ensures number { (n : ℕ) (at : Moment) → (rules_at n at).number ≡ (rules_of n).number }
    ensures node_open { (n : ℕ) (at : Moment) (tags : TagList)
        → (rules_at n at).node_open tags ≡ (rules_of n).node_open tags }
    ensures turns { (n : ℕ) (at : Moment) (tags : TagList)
        → (rules_at n at).turns tags ≡ (rules_of n).turns tags }
    ensures rule { (n : ℕ) (at : Moment) (tags : TagList) → (rules_at n at).rule tags ≡ (rules_of n).rule tags }
    ensures reverses { (n : ℕ) (at : Moment) → (rules_at n at).reverses ≡ (rules_of n).reverses }
{}
