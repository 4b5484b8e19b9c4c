//! Whether a drive goes through a zone.
ghost use Rattle.std.specs.Prelude.{ℕ, ◌≤◌, ◌≡◌, take, IfSome, IfNone};
ghost use Rattle.destination_drives.specs.Zones.{is_zone_step, Through};

use crate::phases::{Phase, go};
use road_base::Step;
use road_model::{Profile, World};

/// The least number of first steps of the drive that go through a zone: a zone step stands between two steps that
/// aren't zone steps, in any distance. None exactly where the drive goes through none. Takes no memory, and for each
/// step the time of a look-up of its way.
pub fn through<M: World, P: Profile>(world: &M, profile: &P, drive: &[Step]) -> Option<u64>
    ensures none { IfNone result (Through (M.objects world.now) (P.rules profile.now) drive.now → ⊥) }
    ensures some { IfSome result (λ k. Through (M.objects world.now) (P.rules profile.now) (take k drive.now)) }
    ensures least { IfSome result (λ k. (j : ℕ)
        → Through (M.objects world.now) (P.rules profile.now) (take j drive.now)
        → k ≤ j) }
{
    let mut phase = Phase::Before;
    for at in 0..drive.len() {
        match go(phase, is_zone_step(world, profile, drive[at])) {
            Some(next) => phase = next,
            None => return Some(at as u64 + 1),
        }
    }
    None
}

/// Whether the step's way is visible and its tags are those of a zone in the step's direction.
#[tactic(auto, unfolding(road_model::specs::Driving::is_marked))]
fn is_zone_step<M: World, P: Profile>(world: &M, profile: &P, step: Step) -> bool
    ensures { result ≡ is_zone_step (M.objects world.now) (P.rules profile.now) step }
{
    match world.way(step.way) {
        Some(body) => profile.zone(&body.tags, step.dir),
        None => false,
    }
}
