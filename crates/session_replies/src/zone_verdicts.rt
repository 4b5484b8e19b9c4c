//! What is said of a drive that may go through no zone.
ghost use Rattle.std.specs.Prelude.{◌≡◌, ◌≢◌, ◌↔◌, [], IfOk, IsTrue};
ghost use Rattle.drive_judging.specs.Verdicts.{IsVerdict};
ghost use Rattle.session_replies.specs.ZoneVerdicts.{IsZoneVerdict, judged, BreaksWithin, zone_verdict_line};

use crate::texts::verdict_reply;
use destination_drives::through;
use drive_queries::{Rule, Verdict};
use road_base::{NoMemory, Step};
use road_model::laws::drive_parts;
use road_model::{Profile, World};
use std::alloc::Global;

/// Whether a drive is legal, and goes through no road that is open to destination traffic alone.
#[derive(Clone, Copy, PartialEq, Eq, Debug)]
pub enum ZoneVerdict {
    /// It is.
    Zoned,
    /// The number of the first step with which it isn't, counted from 1, and the first rule that the drive breaks
    /// there.
    Broken { step: u64, rule: Rule },
    /// The number of the first step with which it isn't: the drive breaks no rule up to there, and has gone through a
    /// zone.
    Through { step: u64 },
}

/// What is said of a drive that goes through no zone before the step with which it breaks a rule.
fn judged(verdict: Verdict) -> ZoneVerdict
    ensures { result ≡ judged verdict }
{
    match verdict {
        Verdict::Legal => ZoneVerdict::Zoned,
        Verdict::Broken { step, rule } => ZoneVerdict::Broken { step, rule },
    }
}

/// Whether the drive breaks a rule within so many steps.
fn breaks_within(verdict: Verdict, steps: u64) -> bool
    ensures { IsTrue result ↔ BreaksWithin verdict steps }
{
    match verdict {
        Verdict::Legal => false,
        Verdict::Broken { step, .. } => step <= steps,
    }
}

/// Whether the drive, which isn't empty, is legal and goes through no zone, and else the first step with which it isn't
/// so, and why. The verdict is that of `judge`, and decides where the drive goes through no zone before. Takes no
/// memory, and for each step the time of a look-up of its way.
pub fn judge_zones<M: World, P: Profile>(
    world: &M,
    profile: &P,
    verdict: Verdict,
    drive: &[Step],
) -> ZoneVerdict
    requires some { drive.now ≢ [] }
    requires judged { IsVerdict (M.objects world.now) (P.rules profile.now) drive.now verdict }
    ensures { IsZoneVerdict (M.objects world.now) (P.rules profile.now) drive.now result }
{
    drive_parts(profile);
    let Some(step) = through(world, profile, drive) else {
        return judged(verdict);
    };
    if breaks_within(verdict, step) {
        return judged(verdict);
    }
    ZoneVerdict::Through { step }
}

/// `legal`, `broken K RULE` or `broken K through`.
pub fn zone_verdict_reply(alloc: Global, verdict: &ZoneVerdict) -> Result<Vec<u8>, NoMemory>
    ensures { IfOk result (λ line. line.items ≡ zone_verdict_line verdict.now) }
{
    match verdict {
        ZoneVerdict::Zoned => verdict_reply(alloc, &Verdict::Legal),
        ZoneVerdict::Broken { step, rule } => {
            let broken = Verdict::Broken {
                step: *step,
                rule: *rule,
            };
            verdict_reply(alloc, &broken)
        }
        ZoneVerdict::Through { step } => {
            Ok(format!(in alloc; "broken {step} through\n")?.into_bytes())
        }
    }
}
