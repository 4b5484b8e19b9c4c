//! Whether one may drive from one node to another through no zone.
ghost use Rattle.std.specs.Prelude.{◌≡◌, IfOk};
ghost use Rattle.road_model.specs.BlockMap.{AreBlocksOf};
ghost use Rattle.destination_drives.specs.PhaseNumbers.{number_of, phase_at, zone_phases};
ghost use Rattle.destination_drives.specs.ZoneReaching.{IsZoneFound};

use crate::phases::{Phase, go, start};
use context_search::laws::{drives_over, searched_drives};
use context_search::{Found, Phases, reach_in_phases};
use graph_blocks::LendsBlocks;
use road_base::{NoMemory, NodeId};
use road_model::{Profile, World};
use std::alloc::Global;

/// A legal drive from node a to node b that goes through no zone, also where they are the same, or why there is none.
/// The blocks are those of the world under the profile.
///
/// Takes what `reach` takes, where a context counts once for each phase in which the search comes to it.
pub fn zone_reach<M: World, P: Profile, B: LendsBlocks>(
    alloc: Global,
    world: &M,
    profile: &P,
    blocks: &B,
    a: NodeId,
    b: NodeId,
) -> Result<Found, NoMemory>
    requires { AreBlocksOf (M.objects world.now) (P.rules profile.now) (B.map blocks.now) }
    ensures { IfOk result (IsZoneFound (M.objects world.now) (P.rules profile.now) a b) }
{
    searched_drives(profile);
    drives_over(profile);
    reach_in_phases(alloc, world, profile, blocks, &ZonePhases, a, b)
}

/// The phases of a drive, as a search goes along them.
#[derive(Clone, Copy, Drop)]
struct ZonePhases;

impl Phases for ZonePhases {
    ghost rules = { λ _. zone_phases };

    fn start(&self, zone: bool) -> u8 {
        number_of(start(zone))
    }

    fn go(&self, phase: u8, zone: bool) -> Option<u8> {
        match go(phase_at(phase), zone) {
            Some(next) => Some(number_of(next)),
            None => None,
        }
    }
}

/// The phase's number.
fn number_of(phase: Phase) -> u8
    ensures { result ≡ number_of phase }
{
    match phase {
        Phase::Before => 0,
        Phase::Open => 1,
        Phase::After => 2,
    }
}

/// The phase of that number, the last one for all that are no phase's.
fn phase_at(number: u8) -> Phase
    ensures { result ≡ phase_at number }
{
    match number {
        0 => Phase::Before,
        1 => Phase::Open,
        _ => Phase::After,
    }
}
