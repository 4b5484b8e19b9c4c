//! What the via members of a restriction spell.
ghost use Rattle.std.specs.Prelude.{◌≡◌, ◌++◌, OnOk, IfOk, IfSome, IfNone, Some, None};
ghost use Rattle.road_model.specs.Driving.{is_open};
ghost use Rattle.road_model.specs.Lines.{line_of};
ghost use Rattle.road_model.specs.Networks.{made_on, map_of};
ghost use Rattle.road_model.specs.Restrictions.{whole_way};
ghost use Rattle.restrictions.specs.Runs.{leave_of, steps_of};

use crate::line_ends::nodes_on;
use crate::runs::{Allowed, cross};
use road_base::{Dir, Key, NoMemory, NodeId, Step, WayId};
use road_model::{Network, Profile, World};
use std::alloc::Global;
use way_lines::add_steps;

/// What the via members spell, and the nodes where they are entered and left.
#[derive(Drop)]
pub struct Passage {
    pub enter: NodeId,
    pub steps: Vec<Step>,
    pub leave: NodeId,
}

/// All steps of these ways, each whole in an open direction and the first from the node, None where they don't lead on.
#[tactic(auto, using(crate::proofs::OneRun::from_nowhere))]
pub fn pass_ways<M: World, P: Profile>(
    alloc: Global,
    network: &Network<'_, M, P>,
    ways: &[Key],
    enter: NodeId,
) -> Result<Option<Passage>, NoMemory>
    ensures enter { IfOk result (λ answer. IfSome answer (λ passage. passage.enter ≡ enter)) }
    ensures steps { IfOk result (λ answer. IfSome answer
        (λ passage. passage.steps.items ≡ steps_of (map_of network.now) (made_on network.now is_open) ways.now
        (Some enter))) }
    ensures leave { IfOk result (λ answer. IfSome answer
        (λ passage. leave_of (map_of network.now) (made_on network.now is_open) ways.now (Some enter)
        ≡ Some passage.leave)) }
    ensures none { IfOk result (λ answer. IfNone answer
        (leave_of (map_of network.now) (made_on network.now is_open) ways.now (Some enter) ≡ None)) }
{
    let mut steps = Vec::new(alloc);
    let mut at = enter;
    let mut rest = ways;
    while let [key, behind @ ..] = rest {
        let Some(crossing) = cross(network, Allowed::OpenWay, *key, at) else {
            return Ok(None);
        };
        add_whole_way(&mut steps, network.world, crossing.way, crossing.dir)?;
        at = crossing.out;
        rest = behind;
    }
    Ok(Some(Passage {
        enter,
        steps,
        leave: at,
    }))
}

/// Adds all steps of the way in order of travel.
#[tactic(auto, unfolding(road_model::specs::Lines::line_of))]
fn add_whole_way<M: World>(
    steps: &mut Vec<Step>,
    world: &M,
    way: WayId,
    dir: Dir,
) -> Result<(), NoMemory>
    ensures { OnOk result (steps.new.items ≡ steps.old.items ++ whole_way (M.objects world.now) way dir) }
{
    let count = nodes_on(world, way).saturating_sub(1);
    add_steps(steps, way, 0, count, dir)
}
