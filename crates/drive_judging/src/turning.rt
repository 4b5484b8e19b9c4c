//! Whether a drive may go back at a node, by what leaves it.
ghost use Rattle.std.specs.Prelude.{◌≡◌, ◌↔◌, Some, IsTrue};
ghost use Rattle.road_base.specs.declared.ids.Step.{Step};
ghost use Rattle.road_model.specs.Lines.{head_of, tail_of};
ghost use Rattle.road_model.specs.Networks.{map_of, on};
ghost use Rattle.road_model.specs.Driving.{Leaves, MayTurn, Passes};
ghost use Rattle.drive_judging.specs.DeadEnds.{AreLeaving, IsLeaving};

use crate::dead_ends::{Leaving, leaving_at};
use crate::word_table::WordTable;
use road_base::{NodeId, Step};
use road_model::{Network, Profile, World};
use way_lines::{NodeRules, pass};

/// Whether the step, which goes back over the node to where the one before it began, may follow it.
pub fn turns_back<M: World, P: Profile>(
    network: &Network<'_, M, P>,
    table: &WordTable,
    node: NodeId,
    last: Step,
    step: Step,
) -> bool
    requires known { on network.now AreLeaving table.now.leaving }
    requires leaves { on network.now Leaves node step }
    requires meets { head_of (map_of network.now) last ≡ Some node }
    requires back { head_of (map_of network.now) step ≡ tail_of (map_of network.now) last }
    ensures { IsTrue result ↔ on network.now Passes last step }
{
    match leaving_at(&table.leaving, node) {
        Some(leaving) => may_turn(network, leaving, node),
        None => pass(network.world, &network.profile, last, step),
    }
}

/// Whether a step that leaves the node may turn round there.
fn may_turn<M: World, P: Profile>(
    network: &Network<'_, M, P>,
    leaving: Leaving,
    node: NodeId,
) -> bool
    requires { on network.now IsLeaving node leaving }
    ensures { (t : Step) → on network.now Leaves node t → IsTrue result ↔ on network.now MayTurn node t }
{
    NodeRules::of(network, node).may_turn(matches!(leaving, Leaving::One(_)))
}
