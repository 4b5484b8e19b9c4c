//! The ways that a change touches, and those near it.
ghost use Rattle.std.specs.Prelude.{◌≡◌, IfOk};
ghost use Rattle.ordered_lists.specs.Orders.{Lists};
ghost use Rattle.road_model.specs.Links.{AreTouched};
ghost use Rattle.road_model.specs.Orders.{way_cmp};
ghost use Rattle.touched_ways.specs.Altering.{IsNearChange};

use back_references::{Indexed, Next, Prepared};
use road_base::{NoMemory, Ways};
use std::alloc::Global;
use touched_ways::{near_change, surroundings};

/// The ways within the link radius of what the change changes, in the world as it stands or in the one that it would
/// leave, ascending. Takes time and memory of the order of n log n in the links that are followed.
pub fn touched_by(alloc: Global, world: &Indexed, prepared: &Prepared) -> Result<Ways, NoMemory>
    requires { prepared.now.before ≡ world.now }
    ensures { IfOk result (AreTouched prepared.now.before prepared.now.after) }
{
    let next = Next::of(world, prepared);
    surroundings(alloc, world, &next, prepared.keys())
}

/// The same within two links: those whose pieces the change may alter.
pub fn close_to(alloc: Global, world: &Indexed, prepared: &Prepared) -> Result<Ways, NoMemory>
    requires { prepared.now.before ≡ world.now }
    ensures { IfOk result (Lists (λ w. w) way_cmp (IsNearChange prepared.now.before prepared.now.after)) }
{
    let next = Next::of(world, prepared);
    near_change(alloc, world, &next, prepared.keys())
}
