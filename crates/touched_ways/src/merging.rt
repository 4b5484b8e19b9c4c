//! Two lists of ways put together.
ghost use Rattle.std.specs.Prelude.{◌⊎◌, IfOk, Contains, List};
ghost use Rattle.road_base.specs.Objects.{Objects};
ghost use Rattle.road_base.specs.declared.ids.Key.{Key};
ghost use Rattle.ordered_lists.specs.Orders.{Lists};
ghost use Rattle.road_model.specs.Orders.{way_cmp};
ghost use Rattle.road_model.specs.Links.{AreChanged, AreReached, AreTouched};

use crate::lists::add_sorted;
use ordered_lists::leave_once;
use road_base::{NoMemory, Ways};
use road_model::laws::name_order;
use std::alloc::Global;

/// The ways of either list, ascending, each once. Of the ways reached before a change and those reached after it, from
/// the keys that it changes, these are the ways that it touches.
pub fn merge(alloc: Global, before: &Ways, after: &Ways) -> Result<Ways, NoMemory>
    ensures either { IfOk result (Lists (λ w. w) way_cmp (λ w. Contains before.now w ⊎ Contains after.now w)) }
    ensures touched { IfOk result (λ ways. (M N : Objects) (keys : List Key) → AreChanged M N keys
        → AreReached M keys before.now
        → AreReached N keys after.now
        → AreTouched M N ways) }
{
    name_order();
    let mut ways = Vec::from_slice(alloc, before.items())?;
    add_sorted(&mut ways, after.items())?;
    leave_once(&mut ways);
    Ok(Ways::from_list(ways))
}
