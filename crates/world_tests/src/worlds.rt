//! Worlds for tests.
ghost use Rattle.std.specs.Prelude.{IfOk};
ghost use Rattle.std.specs.FinMap.{empty};
ghost use Rattle.road_base.specs.Applying.{IsApplied};

use back_references::Indexed;
use object_tests::makers::extract_of;
use road_base::{Event, NoMemory};
use std::alloc::Global;
use std::test::Fail;

/// The world of an extract.
pub fn world_of(alloc: Global, lines: &[u8]) -> Result<Indexed, Fail> {
    Ok(world_with(alloc, extract_of(alloc, lines)?)?)
}

/// What the events leave of no objects.
pub fn world_with(alloc: Global, events: Vec<Event>) -> Result<Indexed, NoMemory>
    ensures { IfOk result (λ w. IsApplied empty events.items w) }
{
    Indexed::of(alloc, events)
}
