//! The check of a cell.
ghost use Rattle.std.specs.Prelude.{◌≡◌, ◌++◌, ◌∷◌, [], IfOk, OnOk, filter, filter_map};
ghost use Rattle.ordered_lists.specs.Orders.{Lists};
ghost use Rattle.road_model.specs.Orders.{way_cmp};
ghost use Rattle.map_cells.specs.Cells.{Passes};
ghost use Rattle.map_cells.specs.Owners.{IsOwn};
ghost use Rattle.cell_check.specs.Checks.{AreFailing};
ghost use Rattle.cell_check.specs.Outcomes.{is_passed, failing_in};

use crate::gathering::gather;
use crate::rounds::reached;
use crate::search::LinkSearch;
use back_references::Indexed;
use map_cells::Area;
use road_base::{Key, NoMemory, WayId};
use road_model::laws::name_order;
use std::alloc::Global;

/// A way that the cell owns and that doesn't pass, and a key within the closed radius of it that isn't closed.
#[derive(Clone, Copy, PartialEq, Eq, Debug)]
pub struct Failing {
    pub way: WayId,
    pub key: Key,
}

/// The ways that a cell owns, ascending: those that pass, and the others.
#[derive(Drop)]
pub struct Checked {
    pub passing: Vec<WayId>,
    pub failing: Vec<Failing>,
}

/// Which own ways of the cell pass, by its objects, which an extract of the area keeps. Takes time of the order of
/// n log n where the objects name n others.
pub fn check(alloc: Global, world: &Indexed, area: Area, cell: Area) -> Result<Checked, NoMemory>
    ensures passing { IfOk result (λ c.
        Lists (λ w. w) way_cmp (λ w. IsOwn world.now cell w × Passes world.now area w) c.passing.items) }
    ensures failing { IfOk result (λ c. AreFailing world.now area cell c.failing.items) }
{
    name_order();
    let found = gather(alloc, world, &area, &cell)?;
    let search = reached(alloc, world, found.starts.as_slice())?;
    let mut checked = Checked {
        passing: Vec::new(alloc),
        failing: Vec::new(alloc),
    };
    tell_all(&search, found.own.as_slice(), &mut checked)?;
    Ok(checked)
}

/// Adds the ways, in their order: to those that pass, or with the key where the search began that came to them.
fn tell_all(search: &LinkSearch, ways: &[WayId], checked: &mut Checked) -> Result<(), NoMemory>
    ensures passing { OnOk result (checked.new.passing.items
        ≡ checked.old.passing.items ++ filter (is_passed search.now) ways.now) }
    ensures failing { OnOk result (checked.new.failing.items
        ≡ checked.old.failing.items ++ filter_map (failing_in search.now) ways.now) }
{
    for way in ways {
        tell(search, *way, checked)?;
    }
    Ok(())
}

/// Adds the way.
fn tell(search: &LinkSearch, way: WayId, checked: &mut Checked) -> Result<(), NoMemory>
    ensures passing { OnOk result (checked.new.passing.items
        ≡ checked.old.passing.items ++ filter (is_passed search.now) (way ∷ [])) }
    ensures failing { OnOk result (checked.new.failing.items
        ≡ checked.old.failing.items ++ filter_map (failing_in search.now) (way ∷ [])) }
{
    match search.start_of(Key::Way(way)) {
        None => checked.passing.push(way)?,
        Some(key) => checked.failing.push(Failing { way, key })?,
    }
    Ok(())
}
