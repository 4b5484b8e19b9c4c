//! Lists that are cut into parts.
ghost use Rattle.std.specs.Prelude.{◌≡◌, ◌<◌, ◌≤◌, ◌++◌, ◌∷◌, [], IfOk, OnOk, length};
ghost use Rattle.layered_maps.specs.Layers.{values_of};
ghost use Rattle.layered_maps.specs.PartLists.{AreFull, AreWhole, joined};

use crate::chunk::Chunk;
use std::alloc::{AllocError, Global};
use std::rc::Rc;

/// The list in parts of so many items, and what is left in the last one. The items are moved.
pub fn parted<T: Drop>(
    alloc: Global,
    list: Vec<T>,
    size: usize,
) -> Result<Vec<Rc<Chunk<T>>>, AllocError>
    requires { 0 < size }
    ensures items { IfOk result (λ l. joined (values_of l.items) ≡ list.items) }
    ensures full { IfOk result (λ l. AreFull size (values_of l.items)) }
{
    let mut parts = Vec::with_capacity(alloc, (list.len() / size).saturating_add(1))?;
    let mut last = Vec::new(alloc);
    for item in list {
        last = with_room(alloc, last, size, &mut parts)?;
        last.push(item)?;
    }
    close(alloc, last, &mut parts)?;
    Ok(parts)
}

/// The last part, if it has less than so many items; else it is closed, and an empty one is the last.
fn with_room<T: Drop>(
    alloc: Global,
    last: Vec<T>,
    size: usize,
    parts: &mut Vec<Rc<Chunk<T>>>,
) -> Result<Vec<T>, AllocError>
    requires some { 0 < size }
    requires within { length last.items ≤ size }
    ensures items { IfOk result (λ l. joined (values_of parts.new.items) ++ l.items
        ≡ joined (values_of parts.old.items) ++ last.items) }
    ensures whole { AreWhole size (values_of parts.old.items)
        → OnOk result (AreWhole size (values_of parts.new.items)) }
    ensures room { IfOk result (λ l. length l.items < size) }
{
    if last.len() < size {
        return Ok(last);
    }
    close(alloc, last, parts)?;
    Vec::with_capacity(alloc, size)
}

/// Puts the items behind the other parts.
fn close<T: Drop>(
    alloc: Global,
    items: Vec<T>,
    parts: &mut Vec<Rc<Chunk<T>>>,
) -> Result<(), AllocError>
    ensures { OnOk result (values_of parts.new.items ≡ values_of parts.old.items ++ items.items ∷ []) }
{
    parts.push(Rc::new(alloc, Chunk::of(items))?)?;
    Ok(())
}
