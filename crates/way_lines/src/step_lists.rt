//! Lists of the steps between two positions of a way.
ghost use Rattle.std.specs.Prelude.{◌≡◌, ◌≤◌, ◌+◌, ◌^◌, ◌++◌, length, take, OnOk, OnErr};
ghost use Rattle.road_model.specs.Lines.{steps_from, forward_steps, backward_steps};

use road_base::{Dir, NoMemory, Step, WayId};

/// Adds the steps between the position `from` of the way and the one `count` behind it, in order of travel. Where no
/// memory is found the list is as before.
pub fn add_steps(
    steps: &mut Vec<Step>,
    way: WayId,
    from: u32,
    count: u32,
    dir: Dir,
) -> Result<(), NoMemory>
    requires { from + count ≤ 2 ^ 32 }
    ensures added { OnOk result (steps.new.items ≡ steps.old.items ++ steps_from way from count dir) }
    ensures unchanged { OnErr result (steps.new.items ≡ steps.old.items) }
{
    let before = steps.len();
    let added = match dir {
        Dir::Forward => add_forward(steps, way, from, count),
        Dir::Backward => add_backward(steps, way, from, count),
    };
    if added.is_err() {
        steps.truncate(before);
    }
    added
}

/// Adds the steps along the way.
fn add_forward(steps: &mut Vec<Step>, way: WayId, from: u32, count: u32) -> Result<(), NoMemory>
    requires { from + count ≤ 2 ^ 32 }
    ensures added { OnOk result (steps.new.items ≡ steps.old.items ++ forward_steps way from count) }
    ensures front { take (length steps.old.items) steps.new.items ≡ steps.old.items }
{
    for done in 0..count {
        steps.push(Step {
            way,
            index: from + done,
            dir: Dir::Forward,
        })?;
    }
    Ok(())
}

/// Adds the steps against the way.
fn add_backward(steps: &mut Vec<Step>, way: WayId, from: u32, count: u32) -> Result<(), NoMemory>
    requires { from + count ≤ 2 ^ 32 }
    ensures added { OnOk result (steps.new.items ≡ steps.old.items ++ backward_steps way from count) }
    ensures front { take (length steps.old.items) steps.new.items ≡ steps.old.items }
{
    for done in 0..count {
        steps.push(Step {
            way,
            index: from + (count - done - 1),
            dir: Dir::Backward,
        })?;
    }
    Ok(())
}
