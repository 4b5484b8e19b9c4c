//! Runs of entries that maps share, and when one is merged with another.
ghost use Rattle.std.specs.Prelude.{◌≡◌, ◌<◌, ◌∷◌, ◌++◌, IfOk, OnOk, IsFalse};
ghost use Rattle.layered_maps.specs.Layers.{values_of};

use std::alloc::{AllocError, Global};
use std::rc::Rc;

/// What comes is merged with the run behind it, if that is at most so many times as large.
const RATIO: usize = 8;

/// There are at most so many runs.
pub const MOST_RUNS: usize = 8;

/// Whether what comes, of the later size, is merged with the first one of the runs that stand, whose size is this:
/// where that is small, or not much larger than what comes, or where there are as many runs as there may be.
pub fn takes_in(later: usize, first: usize, small: usize, runs: usize) -> bool
    ensures { IsFalse result → runs < 8 }
{
    runs >= MOST_RUNS || first <= small.max(later.saturating_mul(RATIO))
}

/// The same runs, shared.
pub fn shared<R: Drop>(alloc: Global, runs: &[Rc<R>]) -> Result<Vec<Rc<R>>, AllocError>
    ensures { IfOk result (λ l. values_of l.items ≡ values_of runs.now) }
{
    let mut list = Vec::with_capacity(alloc, runs.len())?;
    add_shared(runs, &mut list)?;
    Ok(list)
}

/// The run before these, which are shared.
pub fn stacked<R: Drop>(alloc: Global, first: R, runs: &[Rc<R>]) -> Result<Vec<Rc<R>>, AllocError>
    ensures { IfOk result (λ l. values_of l.items ≡ first ∷ values_of runs.now) }
{
    let mut list = Vec::with_capacity(alloc, runs.len().saturating_add(1))?;
    list.push(Rc::new(alloc, first)?)?;
    add_shared(runs, &mut list)?;
    Ok(list)
}

/// Adds these runs, shared.
pub fn add_shared<R: Drop>(runs: &[Rc<R>], list: &mut Vec<Rc<R>>) -> Result<(), AllocError>
    ensures { OnOk result (values_of list.new.items ≡ values_of list.old.items ++ values_of runs.now) }
{
    for run in runs {
        list.push(run.clone()?)?;
    }
    Ok(())
}
