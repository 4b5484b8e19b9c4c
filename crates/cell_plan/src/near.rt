//! The tallies near a square, and what they sum up to.
ghost use Rattle.std.specs.Prelude.{◌≡◌, ◌+◌, IfOk, IfSome};
ghost use Rattle.cell_plan.specs.Grids.{in_rect, is_near};
ghost use Rattle.cell_plan.specs.Sums.{tallied};
ghost use Rattle.cell_plan.specs.Dividing.{KeepsNear};
ghost use Rattle.cell_plan.specs.declared.intervals.Rect.{Rect as RectValue};

use crate::intervals::Rect;
use crate::sums::Tally;
use road_base::NoMemory;
use std::alloc::Global;

/// How many tallies, and how many places they sum up to.
#[derive(Clone, Copy)]
pub struct Amount {
    pub tallies: usize,
    pub places: u64,
}

impl Amount {
    /// One tally more. No memory is found where the sum doesn't fit.
    fn with(self, tally: Tally) -> Result<Amount, NoMemory>
        ensures { IfOk result (λ a. a.places ≡ self.places + tally.count) }
    {
        let places = plus(self.places, tally.count)?;
        Ok(Amount {
            tallies: self.tallies.saturating_add(1),
            places,
        })
    }
}

/// What the tallies of these squares sum up to. No memory is found where the sum doesn't fit.
pub fn total_in(tallies: &[Tally], squares: Rect) -> Result<u64, NoMemory>
    ensures { IfOk result (λ sum. sum ≡ tallied (in_rect squares) tallies.now) }
{
    let mut sum: u64 = 0;
    for tally in tallies {
        if tally.is_in(squares) {
            sum = plus(sum, tally.count)?;
        }
    }
    Ok(sum)
}

/// How many the tallies are that are of one of the square's squares, or of those that are touched, and what they sum up
/// to. No memory is found where the sum doesn't fit.
pub fn amount_near(tallies: &[Tally], square: Rect, touched: Rect) -> Result<Amount, NoMemory>
    ensures { IfOk result (λ near. near.places ≡ tallied (is_near square touched) tallies.now) }
{
    let mut near = Amount {
        tallies: 0,
        places: 0,
    };
    for tally in tallies {
        if tally.is_near(square, touched) {
            near = near.with(*tally)?;
        }
    }
    Ok(near)
}

/// The tallies that are of one of the square's squares, or of those that are touched, which are so many. None where
/// that leaves out fewer than an eighth of them.
pub fn thinned(
    alloc: Global,
    tallies: &[Tally],
    square: Rect,
    touched: Rect,
    count: usize,
) -> Result<Option<Vec<Tally>>, NoMemory>
    ensures { IfOk result (λ list. IfSome list (λ near. KeepsNear square touched tallies.now near.items)) }
{
    if count > tallies.len() - tallies.len() / 8 {
        return Ok(None);
    }
    let near = tallies_near(alloc, tallies, square, touched, count)?;
    Ok(Some(near))
}

/// The tallies that were thinned, or all of them.
pub fn chosen<'a>(thinned: &'a Option<Vec<Tally>>, all: &'a [Tally]) -> &'a [Tally]
    ensures { (square touched : RectValue)
        → IfSome thinned.now (λ near. KeepsNear square touched all.now near.items)
        → KeepsNear square touched all.now result.now }
{
    match thinned {
        Some(near) => near.as_slice(),
        None => all,
    }
}

/// The tallies that are of one of the square's squares, or of those that are touched. Memory for so many is taken at
/// once.
fn tallies_near(
    alloc: Global,
    tallies: &[Tally],
    square: Rect,
    touched: Rect,
    count: usize,
) -> Result<Vec<Tally>, NoMemory>
    ensures { IfOk result (λ near. KeepsNear square touched tallies.now near.items) }
{
    let mut near = Vec::with_capacity(alloc, count)?;
    for tally in tallies {
        if tally.is_near(square, touched) {
            near.push(*tally)?;
        }
    }
    Ok(near)
}

/// The sum of two counts. No memory is found where it doesn't fit: no input has so many places.
fn plus(sum: u64, count: u64) -> Result<u64, NoMemory>
    ensures { IfOk result (λ s. s ≡ sum + count) }
{
    sum.checked_add(count).ok_or(NoMemory)
}
