//! How many places lie in squares of a grid.
ghost use Rattle.std.specs.Prelude.{◌≡◌, ◌+◌, ◌<◌, ℕ, Bool, IfSome, IfOk, true};
ghost use Rattle.std.specs.List.{filter};
ghost use Rattle.cell_plan.specs.Grids.{in_rect, is_near};

use crate::intervals::Rect;
use road_base::NoMemory;
use std::alloc::Global;

/// How many places lie in a square of a grid.
#[derive(Clone, Copy)]
pub struct Tally {
    pub column: u32,
    pub row: u32,
    pub count: u64,
}

impl Tally {
    ghost use Rattle.cell_plan.specs.Sums.{weight};

    /// This one and another one of the same square as one tally. None where they are of different squares, or where the
    /// sum doesn't fit.
    pub fn with(self, other: Tally) -> Option<Tally>
        ensures { IfSome result (λ t. (wanted : ℕ → ℕ → Bool)
            → weight wanted t ≡ weight wanted self + weight wanted other) }
    {
        if self.column != other.column || self.row != other.row {
            return None;
        }
        let count = self.count.checked_add(other.count)?;
        Some(Tally {
            column: self.column,
            row: self.row,
            count,
        })
    }

    /// Whether its square is one of these.
    pub fn is_in(self, squares: Rect) -> bool
        ensures { result ≡ in_rect squares self.column self.row }
    {
        squares.has(u64::from(self.column), u64::from(self.row))
    }

    /// Whether its square is one of the square's, or one of those that are touched.
    pub fn is_near(self, square: Rect, touched: Rect) -> bool
        ensures { result ≡ is_near square touched self.column self.row }
    {
        self.is_in(square) || self.is_in(touched)
    }
}
