//! Parts of a grid: numbers that follow one another, and squares in columns and rows that do.
ghost use Rattle.std.specs.Prelude.{◌≡◌, ◌↔◌, ◌+◌, ◌-◌, ◌<◌, ◌≤◌, ◌^◌, IsTrue, max, min};
ghost use Rattle.cell_plan.specs.Grids.{in_interval, in_rect, AreHalves, AreQuadrants, width};

/// Numbers that follow one another: from `start` up to `end`, which is behind the last one.
#[derive(Clone, Copy)]
pub struct Interval {
    pub start: u64,
    pub end: u64,
}

/// An interval in two.
#[derive(Clone, Copy)]
pub struct Halves {
    pub low: Interval,
    pub high: Interval,
}

impl Interval {
    /// Whether the number is one of these.
    pub fn has(self, number: u64) -> bool
        ensures { result ≡ in_interval self number }
    {
        self.start <= number && number < self.end
    }

    /// How many these are.
    pub fn len(self) -> u64
        ensures { result ≡ self.end - self.start }
    {
        self.end.saturating_sub(self.start)
    }

    /// These in two, at the middle, rounded down.
    pub fn halves(self) -> Halves
        ensures { AreHalves self result.low result.high }
    {
        let middle = self.start + self.len() / 2;
        Halves {
            low: Interval {
                start: self.start,
                end: middle,
            },
            high: Interval {
                start: middle,
                end: self.end,
            },
        }
    }

    /// These and so many more on both sides, as far as they are within others.
    pub fn grown(self, by: u64, within: Interval) -> Interval
        ensures start { result.start ≡ max (self.start - by) within.start }
        ensures end { within.end < 2 ^ 64 → result.end ≡ min (self.end + by) within.end }
    {
        Interval {
            start: self.start.saturating_sub(by).max(within.start),
            end: self.end.saturating_add(by).min(within.end),
        }
    }
}

/// Squares of a grid: those in both some columns and some rows. Units of 1e-7 degree are squares of a grid too.
#[derive(Clone, Copy)]
pub struct Rect {
    pub columns: Interval,
    pub rows: Interval,
}

/// A rectangle in four.
#[derive(Clone, Copy)]
pub struct Quadrants {
    pub south_west: Rect,
    pub north_west: Rect,
    pub south_east: Rect,
    pub north_east: Rect,
}

impl Rect {
    /// Whether the square with the column and the row is one of these.
    pub fn has(self, column: u64, row: u64) -> bool
        ensures { result ≡ in_rect self column row }
    {
        self.columns.has(column) && self.rows.has(row)
    }

    /// These in four, halved in both directions. The columns of each are fewer if there are more than one.
    pub fn quadrants(self) -> Quadrants
        ensures are { AreQuadrants self result.south_west result.north_west result.south_east result.north_east }
        ensures west { 1 < width self → width result.south_west < width self }
        ensures east { 1 < width self → width result.south_east < width self }
        ensures north_west { width result.north_west ≡ width result.south_west }
        ensures north_east { width result.north_east ≡ width result.south_east }
    {
        let columns = self.columns.halves();
        let rows = self.rows.halves();
        Quadrants {
            south_west: Rect {
                columns: columns.low,
                rows: rows.low,
            },
            north_west: Rect {
                columns: columns.low,
                rows: rows.high,
            },
            south_east: Rect {
                columns: columns.high,
                rows: rows.low,
            },
            north_east: Rect {
                columns: columns.high,
                rows: rows.high,
            },
        }
    }
}
