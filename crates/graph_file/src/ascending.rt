//! Lists that ascend.
ghost use Rattle.std.specs.Prelude.{◌≡◌};
ghost use Rattle.std.specs.Ordering.{is_lt};
ghost use Rattle.std.specs.declared.cmp.Ordering.{Ordering};
ghost use Rattle.ordered_lists.specs.Orders.{rises};
ghost use Rattle.road_model.specs.Orders.{name_cmp, names_cmp, way_cmp};
ghost use Rattle.road_model.specs.Format.{place_cmp};

use road_model::laws::name_order;
use road_model::{Block, Context, Names, Piece, TurnArc};

/// What ascends in a graph file.
pub trait Ascending {
    ghost order: { Self → Self → Ordering };

    /// This one comes before the other.
    fn is_below(&self, other: &Self) -> bool
        ensures { result ≡ is_lt (order self.now other.now) };
}

/// By the pieces' names.
impl Ascending for TurnArc {
    ghost order = { λ a b. name_cmp a.piece b.piece };

    fn is_below(&self, other: &TurnArc) -> bool {
        self.piece < other.piece
    }
}

/// By length, and then by names.
impl Ascending for Names {
    ghost order = { names_cmp };

    fn is_below(&self, other: &Names) -> bool {
        name_order();
        let here = self.items();
        let there = other.items();
        here.len().cmp(&there.len()).then(here.cmp(there)).is_lt()
    }
}

/// By the names of the pieces before.
impl Ascending for Context {
    ghost order = { λ a b. names_cmp a.before b.before };

    fn is_below(&self, other: &Context) -> bool {
        self.before.is_below(&other.before)
    }
}

/// By position and direction.
impl Ascending for Piece {
    ghost order = { λ a b. place_cmp a.name b.name };

    fn is_below(&self, other: &Piece) -> bool {
        let here = self.name;
        let there = other.name;
        here.index < there.index || here.index == there.index && here.dir < there.dir
    }
}

/// By way.
impl Ascending for Block {
    ghost order = { λ a b. way_cmp a.way b.way };

    fn is_below(&self, other: &Block) -> bool {
        self.way < other.way
    }
}

/// Each comes before the next.
pub fn do_ascend<T: Ascending>(items: &[T]) -> bool
    ensures { result ≡ rises T.order items.now }
{
    for at in 1..items.len() {
        if !items[at - 1].is_below(&items[at]) {
            return false;
        }
    }
    true
}
