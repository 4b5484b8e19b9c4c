//! Lists of ways that ascend.
ghost use Rattle.std.specs.Prelude.{◌≡◌, Some, None, IfSome, IfNone, IsTrue};
ghost use Rattle.ordered_lists.specs.Orders.{rises, rises_from};
ghost use Rattle.road_model.specs.Orders.{way_cmp};
ghost use Rattle.cells.specs.Commands.{some_ascending};

use road_base::WayId;
use std::marker::Model;

/// Numbers of ways, each below the next. Contracts see the list.
#[derive(Drop)]
pub struct AscendingWays {
    list: Vec<WayId>,
}

impl Model for AscendingWays {
    ghost use Rattle.std.specs.Prelude.{List, IsTrue};
    ghost use Rattle.road_base.specs.declared.ids.WayId.{WayId};
    ghost use Rattle.ordered_lists.specs.Orders.{rises};
    ghost use Rattle.road_model.specs.Orders.{way_cmp};

    ghost Value = { List WayId };

    ghost view = { λ l. l.list.items };

    ghost invariant = { λ l. IsTrue (rises way_cmp l.list.items) };
}

impl AscendingWays {
    /// These ways. None exactly where there are none, or where one isn't below the next.
    pub fn new(list: Vec<WayId>) -> Option<AscendingWays>
        ensures some { IfSome result (λ ways. some_ascending list.items ≡ Some ways) }
        ensures none { IfNone result (some_ascending list.items ≡ None) }
    {
        if !list.is_empty() && ascend(&list) {
            Some(AscendingWays { list })
        } else {
            None
        }
    }

    /// In their order.
    pub fn items(&self) -> &[WayId]
        ensures items { result.now ≡ self.now }
        ensures ascending { IsTrue (rises way_cmp self.now) }
    {
        self.list.as_slice()
    }
}

/// Whether each way is below the next.
fn ascend(ways: &[WayId]) -> bool
    ensures { result ≡ rises way_cmp ways.now }
{
    match ways {
        [] => true,
        [first, rest @ ..] => ascend_from(*first, rest),
    }
}

/// The same of ways behind this one.
fn ascend_from(first: WayId, rest: &[WayId]) -> bool
    ensures { result ≡ rises_from way_cmp first rest.now }
{
    let mut last = first;
    for way in rest {
        if !last.cmp(way).is_lt() {
            return false;
        }
        last = *way;
    }
    true
}
