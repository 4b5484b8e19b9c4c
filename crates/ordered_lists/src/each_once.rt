//! Lists that hold each value once.
ghost use Rattle.std.specs.Prelude.{◌↔◌, IsTrue, Contains};
ghost use Rattle.std.specs.FinMap.{IsAntisymmetric};
ghost use Rattle.ordered_lists.specs.Orders.{rises};

/// Sorts the values, and leaves each of them once, in the time of the sort.
pub fn leave_once<T: Ord + Copy>(list: &mut Vec<T>)
    requires { IsAntisymmetric T.cmp }
    ensures ascending { IsTrue (rises T.cmp list.new.items) }
    ensures exactly { (x : T) → Contains list.new.items x ↔ Contains list.old.items x }
{
    list.sort_unstable();
    list.dedup();
}
