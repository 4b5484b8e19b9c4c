//! Laws of keys, of what events leave of an object map, and of histories, each the contract of a function that does
//! nothing.
ghost use Rattle.std.specs.Prelude.{◌≡◌, ◌+◌, List, ◌++◌};
ghost use Rattle.std.specs.Cmp.{IsTotalOrder};
ghost use Rattle.std.specs.Ordering.{eq_by_cmp};
ghost use Rattle.std.specs.FinMap.{IsAntisymmetric};
ghost use Rattle.road_base.specs.Applying.{IsApplied};
ghost use Rattle.road_base.specs.Objects.{Objects, key_cmp};
ghost use Rattle.road_base.specs.History.{History, HasObjects, SameForReader, kept, with_change};
ghost use Rattle.road_base.specs.declared.event.Event.{Event};
ghost use Rattle.road_base.specs.declared.ids.Key.{Key};

/// Keys stand in a total order, in which only equal keys tie. `cmp` compares keys so, and `==` finds equal keys.
pub fn key_order()
    ensures total { IsTotalOrder key_cmp }
    ensures ties { IsAntisymmetric key_cmp }
    ensures by_cmp { (a b : Key) → ⟦<crate::Key as Ord>⟧.cmp a b ≡ key_cmp a b }
    ensures by_eq { (a b : Key) → ⟦<crate::Key as PartialEq>⟧.eq a b ≡ eq_by_cmp key_cmp a b }
{}

/// Events leave at most one map of a map.
pub fn one_map()
    ensures { (M N O : Objects) (events : List Event)
        → IsApplied M events N
        → IsApplied M events O
        → N ≡ O }
{}

/// Events leave some map of every map.
pub fn applied_stands()
    ensures { (M : Objects) (events : List Event) → (N : Objects) × IsApplied M events N }
{}

/// Events that come in turn leave what they leave when they come at once.
pub fn applied_in_turn()
    ensures { (M N O : Objects) (first second : List Event)
        → IsApplied M first N
        → IsApplied N second O
        → IsApplied M (first ++ second) O }
{}

/// A history has one object map and no other. One more change is applied to the objects, and raises the kept number by
/// one. Histories of one profile with the same kept number that share an object map are the same for a reader.
pub fn history_objects()
    ensures some { (h : History) → (M : Objects) × HasObjects h M }
    ensures one { (h : History) (M N : Objects) → HasObjects h M → HasObjects h N → M ≡ N }
    ensures grows { (h : History) (change : List Event) (M N : Objects)
        → HasObjects h M
        → IsApplied M change N
        → HasObjects (with_change h change) N }
    ensures counts { (h : History) (change : List Event) → kept (with_change h change) ≡ kept h + 1 }
    ensures same { (g h : History) (M : Objects)
        → g.profile ≡ h.profile
        → kept g ≡ kept h
        → HasObjects g M
        → HasObjects h M
        → SameForReader g h }
{}
