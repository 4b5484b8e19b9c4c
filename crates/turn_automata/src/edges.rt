//! The edges of a tree of lists, as keys of a hash set.
ghost use Rattle.std.specs.Hash as fed;
ghost use Rattle.std.specs.Prelude.{◌++◌};
ghost use Rattle.road_base.specs.declared.ids.Dir.TheVariants.{Forward};
ghost use Rattle.road_base.specs.contracts.ids.DirPartialEq.TheImpl.{ghosts as dir_equality};
ghost use Rattle.std.specs.Cmp.Rules.{hashing};
ghost use Rattle.std.proofs.Common.{rules};

use road_base::{Dir, Step};
use std::hash::{Hash, Hasher};

/// A step behind the list with the number `from`.
#[derive(Clone, Copy, PartialEq, Eq)]
pub struct Edge {
    pub from: usize,
    pub step: Step,
}

// By hand, since a `Step` can't be hashed.
impl Hash for Edge {
    ghost hash_input = { λ e. fed.usize e.from ++ fed.i64 e.step.way.0 ++ fed.u32 e.step.index
        ++ fed.bool (dir_equality.eq e.step.dir Forward) };

    ghost respects_eq = { Prim.search (hashing, rules) };

    fn hash<H: Hasher>(&self, state: &mut H) {
        self.from.hash(state);
        self.step.way.0.hash(state);
        self.step.index.hash(state);
        (self.step.dir == Dir::Forward).hash(state);
    }
}
