//! A change of objects with the references to each, found and not made yet.
ghost use Rattle.std.specs.Prelude.{◌≡◌};
ghost use Rattle.road_model.specs.Links.{AreChanged};
ghost use Rattle.back_references.specs.Indexing.{IsIndexed};

use crate::indexed::Indexed;
use crate::references::References;
use object_store::Fresh;
use road_base::Keys;
use std::marker::Model;

/// What events leave of objects, with the references to each: contracts see the objects before and after, and the keys
/// whose visible body differs.
#[derive(Drop)]
pub struct Prepared {
    fresh: Fresh,
    next: Indexed,
}

impl Model for Prepared {
    ghost use Rattle.std.specs.Prelude.{◌≡◌};
    ghost use Rattle.object_store.specs.Following.{Following, coded_following};

    ghost Value = { Following };

    ghost coded = { coded_following };

    ghost view = { λ p. p.fresh };

    ghost invariant = { λ p. p.next ≡ p.fresh.after };
}

impl Prepared {
    pub(crate) fn new(fresh: Fresh, next: Indexed) -> Prepared
        requires { next ≡ fresh.after }
        ensures { result ≡ fresh }
    {
        Prepared { fresh, next }
    }

    /// The keys whose visible body differs, ascending.
    pub fn keys(&self) -> &Keys
        ensures keys { result.now ≡ self.now.keys }
        ensures differ { AreChanged self.now.before self.now.after self.now.keys }
    {
        self.fresh.keys()
    }

    /// The objects after.
    pub(crate) fn next(&self) -> &Indexed
        ensures { result.now ≡ self.now.after }
    {
        &self.next
    }

    /// The change of the objects, and the references behind it. Takes no memory: the objects after are dropped, so that
    /// they share nothing with those that change.
    pub(crate) fn into_parts(self) -> (Fresh, References)
        ensures fresh { result.0 ≡ self }
        ensures references { IsIndexed self.after result.1 }
    {
        (self.fresh, self.next.into_references())
    }
}
