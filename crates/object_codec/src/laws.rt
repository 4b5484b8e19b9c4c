//! The law of spellings, the contract of a function that does nothing.
ghost use Rattle.std.specs.Prelude.{◌≡◌, List};
ghost use Rattle.road_base.specs.declared.event.Event.{Event};
ghost use Rattle.object_codec.specs.Spelling.{events_bytes, AreEvents};

/// A spelling spells one list of events.
pub fn one_list()
    ensures { (a b : List Event) → AreEvents a → AreEvents b → events_bytes a ≡ events_bytes b → a ≡ b }
{}
