//! Laws of what an input gives, each the contract of a function that does nothing.
ghost use Rattle.std.specs.Prelude.{◌≡◌, List, ℕ};
ghost use Rattle.road_base.specs.declared.event.Event.{Event};
ghost use Rattle.opl_lexer.specs.declared.mode.Mode.{Mode};
ghost use Rattle.opl_lexer.specs.Reading.{ReadAll};

/// An input gives at most one list of events.
pub fn one_reading()
    ensures { (mode : Mode) (bytes : List ℕ) (events others : List Event)
        → ReadAll mode bytes events
        → ReadAll mode bytes others
        → events ≡ others }
{}
