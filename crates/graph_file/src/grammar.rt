//! The grammars of graph files.
ghost use Rattle.std.specs.Prelude.{◌≡◌, Bool, true, false};

use std::marker::PhantomData;

/// What is in a graph file of a version.
pub trait Grammar {
    ghost sourced: { Bool };

    /// A piece shows its mark, and a context its sources.
    fn is_sourced() -> bool
        ensures { result ≡ sourced };
}

/// Neither marks nor sources: version 1.
pub struct Plain;

/// Marks and sources: version 2.
pub struct Sourced;

impl Grammar for Plain {
    ghost sourced = { false };

    fn is_sourced() -> bool {
        false
    }
}

impl Grammar for Sourced {
    ghost sourced = { true };

    fn is_sourced() -> bool {
        true
    }
}

/// The format of a graph file of this grammar.
pub struct GraphFile<G> {
    grammar: PhantomData<G>,
}
