//! What an input is.

/// What lines are read: those of an extract, or those of a change, where each object's line has a version.
#[derive(Clone, Copy, PartialEq, Eq, Debug)]
pub enum Mode {
    Extract,
    Change,
}
