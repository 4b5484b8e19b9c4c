//! The objects of a map, one event for each entry, which changes follow.
//!
//! Contracts see the object map of `road_base/specs/Objects.antt`. `Base` is a list of the entries in key order, which
//! never changes. `Objects` keeps the events in a `LayeredMap` of `layered_maps`, each at its key: a list that doesn't
//! change while it is shared, and what has changed since in a few layers over it. So `copy` takes a moment, whatever
//! their size. `prepare` finds what events leave, beside the objects, which stay as they are; `commit` exchanges the
//! objects, and where nobody else shares the list, as where the copies made of these objects are gone, what changed at
//! keys that stand in it comes in the place of the entries there.
//!
//! Cost. `of` sorts, in time of the order of n log n, and of n where events come in key order. A look-up, a change and
//! what it keeps take what `layered_maps` says. `changed`, `prepare` and `apply` copy and sort their n events, and look
//! each one up; those that stand are put into the map at once. `commit` takes a look-up for each entry that comes in
//! the place of another, and no memory. `walk` goes over all entries without copying; `listed` and `events` copy them.
#![tactic(auto)]

mod base;
mod changes;
mod fresh;
mod kinds;
mod objects;
mod standing;

pub use base::Base;
pub use fresh::Fresh;
pub use objects::Objects;
