//! Objects with the ways and restrictions that name each of them: the world that everything else looks at.
//!
//! Beside the objects stand lists of references, from nodes to ways, from nodes to restrictions and from ways to
//! restrictions. Each is a `LayeredLists` of `layered_maps`: a floor of pairs in order and without repeats, which never
//! changes and is shared, at 16 bytes a reference; and beside it, for the keys where something has changed since, the
//! whole list that stands in the place of the pairs. These lists lie side by side in memory, in a few runs of which
//! each is many times as large as the one before it. `prepare` finds what events leave, with the lists that change,
//! beside the world, which stays as it is; `Next` is the world that it would be. `commit` drops that world but for its
//! references, which it takes, and hands the change to the objects.
//!
//! Cost. A look-up copies nothing. It asks the lists that have changed first: up to some hundred thousand of them, a
//! test or two tell of most keys where nothing has changed, and for all others each run is searched. Then it asks the
//! pairs, with a step for each reference that it finds. A search takes the logarithm of what is searched: where the
//! numbers are spread evenly, a table of ranges of them leaves a few steps of it. A table takes about two bytes a
//! reference, or a changed list. `of` makes the lists from the entries of ways and of relations alone: with m entries
//! and r references it takes time of the order of (m + r) log (m + r). `prepare` and `apply` take what the objects
//! take, sort the references of the changed ways and relations as they were and as they are, and make the list of each
//! key among them once, in the time of its length times the logarithm of what is gone from it. The lists that change
//! are merged with the first runs, as `layered_maps` says: so each of n keys and values that have come since the
//! objects were made is copied, with eight others, at most once a run, which is of the order of log n times. `copy`
//! takes a few reference counts. `highways` goes over all entries once.
#![tactic(auto)]

mod collecting;
mod exchanged_lists;
mod exchanges;
mod highways;
mod indexed;
mod next;
mod prepared;
mod references;

pub use indexed::Indexed;
pub use next::Next;
pub use prepared::Prepared;
