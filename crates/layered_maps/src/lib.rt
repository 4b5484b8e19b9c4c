//! Maps that change while others hold what they were: a floor of which the parts that are the same are shared, and what
//! has changed beside it.
//!
//! A `LayeredMap` keeps values at keys. Its floor is one list of values, ascending by key, in leaves of 4 or 32 values
//! and branches of 64 leaves, with hints where the numbers of the keys stand. Values that are put at keys of the floor
//! come into it, in the places of those that stood there; what somebody else shares of the floor is copied before, so
//! that nobody who holds the floor as it was sees them, and all other parts stay shared. What else has changed lies
//! over the floor in layers, at most eight runs of entries that are shared by the maps that were made of one another,
//! and a filter by which the map tells most keys at which nothing has changed. `prepare` finds what changes leave,
//! beside the map, which stays as it is but for marks in its filter and for the parts of its floor that it copied;
//! `commit` takes the one for the other without taking memory. A `View` is a map lent, and a `Walk` goes over all
//! values in the order of their keys. `LayeredLists` keep lists of values at keys in the same way; since lists change
//! their length, none of them comes into the floor.
//!
//! Contracts see a map as its pairs of keys and values, ascending by key, and what changes leave as `changed_by` of
//! `specs/Maps.antt`. Keys are to be ordered so that those which tie are equal.
//!
//! Cost. `share` takes a few reference counts and a list of at most eight. A look-up at a key where nothing has changed
//! takes one or two tests in the filter, and then a search in the floor, in one leaf where the numbers of its keys are
//! spread evenly; else each layer is searched. A hostile choice of numbers may mark all slots of the filter, 128 KiB:
//! then each look-up searches all layers. A value that comes into the floor is copied once, and nothing else is where
//! nobody shares the floor. Where somebody does, its leaf is copied, with the other values of that, of which a list of
//! at most 1,048,576 values has three, a longer one 15, and 64 reference counts are taken, once until the map is shared
//! anew; and one for each branch, of which there is one for 256 values or for 1,024. Nothing else takes the time of the
//! floor. `prepare` copies and merges small layers: an entry that stays over the floor is copied, with eight others, at
//! most once for each layer, which is of the order of the logarithm of the number of entries times. What stays in the
//! layers has no place in the floor: values of keys that it doesn't have, keys without a value, and values put again at
//! keys that had none. The filter is made anew where some 2,000 keys, and an eighth as many as there are entries, are
//! marked in it and have none. A walk takes one comparison a step where nothing has changed, and no memory. Making a
//! map of a list moves its values, and takes both their rooms while it does so.
#![tactic(auto)]

mod change;
mod change_lists;
mod changes;
mod chunk;
mod entry_run;
mod filter;
mod floor;
mod items;
mod keyed_search;
mod layered_lists;
mod layered_map;
mod layers;
mod list_layers;
mod list_run;
mod pair_list;
mod part_list;
mod parting;
mod places;
mod prepared;
mod sharing;
mod sinking;
mod trunk;
mod view;
mod walk;

pub use change::Change;
pub use layered_lists::LayeredLists;
pub use layered_map::LayeredMap;
pub use list_run::ListRun;
pub use pair_list::PairList;
pub use prepared::Prepared;
pub use view::View;
pub use walk::Walk;
