//! The events of one kind in a list in key order.
ghost use Rattle.std.specs.Prelude.{◌≡◌, filter};
ghost use Rattle.object_store.specs.Listed.{IsInOrder, is_way, is_relation};

use road_base::laws::key_order;
use road_base::{Event, Key};

/// The events of ways in a list in key order. Takes the time of two searches.
pub fn ways_in(list: &[Event]) -> &[Event]
    requires { IsInOrder list.now }
    ensures ways { result.now ≡ filter (λ e. is_way e.key) list.now }
    ensures in_order { IsInOrder result.now }
{
    key_order();
    let from = list.partition_point(|event| matches!(event.key, Key::Node(_)));
    let others = &list[from..];
    let count = others.partition_point(|event| !matches!(event.key, Key::Relation(_)));
    &others[..count]
}

/// The events of relations in a list in key order. Takes the time of a search.
pub fn relations_in(list: &[Event]) -> &[Event]
    requires { IsInOrder list.now }
    ensures relations { result.now ≡ filter (λ e. is_relation e.key) list.now }
    ensures in_order { IsInOrder result.now }
{
    key_order();
    let from = list.partition_point(|event| !matches!(event.key, Key::Relation(_)));
    &list[from..]
}
