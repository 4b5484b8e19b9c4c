//! Where the value of a key stands in a list that ascends by key.
ghost use Rattle.std.specs.Prelude.{◌≡◌, ◌<◌, None, length, map, option_copied, IfOk, IfErr, IfSome, IfNone, IsTrue};
ghost use Rattle.std.specs.Prelude.{◌≤◌, true, false, slice_index_or};
ghost use Rattle.std.specs.FinMap.{IsAntisymmetric, find};
ghost use Rattle.std.specs.List.{HoldsAt, AllWithin};
ghost use Rattle.std.specs.List.Sorted.{IsPartitionedBy, IsPartitionPoint, IsSearchInRange};
ghost use Rattle.std.specs.Ordering.{is_eq, is_lt};
ghost use Rattle.std.specs.declared.cmp.Ordering.TheVariants.{Less, Greater};
ghost use Rattle.ordered_lists.specs.Orders.{rises};
ghost use Rattle.layered_maps.specs.Maps.{from_key, keyed};

use crate::chunk::item_at;
use crate::items::{Items, Rest};
use crate::places::first_from;
use ordered_lists::{Keyed, Numbered};

/// Where the key's value stands in the list, or else where it would stand. Takes the time of a search.
fn find_key<K: Ord + Copy, V: Keyed<K>>(list: &Items<'_, V>, key: K) -> Result<usize, usize>
    requires ascending { IsTrue (rises K.cmp (map V.key list.now)) }
    requires exact { IsAntisymmetric K.cmp }
    ensures within { IsSearchInRange result (length list.now) }
    ensures found { IfOk result (HoldsAt (λ v. V.key v ≡ key) list.now) }
    ensures below { IfErr result (AllWithin (λ v. K.cmp (V.key v) key ≡ Less) list.now 0) }
    ensures behind { IfErr result (λ at. AllWithin (λ v. K.cmp (V.key v) key ≡ Greater) list.now at (length list.now)) }
{
    let at = count_below(list, key);
    if at == list.len() {
        return Err(at);
    }
    if has_at(list, at, key) {
        Ok(at)
    } else {
        Err(at)
    }
}

/// Whether the value at the position is that of the key.
fn has_at<K: Ord + Copy, V: Keyed<K>>(list: &Items<'_, V>, at: usize, key: K) -> bool
    requires { at < length list.now }
    ensures { (d : V) → result ≡ is_eq (K.cmp (V.key (slice_index_or list.now at d)) key) }
{
    match list.get(at) {
        Some(value) => value.key().cmp(&key).is_eq(),
        None => false,
    }
}

/// The same. It looks first whether the key's value stands at this position, or else would.
fn find_near<K: Ord + Copy, V: Keyed<K>>(
    list: &Items<'_, V>,
    key: K,
    at: usize,
) -> Result<usize, usize>
    requires ascending { IsTrue (rises K.cmp (map V.key list.now)) }
    requires exact { IsAntisymmetric K.cmp }
    ensures within { IsSearchInRange result (length list.now) }
    ensures found { IfOk result (HoldsAt (λ v. V.key v ≡ key) list.now) }
    ensures below { IfErr result (AllWithin (λ v. K.cmp (V.key v) key ≡ Less) list.now 0) }
    ensures behind { IfErr result (λ at. AllWithin (λ v. K.cmp (V.key v) key ≡ Greater) list.now at (length list.now)) }
{
    match list.get(at) {
        Some(value) if is_at(value, key) => Ok(at),
        Some(value) if is_above(value, key) && are_below(list, at, key) => Err(at),
        _ => find_key(list, key),
    }
}

/// The position of the key's value, and None exactly where the list has none. It most often is this one.
pub fn place_near<K: Ord + Copy, V: Keyed<K>>(
    list: &Items<'_, V>,
    key: K,
    at: usize,
) -> Option<usize>
    requires ascending { IsTrue (rises K.cmp (map V.key list.now)) }
    requires exact { IsAntisymmetric K.cmp }
    ensures within { IfSome result (λ i. i < length list.now) }
    ensures found { IfSome result (HoldsAt (λ v. V.key v ≡ key) list.now) }
    ensures none { IfNone result (find K.cmp key (map (keyed V.key) list.now) ≡ None) }
{
    match find_near(list, key, at) {
        Ok(place) => Some(place),
        Err(_) => None,
    }
}

/// The position between these two, or behind them in the list, at which a value of this number may stand: a hint,
/// without a promise.
pub fn place_between<T: Numbered + Drop>(
    list: &Items<'_, T>,
    number: i64,
    part: (usize, usize),
) -> usize {
    let (from, to) = part;
    from.saturating_add(first_from(list.run(from), number, to.saturating_sub(from)))
}

/// The value of the key, and None exactly where the list has none. It most often is of this number, and stands between
/// these two positions.
pub fn value_between<'a, K: Ord + Copy, V: Keyed<K>>(
    list: &Items<'a, V>,
    key: K,
    number: i64,
    part: (usize, usize),
) -> Option<&'a V>
    requires ascending { IsTrue (rises K.cmp (map V.key list.now)) }
    requires exact { IsAntisymmetric K.cmp }
    ensures { option_copied result ≡ find K.cmp key (map (keyed V.key) list.now) }
{
    let (from, to) = part;
    let run = list.run(from);
    let at = first_from(run, number, to.saturating_sub(from));
    match item_at(run, at) {
        Some(value) if is_at(value, key) => Some(value),
        _ => value_near(list, key, from.saturating_add(at)),
    }
}

/// The value of the key, and None exactly where the list has none. It most often stands at this position.
fn value_near<'a, K: Ord + Copy, V: Keyed<K>>(
    list: &Items<'a, V>,
    key: K,
    at: usize,
) -> Option<&'a V>
    requires ascending { IsTrue (rises K.cmp (map V.key list.now)) }
    requires exact { IsAntisymmetric K.cmp }
    ensures { option_copied result ≡ find K.cmp key (map (keyed V.key) list.now) }
{
    match place_near(list, key, at) {
        Some(place) => list.get(place),
        None => None,
    }
}

/// All values.
pub fn all_values<'a, K: Ord + Copy, V: Keyed<K>>(list: &Items<'a, V>) -> Rest<'a, V>
    requires { IsTrue (rises K.cmp (map V.key list.now)) }
    ensures ascending { IsTrue (rises K.cmp (map V.key result)) }
    ensures values { result ≡ list.now }
{
    Rest::of(list.again(), 0)
}

/// The values of keys that aren't below this one. Takes the time of a search.
pub fn values_from<'a, K: Ord + Copy, V: Keyed<K>>(list: &Items<'a, V>, key: K) -> Rest<'a, V>
    requires { IsTrue (rises K.cmp (map V.key list.now)) }
    ensures ascending { IsTrue (rises K.cmp (map V.key result)) }
    ensures values { map (keyed V.key) result ≡ from_key K.cmp key (map (keyed V.key) list.now) }
{
    Rest::of(list.again(), count_below(list, key))
}

/// How many values of lower keys there are. Takes the time of a search.
fn count_below<K: Ord + Copy, V: Keyed<K>>(list: &Items<'_, V>, key: K) -> usize
    requires { IsPartitionedBy (λ v. is_lt (K.cmp (V.key v) key)) list.now }
    ensures point { IsPartitionPoint (λ v. is_lt (K.cmp (V.key v) key) ≡ true)
        (λ v. is_lt (K.cmp (V.key v) key) ≡ false) list.now result }
    ensures bound { result ≤ length list.now }
{
    let mut low = 0;
    let mut high = list.len();
    while low < high {
        let middle = low + (high - low) / 2;
        if is_below_at(list, middle, key) {
            low = middle + 1;
        } else {
            high = middle;
        }
    }
    low
}

/// Whether the value at the position is that of a lower key.
fn is_below_at<K: Ord + Copy, V: Keyed<K>>(list: &Items<'_, V>, at: usize, key: K) -> bool
    requires { at < length list.now }
    ensures { (d : V) → result ≡ is_lt (K.cmp (V.key (slice_index_or list.now at d)) key) }
{
    match list.get(at) {
        Some(value) => value.key().cmp(&key).is_lt(),
        None => false,
    }
}

/// Whether the values before the position, which is one of the list, are those of lower keys.
fn are_below<K: Ord + Copy, V: Keyed<K>>(list: &Items<'_, V>, at: usize, key: K) -> bool
    requires ascending { IsTrue (rises K.cmp (map V.key list.now)) }
    requires within { at < length list.now }
    ensures { IsTrue result → AllWithin (λ v. K.cmp (V.key v) key ≡ Less) list.now 0 at }
{
    match at.checked_sub(1) {
        Some(before) => is_below_at(list, before, key),
        None => true,
    }
}

/// Whether the value is that of the key.
fn is_at<K: Ord + Copy, V: Keyed<K>>(value: &V, key: K) -> bool
    requires { IsAntisymmetric K.cmp }
    ensures { IsTrue result → V.key value.now ≡ key }
{
    value.key().cmp(&key).is_eq()
}

/// Whether the value is that of a higher key.
fn is_above<K: Ord + Copy, V: Keyed<K>>(value: &V, key: K) -> bool
    ensures { IsTrue result → K.cmp (V.key value.now) key ≡ Greater }
{
    value.key().cmp(&key).is_gt()
}
