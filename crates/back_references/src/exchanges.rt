//! Lists of values without those that are gone, and with those that came.
ghost use Rattle.std.specs.Prelude.{◌≡◌, ◌↔◌, ◌⊎◌, ◌++◌, IfOk, OnOk, IsTrue, Contains, map};
ghost use Rattle.std.specs.FinMap.{IsAntisymmetric};
ghost use Rattle.ordered_lists.specs.Orders.{rises};

use ordered_lists::leave_once;
use road_base::NoMemory;
use std::alloc::Global;

/// The keys of the pairs, each once, ascending.
pub fn keys_of<K: Ord + Copy, V: Copy>(
    alloc: Global,
    gone: &[(K, V)],
    come: &[(K, V)],
) -> Result<Vec<K>, NoMemory>
    requires { IsAntisymmetric K.cmp }
    ensures gone { IfOk result (λ keys. (p : K × V) → Contains gone.now p → Contains keys.items p.0) }
    ensures come { IfOk result (λ keys. (p : K × V) → Contains come.now p → Contains keys.items p.0) }
    ensures ascending { IfOk result (λ keys. IsTrue (rises K.cmp keys.items)) }
{
    let mut keys = Vec::new(alloc);
    add_keys(gone, &mut keys)?;
    add_keys(come, &mut keys)?;
    leave_once(&mut keys);
    Ok(keys)
}

/// Puts the keys of the pairs behind the list's.
fn add_keys<K: Copy, V: Copy>(pairs: &[(K, V)], keys: &mut Vec<K>) -> Result<(), NoMemory>
    ensures { OnOk result (keys.new.items ≡ keys.old.items ++ map (λ p. p.0) pairs.now) }
{
    for pair in pairs {
        keys.push(pair.0)?;
    }
    Ok(())
}

/// The values without those that are gone, with those that came, each once, ascending. Takes the time of a search
/// among those that are gone for each value.
pub fn exchanged_values<V: Ord + Copy>(
    alloc: Global,
    values: &[V],
    gone: &[V],
    come: &[V],
) -> Result<Vec<V>, NoMemory>
    requires exact { IsAntisymmetric V.cmp }
    requires gone { IsTrue (rises V.cmp gone.now) }
    ensures ascending { IfOk result (λ r. IsTrue (rises V.cmp r.items)) }
    ensures exactly { IfOk result (λ r. (v : V)
        → Contains r.items v ↔ ((Contains values.now v × ¬ (Contains gone.now v)) ⊎ Contains come.now v)) }
{
    let mut list = others(alloc, values, gone)?;
    add_values(come, &mut list)?;
    leave_once(&mut list);
    Ok(list)
}

/// The values that aren't gone.
fn others<V: Ord + Copy>(alloc: Global, values: &[V], gone: &[V]) -> Result<Vec<V>, NoMemory>
    requires exact { IsAntisymmetric V.cmp }
    requires gone { IsTrue (rises V.cmp gone.now) }
    ensures { IfOk result (λ r. (v : V) → Contains r.items v ↔ (Contains values.now v × ¬ (Contains gone.now v))) }
{
    let mut list = Vec::with_capacity(alloc, values.len())?;
    for value in values {
        add_other(&mut list, *value, gone)?;
    }
    Ok(list)
}

/// Puts the value behind the list's, unless it is gone.
fn add_other<V: Ord + Copy>(list: &mut Vec<V>, value: V, gone: &[V]) -> Result<(), NoMemory>
    requires exact { IsAntisymmetric V.cmp }
    requires gone { IsTrue (rises V.cmp gone.now) }
    ensures { OnOk result ((v : V) → Contains list.new.items v
        ↔ (Contains list.old.items v ⊎ ((v ≡ value) × ¬ (Contains gone.now value)))) }
{
    if is_among(gone, value) {
        return Ok(());
    }
    list.push(value)?;
    Ok(())
}

/// Whether the value is one of these, which ascend.
fn is_among<V: Ord + Copy>(values: &[V], value: V) -> bool
    requires exact { IsAntisymmetric V.cmp }
    requires ascending { IsTrue (rises V.cmp values.now) }
    ensures { IsTrue result ↔ Contains values.now value }
{
    values.binary_search(&value).is_ok()
}

/// Puts the values behind the list's.
fn add_values<V: Copy>(values: &[V], list: &mut Vec<V>) -> Result<(), NoMemory>
    ensures { OnOk result (list.new.items ≡ list.old.items ++ values.now) }
{
    for value in values {
        list.push(*value)?;
    }
    Ok(())
}

/// Whether both lists have the same values, in the same order.
pub fn same_values<V: Ord>(these: &[V], those: &[V]) -> bool
    requires { IsAntisymmetric V.cmp }
    ensures { IsTrue result ↔ (these.now ≡ those.now) }
{
    if these.len() != those.len() {
        return false;
    }
    for at in 0..these.len() {
        if !these[at].cmp(&those[at]).is_eq() {
            return false;
        }
    }
    true
}
