//! Lists of values at keys, without the pairs that are gone, and with those that came.
ghost use Rattle.std.specs.Prelude.{◌≡◌, ◌↔◌, ◌⊎◌, ◌++◌, ◌∷◌, [], List, IfOk, OnOk, IsTrue, Contains};
ghost use Rattle.std.specs.FinMap.{IsAntisymmetric};
ghost use Rattle.std.specs.declared.cmp.Ordering.TheVariants.{Less};
ghost use Rattle.ordered_lists.specs.Orders.{rises};
ghost use Rattle.layered_maps.specs.Lists.{Ascend, Has};
ghost use Rattle.back_references.specs.Exchanges.{IsExchanged, IsExchangedAt, Stays};

use crate::exchanges::{exchanged_values, keys_of, same_values};
use layered_maps::{LayeredLists, ListRun, PairList};
use ordered_lists::{Numbered, Slotted};
use road_base::NoMemory;
use std::alloc::Global;

/// What is left without the pairs that are gone, with those that came. Takes the time of the pairs' sort, and of the
/// lists of their keys, each gone through once; and where any of these lists change, that of a merge with the lists
/// that changed before. What is held stays the same; the keys of the lists that change are marked in it.
pub fn exchanged<K: Ord + Copy + Numbered + Slotted, V: Ord + Copy + Drop>(
    alloc: Global,
    held: &mut LayeredLists<K, V>,
    gone: Vec<(K, V)>,
    come: Vec<(K, V)>,
) -> Result<LayeredLists<K, V>, NoMemory>
    requires keys { IsAntisymmetric K.cmp }
    requires values { IsAntisymmetric V.cmp }
    ensures same { held.new ≡ held.old }
    ensures exchanged { IfOk result (λ i. IsExchanged K.cmp held.old gone.items come.items i) }
{
    let keys = keys_of(alloc, gone.as_slice(), come.as_slice())?;
    exchanged_among(alloc, held, keys.as_slice(), gone, come)
}

/// The same, where the keys of the pairs are among these, which ascend.
fn exchanged_among<K: Ord + Copy + Numbered + Slotted, V: Ord + Copy + Drop>(
    alloc: Global,
    held: &mut LayeredLists<K, V>,
    keys: &[K],
    gone: Vec<(K, V)>,
    come: Vec<(K, V)>,
) -> Result<LayeredLists<K, V>, NoMemory>
    requires keys { IsAntisymmetric K.cmp }
    requires values { IsAntisymmetric V.cmp }
    requires ascending { IsTrue (rises K.cmp keys.now) }
    requires gone { (p : K × V) → Contains gone.items p → Contains keys.now p.0 }
    requires come { (p : K × V) → Contains come.items p → Contains keys.now p.0 }
    ensures same { held.new ≡ held.old }
    ensures exchanged { IfOk result (λ i. IsExchanged K.cmp held.old gone.items come.items i) }
{
    let gone = PairList::of(alloc, gone)?;
    let come = PairList::of(alloc, come)?;
    let lists = lists_after(alloc, held, keys, &gone, &come)?;
    let after = held.with(lists)?;
    Ok(after)
}

/// The lists of the keys at which values go or come, as they are then.
fn lists_after<K: Ord + Copy + Numbered + Slotted, V: Ord + Copy + Drop>(
    alloc: Global,
    held: &LayeredLists<K, V>,
    keys: &[K],
    gone: &PairList<K, V>,
    come: &PairList<K, V>,
) -> Result<ListRun<K, V>, NoMemory>
    requires keys { IsAntisymmetric K.cmp }
    requires values { IsAntisymmetric V.cmp }
    requires ascending { IsTrue (rises K.cmp keys.now) }
    ensures ascend { IfOk result (λ l. Ascend K.cmp V.cmp l) }
    ensures exactly { IfOk result (λ l.
        IsExchangedAt K.cmp keys.now held.now gone.now come.now (held.now.0, l ++ held.now.1)) }
{
    let mut lists = ListRun::new(alloc);
    for key in keys {
        add_list(alloc, held, *key, gone, come, &mut lists)?;
    }
    Ok(lists)
}

/// Adds the list of the key as well, if values go or come there. The key is above those of the other lists.
fn add_list<K: Ord + Copy + Numbered + Slotted, V: Ord + Copy + Drop>(
    alloc: Global,
    held: &LayeredLists<K, V>,
    key: K,
    gone: &PairList<K, V>,
    come: &PairList<K, V>,
    lists: &mut ListRun<K, V>,
) -> Result<(), NoMemory>
    requires keys { IsAntisymmetric K.cmp }
    requires values { IsAntisymmetric V.cmp }
    requires above { (p : K × List V) → Contains lists.old p → K.cmp p.0 key ≡ Less }
    ensures ascend { OnOk result (Ascend K.cmp V.cmp lists.old → Ascend K.cmp V.cmp lists.new) }
    ensures keys { OnOk result ((p : K × List V) → Contains lists.new p → Contains lists.old p ⊎ (p.0 ≡ key)) }
    ensures exactly { OnOk result ((keys : List K)
        → IsExchangedAt K.cmp keys held.now gone.now come.now (held.now.0, lists.old ++ held.now.1)
        → IsExchangedAt K.cmp (keys ++ key ∷ []) held.now gone.now come.now (held.now.0, lists.new ++ held.now.1)) }
{
    let values = values_after(alloc, held, key, gone, come)?;
    if same_values(values.as_slice(), held.at(key)) {
        return Ok(());
    }
    lists.push(key, values.as_slice())?;
    Ok(())
}

/// The values of the key without those that are gone, with those that came, ascending.
fn values_after<K: Ord + Copy + Numbered + Slotted, V: Ord + Copy + Drop>(
    alloc: Global,
    held: &LayeredLists<K, V>,
    key: K,
    gone: &PairList<K, V>,
    come: &PairList<K, V>,
) -> Result<Vec<V>, NoMemory>
    requires keys { IsAntisymmetric K.cmp }
    requires values { IsAntisymmetric V.cmp }
    ensures ascending { IfOk result (λ r. IsTrue (rises V.cmp r.items)) }
    ensures exactly { IfOk result (λ r. (v : V)
        → Contains r.items v ↔ Stays (Has K.cmp held.now key v) gone.now come.now (key, v)) }
{
    exchanged_values(alloc, held.at(key), gone.at(key), come.at(key))
}
