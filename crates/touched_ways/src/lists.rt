//! Lists of numbers that a search gathers.
ghost use Rattle.std.specs.Prelude.{◌≡◌, ◌↔◌, ◌⊎◌, ◌<◌, ◌≤◌, true, false, [], length, slice_index_or};
ghost use Rattle.std.specs.Prelude.{IfOk, OnOk, IsTrue, Contains};
ghost use Rattle.std.specs.List.{AllWithin};
ghost use Rattle.std.specs.Ordering.{is_lt};
ghost use Rattle.std.specs.FinMap.{IsAntisymmetric};
ghost use Rattle.ordered_lists.specs.Orders.{rises};
ghost use Rattle.touched_ways.specs.Searches.{IsRest};

use road_base::NoMemory;

/// Puts the numbers behind the list's, but none that is the list's last: neighbours often find the same.
pub fn add_each<T: Ord + Copy>(list: &mut Vec<T>, numbers: &[T]) -> Result<(), NoMemory>
    requires { IsAntisymmetric T.cmp }
    ensures { OnOk result ((x : T) → Contains list.new.items x
        ↔ (Contains list.old.items x ⊎ Contains numbers.now x)) }
{
    for number in numbers {
        add(list, *number)?;
    }
    Ok(())
}

/// Puts the number behind the list's, unless it is the last.
pub fn add<T: Ord + Copy>(list: &mut Vec<T>, number: T) -> Result<(), NoMemory>
    requires { IsAntisymmetric T.cmp }
    ensures { OnOk result ((x : T) → Contains list.new.items x ↔ (Contains list.old.items x ⊎ (x ≡ number))) }
{
    if is_at(list.as_slice(), list.len().wrapping_sub(1), number) {
        return Ok(());
    }
    list.push(number)?;
    Ok(())
}

/// Whether the number stands at the position.
pub fn is_at<T: Ord + Copy>(list: &[T], at: usize, number: T) -> bool
    requires { IsAntisymmetric T.cmp }
    ensures { IsTrue result → Contains list.now number }
{
    at < list.len() && list[at].cmp(&number).is_eq()
}

/// Puts the numbers into the list, and sorts it. Where both ascend they are gone along once.
pub fn add_sorted<T: Ord + Copy>(list: &mut Vec<T>, numbers: &[T]) -> Result<(), NoMemory>
    ensures { OnOk result ((x : T) → Contains list.new.items x
        ↔ (Contains list.old.items x ⊎ Contains numbers.now x)) }
{
    list.extend_from_slice(numbers)?;
    list.sort()?;
    Ok(())
}

/// Puts the numbers into the list, sorts it, and leaves each once. Where both ascend they are gone along once.
pub fn add_once<T: Ord + Copy>(list: &mut Vec<T>, numbers: &[T]) -> Result<(), NoMemory>
    requires { IsAntisymmetric T.cmp }
    ensures ascending { OnOk result (IsTrue (rises T.cmp list.new.items)) }
    ensures exactly { OnOk result ((x : T) → Contains list.new.items x
        ↔ (Contains list.old.items x ⊎ Contains numbers.now x)) }
{
    list.extend_from_slice(numbers)?;
    list.sort()?;
    list.dedup();
    Ok(())
}

/// The numbers of the list without those that are gone. Both ascend, and are gone along once.
pub fn without<T: Ord + Copy>(list: Vec<T>, gone: &[T]) -> Result<Vec<T>, NoMemory>
    requires { IsAntisymmetric T.cmp }
    ensures { IfOk result (λ rest. IsRest list.items gone.now rest.items) }
{
    if gone.is_empty() {
        return Ok(list);
    }
    rest_of(
        list.as_slice(),
        gone,
        Vec::with_capacity(*list.allocator(), list.len())?,
    )
}

/// The same, put into an empty list.
fn rest_of<T: Ord + Copy>(list: &[T], gone: &[T], empty: Vec<T>) -> Result<Vec<T>, NoMemory>
    requires exact { IsAntisymmetric T.cmp }
    requires empty { empty.items ≡ [] }
    ensures { IfOk result (λ rest. IsRest list.now gone.now rest.items) }
{
    let mut rest = empty;
    let mut at = 0;
    for number in list {
        at = first_from(gone, at, *number);
        add_unless_at(&mut rest, *number, gone, at)?;
    }
    Ok(rest)
}

/// The first position from `low` on at which a number stands that isn't below this one, or the end.
fn first_from<T: Ord + Copy>(list: &[T], low: usize, number: T) -> usize
    requires { low ≤ length list.now }
    ensures from { low ≤ result }
    ensures bound { result ≤ length list.now }
    ensures passed { AllWithin (λ a. is_lt (T.cmp a number) ≡ true) list.now low result }
    ensures next { (d : T) → result < length list.now
        → is_lt (T.cmp (slice_index_or list.now result d) number) ≡ false }
{
    for at in low..list.len() {
        if !list[at].cmp(&number).is_lt() {
            return at;
        }
    }
    list.len()
}

/// Puts the number behind the list's, unless it stands among those that are gone, at the position.
fn add_unless_at<T: Ord + Copy>(
    list: &mut Vec<T>,
    number: T,
    gone: &[T],
    at: usize,
) -> Result<(), NoMemory>
    requires { IsAntisymmetric T.cmp }
    ensures only { OnOk result ((x : T) → Contains list.new.items x → Contains list.old.items x ⊎ (x ≡ number)) }
    ensures keeps { OnOk result ((x : T) → Contains list.old.items x → Contains list.new.items x) }
    ensures adds { OnOk result (Contains list.new.items number ⊎ Contains gone.now number) }
{
    if is_at(gone, at, number) {
        return Ok(());
    }
    list.push(number)?;
    Ok(())
}
