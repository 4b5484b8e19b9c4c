//! Tallies of one square put together.
ghost use Rattle.std.specs.Prelude.{◌≡◌, ◌≤◌, ◌+◌, ◌/◌, ◌<◌, ℕ, Bool, OnOk, OnErr, length, take, drop};
ghost use Rattle.cell_plan.specs.Sums.{tallied, weight};

use crate::sums::Tally;
use road_base::NoMemory;

/// Adds a tally: to the last one, where that is of the same square and their sum fits, and else behind it. Where no
/// memory is found it isn't added.
pub fn add_tally(tallies: &mut Vec<Tally>, tally: Tally) -> Result<(), NoMemory>
    ensures ok { OnOk result ((wanted : ℕ → ℕ → Bool)
        → tallied wanted tallies.new.items ≡ tallied wanted tallies.old.items + weight wanted tally) }
    ensures err { OnErr result (tallies.new.items ≡ tallies.old.items) }
{
    let count = tallies.len();
    if count > 0 {
        if let Some(sum) = tallies[count - 1].with(tally) {
            tallies[count - 1] = sum;
            return Ok(());
        }
    }
    tallies.push(tally)?;
    Ok(())
}

/// Puts the tallies of each square together in one (where their sum fits), in the order of the columns, then of the
/// rows. Takes the time of a sort, and no memory.
pub fn put_together(tallies: &mut Vec<Tally>)
    ensures { (wanted : ℕ → ℕ → Bool) → tallied wanted tallies.new.items ≡ tallied wanted tallies.old.items }
{
    tallies.sort_unstable_by_key(|tally| (tally.column, tally.row));
    let kept = merge_all(tallies.as_mut_slice());
    tallies.truncate(kept);
}

/// Puts together the tallies of one square that stand together, and tells how many these are then, at the front.
fn merge_all(tallies: &mut [Tally]) -> usize
    ensures kept { result ≤ length tallies.new }
    ensures sum { (wanted : ℕ → ℕ → Bool)
        → tallied wanted (take result tallies.new) ≡ tallied wanted tallies.old }
{
    let mut kept = 0;
    for next in 0..tallies.len() {
        kept = merge_next(tallies, kept, next);
    }
    kept
}

/// Puts the next tally behind so many at the front that are kept, or into the last one of these, and tells how many are
/// kept then.
fn merge_next(tallies: &mut [Tally], kept: usize, next: usize) -> usize
    requires kept { kept ≤ next }
    requires next { next < length tallies.old }
    ensures kept { result ≤ next + 1 }
    ensures sum { (wanted : ℕ → ℕ → Bool)
        → tallied wanted (take result tallies.new) + tallied wanted (drop (next + 1) tallies.new)
        ≡ tallied wanted (take kept tallies.old) + tallied wanted (drop next tallies.old) }
{
    let tally = tallies[next];
    if kept > 0 {
        if let Some(sum) = tallies[kept - 1].with(tally) {
            tallies[kept - 1] = sum;
            return kept;
        }
    }
    tallies[kept] = tally;
    kept + 1
}

/// Makes tallies of squares tallies of the squares of twice the side in which they lie.
pub fn halve(tallies: &mut [Tally])
    ensures { (wanted : ℕ → ℕ → Bool) → tallied wanted tallies.new
        ≡ tallied (λ column row. wanted (column / 2) (row / 2)) tallies.old }
{
    for tally in tallies.iter_mut() {
        tally.column /= 2;
        tally.row /= 2;
    }
}
