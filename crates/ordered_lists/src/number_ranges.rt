//! Ranges of numbers, which tell where in a list in order a number may stand: hints, without a promise.
ghost use Rattle.std.specs.Prelude.{◌<◌, ◌≤◌, length, IfSome};

use std::alloc::{AllocError, Global};

/// About how many numbers one range is to hold.
const NUMBERS_A_RANGE: usize = 2;

/// What has a number of its own, by which a list of them is in order.
pub trait Numbered {
    /// The number.
    fn number(&self) -> i64;
}

/// Ranges of numbers, all of 2 to the power `shift` numbers, from `first` on; for each the position in a list of the
/// first item whose number is of that range or of a later one, and at the end the list's length. A position above
/// 4,294,967,295 is kept as that number. Empty where no memory was found.
///
/// Nothing is promised of what is told here: whoever looks up compares it with the list before relying on it.
#[derive(Drop)]
pub struct Ranges {
    first: i64,
    shift: u32,
    starts: Vec<u32>,
}

impl Ranges {
    /// No ranges. Takes no memory.
    pub fn new(alloc: Global) -> Ranges {
        Ranges {
            first: 0,
            shift: 0,
            starts: Vec::new(alloc),
        }
    }

    /// The ranges of the items' numbers, which don't fall; and no ranges where there are no items or no memory is
    /// found. Takes about two bytes an item, and the time of one run over them.
    pub fn of<T: Numbered>(alloc: Global, items: &[T]) -> Ranges {
        let Some((first, last)) = ends_of(items) else {
            return Ranges::new(alloc);
        };
        let shift = shift_for(last.abs_diff(first), items.len() / NUMBERS_A_RANGE);
        let ranges = range_of(last, first, shift).saturating_add(1);
        match starts_of(alloc, items, first, shift, ranges) {
            Ok(starts) => Ranges {
                first,
                shift,
                starts,
            },
            Err(AllocError) => Ranges::new(alloc),
        }
    }

    /// Where the items of the number stand in the list, if it has any: from the first position up to the second. None
    /// where the number is of no range.
    pub fn part_of(&self, number: i64) -> Option<(usize, usize)> {
        let at = range_of(number, self.first, self.shift);
        let next = at.checked_add(1)?;
        Some((
            *self.starts.get(at)? as usize,
            *self.starts.get(next)? as usize,
        ))
    }

    /// Where the first item stands whose number isn't below this one, in the list whose ranges these are. Takes the
    /// time of a search among the items of one range. That it stands there isn't promised: whoever asks looks whether
    /// the item at that position is the one, and the item before it isn't.
    pub fn place<T: Numbered>(&self, items: &[T], number: i64) -> usize
        ensures { result ≤ length items.now }
    {
        if number < self.first {
            return 0;
        }
        match self.part_of(number) {
            Some((from, to)) => first_from(items, number, from, to),
            None => items.len(),
        }
    }

    /// Where the first item of the number stands in the list whose ranges these are, if there is one. That it is
    /// found where it is there isn't promised: whoever asks looks whether the item at that position is the one.
    pub fn find<T: Numbered>(&self, items: &[T], number: i64) -> Option<usize>
        ensures { IfSome result (λ at. at < length items.now) }
    {
        let at = self.place(items, number);
        match items.get(at) {
            Some(item) if item.number() == number => Some(at),
            _ => None,
        }
    }
}

/// Where a search for the first item whose number isn't below this one ends, between the two positions.
fn first_from<T: Numbered>(items: &[T], number: i64, from: usize, to: usize) -> usize
    ensures { result ≤ length items.now }
{
    let mut high = to.min(items.len());
    let mut low = from.min(high);
    while low < high {
        let middle = low + (high - low) / 2;
        if items[middle].number() < number {
            low = middle + 1;
        } else {
            high = middle;
        }
    }
    low
}

/// The first and the last number.
fn ends_of<T: Numbered>(items: &[T]) -> Option<(i64, i64)> {
    Some((items.first()?.number(), items.last()?.number()))
}

/// The position of the range that has the number.
fn range_of(number: i64, first: i64, shift: u32) -> usize {
    number.abs_diff(first).wrapping_shr(shift) as usize
}

/// The exponent of the least power of two that makes at most so many ranges beside the first one, for numbers up to the
/// greatest difference.
fn shift_for(difference: u64, ranges: usize) -> u32 {
    for shift in 0..63 {
        if difference.wrapping_shr(shift) as usize <= ranges {
            return shift;
        }
    }
    63
}

/// For each of so many ranges the position of its first item, and at the end the number of items.
fn starts_of<T: Numbered>(
    alloc: Global,
    items: &[T],
    first: i64,
    shift: u32,
    ranges: usize,
) -> Result<Vec<u32>, AllocError> {
    let mut starts = Vec::with_capacity(alloc, ranges.saturating_add(1))?;
    for (at, item) in items.iter().enumerate() {
        let begun = range_of(item.number(), first, shift).saturating_add(1);
        if starts.len() < begun {
            starts.resize(begun, kept(at))?;
        }
    }
    starts.push(kept(items.len()))?;
    Ok(starts)
}

/// A position as it is kept.
fn kept(at: usize) -> u32 {
    u32::try_from(at).unwrap_or(u32::MAX)
}
