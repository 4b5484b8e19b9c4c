//! Where in a list that is in order by kind and then by number an item may stand: hints, without a promise.
use crate::number_ranges::{Numbered, Ranges};
use std::alloc::Global;

/// What is of a kind, and has a number among those of its kind. Kinds are told apart from 0 on; those above 1 are told
/// together.
pub trait Kinded: Numbered {
    /// The kind.
    fn kind(&self) -> u8;
}

/// For a list in which the items of each kind stand together, the lowest kind first: where the second and the third
/// kind begin, and for each the ranges of its numbers.
///
/// Nothing is promised of what is told here: whoever looks up compares it with the list before relying on it.
#[derive(Drop)]
pub struct KindRanges {
    second_from: usize,
    third_from: usize,
    first: Ranges,
    second: Ranges,
    third: Ranges,
}

impl KindRanges {
    /// Those of no items. Takes no memory.
    pub fn new(alloc: Global) -> KindRanges {
        KindRanges {
            second_from: 0,
            third_from: 0,
            first: Ranges::new(alloc),
            second: Ranges::new(alloc),
            third: Ranges::new(alloc),
        }
    }

    /// The ranges of a list in order; none for a kind for which no memory is found. Takes about two bytes an item, and
    /// the time of one run over them.
    pub fn of<T: Kinded>(alloc: Global, list: &[T]) -> KindRanges {
        let second_from = list.partition_point(|item| item.kind() == 0);
        let third_from = list.partition_point(|item| item.kind() <= 1);
        KindRanges {
            second_from,
            third_from,
            first: Ranges::of(alloc, part(list, 0, second_from)),
            second: Ranges::of(alloc, part(list, second_from, third_from)),
            third: Ranges::of(alloc, part(list, third_from, list.len())),
        }
    }

    /// Where the item of this kind and number stands in the list whose ranges these are, if there is one. Takes the
    /// time of a search among the items of one range.
    pub fn place<T: Kinded>(&self, list: &[T], kind: u8, number: i64) -> usize {
        let (ranges, from, to) = match kind {
            0 => (&self.first, 0, self.second_from),
            1 => (&self.second, self.second_from, self.third_from),
            _ => (&self.third, self.third_from, list.len()),
        };
        from.saturating_add(ranges.place(part(list, from, to), number))
    }
}

/// The items between the two positions, or none where these are none of the list.
fn part<T>(list: &[T], from: usize, to: usize) -> &[T] {
    list.get(from..to).unwrap_or(&[])
}
