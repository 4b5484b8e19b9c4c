//! Where in a list that is in order by kind and then by number an item may stand: hints, without a promise.
use ordered_lists::{Kinded, Numbered, Ranges};
use std::alloc::Global;

/// For a list in which the items of each kind stand together, the lowest kind first: where the second and the third
/// kind begin, how many items there are, and for each kind the ranges of its numbers.
///
/// Nothing is promised of what is told here: whoever looks up compares it with the list before relying on it.
#[derive(Drop)]
pub struct KeyPlaces {
    second_from: usize,
    third_from: usize,
    len: usize,
    first: Ranges,
    second: Ranges,
    third: Ranges,
}

impl KeyPlaces {
    /// The places of a list in order; none for a kind for which no memory is found. Takes about two bytes an item, and
    /// the time of one run over them.
    pub fn of<T: Kinded>(alloc: Global, list: &[T]) -> KeyPlaces {
        let second_from = list.partition_point(|item| item.kind() == 0);
        let third_from = list.partition_point(|item| item.kind() <= 1);
        KeyPlaces {
            second_from,
            third_from,
            len: list.len(),
            first: Ranges::of(alloc, part(list, 0, second_from)),
            second: Ranges::of(alloc, part(list, second_from, third_from)),
            third: Ranges::of(alloc, part(list, third_from, list.len())),
        }
    }

    /// Between which positions the items of this kind and number stand in the list whose places these are, if there are
    /// any. Takes a constant time.
    pub fn part_of(&self, kind: u8, number: i64) -> (usize, usize) {
        let (ranges, from, to) = match kind {
            0 => (&self.first, 0, self.second_from),
            1 => (&self.second, self.second_from, self.third_from),
            _ => (&self.third, self.third_from, self.len),
        };
        match ranges.part_of(number) {
            Some((low, high)) => (from.saturating_add(low), from.saturating_add(high)),
            None => (to, to),
        }
    }
}

/// Where the first item of the run stands whose number isn't below this one, among the first ones, of which there are
/// so many.
pub fn first_from<T: Numbered>(run: &[T], number: i64, count: usize) -> usize {
    let mut high = count.min(run.len());
    let mut low = 0;
    while low < high {
        let middle = low + (high - low) / 2;
        if run[middle].number() < number {
            low = middle + 1;
        } else {
            high = middle;
        }
    }
    low
}

/// The items between the two positions, or none where these are none of the list.
fn part<T>(list: &[T], from: usize, to: usize) -> &[T] {
    list.get(from..to).unwrap_or(&[])
}
