//! Where the last visit of each context stands, by the names of the context.
//!
//! Contracts don't speak of it: what it answers is compared with the names before it is relied on.
ghost use Rattle.std.specs.Prelude.{◌<◌, ◌+◌, ◌^◌};

use road_base::{Dir, NoMemory};
use road_model::PieceName;
use std::alloc::Global;
use std::collections::BTreeMap;
use std::mem::replace;

/// How many slots a bucket has: together they are as long as a line of most processors' caches.
const BUCKET: usize = 8;

/// How many buckets there are at first.
const FIRST_BUCKETS: usize = 32;

/// By what Fibonacci hashing multiplies: 2^64 divided by the golden ratio.
const FIBONACCI: u64 = 0x9E37_79B9_7F4A_7C15;

/// The place that stands in a slot which nothing was put into.
const FREE: u32 = u32::MAX;

/// What names a context: its piece, and those before it.
pub type ContextNames<'a> = (PieceName, &'a [PieceName]);

/// The place of a visit, and the mark of its context.
#[derive(Clone, Copy, Drop)]
struct Slot {
    mark: u32,
    place: u32,
}

/// Where the last visit of a context may stand.
#[derive(Clone, Copy, Drop)]
pub enum Sought {
    /// Nowhere: the context isn't visited.
    Nowhere,
    /// At this place, where that visit is one of the context; else it is looked up apart.
    At(usize),
    /// It is looked up apart.
    Apart,
}

/// The place of the last visit of each context, and of each visit the place of the next one of the same context.
///
/// Each context has a mark, which is mixed from its names, and the mark a bucket of eight slots, one of which holds the
/// place. At most half of all slots are taken: then the buckets are doubled, and each becomes two. Contexts for which
/// their bucket has no room, and all but the first of those that share a mark, are in an ordered map apart. So a
/// look-up mostly takes the time of one bucket, and never more than the logarithm of their number, whatever names are
/// chosen.
#[derive(Drop)]
pub struct VisitTable<'a> {
    slots: Vec<Slot>,
    apart: BTreeMap<ContextNames<'a>, usize>,
    /// How many contexts there are.
    count: usize,
    nexts: Vec<Option<usize>>,
}

impl<'a> VisitTable<'a> {
    /// No visits. Takes no memory.
    pub fn new(alloc: Global) -> VisitTable<'a> {
        VisitTable {
            slots: Vec::new(alloc),
            apart: BTreeMap::new(alloc),
            count: 0,
            nexts: Vec::new(alloc),
        }
    }

    /// Where the last visit of the context of the piece behind so many others may stand.
    pub fn sought(&self, piece: PieceName, before: usize) -> Sought {
        sought_in(&self.slots, mark_of(piece, before))
    }

    /// Where the last visit of a context may stand that is looked up apart.
    pub fn apart(&self, names: &ContextNames<'a>) -> Option<usize> {
        self.apart.get(names).copied()
    }

    /// The place of the next visit of the same context.
    pub fn next(&self, place: usize) -> Option<usize> {
        match self.nexts.get(place) {
            Some(next) => *next,
            None => None,
        }
    }

    /// Puts the visit at the place, which is the next one, as the last of its context, behind the one that is known.
    pub fn put(
        &mut self,
        names: ContextNames<'a>,
        known: Option<usize>,
        place: usize,
    ) -> Result<(), NoMemory> {
        self.nexts.push(None)?;
        match known {
            Some(before) => {
                set_next(&mut self.nexts, before, place);
                self.set(names, known, place)
            }
            None => {
                self.make_room()?;
                self.count = self.count.saturating_add(1);
                self.set(names, known, place)
            }
        }
    }

    /// Puts the place for the context, in place of the one that is known.
    fn set(
        &mut self,
        names: ContextNames<'a>,
        known: Option<usize>,
        place: usize,
    ) -> Result<(), NoMemory> {
        if !is_put(
            &mut self.slots,
            mark_of(names.0, names.1.len()),
            known,
            place,
        ) {
            self.apart.insert(names, place)?;
        }
        Ok(())
    }

    /// Doubles the slots where half of them are taken, and puts into them what was apart.
    fn make_room(&mut self) -> Result<(), NoMemory> {
        if self.count < self.slots.len() / 2 {
            return Ok(());
        }
        let alloc = *self.slots.allocator();
        self.slots = doubled(alloc, &self.slots)?;
        let apart = replace(&mut self.apart, BTreeMap::new(alloc));
        for (names, place) in apart {
            self.set(names, None, place)?;
        }
        Ok(())
    }
}

/// The mark of a context of the piece behind so many others: for most contexts another one.
fn mark_of(piece: PieceName, before: usize) -> u32 {
    let direction = match piece.dir {
        Dir::Forward => 0,
        Dir::Backward => 1,
    };
    let within = u64::from(piece.index) * 2 + direction;
    let within = within ^ (before as u64).wrapping_mul(0x2_0000_0000);
    let number = piece.way.0.cast_unsigned().wrapping_mul(FIBONACCI) ^ within;
    ((number ^ (number >> 32)).wrapping_mul(FIBONACCI) >> 32) as u32
}

/// The place of the first slot of the mark's bucket, of so many buckets: of twice as many, the bucket is one of the two
/// that this one becomes.
fn bucket_of(buckets: u32, mark: u32) -> usize
    ensures { result + 8 < 2 ^ 36 }
{
    (u64::from(mark) * u64::from(buckets) / 4_294_967_296) as usize * BUCKET
}

/// How many buckets the slots are, as far as a mark can tell them apart.
fn buckets_in(slots: &[Slot]) -> u32 {
    u32::try_from(slots.len() / BUCKET).unwrap_or(u32::MAX)
}

/// What the slots say of the mark.
fn sought_in(slots: &[Slot], mark: u32) -> Sought {
    let first = bucket_of(buckets_in(slots), mark);
    for at in first..first + BUCKET {
        let Some(slot) = slots.get(at) else {
            return Sought::Nowhere;
        };
        if slot.place == FREE {
            return Sought::Nowhere;
        }
        if slot.mark == mark {
            return Sought::At(slot.place as usize);
        }
    }
    Sought::Apart
}

/// Puts the place for the mark, in place of the one that is known, and answers whether there was room.
fn is_put(slots: &mut Vec<Slot>, mark: u32, known: Option<usize>, place: usize) -> bool {
    if place >= FREE as usize {
        return false;
    }
    let place = place as u32;
    let first = bucket_of(buckets_in(slots), mark);
    for at in first..first + BUCKET {
        let Some(slot) = slots.get_mut(at) else {
            return false;
        };
        if slot.place == FREE || (slot.mark == mark && known == Some(slot.place as usize)) {
            *slot = Slot { mark, place };
            return true;
        }
        if slot.mark == mark {
            return false;
        }
    }
    false
}

/// Twice as many slots, into which these are put.
fn doubled(alloc: Global, slots: &[Slot]) -> Result<Vec<Slot>, NoMemory> {
    let count = slots.len().saturating_mul(2).max(FIRST_BUCKETS * BUCKET);
    let free = Slot {
        mark: 0,
        place: FREE,
    };
    let mut more = Vec::from_elem(alloc, free, count)?;
    for slot in slots {
        if slot.place != FREE {
            is_put(&mut more, slot.mark, None, slot.place as usize);
        }
    }
    Ok(more)
}

/// Sets the place of the next visit.
fn set_next(nexts: &mut Vec<Option<usize>>, before: usize, place: usize) {
    if let Some(next) = nexts.get_mut(before) {
        *next = Some(place);
    }
}
