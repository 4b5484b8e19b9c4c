//! Ways that a round of a search finds.
ghost use Rattle.std.specs.Prelude.{◌≡◌, ◌↔◌, ◌⊎◌, [], IfOk, OnOk, Contains};
ghost use Rattle.road_base.specs.declared.ids.WayId.{WayId as WayNumber};

use crate::lists::is_at;
use road_base::{NoMemory, WayId};
use road_model::laws::name_order;
use std::alloc::Global;

/// How many places are kept.
const PLACES: u64 = 1024;

/// Ways in the order in which they were found. For each remainder of a number, a place of the list is kept at which a
/// way of that remainder may stand: so most ways that are found again are known, and the list stays short.
#[derive(Drop)]
pub struct FoundWays {
    pub list: Vec<WayId>,
    places: Vec<u32>,
}

impl FoundWays {
    /// No ways.
    pub fn new(alloc: Global) -> Result<FoundWays, NoMemory>
        ensures { IfOk result (λ f. f.list.items ≡ []) }
    {
        let places = vec![in alloc; 0; PLACES as usize]?;
        Ok(FoundWays {
            list: Vec::new(alloc),
            places,
        })
    }

    /// No ways. There is room for so many; where that is none, no places are kept, and it takes no memory.
    pub fn with_capacity(alloc: Global, ways: usize) -> Result<FoundWays, NoMemory>
        ensures { IfOk result (λ f. f.list.items ≡ []) }
    {
        let count = if ways == 0 { 0 } else { PLACES as usize };
        let places = vec![in alloc; 0; count]?;
        let list = Vec::with_capacity(alloc, ways)?;
        Ok(FoundWays { list, places })
    }

    /// Puts the ways behind the list's, but some that stand there.
    pub fn add_all(&mut self, ways: &[WayId]) -> Result<(), NoMemory>
        ensures { OnOk result ((w : WayNumber) → Contains self.new.list.items w
            ↔ (Contains self.old.list.items w ⊎ Contains ways.now w)) }
    {
        for way in ways {
            self.add(*way)?;
        }
        Ok(())
    }

    /// Puts the way behind the list's, unless it stands at the place that is kept.
    pub fn add(&mut self, way: WayId) -> Result<(), NoMemory>
        ensures { OnOk result ((w : WayNumber) → Contains self.new.list.items w
            ↔ (Contains self.old.list.items w ⊎ (w ≡ way))) }
    {
        name_order();
        let remainder = (way.0.unsigned_abs() % PLACES) as usize;
        if is_at(
            self.list.as_slice(),
            place_at(self.places.as_slice(), remainder),
            way,
        ) {
            return Ok(());
        }
        keep_place(self.places.as_mut_slice(), remainder, self.list.len());
        self.list.push(way)?;
        Ok(())
    }
}

/// The place that is kept for the remainder.
fn place_at(places: &[u32], remainder: usize) -> usize {
    match places.get(remainder) {
        Some(place) => *place as usize,
        None => 0,
    }
}

/// Keeps another place for the remainder, where that is below 2^32.
fn keep_place(places: &mut [u32], remainder: usize, place: usize) {
    if let Some(kept) = places.get_mut(remainder) {
        *kept = u32::try_from(place).unwrap_or(*kept);
    }
}
