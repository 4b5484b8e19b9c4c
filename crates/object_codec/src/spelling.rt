//! What is written by its spelling.
ghost use Rattle.std.specs.Prelude.{◌≡◌, ◌++◌, OnOk, OnErr};
ghost use Rattle.road_base.specs.Bytes.{Keeps};

use road_base::{Format, NoMemory};
use spelled_bytes::Spell;

/// What is appended by its spelling.
pub trait Put: Spell<EventFormat> {
    /// Appends the spelling. Where no memory is found, a part of it may stand there.
    fn put(&self, out: &mut Vec<u8>) -> Result<(), NoMemory>
        ensures ok { OnOk result (out.new.items ≡ out.old.items ++ Self.spelling self.now) }
        ensures fit { OnOk result (Self.fits self.now) }
        ensures err { OnErr result (Keeps out.old.items out.new.items) };
}

/// The format of events.
pub struct EventFormat;

impl<T: Put> Format<T> for EventFormat {
    ghost spelling = { T.spelling };

    ghost fits = { T.fits };

    fn put(item: &T, out: &mut Vec<u8>) -> Result<(), NoMemory> {
        item.put(out)
    }
}

/// The first, and then the second.
impl<A: Put + Drop, B: Put + Drop> Put for (A, B) {
    fn put(&self, out: &mut Vec<u8>) -> Result<(), NoMemory> {
        self.0.put(out)?;
        self.1.put(out)
    }
}
