//! The events that make, change and delete objects.
ghost use Rattle.std.specs.Prelude.{◌≡◌, IfOk, IsTrue};
ghost use Rattle.road_base.specs.Kinds.{has_kind};

use crate::{Body, Key, NoMemory};

/// A version of an object. A body that is visible has the kind of the key.
#[derive(Drop)]
pub struct Event {
    pub key: Key,
    pub version: u32,
    pub body: Body,
    ghost kind: { IsTrue (has_kind key body) },
}

impl Event {
    /// An equal value.
    pub fn copy(&self) -> Result<Event, NoMemory>
        ensures { IfOk result (λ e. e ≡ self.now) }
    {
        let body = self.body.copy()?;
        Ok(Event {
            key: self.key,
            version: self.version,
            body,
        })
    }
}
