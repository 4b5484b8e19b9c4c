//! How a run ends.
ghost use Rattle.std.specs.Prelude.{◌≡◌};
ghost use Rattle.last_words.specs.Status.{status_code};

/// The status of a run. The process ends with its number.
#[derive(Clone, Copy, PartialEq, Eq, Debug)]
pub enum Status {
    Done,
    Usage,
    ReadFault,
    SiteFault,
    Refused,
    OutOfSequence,
    NoStore,
    StoreExists,
    Damaged,
    Limit,
    NoMemory,
}

impl Status {
    /// The number of the status.
    pub fn code(self) -> u8
        ensures { result ≡ status_code self }
    {
        self as u8
    }
}
