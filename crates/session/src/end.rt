//! How a session ends.

/// How a session ends.
#[derive(Clone, Copy, PartialEq, Eq, Debug)]
pub enum End {
    /// All bytes were read, and each message is answered.
    Done,
    /// All bytes were read, and they end inside a frame.
    Unfinished,
    /// A read failed.
    ReadFault,
    /// A call on the site failed.
    SiteFault,
    /// A limit is passed.
    Limit,
    NoMemory,
}
