//! What is answered where a reader can't be pinned, asked or released.

/// Why a reader isn't pinned. Then nothing has changed.
#[derive(Debug, Drop)]
pub enum PinError {
    /// It is pinned already.
    Busy,
    /// As many readers are pinned as may be.
    Full,
    /// No memory was found.
    NoMemory,
}

/// Why a reader gets no reply. Then nothing is appended.
#[derive(Debug, Drop)]
pub enum AskError {
    /// It isn't pinned.
    NoPin,
    /// No memory was found.
    NoMemory,
}

/// The reader isn't pinned.
#[derive(Debug, Drop)]
pub struct NoPin;
