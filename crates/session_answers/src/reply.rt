//! A reply as it is put.

/// The bytes of a reply: a line with its newline, and what stands behind it, as the bytes of a graph that was asked
/// for. A line without a word gets no byte.
#[derive(Drop)]
pub struct Reply {
    pub line: Vec<u8>,
    pub behind: Vec<u8>,
}
