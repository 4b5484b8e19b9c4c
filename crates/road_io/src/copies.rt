//! Bytes that are given to a buffer.
ghost use Rattle.std.specs.Prelude.{◌≡◌, length, min, drop};
ghost use Rattle.road_io.specs.Calls.{Gives};

// Copies as many bytes as there are and as there is room for.
pub fn copy_front(buf: &mut [u8], from: &[u8]) -> usize
    ensures most { result ≡ min (length buf.old) (length from.now) }
    ensures gives { Gives result from.now buf.old buf.new }
{
    let n = buf.len().min(from.len());
    buf[..n].copy_from_slice(&from[..n]);
    n
}

/// The bytes from a place on, of which there are none at or past the end.
pub fn from_place(bytes: &[u8], at: u64) -> &[u8]
    ensures { result.now ≡ drop at bytes.now }
{
    if at >= bytes.len() as u64 {
        return &[];
    }
    &bytes[at as usize..]
}
