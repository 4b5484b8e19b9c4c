//! Parts of a file, read.
ghost use Rattle.std.specs.Prelude.{◌≡◌, ◌∷◌, [], ◌≤◌, ◌^◌, true, false, IfOk, length};
ghost use Rattle.road_io.specs.Told.{Told, Counts};
ghost use Rattle.sequence_journal.specs.Reading.{Fills, TestsEnd};

use crate::ends::CLOSED;
use road_io::{Failed, Site, Which};

/// Fills a buffer with the bytes of a file from a place on, as far as the file reaches, and answers how many there are.
pub fn fill<W: Site>(site: &mut W, file: Which, from: u64, buf: &mut [u8]) -> Result<usize, Failed>
    requires { from ≤ 2 ^ 41 }
    ensures fits { IfOk result (λ n. n ≤ length buf.old) }
    ensures told { Told (Fills file from buf.new result) (W.outside site.old) (W.outside site.new) }
    ensures counts { Counts (W.faults site.old) (W.faults site.new) result }
{
    let mut at = 0;
    while at < buf.len() {
        let n = site.read_at(file, from + at as u64, &mut buf[at..])?;
        if n == 0 {
            return Ok(at);
        }
        at += n;
    }
    Ok(at)
}

/// Whether a closed gate stands at a place of a file of this length, as its last byte.
pub fn ends_there<W: Site>(site: &mut W, file: Which, len: u64, gate: u64) -> Result<bool, Failed>
    requires within { gate ≤ len }
    requires small { len ≤ 2 ^ 40 }
    ensures told { Told (TestsEnd file len gate result) (W.outside site.old) (W.outside site.new) }
    ensures counts { Counts (W.faults site.old) (W.faults site.new) result }
{
    if len - gate != 1 {
        return Ok(false);
    }
    let mut last = [0u8; 1];
    let n = fill(site, file, gate, &mut last)?;
    Ok(is_closed_gate(&last[..n]))
}

/// Whether the bytes are one closed gate.
fn is_closed_gate(bytes: &[u8]) -> bool
    ensures yes { result ≡ true → bytes.now ≡ 0 ∷ [] }
    ensures no { result ≡ false → bytes.now ≡ 0 ∷ [] → ⊥ }
{
    bytes == [CLOSED].as_slice()
}
