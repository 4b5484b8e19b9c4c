//! The bytes of a source that are kept as they are, as a graph file's.
ghost use Rattle.std.specs.Prelude.{◌≡◌, ◌<◌, IfOk, IfErr, Err};
ghost use Rattle.bounded_input.specs.SourceBytes.{Gathered, GatherStopped};

use crate::input::{BUFFER, InputError};
use road_base::MOST_BYTES;
use road_io::{Source, front};
use std::alloc::Global;

/// All bytes of the source, which is read to its end, or until a read fails or it has more than 2^30 bytes. A read
/// that failed is not tried again.
pub fn gather<S: Source>(alloc: Global, source: &mut S) -> Result<Vec<u8>, InputError>
    ensures ok { IfOk result (λ bytes. Gathered bytes.items (S.bytes_left source.old) (S.bytes_left source.new)) }
    ensures err { IfErr result (λ e. GatherStopped e (S.bytes_left source.old) (S.bytes_left source.new)
        (S.faults source.old) (S.faults source.new)) }
    ensures each_fault { S.faults source.old < S.faults source.new → result ≡ Err InputError.Failed }
{
    let Ok(mut buffer) = vec![in alloc; 0u8; BUFFER] else {
        return Err(InputError::NoMemory);
    };
    let mut bytes = Vec::new(alloc);
    loop {
        let Ok(n) = source.read(&mut buffer) else {
            return Err(InputError::Failed);
        };
        if n == 0 {
            return Ok(bytes);
        }
        let part = front(&buffer, n);
        if bytes.len() + part.len() > MOST_BYTES {
            return Err(InputError::TooLong);
        }
        match bytes.extend_from_slice(part) {
            Ok(()) => {}
            Err(_) => return Err(InputError::NoMemory),
        }
    }
}
