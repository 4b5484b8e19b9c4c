//! A source in memory.
use road_io::{Failed, MemorySource, Source};
use std::test::Fail;

const ROOM: usize = 8;

/// How much room a read has, what it answers, and the buffer after it.
type Read = (usize, Result<usize, Failed>, &'static [u8; ROOM]);

/// Reads 2 and 5 are to fail.
const READS: [Read; 9] = [
    (3, Ok(3), b"abc....."),
    (0, Ok(0), b"........"),
    (4, Err(Failed), b"........"),
    (4, Ok(4), b"defg...."),
    (8, Ok(3), b"hij....."),
    (8, Err(Failed), b"........"),
    (8, Ok(0), b"........"),
    (0, Ok(0), b"........"),
    (8, Ok(0), b"........"),
];

fn reads_so(
    source: &mut MemorySource,
    room: usize,
    answer: Result<usize, Failed>,
    after: &[u8],
) -> bool {
    let mut buf = *b"........";
    let room = room.min(ROOM);
    source.read(&mut buf[..room]) == answer && buf.as_slice() == after
}

/// The first read that goes otherwise than it should.
fn wrong_read(source: &mut MemorySource) -> Option<usize> {
    for (at, (room, answer, after)) in READS.iter().enumerate() {
        if !reads_so(source, *room, *answer, after.as_slice()) {
            return Some(at);
        }
    }
    None
}

#[test]
fn reads(rt: HostRuntime) -> Result<(), Fail> {
    let bytes = b"abcdefghij".to_vec(rt.alloc())?;
    let fails = vec![in rt.alloc(); 5, 2]?;
    assert_eq!(rt; wrong_read(&mut MemorySource::new(bytes, fails)), None);
    Ok(())
}
