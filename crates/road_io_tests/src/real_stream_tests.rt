//! A reader and a writer of the system, lent to a source and a site.
use road_io::{Failed, RealSite, RealSource, Site, Source};
use std::io;
use std::io::{ErrorKind, Read, Write};

/// Bytes whose second and third read a signal interrupts, and whose fifth one fails.
#[derive(Drop)]
struct Interrupted {
    bytes: &'static [u8],
    reads: u8,
}

impl Read for Interrupted {
    fn read(&mut self, buf: &mut [u8]) -> io::Result<usize> {
        self.reads = self.reads.saturating_add(1);
        match self.reads {
            2 | 3 => Err(ErrorKind::Interrupted.into()),
            5 => Err(ErrorKind::Other.into()),
            _ => self.bytes.read(buf),
        }
    }
}

/// What reads of five bytes answer, and the buffer after each.
const READS: [(Result<usize, Failed>, &[u8; 4]); 4] = [
    (Ok(4), b"abcd"),
    (Ok(1), b"ebcd"),
    (Err(Failed), b"ebcd"),
    (Ok(0), b"ebcd"),
];

/// The first read that goes otherwise than it should.
fn wrong_read(reader: &mut Interrupted) -> Option<usize> {
    let mut source = RealSource::new(reader);
    let mut buf = *b"....";
    for (at, (answer, after)) in READS.iter().enumerate() {
        if source.read(&mut buf) != *answer || buf != **after {
            return Some(at);
        }
    }
    None
}

#[test]
fn reads(rt: HostRuntime) {
    let mut reader = Interrupted {
        bytes: b"abcde",
        reads: 0,
    };
    assert_eq!(rt; wrong_read(&mut reader), None);
    assert_eq!(rt; reader.reads, 6);
}

/// Takes at most two bytes a write. Its second flush fails.
#[derive(Drop)]
struct Narrow {
    taken: Vec<u8>,
    flushes: u8,
}

impl Write for Narrow {
    fn write(&mut self, buf: &[u8]) -> io::Result<usize> {
        let n = buf.len().min(2);
        self.taken.extend_from_slice(&buf[..n])?;
        Ok(n)
    }

    fn flush(&mut self) -> io::Result<()> {
        self.flushes = self.flushes.saturating_add(1);
        if self.flushes == 2 {
            return Err(ErrorKind::Other.into());
        }
        Ok(())
    }
}

/// A chunk, and what a put of it answers.
type Put = (&'static [u8], Result<(), Failed>);

/// The first put to the writer that goes otherwise than it should.
fn wrong_put<W: Write + Drop>(rt: &HostRuntime, output: W, puts: &[Put]) -> Option<usize> {
    let name = String::new(rt.alloc());
    let mut site = RealSite::new(rt, output, name, String::new(rt.alloc()));
    for (at, (chunk, answer)) in puts.iter().enumerate() {
        if site.put(chunk) != *answer {
            return Some(at);
        }
    }
    None
}

const NARROW_PUTS: &[Put] = &[(b"abc", Ok(())), (b"de", Err(Failed)), (b"f", Ok(()))];

#[test]
fn puts(rt: HostRuntime) {
    let mut output = Narrow {
        taken: Vec::new(rt.alloc()),
        flushes: 0,
    };
    assert_eq!(rt; wrong_put(&rt, &mut output, NARROW_PUTS), None);
    assert_eq!(rt; output.taken.as_slice(), b"abcdef".as_slice());
    assert_eq!(rt; output.flushes, 3);
}

/// Two puts, for the second of which there is too little room.
const PUTS_IN_FOUR: &[Put] = &[(b"abc", Ok(())), (b"de", Err(Failed))];

#[test]
fn full(rt: HostRuntime) {
    let mut room = *b"....";
    assert_eq!(rt; wrong_put(&rt, room.as_mut_slice(), PUTS_IN_FOUR), None);
    assert_eq!(rt; room, *b"abcd");
}
