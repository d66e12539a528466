//! A reader that fails.
ghost use Rattle.std.specs.Prelude.{◌≡◌};

use std::io;
use std::io::{ErrorKind, Read};

/// A reader that gives its bytes in pieces, and fails after this many reads.
#[derive(Drop)]
pub struct FailingReader<'a> {
    /// The bytes that no read has given yet.
    pub left: &'a [u8],
    /// The most bytes that one read gives.
    pub piece: usize,
    /// How many reads do not fail.
    pub reads: usize,
}

impl<'a> FailingReader<'a> {
    /// A reader of these bytes, at most this many per read; this many reads do not fail.
    pub fn new(bytes: &'a [u8], piece: usize, reads: usize) -> Self
        ensures piece { result.piece ≡ piece }
        ensures reads { result.reads ≡ reads }
    {
        FailingReader {
            left: bytes,
            piece,
            reads,
        }
    }

    /// A reader that gives one byte per read.
    pub fn by_bytes(bytes: &'a [u8], reads: usize) -> Self
        ensures piece { result.piece ≡ 1 }
        ensures reads { result.reads ≡ reads }
    {
        FailingReader::new(bytes, 1, reads)
    }
}

impl Read for FailingReader<'_> {
    fn read(&mut self, buf: &mut [u8]) -> io::Result<usize> {
        if self.reads == 0 {
            return Err(io::Error::from(ErrorKind::BrokenPipe));
        }
        self.reads -= 1;
        let count = self.piece.min(self.left.len()).min(buf.len());
        let (given, left) = self.left.split_at(count);
        buf[..count].copy_from_slice(given);
        self.left = left;
        Ok(count)
    }
}
