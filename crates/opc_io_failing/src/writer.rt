//! A writer that fails.
ghost use Rattle.std.specs.Prelude.{◌≡◌};

use std::alloc::Global;
use std::io;
use std::io::{ErrorKind, Write};

/// A writer that takes its bytes in pieces, and fails after this many writes.
#[derive(Drop)]
pub struct FailingWriter {
    /// The bytes that it took.
    pub bytes: Vec<u8>,
    /// The most bytes that one write takes.
    pub piece: usize,
    /// How many writes do not fail.
    pub writes: usize,
    /// Whether the allocation for the bytes failed.
    pub lacks_memory: bool,
}

impl FailingWriter {
    /// A writer that has no bytes yet.
    pub fn new(alloc: Global, piece: usize, writes: usize) -> Self
        ensures piece { result.piece ≡ piece }
        ensures writes { result.writes ≡ writes }
    {
        FailingWriter {
            bytes: Vec::new(alloc),
            piece,
            writes,
            lacks_memory: false,
        }
    }
}

impl Write for FailingWriter {
    fn write(&mut self, buf: &[u8]) -> io::Result<usize> {
        if self.writes == 0 {
            return Err(io::Error::from(ErrorKind::BrokenPipe));
        }
        self.writes -= 1;
        let count = self.piece.min(buf.len());
        if self.bytes.extend_from_slice(&buf[..count]).is_err() {
            self.lacks_memory = true;
            return Err(io::Error::from(ErrorKind::OutOfMemory));
        }
        Ok(count)
    }

    fn flush(&mut self) -> io::Result<()> {
        Ok(())
    }
}
