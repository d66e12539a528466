//! Readers and writers for which a contract can state that they were called.
ghost use Rattle.std.specs.Prelude.{◌≡◌, ℕ, List, Option, Result};
ghost use Rattle.std.specs.Io.{ReadsAtMost, WritesAtMost};
ghost use Rattle.std.specs.Io.KnownBytes.{ReadConsumes, WriteAppends};
ghost use Rattle.std.specs.declared.io.Error.{Error};

use std::io;
use std::io::{Read, Write};

/// A reader.
pub trait Readable {
    /// The bytes that later reads will give, if they are known.
    ghost remaining: { Self → Option (List ℕ) };

    /// A read of the first returned this and left the second. Only the reads that a function over any reader makes can
    /// show what it promises by this.
    ghost reads: { Self → Result ℕ Error → Self → Type 0 };

    fn read_once(&mut self, buf: &mut [u8]) -> io::Result<usize>
        ensures read { reads self.old result self.new }
        ensures bound { ReadsAtMost result buf.new }
        ensures bytes { ReadConsumes (remaining self.old) (remaining self.new) result buf.new };
}

/// A writer.
pub trait Writable {
    /// The bytes that it holds, if they are known.
    ghost contents: { Self → Option (List ℕ) };

    /// A write of these bytes to the first returned this and left the second. Only a write can show it.
    ghost writes: { Self → List ℕ → Result ℕ Error → Self → Type 0 };

    fn write_once(&mut self, bytes: &[u8]) -> io::Result<usize>
        ensures written { writes self.old bytes.now result self.new }
        ensures bound { WritesAtMost result bytes.now }
        ensures bytes { WriteAppends (contents self.old) (contents self.new) result bytes.now };
}

// No clause states that a reader of the standard library was read.
impl<R: Read> Readable for R {
    ghost use Rattle.std.specs.Prelude.{⊤};

    ghost remaining = { λ r. R.remaining r };

    ghost reads = { λ _ _ _. ⊤ };

    fn read_once(&mut self, buf: &mut [u8]) -> io::Result<usize> {
        self.read(buf)
    }
}

impl<W: Write> Writable for W {
    ghost use Rattle.std.specs.Prelude.{⊤};

    ghost contents = { λ w. W.contents w };

    ghost writes = { λ _ _ _ _. ⊤ };

    fn write_once(&mut self, bytes: &[u8]) -> io::Result<usize> {
        self.write(bytes)
    }
}
