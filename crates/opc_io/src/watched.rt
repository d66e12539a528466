//! Readers and writers, watched.
ghost use Rattle.std.specs.Prelude.{◌≡◌, ◌<◌, IfOk, if◌then◌else◌, is_err, length, true};
ghost use Rattle.std.specs.Io.{ReadsAtMost, WritesAtMost};
ghost use Rattle.std.specs.Io.KnownBytes.{Consumes, ReadConsumes, WriteAppends};
ghost use Rattle.opc_io.specs.Calls.{Writes};
ghost use Rattle.opc_io.specs.Reads.{given_by};

use crate::sink::Sink;
use crate::source::Source;
use crate::stream::{Readable, Writable};
use std::io;
use std::io::ErrorKind;

/// A reader or a writer, and whether a call of it failed.
#[derive(Drop)]
pub struct Watched<S> {
    pub inner: S,
    pub failed: bool,
}

impl<S> Watched<S> {
    ghost use Rattle.std.specs.Prelude.{false};

    /// Nothing has failed yet.
    pub fn new(inner: S) -> Self
        ensures inner { result.inner ≡ inner }
        ensures fine { result.failed ≡ false }
    {
        Watched {
            inner,
            failed: false,
        }
    }
}

impl<R: Readable> Source for Watched<R> {
    ghost gives = { λ w given v. Consumes (R.remaining w.inner) (R.remaining v.inner) given };

    ghost left = { λ w. R.remaining w.inner };

    ghost has_failed = { λ w. w.failed };

    /// Reads the reader once, and remembers whether that read failed.
    fn read(&mut self, buf: &mut [u8]) -> io::Result<usize>
        ensures given { Consumes (R.remaining self.old.inner) (R.remaining self.new.inner) (given_by result buf.new) }
        ensures bound { ReadsAtMost result buf.new }
        ensures bytes { ReadConsumes (R.remaining self.old.inner) (R.remaining self.new.inner) result buf.new }
        ensures failed { self.new.failed ≡ (if is_err result then true else self.old.failed) }
        ensures once { R.reads self.old.inner result self.new.inner }
    {
        let read = self.inner.read_once(buf);
        self.failed |= read.is_err();
        read
    }
}

impl<W: Writable> Sink for Watched<W> {
    ghost held = { λ w. W.contents w.inner };

    ghost has_failed = { λ w. w.failed };

    /// Writes to the writer once, and remembers whether that write failed or took no byte.
    fn write(&mut self, bytes: &[u8]) -> io::Result<usize>
        ensures bound { WritesAtMost result bytes.now }
        ensures some { 0 < length bytes.now → IfOk result (λ n. 0 < n) }
        ensures bytes { WriteAppends (W.contents self.old.inner) (W.contents self.new.inner) result bytes.now }
        ensures failed { self.new.failed ≡ (if is_err result then true else self.old.failed) }
        ensures once { Writes W.writes self.old.inner bytes.now result self.new.inner }
    {
        let written = match self.inner.write_once(bytes) {
            Ok(0) if !bytes.is_empty() => Err(io::Error::from(ErrorKind::WriteZero)),
            written => written,
        };
        self.failed |= written.is_err();
        written
    }
}
