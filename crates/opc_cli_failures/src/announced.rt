//! A reader that may be a terminal.
ghost use Rattle.std.specs.Prelude.{◌≡◌, true};
ghost use Rattle.std.specs.Io.{ReadsAtMost};
ghost use Rattle.std.specs.Io.KnownBytes.{ReadConsumes};
ghost use Rattle.std.specs.Option.{is_none};

use std::io;
use std::io::{Read, Write};

/// The note to a person at a terminal before it is read.
const NOTE: &[u8] = b"opcmds: reading from the terminal; end with Ctrl-D\n";

/// A reader, and where its first read is announced, if it is.
#[derive(Drop)]
pub struct Announced<R, E: Drop> {
    pub inner: R,
    pub errors: Option<E>,
}

impl<R: Read, E: Write + Drop> Read for Announced<R, E> {
    ghost remaining = { λ a. R.remaining a.inner };

    /// Reads what the reader gives, which is announced once.
    fn read(&mut self, buf: &mut [u8]) -> io::Result<usize>
        ensures bound { ReadsAtMost result buf.new }
        ensures bytes { ReadConsumes (R.remaining self.old.inner) (R.remaining self.new.inner) result buf.new }
        ensures once { is_none self.new.errors ≡ true }
    {
        if let Some(mut errors) = self.errors.take() {
            // (if the note fails, the read takes place nevertheless)
            let _ = errors.write_all(NOTE);
        }
        self.inner.read(buf)
    }
}
