//! A writer that may be a terminal.
ghost use Rattle.std.specs.Prelude.{◌≡◌, IfOk, IsUtf8, OnOk, false, length, true};
ghost use Rattle.std.specs.Io.{WritesAtMost};
ghost use Rattle.std.specs.Io.KnownBytes.{Appends, Keeps, WriteAppends};
ghost use Rattle.opc_cli_failures.specs.Shown.{shown};

use crate::shown_text::{has_hidden, shown_text};
use std::alloc::Global;
use std::io::{ErrorKind, Write};
use std::{io, str};

/// A writer, and whether it is a terminal. What is written to a terminal is shown; anything else gets the bytes as they
/// are.
#[derive(Drop)]
pub struct Screen<W> {
    pub inner: W,
    pub is_terminal: bool,
    pub alloc: Global,
}

impl<W: Write> Write for Screen<W> {
    ghost use Rattle.std.specs.Prelude.{None, if◌then◌else◌};

    // What a terminal holds is not modelled here: `write` itself states what it adds.
    ghost contents = { λ s. if s.is_terminal then None else W.contents s.inner };

    /// Writes the bytes as they are, or, to a terminal, all of the text as it is shown. Bytes that are not a text are
    /// not written to a terminal.
    fn write(&mut self, bytes: &[u8]) -> io::Result<usize>
        ensures bound { WritesAtMost result bytes.now }
        ensures bytes { WriteAppends (if self.old.is_terminal then None else W.contents self.old.inner)
            (if self.new.is_terminal then None else W.contents self.new.inner) result bytes.now }
        ensures same { self.new.is_terminal ≡ self.old.is_terminal }
        ensures plain { self.old.is_terminal ≡ false
            → WriteAppends (W.contents self.old.inner) (W.contents self.new.inner) result bytes.now }
        ensures whole { self.old.is_terminal ≡ true → IfOk result (λ n. n ≡ length bytes.now) }
        ensures text { self.old.is_terminal ≡ true → OnOk result (IsUtf8 bytes.now) }
        ensures shown { self.old.is_terminal ≡ true
            → OnOk result (Appends (W.contents self.old.inner) (W.contents self.new.inner) (shown bytes.now)) }
    {
        if !self.is_terminal {
            return self.inner.write(bytes);
        }
        let Ok(text) = str::from_utf8(bytes) else {
            return Err(io::Error::from(ErrorKind::InvalidData));
        };
        // Most texts are shown as they are, without an allocation: a program without memory can still print its fault.
        if !has_hidden(text) {
            self.inner.write_all(bytes)?;
            return Ok(bytes.len());
        }
        let shown = shown_text(self.alloc, text)?;
        self.inner.write_all(shown.as_bytes())?;
        Ok(bytes.len())
    }

    fn flush(&mut self) -> io::Result<()>
        ensures bytes { Keeps (if self.old.is_terminal then None else W.contents self.old.inner)
            (if self.new.is_terminal then None else W.contents self.new.inner) }
        ensures same { self.new.is_terminal ≡ self.old.is_terminal }
    {
        self.inner.flush()
    }
}
