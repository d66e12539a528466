//! Where policy files are opened.
ghost use Rattle.std.specs.Prelude.{◌≡◌, ℕ, List, Option, IfOk, IfSome};

use std::fs::{File, Files};
use std::io;
use std::io::Read;

/// What opens files, so that they are read.
pub trait Openings {
    type File: Read + Drop;

    /// The bytes that the file at a path holds, if they are known.
    ghost holds: { Self → List ℕ → Option (List ℕ) };

    /// Opens the file at a path.
    fn open_to_read(&self, path: &str) -> io::Result<Self::File>
        ensures { IfOk result (λ file. IfSome (holds self.now path.now)
            (λ bytes. Self.File.remaining file ≡ Some bytes)) };
}

// Nothing is known about what the files of a system hold.
impl<H: Files> Openings for H {
    ghost use Rattle.std.specs.Prelude.{None};

    type File = H::File;

    ghost holds = { λ _ _. None };

    fn open_to_read(&self, path: &str) -> io::Result<H::File> {
        File::open(self, path)
    }
}
