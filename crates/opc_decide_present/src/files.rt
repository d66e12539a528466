//! Where the policy file is.

use crate::identity::FileIdentity;
use std::io;

/// A file that was opened, and its identity then.
#[derive(Drop)]
pub struct FoundFile<H> {
    pub file: H,
    pub identity: FileIdentity,
}

/// The bytes of a file, and its identity after they were read.
#[derive(Drop)]
pub struct ReadFile {
    pub bytes: Vec<u8>,
    pub identity: FileIdentity,
}

/// The place of the policy file. Each of its calls leads from one state of the place to the next,
/// and only they can show what a function over any place promises by its facts.
pub trait PolicyPlace {
    ghost use Rattle.std.specs.Prelude.{Result};
    ghost use Rattle.std.specs.declared.io.Error.{Error};
    ghost use Rattle.opc_decide_present.specs.declared.files.FoundFile.{FoundFile};
    ghost use Rattle.opc_decide_present.specs.declared.files.ReadFile.{ReadFile};

    /// A handle of an open file.
    type File: Drop;

    /// The file that is there was opened, and its identity observed through that handle; or a call failed.
    ghost finds: { Self → Result (FoundFile Self.File) Error → Self → Type 0 };

    /// A file that was found was read through its handle, and then its identity was observed; or a call failed.
    ghost reads: { Self → Self.File → Result ReadFile Error → Self → Type 0 };

    /// Opens the file that is there.
    fn find(&mut self) -> io::Result<FoundFile<Self::File>>
        ensures { finds self.old result self.new };

    /// Reads a file that was found, whole, or up to one byte more than a policy file may have.
    fn read(&mut self, file: &mut Self::File) -> io::Result<ReadFile>
        ensures { reads self.old file.old result self.new };
}
