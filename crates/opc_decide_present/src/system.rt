//! The policy file at a path of the system.

use crate::files::{FoundFile, PolicyPlace, ReadFile};
use crate::identity::FileIdentity;
use std::fs::{File, Files, Metadata, OpenFile};
use std::io;
use std::io::Read;
use std::os::unix::fs::MetadataExt;

/// A path, and the most bytes that a policy file may have.
#[derive(Drop)]
pub struct PolicyPath<'a, N> {
    files: &'a N,
    path: &'a str,
    limit: u32,
}

impl<'a, N> PolicyPath<'a, N> {
    ghost use Rattle.std.specs.Prelude.{◌≡◌};

    pub fn new(files: &'a N, path: &'a str, limit: u32) -> Self
        ensures path { result.path.now ≡ path.now }
        ensures limit { result.limit ≡ limit }
    {
        PolicyPath { files, path, limit }
    }
}

fn identity_of(found: &Metadata) -> FileIdentity {
    FileIdentity {
        device: found.dev(),
        number: found.ino(),
        size: found.size(),
        seconds: found.mtime(),
        nanoseconds: found.mtime_nsec(),
    }
}

// No clause states what the system's calls do.
impl<N: AllocGlobal + Files> PolicyPlace for PolicyPath<'_, N> {
    ghost use Rattle.std.specs.Prelude.{⊤};

    type File = N::File;

    ghost finds = { λ _ _ _. ⊤ };

    ghost reads = { λ _ _ _ _. ⊤ };

    fn find(&mut self) -> io::Result<FoundFile<N::File>> {
        let file = File::open(self.files, self.path)?;
        let identity = identity_of(&file.metadata()?);
        Ok(FoundFile { file, identity })
    }

    fn read(&mut self, file: &mut N::File) -> io::Result<ReadFile> {
        let mut bytes = Vec::new(self.files.alloc());
        file.by_ref()
            .take(u64::from(self.limit) + 1)
            .read_to_end(&mut bytes)?;
        let identity = identity_of(&file.metadata()?);
        Ok(ReadFile { bytes, identity })
    }
}
