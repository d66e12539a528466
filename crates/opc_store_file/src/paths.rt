//! What the system does at the paths of database files.

use os::RangeLock;
use std::fs::{File, Metadata, OpenOptions};
use std::os::fd::AsRawFd;
use std::os::unix::fs::{MetadataExt, OpenOptionsExt};
use std::path::PathBuf;
use std::{fs, io};

/// The bytes of a database file that SQLite locks, and how many they are.
pub(crate) const LOCK_BYTES: (u64, u64) = (1 << 30, 512);

/// Where databases have their files. Only its calls can show what a function over any paths promises by its facts.
pub trait DatabasePaths {
    ghost use Rattle.std.specs.Prelude.{◌≡◌, ℕ, Bool, List, Option, None, Some, IfNone, IfOk, IfSome, OnOk};
    ghost use Rattle.std.specs.Path.{path_buf_bytes};
    ghost use Rattle.opc_store_file.specs.Site.{IsMade, IsSpareLog, owner_alone};

    /// A call made an empty file at this path, its owner's alone.
    ghost makes: { Self → List ℕ → Type 0 };

    /// A path leads to the file at this one, in which no link is.
    ghost leads: { Self → (path file : List ℕ) → Type 0 };

    /// What a path leads to had this many bytes.
    ghost sizes: { Self → List ℕ → ℕ → Type 0 };

    /// Whether something was at a path.
    ghost finds: { Self → List ℕ → Bool → Type 0 };

    /// The plain file at a path had this many bytes, or none was seen.
    ghost measures: { Self → List ℕ → Option ℕ → Type 0 };

    /// The plain file at a path was locked, and had this many bytes; or it could not be.
    ghost locks: { Self → List ℕ → Option ℕ → Type 0 };

    /// A call removed the file at a path, and whether it succeeded.
    ghost removes: { Self → List ℕ → Bool → Type 0 };

    /// A lock, which ends as this is dropped.
    type Lock: Drop;

    /// Makes an empty file with these permissions. It fails if something is there.
    fn make_empty(&self, path: &str, mode: u32) -> io::Result<()>
        requires { mode ≡ owner_alone }
        ensures { OnOk result (makes self.now path.now) };

    fn resolve(&self, path: &str) -> io::Result<PathBuf>
        ensures { IfOk result (λ file. leads self.now path.now (path_buf_bytes file)) };

    fn size(&self, path: &str) -> io::Result<u64>
        ensures { IfOk result (λ length. sizes self.now path.now length) };

    /// Whether something is there. If that is unknown, it counts as there, and is left alone.
    fn is_there(&self, path: &str) -> bool
        ensures { finds self.now path.now result };

    fn measure(&self, path: &str) -> Option<u64>
        ensures { measures self.now path.now result };

    /// Locks the plain file at a path as SQLite locks it, unless another program has it open.
    fn lock(&self, path: &str) -> Option<(Self::Lock, u64)>
        ensures locked { IfSome result (λ held. locks self.now path.now (Some held.1)) }
        ensures free { IfNone result (locks self.now path.now None) };

    /// Removes an empty database file that the opening made.
    fn remove_database(&self, path: &str) -> bool
        requires made { IsMade makes leads self.now path.now }
        requires empty { locks self.now path.now (Some 0) }
        ensures { removes self.now path.now result };

    /// Removes a log that was not there before the opening, and in which nothing is.
    fn remove_log(&self, path: &str) -> bool
        requires { IsSpareLog sizes finds measures locks self.now path.now }
        ensures { removes self.now path.now result };
}

/// The plain file at a path, opened to be written, and what was there as it was looked at.
fn plain_file(rt: &HostRuntime, path: &str) -> Option<(File, Metadata)> {
    let named = fs::symlink_metadata(rt, path).ok()?;
    if !named.is_file() {
        return None;
    }
    let opened = OpenOptions::new().read(true).write(true).open(rt, path);
    Some((opened.ok()?, named))
}

fn is_locked(file: &File) -> bool {
    let (start, count) = LOCK_BYTES;
    os::try_lock_range(file.as_raw_fd(), RangeLock::Exclusive, start, count) == 0
}

pub(crate) fn is_same(one: &Metadata, other: &Metadata) -> bool {
    one.dev() == other.dev() && one.ino() == other.ino()
}

// No clause states what the system's calls do: `opc_store_file_tests` tests each.
impl DatabasePaths for HostRuntime {
    ghost use Rattle.std.specs.Prelude.{⊤};

    ghost makes = { λ _ _. ⊤ };

    ghost leads = { λ _ _ _. ⊤ };

    ghost sizes = { λ _ _ _. ⊤ };

    ghost finds = { λ _ _ _. ⊤ };

    ghost measures = { λ _ _ _. ⊤ };

    ghost locks = { λ _ _ _. ⊤ };

    ghost removes = { λ _ _ _. ⊤ };

    type Lock = File;

    fn make_empty(&self, path: &str, mode: u32) -> io::Result<()> {
        OpenOptions::new()
            .write(true)
            .create_new(true)
            .mode(mode)
            .open(self, path)?;
        Ok(())
    }

    fn resolve(&self, path: &str) -> io::Result<PathBuf> {
        fs::canonicalize(self, path)
    }

    fn size(&self, path: &str) -> io::Result<u64> {
        Ok(fs::metadata(self, path)?.len())
    }

    fn is_there(&self, path: &str) -> bool {
        match fs::symlink_metadata(self, path) {
            Err(error) => error.kind() != io::ErrorKind::NotFound,
            Ok(_) => true,
        }
    }

    fn measure(&self, path: &str) -> Option<u64> {
        match fs::symlink_metadata(self, path) {
            Ok(found) if found.is_file() => Some(found.len()),
            // What is no file, or is not shown, has no length.
            _ => None,
        }
    }

    fn lock(&self, path: &str) -> Option<(File, u64)> {
        let (file, named) = plain_file(self, path)?;
        if !is_locked(&file) {
            return None;
        }
        let opened = file.metadata().ok()?;
        if !is_same(&opened, &named) {
            return None;
        }
        Some((file, opened.len()))
    }

    fn remove_database(&self, path: &str) -> bool {
        fs::remove_file(self, path).is_ok()
    }

    fn remove_log(&self, path: &str) -> bool {
        fs::remove_file(self, path).is_ok()
    }
}
