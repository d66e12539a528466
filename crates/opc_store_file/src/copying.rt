//! Reads a database file and its log whole, to be opened in memory. On the disk nothing is made or changed, so
//! permission to read suffices: also in a folder that cannot be written, and on a disk that is full or read-only.
ghost use Rattle.std.specs.Prelude.{◌≡◌, Err, IfOk, IsTrue, false, true};
ghost use Rattle.opc_store_file.specs.Copies.{IsAsRead};
ghost use Rattle.opc_store_file.specs.Site.{means_no_file};
ghost use Rattle.opc_store_file.specs.declared.copying.NotCopied.TheVariants.{NoPath};

use crate::copy::CopyFrom;
use crate::paths::{LOCK_BYTES, is_same};
use crate::site::{log_of, means_no_file, unfound};
use os::RangeLock;
use sqlite_disk::{Files, Start};
use std::alloc::AllocError;
use std::fs::{File, Metadata, OpenOptions};
use std::io::{ErrorKind, Read};
use std::os::fd::AsRawFd;
use std::os::unix::fs::{FileExt, MetadataExt};
use std::{fs, io};

/// Why a database file cannot be read.
#[derive(Clone, Copy, Debug)]
pub enum NotCopied {
    System(io::Error),
    NoMemory,
    /// A name that means no file to SQLite.
    NoPath,
    /// It, or its log, is a folder, a link or a device, or has several names.
    NoPlainFile,
    /// Another process has it open, or wrote it meanwhile.
    InUse,
    /// It has a rollback journal, which SQLite alone can play back.
    Journal,
}

impl From<io::Error> for NotCopied {
    fn from(error: io::Error) -> Self {
        NotCopied::System(error)
    }
}

impl From<AllocError> for NotCopied {
    fn from(_error: AllocError) -> Self {
        NotCopied::NoMemory
    }
}

/// Reads the database file at a path and its log, which may be missing. `S` stands for what they hold. The system's
/// calls promise nothing about files, so no clause states that these bytes are theirs: `tools/program readers` tests
/// it.
pub fn copy_files<S: Start>(
    rt: &HostRuntime,
    path: &str,
    _start: S,
) -> Result<Files<CopyFrom<S>>, NotCopied>
    ensures log { IfOk result (λ files. IsAsRead true files.log) }
    ensures db { IfOk result (λ files. IsAsRead false files.db) }
    ensures no_path { IsTrue (means_no_file path.now) → result ≡ Err NoPath }
{
    if means_no_file(path) {
        return Err(NotCopied::NoPath);
    }
    let (db, log) = read_both(rt, path)?;
    Ok(Files {
        log: CopyFrom::new(log, true),
        db: CopyFrom::new(db, false),
    })
}

/// The bytes of the database file and of its log, as they are at one point in time.
fn read_both(rt: &HostRuntime, path: &str) -> Result<(Vec<u8>, Vec<u8>), NotCopied> {
    let database = match fs::canonicalize(rt, path) {
        Ok(database) => database,
        Err(error) => return Err(NotCopied::System(unfound(rt, path, error))),
    };
    let (file, found) = open_locked(rt, database.as_str())?;
    let journal = format!(in rt.alloc(); "{}-journal", database.as_str())?;
    if has_journal(rt, journal.as_str())? {
        return Err(NotCopied::Journal);
    }
    let db = bytes_in(rt, &file)?;
    let log = log_at(rt, log_of(rt.alloc(), database.as_str())?.as_str())?;
    if is_unchanged(&found, &file.metadata()?) {
        Ok((db, log))
    } else {
        Err(NotCopied::InUse)
    }
}

/// Opens a plain file of one name, and locks it as SQLite does. If it may be written, nobody else may have it open. If
/// it may only be read, no process that takes SQLite's locks may write it, unless through a log that is shared.
fn open_locked(rt: &HostRuntime, path: &str) -> Result<(File, Metadata), NotCopied> {
    let named = fs::symlink_metadata(rt, path)?;
    if !named.is_file() {
        return Err(NotCopied::NoPlainFile);
    }
    let (file, lock) = match OpenOptions::new().read(true).write(true).open(rt, path) {
        Ok(file) => (file, RangeLock::Exclusive),
        Err(_) => (File::open(rt, path)?, RangeLock::Shared),
    };
    let found = file.metadata()?;
    if !is_same(&found, &named) || found.nlink() != 1 {
        return Err(NotCopied::NoPlainFile);
    }
    let (start, count) = LOCK_BYTES;
    if os::try_lock_range(file.as_raw_fd(), lock, start, count) == 0 {
        return Ok((file, found));
    }
    let error = io::Error::from_raw_os_error(os::errno());
    if error.kind() == ErrorKind::WouldBlock {
        Err(NotCopied::InUse)
    } else {
        Err(NotCopied::System(error))
    }
}

/// Whether something is at a journal's name that SQLite would play back, or that is no plain file. One that is empty or
/// begins with a zero has nothing to play back.
fn has_journal(rt: &HostRuntime, path: &str) -> io::Result<bool> {
    match fs::symlink_metadata(rt, path) {
        Ok(found) if found.is_file() => {
            let mut first = [0];
            Ok(File::open(rt, path)?.read(&mut first)? == 1 && first[0] != 0)
        }
        Ok(_) => Ok(true),
        Err(error) if error.kind() == ErrorKind::NotFound => Ok(false),
        Err(error) => Err(error),
    }
}

/// The bytes of the log at a path: none if it is missing.
fn log_at(rt: &HostRuntime, path: &str) -> Result<Vec<u8>, NotCopied> {
    match fs::symlink_metadata(rt, path) {
        Ok(named) if named.is_file() && named.nlink() == 1 => bytes_in(rt, &File::open(rt, path)?),
        Ok(_) => Err(NotCopied::NoPlainFile),
        Err(error) if error.kind() == ErrorKind::NotFound => Ok(Vec::new(rt.alloc())),
        Err(error) => Err(NotCopied::System(error)),
    }
}

fn bytes_in(rt: &HostRuntime, file: &File) -> Result<Vec<u8>, NotCopied> {
    let mut bytes = Vec::new(rt.alloc());
    bytes.resize(file.metadata()?.len() as usize, 0)?;
    file.read_exact_at(&mut bytes, 0)?;
    Ok(bytes)
}

/// Whether nobody wrote the file between two observations of it.
fn is_unchanged(one: &Metadata, other: &Metadata) -> bool {
    one.len() == other.len()
        && one.mtime() == other.mtime()
        && one.mtime_nsec() == other.mtime_nsec()
}
