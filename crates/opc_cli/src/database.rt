//! Why a database file is not opened, as the system reports it if the file is opened again.
use opc_cli_failures::reason::Reason;
use opc_store_file::copying::{NotCopied, copy_files};
use opc_store_file::site::{IfMissing, prepare};
use sqlite::Wary;
use sqlite_std_file::OpenError;
use std::fs::{File, OpenOptions};
use std::io::{ErrorKind, Read};
use std::{fs, io};

/// What the first bytes of a database file are.
const MAGIC: [u8; 16] = *b"SQLite format 3\0";

/// How many bytes of its header state how the file is read.
const HEADER: usize = 60;

/// Where the header has the greatest page that is the root of a tree: 0 without auto_vacuum.
const GREATEST_ROOT: usize = 52;

/// Where it has the encoding of texts, in the last byte of four: 1 is UTF-8.
const ENCODING: usize = 59;

/// Why the database at this path was not opened. As after the opening itself, nothing is left behind. The words are a
/// note beside the fault. They depend on the file and the system, so they have no clause; `tools/program` tries them.
pub fn reason_at(rt: &HostRuntime, path: &str, if_missing: IfMissing) -> Reason {
    match prepare(rt, path, if_missing) {
        Ok(Some(site)) => {
            let reason = reason_again(rt, path);
            site.tidy(rt);
            reason
        }
        Ok(None) => Reason::NoPath,
        Err(error) => Reason::System(error),
    }
}

/// Why it was not opened to be read. Nothing is made or changed.
pub fn reason_to_read(rt: &HostRuntime, path: &str) -> Reason {
    match copy_files(rt, path, Wary) {
        Ok(_) => reason_in(rt, path),
        Err(NotCopied::System(error)) => Reason::System(error),
        Err(NotCopied::NoMemory) => Reason::Unreadable,
        Err(NotCopied::NoPath) => Reason::NoPath,
        Err(NotCopied::NoPlainFile) => irregular(rt, path),
        Err(NotCopied::InUse) => Reason::InUse,
        Err(NotCopied::Journal) => Reason::Journal,
    }
}

/// Why a file that was read has none of our tables: it is empty, or has tables of the given version.
pub fn reason_for_tables(rt: &HostRuntime, path: &str, version: u64) -> Reason {
    match fs::metadata(rt, path) {
        Ok(found) if found.len() <= 1 => {
            let words = "an empty database";
            Reason::System(io::Error::new(ErrorKind::Unsupported, words))
        }
        // Any other file was read whole, and its tables are not ours, or of another version.
        _ => Reason::Tables(version),
    }
}

/// Why the file is not opened, if it is opened once more.
fn reason_again(rt: &HostRuntime, path: &str) -> Reason {
    match sqlite_std_file::open(rt, path, Wary) {
        Ok(_) => reason_in(rt, path),
        Err(OpenError::Io(error)) if error.kind() == ErrorKind::Unsupported => {
            irregular(rt, path)
        }
        Err(OpenError::Io(error)) => Reason::System(error),
        Err(OpenError::Busy) => Reason::InUse,
        Err(OpenError::HotJournal) => Reason::Journal,
        Err(OpenError::OutOfMemory) => Reason::Unreadable,
    }
}

/// Why a file that the system opens holds no tables.
fn reason_in(rt: &HostRuntime, path: &str) -> Reason {
    match header(rt, path) {
        Ok(Some(header)) => reason_by(&header),
        Ok(None) => Reason::NoDatabase,
        Err(error) => Reason::System(error),
    }
}

/// Why a database with this header holds no tables: it is of a kind that cannot be read, or the cause is unknown.
fn reason_by(header: &[u8; HEADER]) -> Reason {
    let words = if !header[GREATEST_ROOT..].starts_with(&[0; 4]) {
        "a database with auto_vacuum, which is not supported"
    } else if header[ENCODING] > 1 {
        "a database in UTF-16, which is not supported"
    } else {
        return Reason::Unreadable;
    };
    Reason::System(io::Error::new(ErrorKind::Unsupported, words))
}

/// The header of the file, if it begins like a database; an empty file, which may become one, has zeros.
fn header(rt: &HostRuntime, path: &str) -> io::Result<Option<[u8; HEADER]>> {
    let mut file = File::open(rt, path)?;
    let mut header = [0; HEADER];
    let count = file.read(&mut header)?;
    if count == 0 || header.starts_with(&MAGIC) {
        Ok(Some(header))
    } else {
        Ok(None)
    }
}

/// Why what is at this path is not accepted as a database file: it is a folder or a device, or has several names.
fn irregular(rt: &HostRuntime, path: &str) -> Reason {
    match OpenOptions::new().read(true).write(true).open(rt, path) {
        Ok(_) => Reason::NoPlainFile,
        Err(error) => Reason::System(error),
    }
}
