//! What is at the path of a database file before it is opened, and what a refused opening leaves there.
ghost use Rattle.std.specs.Prelude.{◌≡◌, IfOk, IfSome, IsTrue, OnOk, Some, string_bytes};
ghost use Rattle.std.specs.Option.{is_none};
ghost use Rattle.opc_store_file.specs.Site.{
  IsDatabaseTidied,
  IsLogTidied,
  IsSite,
  IsTidied,
  database_path,
  log_of,
  means_no_file,
};

use crate::paths::DatabasePaths;
use crate::spare::{Prior, has_page, is_spare_database, is_spare_log};
use std::alloc::{AllocError, Global};
use std::io;
use std::io::ErrorKind;
use std::path::PathBuf;

/// A new file is for its owner alone, whatever the umask allows.
const OWNER_ALONE: u32 = 0o600;

/// Why no database takes the place of one whose log is still there.
const MOVED: &str = "missing, but its log (-wal) is there; move the log along, or remove it";

/// What an opening does if there is no file.
#[derive(Clone, Copy, Debug, PartialEq, Eq)]
pub enum IfMissing {
    /// It makes one.
    Make,
    /// It is refused.
    Refuse,
}

/// Where a database file and its log lie, with no link in their paths, and what was there.
#[derive(Drop)]
pub struct Site {
    database: PathBuf,
    log: String,
    prior: Prior,
}

/// Whether SQLite gives this path a meaning of its own, so that it means no file.
pub fn means_no_file(path: &str) -> bool
    ensures { result ≡ means_no_file path.now }
{
    path == ":memory:" || path.as_bytes().starts_with(b"file:")
}

/// The path of the log of the database file at this one.
pub(crate) fn log_of(alloc: Global, database: &str) -> Result<String, AllocError>
    ensures { IfOk result (λ log. string_bytes log ≡ log_of database.now) }
{
    format!(in alloc; "{}-wal", database)
}

/// Looks at what is at a path, and makes the database file if nothing is and it may be made. It is empty then, and its
/// owner's alone; the log that SQLite makes beside it gets the same mode. None if the path means no file. None is made
/// beside the log of another one.
pub fn prepare<N: AllocGlobal + DatabasePaths>(
    rt: &N,
    path: &str,
    if_missing: IfMissing,
) -> io::Result<Option<Site>>
    ensures named { IfOk result (λ found. is_none found ≡ means_no_file path.now) }
    ensures found { IfOk result (λ found. IfSome found (λ site. IsSite N.makes N.leads N.sizes N.finds rt.now site)) }
{
    if means_no_file(path) {
        return Ok(None);
    }
    let is_made = make_if_missing(rt, path, if_missing)?;
    match Site::at(rt, path, is_made) {
        Ok(site) => Ok(Some(site)),
        Err(error) => {
            if is_made {
                remove_empty(rt, path);
            }
            Err(error)
        }
    }
}

/// Makes the file if nothing is there and it may be made. Returns whether it did.
fn make_if_missing<N: AllocGlobal + DatabasePaths>(
    rt: &N,
    path: &str,
    if_missing: IfMissing,
) -> io::Result<bool>
    ensures { IfOk result (λ is_made. IsTrue is_made → N.makes rt.now path.now) }
{
    match rt.size(path) {
        Ok(_) => Ok(false),
        Err(error) => make_missing(rt, path, if_missing, error),
    }
}

/// Makes the file that the system does not find, if it may be made. Returns whether it did.
fn make_missing<N: AllocGlobal + DatabasePaths>(
    rt: &N,
    path: &str,
    if_missing: IfMissing,
    error: io::Error,
) -> io::Result<bool>
    ensures { IfOk result (λ is_made. IsTrue is_made → N.makes rt.now path.now) }
{
    let may_be_made = error.kind() == ErrorKind::NotFound && if_missing == IfMissing::Make;
    if !may_be_made || has_left_log(rt, path)? {
        return Err(unfound(rt, path, error));
    }
    make(rt, path)
}

/// Why the system does not find a file. If it is missing beside a log, that is more than the system says.
pub(crate) fn unfound<N: AllocGlobal + DatabasePaths>(
    rt: &N,
    path: &str,
    error: io::Error,
) -> io::Error {
    if error.kind() != ErrorKind::NotFound {
        return error;
    }
    match has_left_log(rt, path) {
        Ok(true) => io::Error::new(ErrorKind::NotFound, MOVED),
        Ok(false) => error,
        Err(no_memory) => no_memory,
    }
}

/// Whether there is a log with a page in it beside the path. What the system does not show is no log.
fn has_left_log<N: AllocGlobal + DatabasePaths>(rt: &N, path: &str) -> io::Result<bool> {
    let log = log_of(rt.alloc(), path)?;
    match rt.measure(log.as_str()) {
        Some(length) => Ok(has_page(length)),
        None => Ok(false),
    }
}

/// Makes the file, unless something is there by now. Nobody else may read it at any time.
fn make<N: DatabasePaths>(rt: &N, path: &str) -> io::Result<bool>
    ensures { IfOk result (λ is_made. IsTrue is_made → N.makes rt.now path.now) }
{
    match rt.make_empty(path, OWNER_ALONE) {
        Ok(()) => Ok(true),
        Err(error) if error.kind() == ErrorKind::AlreadyExists => Ok(false),
        Err(error) => Err(error),
    }
}

/// Removes a file that was made and is still empty.
fn remove_empty<N: DatabasePaths>(rt: &N, path: &str)
    requires { N.makes rt.now path.now }
{
    if let Some((lock, 0)) = rt.lock(path) {
        let _ = rt.remove_database(path);
        drop(lock);
    }
}

impl Site {
    fn at<N: AllocGlobal + DatabasePaths>(rt: &N, path: &str, is_made: bool) -> io::Result<Self>
        requires { IsTrue is_made → N.makes rt.now path.now }
        ensures { IfOk result (λ site. IsSite N.makes N.leads N.sizes N.finds rt.now site) }
    {
        let database = rt.resolve(path)?;
        let log = log_of(rt.alloc(), database.as_str())?;
        let prior = Prior {
            is_made,
            length: rt.size(database.as_str())?,
            has_log: rt.is_there(log.as_str()),
        };
        Ok(Site {
            database,
            log,
            prior,
        })
    }

    /// Removes what a refused opening left and nobody needs. The opening has closed the files by now; nothing is
    /// removed if another program has them open.
    pub fn tidy<N: DatabasePaths>(&self, rt: &N)
        requires { IsSite N.makes N.leads N.sizes N.finds rt.now self.now }
        ensures { IsTidied N.removes rt.now self.now N.measures N.locks }
    {
        let Some((lock, length)) = rt.lock(self.database.as_str()) else {
            return;
        };
        self.tidy_log(rt, length);
        self.tidy_database(rt, length);
        // The lock is held until here.
        drop(lock);
    }

    /// Removes the log if nobody needs it. The database file is locked, and has this many bytes.
    fn tidy_log<N: DatabasePaths>(&self, rt: &N, length: u64)
        requires site { IsSite N.makes N.leads N.sizes N.finds rt.now self.now }
        requires locked { N.locks rt.now (database_path self.now) (Some length) }
        ensures { IsLogTidied N.removes rt.now self.now N.measures length }
    {
        let log = self.log.as_str();
        let measured = rt.measure(log);
        if let Some(log_length) = measured {
            if is_spare_log(self.prior, length, log_length) {
                let _ = rt.remove_log(log);
            }
        }
    }

    /// Removes the database file if nobody needs it.
    fn tidy_database<N: DatabasePaths>(&self, rt: &N, length: u64)
        requires site { IsSite N.makes N.leads N.sizes N.finds rt.now self.now }
        requires locked { N.locks rt.now (database_path self.now) (Some length) }
        ensures { IsDatabaseTidied N.removes rt.now self.now length }
    {
        if is_spare_database(self.prior, length) {
            let _ = rt.remove_database(self.database.as_str());
        }
    }
}
