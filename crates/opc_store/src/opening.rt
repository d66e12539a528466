//! Opening and closing.
ghost use Rattle.std.specs.Prelude.{◌≡◌, ◌⊎◌, Bool, false, IfOk, IfErr, IsTrue, IsFalse};
ghost use Rattle.sqlite.specs.Held.{state};
ghost use Rattle.sqlite.specs.Closing.{IsCopied};
ghost use Rattle.sqlite.specs.Files.{file_state};
ghost use Rattle.sqlite_std_file.specs.File.{IsFresh};
ghost use Rattle.sqlite.specs.WalFiles.{image_at};
ghost use Rattle.sqlite.specs.WalReads.{AreClean};
ghost use Rattle.sqlite.specs.State.{HasCleanDisk, Survives};
ghost use Rattle.opc_store_sql.specs.Shapes.{no_schema};
ghost use Rattle.opc_state.specs.State.{empty};
ghost use Rattle.opc_store_schema.specs.Making.{AreMadeOver};
ghost use Rattle.opc_store_schema.specs.Represented.{Represents, AreTablesOf};
ghost use Rattle.opc_store_schema.specs.Ours.{has_our_name};
ghost use Rattle.opc_store_old_tables.specs.Old.{AreOldTablesOf, RepresentsOld};
ghost use Rattle.opc_store.specs.Opening.{
  new_files,
  open_fault,
  unasked,
  IsKnown,
  IsNoVersion,
  IsOpenedAt,
  IsRefused,
  IsNotOpened,
  LeavesItself,
  MayLeave,
  FailsAtPath,
};
ghost use Rattle.opc_store.specs.declared.opening.OpenFault.TheVariants as TheFault;

use crate::store::Store;
use opc_store_file::copying::NotCopied;
use opc_store_file::site::{IfMissing, prepare};
use opc_store_migration::migrate::migrate_on;
use opc_store_schema::faults::fault;
use opc_store_schema::making::make_tables;
use opc_store_schema::names::has_our_name;
use opc_store_schema::version::{VERSION, version_on};
use opc_terms::fault::Fault;
use opc_terms::store_fault::StoreFault;
use sqlite::{Alter, Connection, Error, ErrorCode, FileFrom, FileStore, Files, Start, Wary};
use sqlite_disk::{Disk, is_no_room};
use std::alloc::Global;
use std::io;
use std::io::ErrorKind;
use thiserror::Error;

/// The version of our tables, as it is read.
pub(crate) const OURS: u64 = VERSION as u64;

/// Why a database is not opened.
#[derive(Clone, Copy, Debug, PartialEq, Eq, Error)]
pub enum OpenFault {
    #[error("no memory")]
    NoMemory,
    #[error("the store failed")]
    Store,
    /// The version of the tables, if it is another one; 0 if they are another program's.
    #[error("tables of version {0}")]
    NotOurs(u64),
}

impl From<StoreFault> for OpenFault {
    ghost use Rattle.std.specs.Prelude.{◌≡◌};
    ghost use Rattle.opc_store.specs.Opening.{of_store};

    ghost from_gives = { λ fault returned. returned ≡ of_store fault };

    fn from(fault: StoreFault) -> Self {
        match fault {
            StoreFault::NoMemory => OpenFault::NoMemory,
            StoreFault::Store => OpenFault::Store,
        }
    }
}

impl From<OpenFault> for Fault {
    ghost use Rattle.std.specs.Prelude.{◌≡◌};
    ghost use Rattle.opc_store.specs.Opening.{opening_fault};

    ghost from_gives = { λ fault returned. returned ≡ opening_fault fault };

    fn from(fault: OpenFault) -> Self {
        match fault {
            OpenFault::NoMemory => Fault::NoMemory,
            OpenFault::Store => Fault::Store,
            OpenFault::NotOurs(version) => Fault::NotOurs { version },
        }
    }
}

/// Why a database file at a path is not opened.
#[derive(Clone, Copy, Debug, PartialEq, Eq)]
pub struct NotOpened {
    pub fault: OpenFault,
    /// A write met a full disk.
    pub is_full: bool,
}

impl NotOpened {
    /// The system refused the file.
    pub(crate) fn by_system(error: io::Error) -> Self
        ensures { IsNoVersion result.fault }
    {
        let fault = match error.kind() {
            ErrorKind::OutOfMemory => OpenFault::NoMemory,
            // No other error of the system is a failed allocation.
            _ => OpenFault::Store,
        };
        NotOpened {
            fault,
            is_full: is_no_room(&error),
        }
    }

    /// The files could not be read.
    pub(crate) fn by_copying(error: NotCopied) -> Self
        ensures { IsNoVersion result.fault }
    {
        match error {
            NotCopied::System(error) => NotOpened::by_system(error),
            NotCopied::NoMemory => NotOpened::unread(OpenFault::NoMemory),
            // Otherwise the file cannot be read as a database, whatever stands at its path.
            _ => NotOpened::unread(OpenFault::Store),
        }
    }

    /// A file that was opened to be read, not written.
    pub(crate) fn unread(fault: OpenFault) -> Self
        ensures { result.fault ≡ fault }
    {
        NotOpened {
            fault,
            is_full: false,
        }
    }

    /// The files were not opened as a database.
    pub(crate) fn by_files(error: Error) -> Self
        ensures { result.fault ≡ open_fault error }
    {
        let is_full = match &error {
            Error::SqliteFailure(ErrorCode::DiskFull) => true,
            // No other error is about room on the disk.
            _ => false,
        };
        NotOpened {
            fault: open_fault(error),
            is_full,
        }
    }

    /// What the files held was not adopted.
    pub(crate) fn by_tables<D: Disk + Drop>(
        fault: OpenFault,
        conn: Connection<FileStore<D>>,
    ) -> Self
        ensures { result.fault ≡ fault }
    {
        NotOpened {
            fault,
            is_full: conn.into_store().tally().refused > 0,
        }
    }
}

fn open_fault(error: Error) -> OpenFault
    ensures exact { result ≡ open_fault error }
    ensures no_version { IsNoVersion result }
{
    OpenFault::from(fault(error))
}

// If meta cannot be queried for its version, it is another program's.
pub(crate) fn version_fault(error: Error) -> OpenFault
    ensures { result ≡ unasked error }
{
    match error {
        Error::SqlInputError(_) => OpenFault::NotOurs(0),
        error => open_fault(error),
    }
}

impl<S: Alter> Store<S> {
    // Tables of version 1 or 2 become those of this version, of the same state.
    fn copied(alloc: Global, mut conn: Connection<S>) -> Result<Self, (OpenFault, Connection<S>)>
        requires { conn.in_transaction ≡ false }
        ensures copied { IfOk result (λ store. HasCleanDisk (state S.Store store) → (version : _) → (s : _)
            → RepresentsOld version (state S.Store conn).now s → Represents (state S.Store store).now s) }
        ensures unharmed { IfErr result (λ e. HasCleanDisk (state S.Store e.1) → IsTrue (state S.Store e.1).is_open
            → (state S.Store e.1).now ≡ (state S.Store conn).now) }
        ensures returned { IfErr result (λ e. IsNoVersion e.0) }
        ensures crash { IfOk result (λ store. Survives (state S.Store conn) (state S.Store store)
            (λ db. (version : _) → (s : _) → RepresentsOld version (state S.Store conn).now s → AreTablesOf db s)) }
        ensures crash_at_fault { IfErr result
            (λ e. Survives (state S.Store conn) (state S.Store e.1)
            (λ db. (version : _) → (s : _) → RepresentsOld version (state S.Store conn).now s → AreTablesOf db s)) }
        ensures outside { IfErr result (λ e. e.1.in_transaction ≡ false) }
        ensures settled { IfOk result (λ store. LeavesItself (state S.Store store)) }
    {
        match migrate_on(&mut conn) {
            Ok(()) => Ok(Store {
                conn,
                alloc,
                has_seen_profiles: false,
            }),
            Err(fault) => Err((OpenFault::from(fault), conn)),
        }
    }

    /// Adopts a connection. A database without a table or an index of our names gets the tables, in one transaction.
    /// One with such a name has tables of this version; or they are of version 1 or 2, and are migrated to this
    /// version, in one transaction; or it is `NotOurs`, with the version that it names, or with 0. A fault returns the
    /// connection.
    pub fn open_files(
        alloc: Global,
        mut conn: Connection<S>,
    ) -> Result<Self, (OpenFault, Connection<S>)>
        requires { conn.in_transaction ≡ false }
        ensures found { IfOk result (λ store. HasCleanDisk (state S.Store store) → IsTrue (state S.Store conn).is_open
            → (s : _) → AreTablesOf (state S.Store conn).now.trees s → Represents (state S.Store store).now s) }
        ensures copied { IfOk result (λ store. HasCleanDisk (state S.Store store) → IsTrue (state S.Store conn).is_open
            → (version : _) → (s : _) → AreOldTablesOf version (state S.Store conn).now.trees s
            → Represents (state S.Store store).now s) }
        ensures ours { IfOk result (λ store. HasCleanDisk (state S.Store store) → IsTrue (has_our_name conn.schema)
            → IsKnown S.Store (state S.Store conn) (state S.Store store)) }
        ensures refused { IfErr result (λ e. HasCleanDisk (state S.Store e.1) → IsTrue (has_our_name conn.schema)
            → IsRefused S.Store e.0 (state S.Store conn) (state S.Store e.1)) }
        ensures unmade { IfErr result (λ e. IsFalse (has_our_name conn.schema) → (e.0 ≡ TheFault.NoMemory)
            ⊎ (e.0 ≡ TheFault.Store)) }
        ensures unnamed { IfOk result (λ store. HasCleanDisk (state S.Store store) → IsFalse (has_our_name conn.schema)
            → AreMadeOver S.Store conn (state S.Store store).now.trees) }
        ensures made { IfOk result (λ store. HasCleanDisk (state S.Store store)
            → (state S.Store conn).now.schema ≡ no_schema → Represents (state S.Store store).now empty) }
        ensures unharmed { IfErr result (λ e. HasCleanDisk (state S.Store e.1) → IsTrue (state S.Store conn).is_open
            → IsTrue (state S.Store e.1).is_open → (state S.Store e.1).now ≡ (state S.Store conn).now) }
        ensures crash { IfOk result (λ store. Survives (state S.Store conn) (state S.Store store)
            (MayLeave S.Store conn)) }
        ensures crash_at_fault { IfErr result
            (λ e. Survives (state S.Store conn) (state S.Store e.1)
            (λ db. IsNoVersion e.0 × MayLeave S.Store conn db)) }
        ensures outside { IfErr result (λ e. e.1.in_transaction ≡ false) }
        ensures settled { IfOk result (λ store. LeavesItself (state S.Store store)) }
    {
        // For the prover alone: this call's clause states that outside a transaction all that is stored is committed.
        let _settled = conn.is_autocommit();
        if !has_our_name(conn.schema()) {
            return match make_tables(&mut conn) {
                Ok(()) => Ok(Store {
                    conn,
                    alloc,
                    has_seen_profiles: false,
                }),
                Err(error) => Err((open_fault(error), conn)),
            };
        }
        match version_on(&mut conn) {
            Ok(OURS) => {
                // As above.
                let _settled = conn.is_autocommit();
                Ok(Store {
                    conn,
                    alloc,
                    has_seen_profiles: false,
                })
            }
            Ok(1 | 2) => Store::copied(alloc, conn),
            Ok(version) => Err((OpenFault::NotOurs(version), conn)),
            Err(error) => Err((version_fault(error), conn)),
        }
    }
}

impl<S: Start> Store<FileStore<FileFrom<S>>> {
    /// Opens the database file at a path, or makes it if it is missing and may be made, and adopts it as `open_files`
    /// does. `start` stands for what the files hold, and states what a torn write may leave. Returns the store, and
    /// whether its tables were made now.
    /// After a fault the files were not opened, or what they held was not adopted and a crash may leave what
    /// `open_files` states. `NotOurs` is returned only for what was opened. A new file is its owner's alone, and a
    /// refused opening leaves no file that it made and nobody needs.
    pub fn open_at(
        rt: &HostRuntime,
        path: &str,
        start: S,
        if_missing: IfMissing,
    ) -> Result<(Self, bool), NotOpened>
        ensures opened { IfOk result (λ opened. IsOpenedAt (image_at S.Start) opened.1 opened.0) }
        ensures failed { IfErr result (λ refused. IsNotOpened ⟦<FileFrom<S> as Disk>⟧ IsFresh (image_at S.Start)
            refused.fault) }
    {
        let site = match prepare(rt, path, if_missing) {
            Ok(site) => site,
            Err(error) => return Err(NotOpened::by_system(error)),
        };
        match Store::open_prepared(rt, path, start) {
            Ok(opened) => Ok(opened),
            Err(refused) => {
                if let Some(site) = site {
                    site.tidy(rt);
                }
                Err(refused)
            }
        }
    }

    /// The same, if the file has been made.
    fn open_prepared(rt: &HostRuntime, path: &str, start: S) -> Result<(Self, bool), NotOpened>
        ensures opened { IfOk result (λ opened. IsOpenedAt (image_at S.Start) opened.1 opened.0) }
        ensures failed { IfErr result (λ refused. IsNotOpened ⟦<FileFrom<S> as Disk>⟧ IsFresh (image_at S.Start)
            refused.fault) }
    {
        let conn = match Connection::open_from(rt, path, false, start) {
            Ok(conn) => conn,
            Err((error, _)) => return Err(NotOpened::by_files(error)),
        };
        let is_made = !has_our_name(conn.schema());
        match Store::open_files(rt.alloc(), conn) {
            Ok(store) => Ok((store, is_made)),
            Err((fault, conn)) => Err(NotOpened::by_tables(fault, conn)),
        }
    }
}

impl Store<FileStore<FileFrom<Wary>>> {
    /// Opens the database file at a path, or makes it. A torn write may leave any bytes, so each commit syncs twice.
    /// The clauses are about a new file, for which `Wary` stands; for any other contents, `open_at` states what is
    /// found.
    pub fn open_from(rt: &HostRuntime, path: &str) -> Result<Self, OpenFault>
        ensures opened { IfOk result (λ store. (made : Bool) × IsOpenedAt new_files made store) }
        ensures failed { FailsAtPath IsFresh new_files result }
    {
        match Store::open_at(rt, path, Wary, IfMissing::Make) {
            Ok((store, _)) => Ok(store),
            Err(refused) => Err(refused.fault),
        }
    }
}

impl<D: Disk + Drop> Store<FileStore<D>> {
    /// Returns the two files, with the last commit in the database file.
    pub fn close(self) -> Result<Files<D>, (Error, FileStore<D>)>
        ensures copied { IfOk result (λ files. AreClean D.Disk files.log files.db → IsCopied self files) }
        ensures usable { IfOk result (λ files. IsTrue (D.Disk.is_usable files.log)
            × IsTrue (D.Disk.is_usable files.db)) }
        ensures settled { IsTrue (file_state self).is_open → (file_state self).now ≡ (file_state self).committed }
    {
        let conn = self.into_connection();
        // For the prover alone: this call's clause states that outside a transaction all that is stored is committed.
        let _settled = conn.is_autocommit();
        conn.close_files()
    }
}
