//! Opening to read: nothing is made or changed, and tables of an older version are refused.
ghost use Rattle.std.specs.Prelude.{◌≡◌, IfOk, IfErr, IsErrAnd, IsTrue, IsFalse, false, true};
ghost use Rattle.sqlite.specs.Held.{state};
ghost use Rattle.sqlite.specs.State.{HasCleanDisk, Survives};
ghost use Rattle.sqlite.specs.WalFiles.{image_at};
ghost use Rattle.opc_store_file.specs.Copies.{IsAsRead, bytes_read, is_blank};
ghost use Rattle.opc_store_schema.specs.Ours.{has_our_name};
ghost use Rattle.opc_store_schema.specs.Represented.{Represents, AreTablesOf};
ghost use Rattle.opc_store.specs.Opening.{LeavesItself};
ghost use Rattle.opc_store.specs.Reading.{IsFoundAt, IsNotRead, IsOfAnother};
ghost use Rattle.opc_store.specs.declared.opening.OpenFault.TheVariants as TheFault;

use crate::opening::{NotOpened, OURS, OpenFault, version_fault};
use crate::store::Store;
use opc_store_file::copy::CopyFrom;
use opc_store_file::copying::copy_files;
use opc_store_schema::names::has_our_name;
use opc_store_schema::version::version_on;
use sqlite::{Alter, Connection, FileStore, Files, Options, Start};
use sqlite_disk::Disk;
use std::alloc::Global;

/// The log of a copy is never read again, so its pages need no number that distinguishes them from those of an earlier
/// one.
const SALT: u64 = 0;

impl<S: Alter> Store<S> {
    /// Adopts a connection to tables of this version, and changes nothing. Other tables are `NotOurs`, with the version
    /// that they name, or with 0. A fault returns the connection.
    pub(crate) fn read_files(
        alloc: Global,
        mut conn: Connection<S>,
    ) -> Result<Self, (OpenFault, Connection<S>)>
        requires { conn.in_transaction ≡ false }
        ensures found { IfOk result (λ store. HasCleanDisk (state S.Store store) → IsTrue (state S.Store conn).is_open
            → (s : _) → AreTablesOf (state S.Store conn).now.trees s → Represents (state S.Store store).now s) }
        ensures unnamed { IfErr result (λ e. IsFalse (has_our_name conn.schema) → e.0 ≡ TheFault.NotOurs 0) }
        ensures another { IfErr result (λ e. HasCleanDisk (state S.Store e.1) → IsTrue (has_our_name conn.schema)
            → IsOfAnother e.0 (state S.Store conn) (state S.Store e.1)) }
        ensures unharmed { IfErr result (λ e. HasCleanDisk (state S.Store e.1) → IsTrue (state S.Store e.1).is_open
            → (state S.Store e.1).now ≡ (state S.Store conn).now) }
        ensures crash { IfOk result (λ store. Survives (state S.Store conn) (state S.Store store) (λ _. ⊥)) }
        ensures crash_at_fault { IfErr result (λ e. Survives (state S.Store conn) (state S.Store e.1) (λ _. ⊥)) }
        ensures settled { IfOk result (λ store. LeavesItself (state S.Store store)) }
    {
        if !has_our_name(conn.schema()) {
            return Err((OpenFault::NotOurs(0), conn));
        }
        match version_on(&mut conn) {
            Ok(OURS) => {
                // For the prover alone: this call's clause states that outside a transaction all that is stored is
                // committed.
                let _settled = conn.is_autocommit();
                Ok(Store {
                    conn,
                    alloc,
                    has_seen_profiles: false,
                })
            }
            Ok(version) => Err((OpenFault::NotOurs(version), conn)),
            Err(error) => Err((version_fault(error), conn)),
        }
    }
}

impl<S: Start> Store<FileStore<CopyFrom<S>>> {
    /// Opens the database file at a path to read its tables: the file and its log are read whole, and what they hold is
    /// opened in memory. On the disk nothing is made or changed, so permission to read suffices. `start` stands for
    /// what the files hold. A file that is empty, or of one byte, is refused before it is opened: it is `NotOurs`.
    pub fn open_to_read(rt: &HostRuntime, path: &str, start: S) -> Result<Self, NotOpened>
        ensures found { IfOk result (IsFoundAt (image_at S.Start)) }
        ensures failed { IfErr result (λ refused. IsNotRead ⟦<CopyFrom<S> as Disk>⟧ IsAsRead (image_at S.Start)
            refused.fault) }
    {
        match copy_files(rt, path, start) {
            Ok(files) => Store::open_copies(rt.alloc(), files),
            Err(error) => Err(NotOpened::by_copying(error)),
        }
    }

    /// The same, if the files have been read.
    pub fn open_copies(alloc: Global, files: Files<CopyFrom<S>>) -> Result<Self, NotOpened>
        requires log { IsAsRead true files.log }
        requires db { IsAsRead false files.db }
        ensures found { IfOk result (IsFoundAt (image_at S.Start)) }
        ensures blank { IsTrue (is_blank (bytes_read files.db)) → IsErrAnd result
            (λ refused. refused.fault ≡ TheFault.NotOurs 0) }
        ensures failed { IfErr result (λ refused. IsNotRead ⟦<CopyFrom<S> as Disk>⟧ IsAsRead (image_at S.Start)
            refused.fault) }
    {
        if files.db.is_blank() {
            return Err(NotOpened::unread(OpenFault::NotOurs(0)));
        }
        let conn = match Connection::open_files(alloc, files, Options::new(SALT)) {
            Ok(conn) => conn,
            Err((error, _)) => return Err(NotOpened::by_files(error)),
        };
        match Store::read_files(alloc, conn) {
            Ok(store) => Ok(store),
            Err((fault, conn)) => Err(NotOpened::by_tables(fault, conn)),
        }
    }
}
