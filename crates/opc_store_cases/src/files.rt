//! Files of a store in memory, of which one may stop.
ghost use Rattle.std.specs.Prelude.{◌≡◌, false, IfOk};

use anyhow::{Result, bail};
use opc_state::tables::Tables;
use opc_store::store::Store;
use sqlite::{Connection, FileStore, Files, Options};
use sqlite_disk::{Crash, Disk, Fuse, Memory};
use std::alloc::Global;

/// Which file stops while it is written to.
#[derive(Clone, Copy)]
pub enum Stop {
    Log,
    Database,
    Nothing,
}

/// The files of a database that these statements made.
pub fn made(alloc: Global, statements: &str) -> Result<Files<Memory>> {
    let files = Files {
        log: Memory::new(alloc),
        db: Memory::new(alloc),
    };
    if statements.is_empty() {
        return Ok(files);
    }
    let Ok(mut conn) = connected(alloc, files) else {
        bail!("not opened");
    };
    let ran = conn.execute_batch(statements);
    let files = disconnected(conn);
    ran?;
    Ok(files)
}

/// Files of which one accepts this many further calls.
pub fn stopping<D: Disk>(files: Files<D>, stop: Stop, calls: u64) -> Files<Fuse<D>> {
    let (log_calls, db_calls) = match stop {
        Stop::Log => (calls, u64::MAX),
        Stop::Database => (u64::MAX, calls),
        Stop::Nothing => (u64::MAX, u64::MAX),
    };
    Files {
        log: Fuse::new(files.log, log_calls),
        db: Fuse::new(files.db, db_calls),
    }
}

/// Files as a restarted computer finds them: without what was not synced, and none of them stops.
pub fn crashed<D: Crash>(mut files: Files<D>) -> Files<D> {
    files.log.crash();
    files.db.crash();
    files
}

/// A connection over files, or the files again.
pub fn connected<D: Disk + Drop>(
    alloc: Global,
    files: Files<D>,
) -> Result<Connection<FileStore<D>>, Files<D>>
    ensures outside { IfOk result (λ conn. conn.in_transaction ≡ false) }
{
    if !files.may_be_used() {
        return Err(files);
    }
    match Connection::open_files(alloc, files, Options::new(7)) {
        Ok(conn) => Ok(conn),
        Err((_, left)) => Err(left.into_files()),
    }
}

/// The files of a connection that is closed.
pub fn disconnected<D: Disk + Drop>(conn: Connection<FileStore<D>>) -> Files<D> {
    match conn.close_files() {
        Ok(files) => files,
        Err((_, left)) => left.close(),
    }
}

/// A store over files, or the files again.
pub fn opened<D: Disk + Drop>(
    alloc: Global,
    files: Files<D>,
) -> Result<Store<FileStore<D>>, Files<D>> {
    let conn = match connected(alloc, files) {
        Ok(conn) => conn,
        Err(files) => return Err(files),
    };
    match Store::open_files(alloc, conn) {
        Ok(store) => Ok(store),
        Err((_, conn)) => Err(disconnected(conn)),
    }
}

/// An operation on the tables of a store.
pub trait StoreWork {
    type Out: Drop;

    fn over<T: Tables>(&self, alloc: Global, tables: &mut T) -> Self::Out;
}

/// The outcome of an operation on a store over files, if the store opens, and the files. The store is never dropped:
/// the drop would be proved at each end of a function.
pub fn worked<D: Disk + Drop, W: StoreWork>(
    alloc: Global,
    files: Files<D>,
    work: &W,
) -> (Option<W::Out>, Files<D>) {
    match opened(alloc, files) {
        Ok(mut store) => {
            let out = work.over(alloc, &mut store);
            (Some(out), closed(store))
        }
        Err(files) => (None, files),
    }
}

/// The files of a store that is closed.
pub fn closed<D: Disk + Drop>(store: Store<FileStore<D>>) -> Files<D> {
    match store.close() {
        Ok(files) => files,
        Err((_, left)) => left.close(),
    }
}
