//! What a store holds after it was closed and is opened again: a law, as what the two calls ensure one after the other.
ghost use Rattle.std.specs.Prelude.{IfSome};
ghost use Rattle.opc_store.specs.Reopening.{IsFoundAgain};

use crate::store::Store;
use sqlite::{Connection, FileStore, Options};
use sqlite_disk::Disk;
use std::alloc::Global;

/// Whatever disk the files stand on, a store that is closed and opened again has the state that was committed last,
/// which is the state that its tables represented. There is no result if the closing or the opening fails.
pub fn what_was_committed_is_found_again<D: Disk + Drop>(
    alloc: Global,
    store: Store<FileStore<D>>,
    options: Options,
) -> Option<Store<FileStore<D>>>
    ensures { IfSome result (IsFoundAgain store) }
{
    let Ok(files) = store.close() else {
        return None;
    };
    let Ok(conn) = Connection::open_files(alloc, files, options) else {
        return None;
    };
    match Store::open_files(alloc, conn) {
        Ok(again) => Some(again),
        Err(_) => None,
    }
}
