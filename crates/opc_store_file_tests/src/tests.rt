//! Each call to the system, of which no clause states what it does.
mod paths;
mod tidying;

use std::fs;
use std::fs::Files;
use std::rt::Clock;
use std::test::Fail;

/// A new folder, and in it the paths of a database and of its log.
#[derive(Drop)]
struct DatabaseFiles {
    folder: String,
    database: String,
    log: String,
}

fn new_files<H: AllocGlobal + Clock + Files>(rt: &H, name: &str) -> Result<DatabaseFiles, Fail> {
    let now = rt.monotonic()?.as_nanos();
    let folder = format!(in rt.alloc(); "/tmp/opcmds-{name}-{now}")?;
    fs::create_dir(rt, folder.as_str())?;
    Ok(DatabaseFiles {
        database: format!(in rt.alloc(); "{}/db", folder.as_str())?,
        log: format!(in rt.alloc(); "{}/db-wal", folder.as_str())?,
        folder,
    })
}
