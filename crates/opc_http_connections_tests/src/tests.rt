//! Each call to the system, of which no clause states what it does.
mod files;
mod links;

use std::fs::Files;
use std::rt::Clock;
use std::test::Fail;
use std::{fs, io};

/// A path at which nothing is.
fn free_path<H: AllocGlobal + Clock + Files>(rt: &H, name: &str) -> Result<String, Fail> {
    let now = rt.monotonic()?.as_nanos();
    let path = format!(in rt.alloc(); "/tmp/opcmds-{name}-{now}")?;
    match fs::symlink_metadata(rt, path.as_str()) {
        Ok(_) => Err(Fail::from(io::Error::from(io::ErrorKind::AlreadyExists))),
        Err(_) => Ok(path),
    }
}
