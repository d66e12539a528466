//! What is at a path, and which file is made there or locked.
use super::new_files;
use opc_store_file::paths::DatabasePaths;
use opc_store_file::site::{IfMissing, prepare};
use os::RangeLock;
use std::fs;
use std::fs::File;
use std::io::ErrorKind;
use std::os::fd::AsRawFd;
use std::os::unix::fs::{PermissionsExt, symlink};
use std::test::Fail;

#[test]
fn a_new_file_is_its_owners_alone(rt: HostRuntime) -> Result<(), Fail> {
    let files = new_files(&rt, "new")?;
    let path = files.database.as_str();
    assert!(rt; !rt.is_there(path));
    assert!(rt; prepare(&rt, path, IfMissing::Refuse).is_err());
    assert!(rt; !rt.is_there(path));
    assert!(rt; prepare(&rt, path, IfMissing::Make)?.is_some());
    let found = fs::metadata(&rt, path)?;
    assert_eq!(rt; found.permissions().mode() & 0o777, 0o600);
    assert_eq!(rt; found.len(), 0);
    fs::remove_dir_all(&rt, files.folder.as_str())?;
    Ok(())
}

#[test]
fn a_file_that_is_there_is_not_made(rt: HostRuntime) -> Result<(), Fail> {
    let files = new_files(&rt, "there")?;
    let path = files.database.as_str();
    fs::write(&rt, path, b"precious")?;
    match rt.make_empty(path, 0o600) {
        Ok(()) => return Err(Fail::new("a file took the place of another one")),
        Err(error) => assert_eq!(rt; error.kind(), ErrorKind::AlreadyExists),
    }
    assert_eq!(rt; rt.size(path)?, 8);
    fs::remove_dir_all(&rt, files.folder.as_str())?;
    Ok(())
}

#[test]
fn a_link_leads_to_its_file(rt: HostRuntime) -> Result<(), Fail> {
    let files = new_files(&rt, "link")?;
    let (file, link) = (files.database.as_str(), files.log.as_str());
    symlink(&rt, file, link)?;
    // It is there, and leads to nothing.
    assert!(rt; rt.is_there(link));
    assert!(rt; rt.size(link).is_err());
    assert!(rt; rt.resolve(link).is_err());
    fs::write(&rt, file, b"rows")?;
    assert_eq!(rt; rt.resolve(link)?.as_str(), rt.resolve(file)?.as_str());
    assert_eq!(rt; rt.size(link)?, 4);
    assert!(rt; rt.measure(file) == Some(4));
    assert!(rt; rt.measure(link).is_none());
    assert!(rt; rt.measure(files.folder.as_str()).is_none());
    assert!(rt; rt.lock(link).is_none());
    assert!(rt; rt.lock(files.folder.as_str()).is_none());
    fs::remove_dir_all(&rt, files.folder.as_str())?;
    Ok(())
}

#[test]
fn a_locked_file_is_locked_by_nobody_else(rt: HostRuntime) -> Result<(), Fail> {
    let files = new_files(&rt, "lock")?;
    let path = files.database.as_str();
    assert!(rt; rt.lock(path).is_none());
    fs::write(&rt, path, b"rows")?;
    let other = File::open(&rt, path)?;
    match rt.lock(path) {
        Some((_lock, length)) => {
            assert_eq!(rt; length, 4);
            let tried = os::try_lock_range(other.as_raw_fd(), RangeLock::Shared, 1 << 30, 512);
            assert!(rt; tried != 0);
        }
        None => return Err(Fail::new("a file that nobody has open was not locked")),
    }
    // The lock ended as it was dropped.
    let tried = os::try_lock_range(other.as_raw_fd(), RangeLock::Shared, 1 << 30, 512);
    assert_eq!(rt; tried, 0);
    assert!(rt; rt.lock(path).is_none());
    fs::remove_dir_all(&rt, files.folder.as_str())?;
    Ok(())
}
