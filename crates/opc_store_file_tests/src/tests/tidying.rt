//! What a refused opening removes, and what it leaves.
use super::new_files;
use opc_store_file::paths::DatabasePaths;
use opc_store_file::site::{IfMissing, Site, prepare};
use std::fs;
use std::test::Fail;

/// The bytes of the least log with a page.
const PAGE: usize = 568;

fn prepared(rt: &HostRuntime, path: &str) -> Result<Site, Fail> {
    match prepare(rt, path, IfMissing::Make)? {
        Some(site) => Ok(site),
        None => Err(Fail::new("the path means no file")),
    }
}

#[test]
fn what_the_opening_made_goes(rt: HostRuntime) -> Result<(), Fail> {
    let files = new_files(&rt, "made")?;
    let site = prepared(&rt, files.database.as_str())?;
    fs::write(&rt, files.log.as_str(), b"head")?;
    site.tidy(&rt);
    assert!(rt; !rt.is_there(files.database.as_str()));
    assert!(rt; !rt.is_there(files.log.as_str()));
    fs::remove_dir(&rt, files.folder.as_str())?;
    Ok(())
}

#[test]
fn what_was_there_stays(rt: HostRuntime) -> Result<(), Fail> {
    let files = new_files(&rt, "stays")?;
    for bytes in [b"".as_slice(), b"rows".as_slice()] {
        fs::write(&rt, files.database.as_str(), bytes)?;
        fs::write(&rt, files.log.as_str(), b"head")?;
        prepared(&rt, files.database.as_str())?.tidy(&rt);
        assert!(rt; rt.measure(files.database.as_str()) == Some(bytes.len() as u64));
        assert!(rt; rt.measure(files.log.as_str()) == Some(4));
    }
    fs::remove_dir_all(&rt, files.folder.as_str())?;
    Ok(())
}

#[test]
fn what_holds_something_stays(rt: HostRuntime) -> Result<(), Fail> {
    let files = new_files(&rt, "holds")?;
    let site = prepared(&rt, files.database.as_str())?;
    fs::write(&rt, files.database.as_str(), b"rows")?;
    fs::write(&rt, files.log.as_str(), &[0u8; PAGE])?;
    site.tidy(&rt);
    assert!(rt; rt.measure(files.database.as_str()) == Some(4));
    assert!(rt; rt.measure(files.log.as_str()) == Some(PAGE as u64));
    // Beside such a log no database is made.
    fs::remove_file(&rt, files.database.as_str())?;
    assert!(rt; prepare(&rt, files.database.as_str(), IfMissing::Make).is_err());
    assert!(rt; !rt.is_there(files.database.as_str()));
    fs::remove_dir_all(&rt, files.folder.as_str())?;
    Ok(())
}

#[test]
fn what_another_program_has_open_stays(rt: HostRuntime) -> Result<(), Fail> {
    let files = new_files(&rt, "open")?;
    let site = prepared(&rt, files.database.as_str())?;
    let lock = rt.lock(files.database.as_str());
    assert!(rt; lock.is_some());
    site.tidy(&rt);
    assert!(rt; rt.measure(files.database.as_str()) == Some(0));
    drop(lock);
    site.tidy(&rt);
    assert!(rt; !rt.is_there(files.database.as_str()));
    fs::remove_dir(&rt, files.folder.as_str())?;
    Ok(())
}
