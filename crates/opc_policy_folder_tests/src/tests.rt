//! Each call to the system, of which no clause states what it does, and a state that is brought into a folder.
use opc_policy_folder::folder::Folder;
use opc_policy_folder::keeping::keep;
use opc_policy_folder::name::state_name;
use std::fs::Files;
use std::os::unix::fs::PermissionsExt;
use std::rt::Clock;
use std::test::Fail;
use std::{fs, io};

/// A new folder.
fn new_folder<H: AllocGlobal + Clock + Files>(rt: &H, name: &str) -> Result<String, Fail> {
    let now = rt.monotonic()?.as_nanos();
    let path = format!(in rt.alloc(); "/tmp/opcmds-{name}-{now}")?;
    fs::create_dir(rt, path.as_str())?;
    Ok(path)
}

/// The path of a file in a folder.
fn at<H: AllocGlobal>(rt: &H, folder: &str, name: &str) -> Result<String, Fail> {
    Ok(format!(in rt.alloc(); "{folder}/{name}")?)
}

/// Whether a file has these bytes.
fn has_bytes<H: AllocGlobal + Files>(
    rt: &H,
    folder: &str,
    name: &str,
    bytes: &[u8],
) -> Result<bool, Fail> {
    let held = fs::read(rt, at(rt, folder, name)?.as_str())?;
    Ok(held.as_slice() == bytes)
}

#[test]
fn a_state_is_the_present_one(rt: HostRuntime) -> Result<(), Fail> {
    let folder = new_folder(&rt, "present")?;
    let folder = folder.as_str();
    assert!(rt; !rt.has(folder, b"one")?);
    let aside = rt.write_aside(folder, b"one")?;
    assert!(rt; !rt.has(folder, b"one")?);
    rt.publish(folder, "first", aside)?;
    assert!(rt; rt.has(folder, b"one")?);
    assert!(rt; !rt.has(folder, b"on")?);
    assert!(rt; !rt.has(folder, b"one ")?);
    assert!(rt; has_bytes(&rt, folder, "first.csv", b"one")?);
    let mode = fs::metadata(&rt, at(&rt, folder, "current.csv")?.as_str())?;
    assert_eq!(rt; mode.permissions().mode() & 0o777, 0o600);
    fs::remove_dir_all(&rt, folder)?;
    Ok(())
}

#[test]
fn what_was_left_aside_is_not_overwritten(rt: HostRuntime) -> Result<(), Fail> {
    let folder = new_folder(&rt, "left")?;
    let folder = folder.as_str();
    let (aside, state) = (at(&rt, folder, ".new")?, at(&rt, folder, "first.csv")?);
    // As a service leaves it that is killed between the two names.
    fs::write(&rt, aside.as_str(), b"first")?;
    fs::hard_link(&rt, aside.as_str(), state.as_str())?;
    let written = rt.write_aside(folder, b"second")?;
    assert!(rt; has_bytes(&rt, folder, "first.csv", b"first")?);
    rt.publish(folder, "second", written)?;
    assert!(rt; has_bytes(&rt, folder, "first.csv", b"first")?);
    assert!(rt; has_bytes(&rt, folder, "current.csv", b"second")?);
    assert!(rt; fs::symlink_metadata(&rt, aside.as_str()).is_err());
    fs::remove_dir_all(&rt, folder)?;
    Ok(())
}

#[test]
fn a_name_that_is_there_stays(rt: HostRuntime) -> Result<(), Fail> {
    let folder = new_folder(&rt, "there")?;
    let folder = folder.as_str();
    for _ in 0..2 {
        let aside = rt.write_aside(folder, b"same")?;
        rt.publish(folder, "name", aside)?;
    }
    assert!(rt; has_bytes(&rt, folder, "name.csv", b"same")?);
    assert!(rt; has_bytes(&rt, folder, "current.csv", b"same")?);
    fs::remove_dir_all(&rt, folder)?;
    Ok(())
}

#[test]
fn faults_are_reported(rt: HostRuntime) -> Result<(), Fail> {
    let folder = new_folder(&rt, "faults")?;
    let (folder, current) = (folder.as_str(), at(&rt, folder.as_str(), "current.csv")?);
    let aside = rt.write_aside(folder, b"one")?;
    // A folder is no present state, and cannot be replaced by one.
    fs::create_dir(&rt, current.as_str())?;
    assert!(rt; rt.has(folder, b"one").is_err());
    assert!(rt; rt.publish(folder, "first", aside).is_err());
    fs::remove_dir_all(&rt, folder)?;
    assert!(rt; !rt.has(folder, b"one")?);
    assert!(rt; rt.write_aside(folder, b"one").is_err());
    // It is not the root.
    assert!(rt; rt.has("", b"one").is_err());
    assert!(rt; rt.write_aside("", b"one").is_err());
    Ok(())
}

#[test]
fn a_state_is_brought_once(rt: HostRuntime) -> Result<(), Fail> {
    let folder = new_folder(&rt, "once")?;
    let folder = folder.as_str();
    let name = keep(rt.alloc(), &rt, folder, 0, b"abc")?;
    let Some(name) = name else {
        return Err(Fail::from(io::Error::from(io::ErrorKind::NotFound)));
    };
    assert_eq!(rt; name.as_str(), "1970-01-01T000000Z-ba7816bf8f01cfea");
    assert!(rt;
        has_bytes(
            &rt,
            folder,
            "1970-01-01T000000Z-ba7816bf8f01cfea.csv",
            b"abc"
        )?
    );
    assert!(rt; keep(rt.alloc(), &rt, folder, 1, b"abc")?.is_none());
    assert!(rt; keep(rt.alloc(), &rt, folder, 1, b"abd")?.is_some());
    assert!(rt; rt.has(folder, b"abd")?);
    fs::remove_dir_all(&rt, folder)?;
    Ok(())
}

#[test]
fn a_name_has_no_colon(rt: HostRuntime) -> Result<(), Fail> {
    let name = state_name(rt.alloc(), 9_999_999_999_999, b"abc")?;
    assert_eq!(rt; name.as_str(), "9999999999999-ba7816bf8f01cfea");
    let name = state_name(rt.alloc(), 1_796_025_855, b"")?;
    assert_eq!(rt; name.as_str(), "2026-11-30T080415Z-e3b0c44298fc1c14");
    Ok(())
}
