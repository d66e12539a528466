//! The files of sockets: which one is found, whether anybody listens there, and which is removed.
use super::free_path;
use opc_http_connections::socket_file;
use opc_http_connections::socket_paths::SocketPaths;
use std::fs;
use std::os::unix::fs::PermissionsExt;
use std::os::unix::net::UnixListener;
use std::test::Fail;

#[test]
fn a_socket_has_its_file_and_its_permissions(rt: HostRuntime) -> Result<(), Fail> {
    let path = free_path(&rt, "made")?;
    let path = path.as_str();
    let bound = socket_file::make(&rt, path)?;
    assert!(rt; rt.find(path).is_some());
    assert!(rt; socket_file::make(&rt, path).is_err());
    for mode in [0o600, 0o666] {
        socket_file::permit(&rt, path, mode)?;
        let found = fs::symlink_metadata(&rt, path)?.permissions().mode();
        assert_eq!(rt; found & 0o777, mode);
    }
    // Nobody can connect before it listens.
    assert!(rt; rt.is_refused(path));
    let listener = socket_file::listen(bound)?;
    assert!(rt; !rt.is_refused(path));
    assert!(rt; !socket_file::clear(&rt, path));
    socket_file::remove(&rt, path, &listener);
    assert!(rt; rt.find(path).is_none());
    assert!(rt; !rt.is_refused(path));
    Ok(())
}

#[test]
fn what_is_no_socket_stays(rt: HostRuntime) -> Result<(), Fail> {
    let (path, link) = (free_path(&rt, "file")?, free_path(&rt, "link")?);
    fs::write(&rt, path.as_str(), b"precious")?;
    assert!(rt; rt.find(path.as_str()).is_none());
    assert!(rt; !socket_file::clear(&rt, path.as_str()));
    fs::remove_file(&rt, path.as_str())?;
    let bound = socket_file::make(&rt, path.as_str())?;
    std::os::unix::fs::symlink(&rt, path.as_str(), link.as_str())?;
    assert!(rt; rt.find(link.as_str()).is_none());
    assert!(rt; !socket_file::clear(&rt, link.as_str()));
    fs::remove_file(&rt, link.as_str())?;
    drop(bound);
    assert!(rt; socket_file::clear(&rt, path.as_str()));
    assert!(rt; fs::symlink_metadata(&rt, path.as_str()).is_err());
    Ok(())
}

#[test]
fn the_socket_of_another_service_stays(rt: HostRuntime) -> Result<(), Fail> {
    let path = free_path(&rt, "other")?;
    let path = path.as_str();
    let listener = socket_file::listen(socket_file::make(&rt, path)?)?;
    fs::remove_file(&rt, path)?;
    let other = UnixListener::bind(&rt, path)?;
    socket_file::remove(&rt, path, &listener);
    assert!(rt; rt.find(path).is_some());
    drop(other);
    assert!(rt; socket_file::clear(&rt, path));
    Ok(())
}
