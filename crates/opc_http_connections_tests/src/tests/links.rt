//! Connections by a port and by the path of a Unix socket, and the clock.
use super::free_path;
use opc_http_connections::connection::Connection;
use opc_http_connections::listener::ClientListener;
use opc_http_connections::socket_file;
use opc_http_connections::timer::Timer;
use opc_io::stream::{Readable, Writable};
use std::fs;
use std::io::{ErrorKind, Read, Write};
use std::net::{TcpListener, TcpStream};
use std::os::unix::net::UnixStream;
use std::process::Abort;
use std::rt::Clock;
use std::test::Fail;
use std::time::Duration;

/// Milliseconds that a call waits here.
const SHORT: u64 = 20;

/// Seconds that all of them take at most, on a machine that is busy.
const LONG: u64 = 10;

/// More writes than a peer that reads nothing takes.
const WRITES: u32 = 10_000;

/// No longer than its limit does a call wait for a peer that sends nothing and reads nothing.
fn expect_limits<C: Connection>(rt: &(impl Abort + Clock), ours: &mut C) -> Result<(), Fail> {
    let began = rt.time()?;
    ours.limit_waits(Duration::from_millis(SHORT))?;
    let mut byte = [0u8];
    match ours.read_once(&mut byte) {
        Ok(_) => return Err(Fail::new("a peer that sent nothing was read")),
        Err(error) => assert_eq!(rt; error.kind(), ErrorKind::WouldBlock),
    }
    let chunk = [0u8; 65_536];
    for _write in 0..WRITES {
        if let Err(error) = ours.write_once(&chunk) {
            assert_eq!(rt; error.kind(), ErrorKind::WouldBlock);
            assert!(rt; rt.time()? < began.saturating_add(Duration::from_secs(LONG)));
            return Ok(());
        }
    }
    Err(Fail::new("a peer that read nothing took everything"))
}

/// Both handles are of the connection to this peer. Once our half is shut down, the peer reads the end, and we still
/// read what it sends.
fn expect_end<C: Connection, P: Read + Write>(
    rt: &impl Abort,
    ours: &mut C,
    peer: &mut P,
) -> Result<(), Fail> {
    let mut other = ours.another()?;
    assert_eq!(rt; ours.write_once(b"a")?, 1);
    assert_eq!(rt; other.write_once(b"b")?, 1);
    ours.shut()?;
    let mut bytes = [0u8; 4];
    peer.read_exact(&mut bytes[..2])?;
    assert_eq!(rt; &bytes[..2], b"ab".as_slice());
    assert_eq!(rt; peer.read(&mut bytes)?, 0);
    peer.write_all(b"more")?;
    assert_eq!(rt; ours.read_once(&mut bytes)?, 4);
    assert_eq!(rt; &bytes[..], b"more".as_slice());
    Ok(())
}

#[test]
fn connections_by_a_port(rt: HostRuntime) -> Result<(), Fail> {
    let listener = TcpListener::bind(&rt, "127.0.0.1:0")?;
    let address = listener.local_addr()?;
    let mut peer = TcpStream::connect(&rt, address)?;
    let mut ours = listener.accept_client()?;
    expect_end(&rt, &mut ours, &mut peer)?;
    let _silent = TcpStream::connect(&rt, address)?;
    expect_limits(&rt, &mut listener.accept_client()?)
}

#[test]
fn connections_by_a_path(rt: HostRuntime) -> Result<(), Fail> {
    let path = free_path(&rt, "links")?;
    let listener = socket_file::listen(socket_file::make(&rt, path.as_str())?)?;
    let mut peer = UnixStream::connect(&rt, path.as_str())?;
    let _silent = UnixStream::connect(&rt, path.as_str())?;
    fs::remove_file(&rt, path.as_str())?;
    let mut ours = listener.accept_client()?;
    expect_end(&rt, &mut ours, &mut peer)?;
    expect_limits(&rt, &mut listener.accept_client()?)
}

#[test]
fn the_clock_is_that_of_no_calendar(rt: HostRuntime) -> Result<(), Fail> {
    let first = rt.time()?;
    let next = rt.time()?;
    assert!(rt; first <= next);
    // (no system runs for ten years before this test)
    assert!(rt; next < Duration::from_secs(315_360_000));
    Ok(())
}
