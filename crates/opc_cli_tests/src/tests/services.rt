//! The number that a service ends with, and what its clients read.
use super::refused_memory;
use super::room::{RULE, UserTables};
use opc_cli::serve_on;
use opc_gate::gate::Gate;
use opc_http_requests::routes::Routes;
use std::alloc::Global;
use std::io;
use std::io::{ErrorKind, Read, Write};
use std::net::{Net, OpenListener, OpenStream, Shutdown, SocketAddr, TcpListener, TcpStream};
use std::process::Abort;
use std::rt::Clock;
use std::test::Fail;
use std::time::Duration;

/// A command that the user who is logged on there may not type.
const ASKED: &str =
    "POST /consoles/C1/command HTTP/1.1\r\nContent-Length: 20\r\n\r\n{\"text\":\"C PAYROLL\"}";

/// The head of the response.
const HEAD: &str = "HTTP/1.1 403 Forbidden\r\nContent-Type: application/json\r\n\
Content-Length: 126\r\nConnection: close\r\n\r\n";

/// A clock that always reads the same.
#[derive(Clone, Copy)]
enum ClockReading {
    Seconds(u64),
    Before1970,
    Unreadable,
}

impl Clock for ClockReading {
    fn monotonic(&self) -> io::Result<Duration> {
        Ok(Duration::from_secs(1))
    }

    fn since_1970(&self) -> io::Result<Duration> {
        match self {
            ClockReading::Seconds(seconds) => Ok(Duration::from_secs(*seconds)),
            ClockReading::Before1970 => Err(io::Error::from(ErrorKind::InvalidData)),
            ClockReading::Unreadable => Err(io::Error::from(ErrorKind::PermissionDenied)),
        }
    }
}

/// A listener that accepts nobody.
struct Deaf;

impl OpenListener for Deaf {
    type Stream = TcpStream;

    fn accept(&self) -> io::Result<(TcpStream, SocketAddr)> {
        Err(io::Error::from(ErrorKind::PermissionDenied))
    }
}

fn all_routes(alloc: Global) -> Result<Routes, Fail> {
    match Routes::new(alloc) {
        Ok(routes) => Ok(routes),
        Err(_) => Err(refused_memory()),
    }
}

/// A client that has sent its whole request, before anybody accepts it.
fn waiting_client<N: Net>(net: &N, address: SocketAddr) -> io::Result<N::Stream> {
    let mut client = TcpStream::connect(net, address)?;
    client.write_all(ASKED.as_bytes())?;
    client.shutdown(Shutdown::Write)?;
    Ok(client)
}

/// What a client read, and the account, are those of a command that was denied at this time.
fn expect_denial(
    rt: &(impl AllocGlobal + Abort),
    response: &str,
    account: &str,
    moment: &str,
) -> Result<(), Fail> {
    if response.is_empty() || account.is_empty() {
        return Err(refused_memory());
    }
    assert_eq!(rt; response, response_of(rt.alloc())?.as_str());
    let row = format!(in rt.alloc(); "{moment} C1 ANNA E20 {RULE}\n")?;
    assert_eq!(rt; account, row.as_str());
    Ok(())
}

fn response_of(alloc: Global) -> Result<String, Fail> {
    let mut response = String::from_str(alloc, HEAD)?;
    let body = format!(in alloc;
        "{{\"code\":\"E20\",\"rule\":\"{RULE}\",\"status\":\"refused\",\"text\":\"DeniedProfile\"}}"
    )?;
    response.push_str(body.as_str())?;
    Ok(response)
}

#[test]
fn a_client_over_loopback_reads_its_response(rt: HostRuntime) -> Result<(), Fail> {
    let routes = all_routes(rt.alloc())?;
    let listener = TcpListener::bind(&rt, "127.0.0.1:0")?;
    for (reading, moment) in [
        (ClockReading::Seconds(1_700_000_000), "1700000000"),
        (ClockReading::Before1970, "0"),
        (ClockReading::Seconds(9_999_999_999_999), "9999999999999"),
        (ClockReading::Seconds(10_000_000_000_000), "9999999999999"),
        (ClockReading::Seconds(u64::MAX), "9999999999999"),
    ] {
        let mut client = waiting_client(&rt, listener.local_addr()?)?;
        let mut gate = Gate::over(UserTables::of_anna(rt.alloc())?);
        let host = (reading, rt.alloc());
        let number = serve_on(&host, &listener, 1, &routes, &mut gate);
        assert_eq!(rt; number, 0, "at {moment}");
        let response = io::read_to_string(rt.alloc(), &mut client)?;
        let account = gate.into_tables().account;
        expect_denial(&rt, response.as_str(), account.as_str(), moment)?;
    }
    Ok(())
}

#[test]
fn nobody_is_served_if_none_is_asked_for(rt: HostRuntime) -> Result<(), Fail> {
    let mut gate = Gate::over(UserTables::of_anna(rt.alloc())?);
    assert_eq!(rt;
        serve_on(&rt, &Deaf, 0, &all_routes(rt.alloc())?, &mut gate),
        0
    );
    Ok(())
}

#[test]
fn a_service_ends_if_no_client_can_be_accepted(rt: HostRuntime) -> Result<(), Fail> {
    let mut gate = Gate::over(UserTables::of_anna(rt.alloc())?);
    let routes = all_routes(rt.alloc())?;
    assert_eq!(rt; serve_on(&rt, &Deaf, 1, &routes, &mut gate), 3);
    let listener = TcpListener::bind(&rt, "127.0.0.1:0")?;
    let host = (ClockReading::Unreadable, rt.alloc());
    let _client = waiting_client(&rt, listener.local_addr()?)?;
    assert_eq!(rt; serve_on(&host, &listener, 1, &routes, &mut gate), 3);
    assert!(rt; gate.into_tables().account.is_empty());
    Ok(())
}

#[test]
fn clients_before_the_fault_are_served(rt: HostRuntime) -> Result<(), Fail> {
    let mut gate = Gate::over(UserTables::of_anna(rt.alloc())?);
    let routes = all_routes(rt.alloc())?;
    let listener = TcpListener::bind(&rt, "127.0.0.1:0")?;
    let mut client = waiting_client(&rt, listener.local_addr()?)?;
    // One client waits. A second one never comes, and this listener does not wait for it.
    listener.set_nonblocking(true)?;
    let host = (ClockReading::Seconds(7), rt.alloc());
    assert_eq!(rt; serve_on(&host, &listener, 2, &routes, &mut gate), 3);
    let response = io::read_to_string(rt.alloc(), &mut client)?;
    let account = gate.into_tables().account;
    expect_denial(&rt, response.as_str(), account.as_str(), "7")
}
