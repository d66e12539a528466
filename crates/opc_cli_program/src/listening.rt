//! Where `opcmds serve` listens, and what it prints about it.
ghost use Rattle.std.specs.Prelude.{◌≡◌, IfErr, IfOk, IsOk, OnOk};
ghost use Rattle.std.specs.Io.KnownBytes.{Appends};
ghost use Rattle.std.specs.Net.Socket.{socket_port};
ghost use Rattle.opc_cli_failures.specs.Statuses.{status_of};
ghost use Rattle.opc_cli_program.specs.Listening.{IsListening, IsLocalhost, IsSocketAt, listening_line, socket_line};

use crate::ports::Ports;
use arrayvec::ArrayString;
use itoa::Buffer;
use opc_cli_failures::failure::{Failure, Place};
use opc_cli_failures::status::Status;
use std::io;
use std::io::{ErrorKind, Write};
use std::net::{Ipv4Addr, SocketAddr, SocketAddrV4};

/// More bytes than the line has that states at which port the program listens.
const LISTENING_LINE: usize = 32;

/// A port of 127.0.0.1.
fn loopback(port: u16) -> SocketAddr
    ensures here { IsLocalhost result }
    ensures port { socket_port result ≡ port }
{
    SocketAddr::V4(SocketAddrV4::new(Ipv4Addr::LOCALHOST, port))
}

/// Listens at a port of 127.0.0.1, or, if it is 0, at one that the system chooses.
#[tactic(auto, using(opc_cli_failures::proofs::Faults::streams_fail))]
pub(crate) fn listen_at_port<P: Ports>(ports: &P, port: u16) -> Result<(P::Listener, u16), Failure>
    ensures status { IfErr result (λ failure. status_of failure.fault ≡ Status.Failed) }
    ensures listens { IfOk result (λ bound. IsListening P.binds P.is_at ports.now port bound.0 bound.1) }
{
    let listener = match ports.bind(loopback(port)) {
        Ok(listener) => listener,
        Err(error) => return Err(Failure::at(Place::Port(port), error)),
    };
    match ports.address_of(&listener) {
        Ok(given) => Ok((listener, given.port())),
        Err(error) => Err(Failure::at(Place::Port(port), error)),
    }
}

/// Makes the file of a socket. A file left by a socket at which nobody listens any more is replaced.
fn make_file<P: Ports>(ports: &P, path: &str) -> io::Result<P::Bound>
    ensures { IfOk result (λ bound. P.names ports.now path.now bound) }
{
    match ports.make_file(path) {
        Err(error) if error.kind() == ErrorKind::AddrInUse && ports.clear(path) => {
            ports.make_file(path)
        }
        made => made,
    }
}

/// Makes a socket with these permissions, and then listens at it.
fn make_socket<P: Ports>(ports: &P, path: &str, mode: u32) -> io::Result<P::Socket>
    ensures { IfOk result (λ socket. IsSocketAt P.names P.permits P.listens ports.now path.now mode socket) }
{
    let bound = make_file(ports, path)?;
    ports.permit(path, mode)?;
    ports.listen(bound)
}

/// Listens at a socket with these permissions.
#[tactic(auto, using(opc_cli_failures::proofs::Faults::streams_fail))]
pub(crate) fn listen_at_socket<P: Ports>(
    ports: &P,
    path: &str,
    mode: u32,
) -> Result<P::Socket, Failure>
    ensures status { IfErr result (λ failure. status_of failure.fault ≡ Status.Failed) }
    ensures listens { IfOk result (λ socket. IsSocketAt P.names P.permits P.listens ports.now path.now mode socket) }
{
    match make_socket(ports, path, mode) {
        Ok(socket) => Ok(socket),
        Err(error) => Err(Failure::at(Place::Socket, error)),
    }
}

fn listening_line(port: u16) -> ArrayString<LISTENING_LINE>
    ensures { result.bytes ≡ listening_line port }
{
    let mut digits = Buffer::new();
    let mut line = ArrayString::<LISTENING_LINE>::new();
    line.push_str("LISTENING 127.0.0.1:");
    line.push_str(digits.format(port));
    line.push_str("\n");
    line
}

/// Prints at which port the program listens, in one write.
fn write_port<W: Write>(port: u16, output: &mut W) -> io::Result<()>
    ensures { OnOk result (Appends (W.contents output.old) (W.contents output.new) (listening_line port)) }
{
    let line = listening_line(port);
    output.write_all(line.as_str().as_bytes())?;
    output.flush()
}

fn write_socket<W: Write>(path: &str, output: &mut W) -> io::Result<()>
    ensures { OnOk result (Appends (W.contents output.old) (W.contents output.new) (socket_line path.now)) }
{
    output.write_all(b"LISTENING unix:")?;
    output.write_all(path.as_bytes())?;
    output.write_all(b"\n")?;
    output.flush()
}

/// The result of what the program wrote.
#[tactic(auto, using(opc_cli_failures::proofs::Faults::streams_fail))]
fn said(wrote: io::Result<()>) -> Result<(), Failure>
    ensures status { IfErr result (λ failure. status_of failure.fault ≡ Status.Failed) }
    ensures same { OnOk result (IsOk wrote) }
{
    match wrote {
        Ok(()) => Ok(()),
        Err(error) => Err(Failure::at(Place::Output, error)),
    }
}

/// Prints at which port the program listens.
pub(crate) fn print_port<W: Write>(port: u16, output: &mut W) -> Result<(), Failure>
    ensures status { IfErr result (λ failure. status_of failure.fault ≡ Status.Failed) }
    ensures said { OnOk result (Appends (W.contents output.old) (W.contents output.new) (listening_line port)) }
{
    said(write_port(port, output))
}

/// Prints at which socket it does.
pub(crate) fn print_socket<W: Write>(path: &str, output: &mut W) -> Result<(), Failure>
    ensures status { IfErr result (λ failure. status_of failure.fault ≡ Status.Failed) }
    ensures said { OnOk result (Appends (W.contents output.old) (W.contents output.new) (socket_line path.now)) }
{
    said(write_socket(path, output))
}
