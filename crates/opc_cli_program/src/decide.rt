//! `opcmds decide`: the questions of other programs over HTTP, at a port of 127.0.0.1 or at a Unix socket.
ghost use Rattle.std.specs.Prelude.{◌≡◌, IfErr, IfOk, string_bytes};
ghost use Rattle.std.specs.Io.KnownBytes.{Appends};
ghost use Rattle.opc_http_connections.specs.Links.{link_of};
ghost use Rattle.opc_http_serve.specs.Coming.{source_at};
ghost use Rattle.opc_cli_failures.specs.Statuses.{status_of};
ghost use Rattle.opc_cli_program.specs.Decisions.{
  AreAnswered,
  AreAnsweredAfter,
  IsDecisionService,
  IsPortDecision,
  IsSocketDecision,
  base_at,
  socket_base,
};
ghost use Rattle.opc_cli_program.specs.Listening.{ListensAt, ListensBy, socket_line};
ghost use Rattle.opc_cli_program.specs.Services.{origins_at};

use crate::listening::{listen_at_port, listen_at_socket, print_port, print_socket};
use crate::log_stream::LogStream;
use crate::ports::Ports;
use crate::serve::{ended, log_on};
use opc_cli_failures::failure::Failure;
use opc_cli_failures::status::Status;
use opc_cli_tasks::work::{Address, Clients, Decide};
use opc_decide_present::decider::Decider;
use opc_decide_present::files::PolicyPlace;
use opc_decide_present::present::PresentPolicy;
use opc_http_connections::listener::ClientListener;
use opc_http_connections::timer::Timer;
use opc_http_decide::configuration::local_base;
use opc_http_decide::point::DecisionPoint;
use opc_http_decide::serving::serve_decisions_on;
use opc_http_requests::origins::Origins;
use opc_terms::fault::Fault;
use std::alloc::Global;
use std::io::Write;
use std::rt::Clock;

/// The URL at a socket, which has no host.
const SOCKET_BASE: &str = "http://localhost";

/// Answers questions by the policy file at a place, at the requested address.
pub fn serve_decisions<
    H: AllocGlobal + Clock + LogStream,
    P: Ports<Listener = L, Socket = S>,
    L: ClientListener,
    S: ClientListener,
    F: PolicyPlace + Drop,
    D: Decider + Drop,
    W: Write,
>(
    rt: &H,
    ports: &P,
    policy: PresentPolicy<F, D>,
    decide: &Decide<'_>,
    output: &mut W,
) -> Result<Status, Failure>
where
    L: Drop,
    S: Drop,
    ensures { IsDecisionService F.finds F.reads D.refuses D.answers (H.is_for_logs rt.now) H.Stream.contents policy
        decide.now result
        (source_at (link_of L.Client.limits ⟦<H as Timer>⟧.shows L.Client.reads L.Client.remaining L.Client.contents)
        L.accepts L.Client.clones)
        (source_at (link_of S.Client.limits ⟦<H as Timer>⟧.shows S.Client.reads S.Client.remaining S.Client.contents)
        S.accepts S.Client.clones)
        (ListensAt P.binds P.is_at ports.now (W.contents output.old) (W.contents output.new))
        (ListensBy P.names P.permits P.listens ports.now P.removes (W.contents output.old) (W.contents output.new))
        decide.now.clients.address }
{
    match decide.clients.address {
        Address::Port(port) => decide_at_port(rt, ports, policy, port, decide, output),
        Address::Socket { path, mode } => {
            decide_at_socket(rt, ports, policy, path, mode, decide, output)
        }
    }
}

/// From where requests at a port are accepted, strictly or not.
fn origins_at(strict: bool, port: u16) -> Origins
    ensures { result ≡ origins_at strict port }
{
    if strict {
        Origins::Only(port)
    } else {
        Origins::Any
    }
}

/// The URL at which clients find the service at a port: the one that is given, or its own.
fn base_at(alloc: Global, given: Option<&str>, port: u16) -> Result<String, Failure>
    ensures base { IfOk result (λ base. string_bytes base ≡ base_at given.entry port) }
    ensures status { IfErr result (λ failure. status_of failure.fault ≡ Status.Failed) }
{
    let made = match given {
        Some(base) => String::from_str(alloc, base),
        None => local_base(alloc, port),
    };
    match made {
        Ok(base) => Ok(base),
        Err(_) => Err(Failure::from(Fault::NoMemory)),
    }
}

/// The same at a socket.
fn socket_base(given: Option<&str>) -> &str
    ensures { result.now ≡ socket_base given.entry }
{
    match given {
        Some(base) => base,
        None => SOCKET_BASE,
    }
}

/// Answers questions at a port.
fn decide_at_port<
    H: AllocGlobal + Clock + LogStream,
    P: Ports<Listener = L>,
    L: ClientListener,
    F: PolicyPlace + Drop,
    D: Decider + Drop,
    W: Write,
>(
    rt: &H,
    ports: &P,
    policy: PresentPolicy<F, D>,
    port: u16,
    decide: &Decide<'_>,
    output: &mut W,
) -> Result<Status, Failure>
where
    L: Drop,
    ensures { IsPortDecision F.finds F.reads D.refuses D.answers (H.is_for_logs rt.now) H.Stream.contents policy
        decide.now result
        (source_at (link_of L.Client.limits ⟦<H as Timer>⟧.shows L.Client.reads L.Client.remaining L.Client.contents)
        L.accepts L.Client.clones)
        (ListensAt P.binds P.is_at ports.now (W.contents output.old) (W.contents output.new) port) }
{
    let (listener, given) = listen_at_port(ports, port)?;
    let base = base_at(rt.alloc(), decide.base, given)?;
    print_port(given, output)?;
    let origins = origins_at(decide.clients.strict, given);
    decide_by(
        rt,
        &listener,
        policy,
        base.as_str(),
        origins,
        &decide.clients,
    )
}

/// Answers questions at a Unix socket. Its file is removed after that, if it is still the one at the path.
fn decide_at_socket<
    H: AllocGlobal + Clock + LogStream,
    P: Ports<Socket = S>,
    S: ClientListener,
    F: PolicyPlace + Drop,
    D: Decider + Drop,
    W: Write,
>(
    rt: &H,
    ports: &P,
    policy: PresentPolicy<F, D>,
    path: &str,
    mode: u32,
    decide: &Decide<'_>,
    output: &mut W,
) -> Result<Status, Failure>
where
    S: Drop,
    ensures { IsSocketDecision F.finds F.reads D.refuses D.answers (H.is_for_logs rt.now) H.Stream.contents policy
        decide.now result
        (source_at (link_of S.Client.limits ⟦<H as Timer>⟧.shows S.Client.reads S.Client.remaining S.Client.contents)
        S.accepts S.Client.clones)
        (ListensBy P.names P.permits P.listens ports.now P.removes (W.contents output.old) (W.contents output.new)
        path.now mode) }
{
    let socket = listen_at_socket(ports, path, mode)?;
    let end = decide_socket(rt, &socket, policy, path, decide, output);
    ports.remove(path, &socket);
    end
}

/// Answers questions at the socket of this path. No web page reaches it.
fn decide_socket<
    H: AllocGlobal + Clock + LogStream,
    S: ClientListener,
    F: PolicyPlace + Drop,
    D: Decider + Drop,
    W: Write,
>(
    rt: &H,
    socket: &S,
    policy: PresentPolicy<F, D>,
    path: &str,
    decide: &Decide<'_>,
    output: &mut W,
) -> Result<Status, Failure>
    ensures { AreAnsweredAfter F.finds F.reads D.refuses D.answers (H.is_for_logs rt.now) H.Stream.contents policy
        decide.now result
        (source_at (link_of S.Client.limits ⟦<H as Timer>⟧.shows S.Client.reads S.Client.remaining S.Client.contents)
        S.accepts S.Client.clones socket.now)
        (Appends (W.contents output.old) (W.contents output.new) (socket_line path.now)) }
{
    print_socket(path, output)?;
    let base = socket_base(decide.base);
    decide_by(rt, socket, policy, base, Origins::Any, &decide.clients)
}

/// Answers the questions that come to a listener, and logs each exchange, if that is requested.
fn decide_by<
    H: AllocGlobal + Clock + LogStream,
    L: ClientListener,
    F: PolicyPlace + Drop,
    D: Decider + Drop,
>(
    rt: &H,
    listener: &L,
    policy: PresentPolicy<F, D>,
    base: &str,
    origins: Origins,
    clients: &Clients<'_>,
) -> Result<Status, Failure>
    ensures { AreAnswered F.finds F.reads D.refuses D.answers (H.is_for_logs rt.now) H.Stream.contents policy
        clients.now result
        (source_at (link_of L.Client.limits ⟦<H as Timer>⟧.shows L.Client.reads L.Client.remaining L.Client.contents)
        L.accepts L.Client.clones listener.now) origins base.now }
{
    let log = log_on(rt, clients.log);
    let mut point = DecisionPoint { policy, base, log };
    ended(serve_decisions_on(
        rt,
        listener,
        clients.count,
        clients.timeout,
        &origins,
        &mut point,
    ))
}
