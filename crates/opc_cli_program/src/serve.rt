//! `opcmds serve`: the gate over HTTP, at a port of 127.0.0.1 or at a Unix socket.
ghost use Rattle.std.specs.Prelude.{◌≡◌, IfErr, IfOk};
ghost use Rattle.std.specs.Io.KnownBytes.{Appends};
ghost use Rattle.opc_http_connections.specs.Links.{link_of};
ghost use Rattle.opc_http_serve.specs.Coming.{source_at};
ghost use Rattle.opc_cli_failures.specs.Statuses.{status_of};
ghost use Rattle.opc_cli_program.specs.Listening.{ListensAt, ListensBy, listening_line, socket_line};
ghost use Rattle.opc_http_requests.specs.declared.origins.Origins.{Origins};
ghost use Rattle.opc_state.specs.State.{State};
ghost use Rattle.opc_cli_program.specs.ServiceLogs.{IsLogFor};
ghost use Rattle.opc_cli_program.specs.ServicePolicies.{IsFolder, IsStarted};
ghost use Rattle.opc_cli_program.specs.Services.{
  AreClients,
  AreClientsAfter,
  IsEndOfService,
  IsPortService,
  IsService,
  IsServiceAt,
  IsSocketService,
  origins_at,
};

use crate::listening::{listen_at_port, listen_at_socket, print_port, print_socket};
use crate::log_stream::LogStream;
use crate::ports::Ports;
use opc_cli_failures::failure::{Failure, Place};
use opc_cli_failures::status::Status;
use opc_cli_tasks::work::{Address, Clients, Serve};
use opc_gate::gate::Gate;
use opc_http_connections::listener::ClientListener;
use opc_http_connections::timer::Timer;
use opc_http_requests::routes::Routes;
use opc_http_serve::arrival::ServeFault;
use opc_http_serve::clock::moment;
use opc_http_serve::policies::{PolicyFolder, bring};
use opc_http_serve::service::{Service, ServiceTrail};
use opc_http_serve::serving::serve_logged_on;
use opc_io::sink::Sink;
use opc_io::watched::Watched;
use opc_policy_folder::fault::PolicyFault;
use opc_policy_folder::folder::Folder;
use opc_state::tables::Tables;
use opc_terms::fault::Fault;
use std::alloc::Global;
use std::io::Write;
use std::rt::Clock;

/// The status for a service.
pub(crate) fn ended(served: Result<(), ServeFault>) -> Result<Status, Failure>
    ensures { IsEndOfService served result }
{
    match served {
        Ok(()) => Ok(Status::Done),
        Err(ServeFault::Accept(error)) => Err(Failure::at(Place::Connection, error)),
        Err(ServeFault::Clock(error)) => Err(Failure::at(Place::Clock, error)),
    }
}

/// The routes at a port, strict or not.
fn routes_at(alloc: Global, strict: bool, port: u16) -> Result<Routes, Failure>
    ensures routes { IfOk result (λ routes. routes ≡ origins_at strict port) }
    ensures status { IfErr result (λ failure. status_of failure.fault ≡ Status.Failed) }
{
    let routes = if strict {
        Routes::strict(alloc, port)
    } else {
        Routes::new(alloc)
    };
    match routes {
        Ok(routes) => Ok(routes),
        Err(_) => Err(Failure::from(Fault::NoMemory)),
    }
}

/// Where exchanges are logged, if anywhere.
pub(crate) fn log_on<H: LogStream>(rt: &H, is_asked: bool) -> Option<Watched<H::Stream>>
    ensures { IsLogFor (H.is_for_logs rt.now) is_asked result }
{
    if is_asked {
        Some(Watched::new(rt.log_stream()))
    } else {
        None
    }
}

/// Why the policy could not be brought into its folder.
fn not_brought(fault: PolicyFault) -> Failure
    ensures { status_of result.fault ≡ Status.Failed }
{
    match fault {
        PolicyFault::System(error) => Failure::at(Place::Policies, error),
        PolicyFault::Gate(Fault::NoMemory) => Failure::from(Fault::NoMemory),
        // A policy that is loaded is refused by the store alone.
        PolicyFault::Gate(_) => Failure::of_gate(Fault::Store),
    }
}

/// The folder at a path, if one is named, once the present policy is there.
fn folder_at<'a, H: AllocGlobal + Clock + Folder, T: Tables>(
    rt: &'a H,
    gate: &mut Gate<T>,
    path: Option<&'a str>,
) -> Result<Option<PolicyFolder<'a, H>>, Failure>
    ensures started { IsStarted T.meaning path.entry gate.old gate.new }
    ensures status { IfErr result (λ failure. status_of failure.fault ≡ Status.Failed) }
    ensures brought { T.meaning.is_sure gate.new → (s : State) → T.meaning.represents gate.old s
        → IfOk result (IsFolder H.holds H.writes H.publishes rt.entry.now path.entry s) }
{
    let Some(path) = path else {
        return Ok(None);
    };
    let moment = match moment(rt) {
        Ok(moment) => moment,
        Err(error) => return Err(Failure::at(Place::Clock, error)),
    };
    if let Err(fault) = bring(rt.alloc(), gate, rt, path, moment) {
        return Err(not_brought(fault));
    }
    Ok(Some(PolicyFolder {
        folders: rt,
        path,
        is_due: false,
    }))
}

/// Brings the policy of these tables into the folder at a path, if one is named, and returns them.
fn started<'a, H: AllocGlobal + Clock + Folder, T: Tables>(
    rt: &'a H,
    tables: T,
    path: Option<&'a str>,
) -> (Result<Option<PolicyFolder<'a, H>>, Failure>, T)
    ensures started { IsStarted T.meaning path.entry tables result.1 }
    ensures status { IfErr result.0 (λ failure. status_of failure.fault ≡ Status.Failed) }
    ensures brought { T.meaning.is_sure result.1 → (s : State) → T.meaning.represents tables s
        → IfOk result.0 (IsFolder H.holds H.writes H.publishes rt.entry.now path.entry s) }
{
    let mut gate = Gate::over(tables);
    let folder = folder_at(rt, &mut gate, path);
    (folder, gate.into_tables())
}

/// Serves clients over these tables, and returns them. The policy is in its folder first, if one is named.
pub fn serve_tables<
    'a,
    H: AllocGlobal + Clock + LogStream + Folder,
    P: Ports<Listener = L, Socket = S>,
    L: ClientListener,
    S: ClientListener,
    T: Tables,
    W: Write,
>(
    rt: &'a H,
    ports: &P,
    tables: T,
    serve: &Serve<'a>,
    output: &mut W,
) -> (Result<Status, Failure>, T)
where
    L: Drop,
    S: Drop,
    ensures sure { T.meaning.is_sure result.1 → T.meaning.is_sure tables }
    ensures serves { IsService T.meaning (source_at (link_of L.Client.limits ⟦<H as Timer>⟧.shows L.Client.reads
        L.Client.remaining L.Client.contents) L.accepts L.Client.clones) (source_at (link_of S.Client.limits
        ⟦<H as Timer>⟧.shows S.Client.reads S.Client.remaining S.Client.contents) S.accepts S.Client.clones)
        tables result.1 (H.is_for_logs rt.entry.now) H.Stream.contents H.holds H.writes H.publishes rt.entry.now
        serve.now result.0 (W.contents output.old) (W.contents output.new) }
{
    let log = log_on(rt, serve.clients.log);
    let (brought, tables) = started(rt, tables, serve.policies);
    match brought {
        Ok(folder) => {
            let trail = ServiceTrail { log, folder };
            serve_from(rt, ports, tables, trail, &serve.clients, output)
        }
        Err(failure) => (Err(failure), tables),
    }
}

/// Serves clients over these tables, with a cache of which profile decides, and returns them.
fn serve_from<
    H: AllocGlobal + Clock,
    P: Ports<Listener = L, Socket = S>,
    L: ClientListener,
    S: ClientListener,
    T: Tables,
    K: Sink,
    N: Folder,
    W: Write,
>(
    rt: &H,
    ports: &P,
    tables: T,
    trail: ServiceTrail<'_, K, N>,
    clients: &Clients<'_>,
    output: &mut W,
) -> (Result<Status, Failure>, T)
where
    L: Drop,
    S: Drop,
    K: Drop,
    ensures sure { T.meaning.is_sure result.1 → T.meaning.is_sure tables }
    ensures serves { IsServiceAt T.meaning K.held K.has_failed N.holds N.writes N.publishes tables result.1 trail.entry
        clients.now result.0
        (source_at (link_of L.Client.limits ⟦<H as Timer>⟧.shows L.Client.reads L.Client.remaining L.Client.contents)
        L.accepts L.Client.clones)
        (source_at (link_of S.Client.limits ⟦<H as Timer>⟧.shows S.Client.reads S.Client.remaining S.Client.contents)
        S.accepts S.Client.clones)
        (λ asked listener port. Appends (W.contents output.old) (W.contents output.new) (listening_line port))
        (λ path mode socket. Appends (W.contents output.old) (W.contents output.new) (socket_line path))
        clients.now.address }
{
    let gate = match Gate::new(rt.alloc(), tables) {
        Ok(gate) => gate,
        Err((fault, tables)) => return (Err(Failure::from(fault)), tables),
    };
    let mut service = Service { gate, trail };
    let end = serve_service(rt, ports, &mut service, clients, output);
    (end, service.gate.into_store())
}

/// Serves clients, at the requested address.
fn serve_service<
    H: AllocGlobal + Clock,
    P: Ports<Listener = L, Socket = S>,
    L: ClientListener,
    S: ClientListener,
    T: Tables,
    K: Sink,
    N: Folder,
    W: Write,
>(
    rt: &H,
    ports: &P,
    service: &mut Service<'_, T, K, N>,
    clients: &Clients<'_>,
    output: &mut W,
) -> Result<Status, Failure>
where
    L: Drop,
    S: Drop,
    ensures sure { T.meaning.is_sure service.new.gate → T.meaning.is_sure service.old.gate }
    ensures serves { IsServiceAt T.meaning K.held K.has_failed N.holds N.writes N.publishes service.old.gate
        service.new.gate service.old.trail clients.now result
        (source_at (link_of L.Client.limits ⟦<H as Timer>⟧.shows L.Client.reads L.Client.remaining L.Client.contents)
        L.accepts L.Client.clones)
        (source_at (link_of S.Client.limits ⟦<H as Timer>⟧.shows S.Client.reads S.Client.remaining S.Client.contents)
        S.accepts S.Client.clones)
        (ListensAt P.binds P.is_at ports.now (W.contents output.old) (W.contents output.new))
        (ListensBy P.names P.permits P.listens ports.now P.removes (W.contents output.old) (W.contents output.new))
        clients.now.address }
{
    match clients.address {
        Address::Port(port) => serve_at_port(rt, ports, service, port, clients, output),
        Address::Socket { path, mode } => {
            serve_at_socket(rt, ports, service, path, mode, clients, output)
        }
    }
}

/// Serves clients by these routes.
fn serve_by<H: AllocGlobal + Clock, L: ClientListener, T: Tables, K: Sink, N: Folder>(
    rt: &H,
    listener: &L,
    service: &mut Service<'_, T, K, N>,
    clients: &Clients<'_>,
    routes: &Routes,
) -> Result<Status, Failure>
    ensures sure { T.meaning.is_sure service.new.gate → T.meaning.is_sure service.old.gate }
    ensures serves { (origins : Origins) → routes.now ≡ origins
        → AreClients T.meaning K.held K.has_failed N.holds N.writes N.publishes service.old.gate
        service.new.gate service.old.trail clients.now result
        (source_at (link_of L.Client.limits ⟦<H as Timer>⟧.shows L.Client.reads L.Client.remaining L.Client.contents)
        L.accepts L.Client.clones listener.now) origins }
{
    ended(serve_logged_on(
        rt,
        listener,
        clients.count,
        clients.timeout,
        routes,
        service,
    ))
}

/// Serves clients at a port.
fn serve_at_port<
    H: AllocGlobal + Clock,
    P: Ports<Listener = L>,
    L: ClientListener,
    T: Tables,
    K: Sink,
    N: Folder,
    W: Write,
>(
    rt: &H,
    ports: &P,
    service: &mut Service<'_, T, K, N>,
    port: u16,
    clients: &Clients<'_>,
    output: &mut W,
) -> Result<Status, Failure>
where
    L: Drop,
    ensures sure { T.meaning.is_sure service.new.gate → T.meaning.is_sure service.old.gate }
    ensures serves { IsPortService T.meaning K.held K.has_failed N.holds N.writes N.publishes service.old.gate
        service.new.gate service.old.trail clients.now result
        (source_at (link_of L.Client.limits ⟦<H as Timer>⟧.shows L.Client.reads L.Client.remaining L.Client.contents)
        L.accepts L.Client.clones)
        (ListensAt P.binds P.is_at ports.now (W.contents output.old) (W.contents output.new) port) }
{
    let (listener, given) = listen_at_port(ports, port)?;
    let routes = routes_at(rt.alloc(), clients.strict, given)?;
    print_port(given, output)?;
    serve_by(rt, &listener, service, clients, &routes)
}

/// Serves clients at a Unix socket. Its file is removed after that, if it is still the one at the path.
fn serve_at_socket<
    H: AllocGlobal + Clock,
    P: Ports<Socket = S>,
    S: ClientListener,
    T: Tables,
    K: Sink,
    N: Folder,
    W: Write,
>(
    rt: &H,
    ports: &P,
    service: &mut Service<'_, T, K, N>,
    path: &str,
    mode: u32,
    clients: &Clients<'_>,
    output: &mut W,
) -> Result<Status, Failure>
where
    S: Drop,
    ensures sure { T.meaning.is_sure service.new.gate → T.meaning.is_sure service.old.gate }
    ensures serves { IsSocketService T.meaning K.held K.has_failed N.holds N.writes N.publishes service.old.gate
        service.new.gate service.old.trail clients.now result
        (source_at (link_of S.Client.limits ⟦<H as Timer>⟧.shows S.Client.reads S.Client.remaining S.Client.contents)
        S.accepts S.Client.clones)
        (ListensBy P.names P.permits P.listens ports.now P.removes (W.contents output.old) (W.contents output.new)
        path.now mode) }
{
    let socket = listen_at_socket(ports, path, mode)?;
    let end = serve_socket(rt, &socket, service, path, clients, output);
    ports.remove(path, &socket);
    end
}

/// Serves clients of a socket at this path. No web page reaches it.
fn serve_socket<H: AllocGlobal + Clock, S: ClientListener, T: Tables, K: Sink, N: Folder, W: Write>(
    rt: &H,
    socket: &S,
    service: &mut Service<'_, T, K, N>,
    path: &str,
    clients: &Clients<'_>,
    output: &mut W,
) -> Result<Status, Failure>
    ensures sure { T.meaning.is_sure service.new.gate → T.meaning.is_sure service.old.gate }
    ensures serves { AreClientsAfter T.meaning K.held K.has_failed N.holds N.writes N.publishes service.old.gate
        service.new.gate service.old.trail clients.now result
        (source_at (link_of S.Client.limits ⟦<H as Timer>⟧.shows S.Client.reads S.Client.remaining S.Client.contents)
        S.accepts S.Client.clones socket.now)
        (Appends (W.contents output.old) (W.contents output.new) (socket_line path.now)) }
{
    let Ok(routes) = Routes::new(rt.alloc()) else {
        return Err(Failure::from(Fault::NoMemory));
    };
    print_socket(path, output)?;
    serve_by(rt, socket, service, clients, &routes)
}
