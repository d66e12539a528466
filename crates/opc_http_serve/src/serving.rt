//! Clients served one after another.
ghost use Rattle.std.specs.Prelude.{◌≡◌, Err, IfErr, OnErr, OnOk, false};
ghost use Rattle.opc_http_connections.specs.Links.{link_of};
ghost use Rattle.opc_http_serve.specs.Arriving.{Arrives};
ghost use Rattle.opc_http_serve.specs.Coming.{ComesTo};
ghost use Rattle.opc_http_serve.specs.Handled.{AreHandled, IsExchange};
ghost use Rattle.opc_http_serve.specs.Logging.{IsServiceExchange};
ghost use Rattle.opc_http_serve.specs.Serving.{AreServed, IsCutShort, IsClientServed, IsTurn, ServesClients};

use crate::acceptor::Acceptor;
use crate::arrival::{Arrival, ServeFault};
use crate::arrivals::{Arrivals, next};
use crate::exchanges::Exchanges;
use crate::service::Service;
use opc_gate::gate::Gate;
use opc_http_connections::connection::Connection;
use opc_http_connections::drain::drain;
use opc_http_connections::listener::ClientListener;
use opc_http_connections::timer::Timer;
use opc_http_requests::routes::Routes;
use opc_io::sink::Sink;
use opc_policy_folder::folder::Folder;
use opc_state::tables::Tables;
use std::alloc::Global;
use std::rt::Clock;
use std::time::Duration;

/// One exchange with a client, and the end of its connection.
fn serve_client<C: Connection, K: Timer, X: Exchanges>(
    alloc: Global,
    client: &mut Arrival<'_, C, K>,
    routes: &X::Routes,
    gate: &mut X,
)
    requires reader { client.old.reader.failed ≡ false }
    requires writer { client.old.writer.failed ≡ false }
    ensures { IsClientServed (link_of C.limits K.shows C.reads C.remaining C.contents) C.shuts (X.may_read routes.now)
        (X.exchanged routes.now) client.old client.new gate.old gate.new }
{
    let moment = client.moment;
    let served = gate.serve_one(
        alloc,
        routes,
        &mut client.reader,
        &mut client.writer,
        moment,
    );
    if served.is_ok() {
        drain(&mut client.reader);
    }
}

/// Serves the next client, whose exchange has this much time in all. A failed accept counts as one.
fn serve_next<A: Arrivals, K: Timer, X: Exchanges>(
    alloc: Global,
    timer: &K,
    arrivals: &mut A,
    timeout: Option<Duration>,
    routes: &X::Routes,
    gate: &mut X,
) -> Result<(), ServeFault>
    ensures turn { OnOk result (IsTurn (link_of A.Connection.limits K.shows A.Connection.reads A.Connection.remaining
        A.Connection.contents) A.Connection.shuts (X.may_read routes.now) (X.exchanged routes.now) A.accepts
        A.clock_says timer.now timeout arrivals.old gate.old arrivals.new gate.new) }
    ensures none { IfErr result (λ fault. Arrives A.accepts A.clock_says K.shows timer.now timeout arrivals.old
        (Err fault) arrivals.new) }
    ensures idle { OnErr result (gate.new ≡ gate.old) }
{
    if let Some(mut client) = next(timer, arrivals, timeout)? {
        serve_client(alloc, &mut client, routes, gate);
    }
    Ok(())
}

/// Serves this many connections, one after another. A fault of a link ends that client's exchange alone. If none can be
/// accepted, serving ends.
pub fn serve<A: Arrivals, K: Timer, X: Exchanges>(
    alloc: Global,
    timer: &K,
    arrivals: &mut A,
    count: u32,
    timeout: Option<Duration>,
    routes: &X::Routes,
    gate: &mut X,
) -> Result<(), ServeFault>
    ensures done { OnOk result (AreServed (link_of A.Connection.limits K.shows A.Connection.reads A.Connection.remaining
        A.Connection.contents) A.Connection.shuts (X.may_read routes.now) (X.exchanged routes.now) A.accepts
        A.clock_says timer.now timeout arrivals.old gate.old count arrivals.new gate.new) }
    ensures ended { IfErr result (λ fault. IsCutShort (link_of A.Connection.limits K.shows A.Connection.reads
        A.Connection.remaining A.Connection.contents) A.Connection.shuts (X.may_read routes.now)
        (X.exchanged routes.now) A.accepts A.clock_says timer.now timeout arrivals.old gate.old count fault arrivals.new gate.new) }
{
    for _connection in 0..count {
        serve_next(alloc, timer, arrivals, timeout, routes, gate)?;
    }
    Ok(())
}

/// Serves this many clients that come to a listener.
pub fn serve_on<H: AllocGlobal + Clock, L: ClientListener, T: Tables>(
    rt: &H,
    listener: &L,
    count: u32,
    timeout: Option<Duration>,
    routes: &Routes,
    gate: &mut Gate<T>,
) -> Result<(), ServeFault>
    ensures sure { T.meaning.is_sure gate.new → T.meaning.is_sure gate.old }
    ensures handled { AreHandled routes.now T.meaning
        (link_of L.Client.limits ⟦<H as Timer>⟧.shows L.Client.reads L.Client.remaining L.Client.contents)
        (ComesTo L.accepts L.Client.clones listener.now) timeout gate.old gate.new count result }
    ensures served { ServesClients
        (link_of L.Client.limits ⟦<H as Timer>⟧.shows L.Client.reads L.Client.remaining L.Client.contents)
        routes.now (IsExchange routes.now T.meaning) (ComesTo L.accepts L.Client.clones listener.now) rt.now timeout gate.old count
        result gate.new }
{
    let mut acceptor = Acceptor::new(rt, listener);
    serve(rt.alloc(), rt, &mut acceptor, count, timeout, routes, gate)
}

/// Serves this many clients that come to a listener, and logs each exchange, if that is requested.
pub fn serve_logged_on<H: AllocGlobal + Clock, L: ClientListener, T: Tables, K: Sink, N: Folder>(
    rt: &H,
    listener: &L,
    count: u32,
    timeout: Option<Duration>,
    routes: &Routes,
    service: &mut Service<'_, T, K, N>,
) -> Result<(), ServeFault>
    ensures sure { T.meaning.is_sure service.new.gate → T.meaning.is_sure service.old.gate }
    ensures handled { AreHandled routes.now T.meaning
        (link_of L.Client.limits ⟦<H as Timer>⟧.shows L.Client.reads L.Client.remaining L.Client.contents)
        (ComesTo L.accepts L.Client.clones listener.now) timeout service.old.gate service.new.gate count result }
    ensures served { ServesClients
        (link_of L.Client.limits ⟦<H as Timer>⟧.shows L.Client.reads L.Client.remaining L.Client.contents)
        routes.now (IsServiceExchange K.held K.has_failed N.holds N.writes N.publishes routes.now T.meaning)
        (ComesTo L.accepts L.Client.clones listener.now) rt.now timeout service.old count result service.new }
{
    let mut acceptor = Acceptor::new(rt, listener);
    serve(
        rt.alloc(),
        rt,
        &mut acceptor,
        count,
        timeout,
        routes,
        service,
    )
}
