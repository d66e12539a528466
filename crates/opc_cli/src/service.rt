//! A service over a gate, with the number with which a program ends.
ghost use Rattle.std.specs.Prelude.{◌≡◌};
ghost use Rattle.opc_cli_failures.specs.Statuses.{number_of};
ghost use Rattle.opc_http_connections.specs.Links.{link_of};
ghost use Rattle.opc_http_serve.specs.Coming.{source_at};
ghost use Rattle.opc_cli.specs.Calls.{IsService, status_of_service};

use opc_cli_failures::status::Status;
use opc_gate::gate::Gate;
use opc_http_connections::connection::Connection;
use opc_http_connections::listener::ClientListener;
use opc_http_connections::timer::Timer;
use opc_http_requests::routes::Routes;
use opc_http_serve::arrival::ServeFault;
use opc_http_serve::serving;
use opc_state::tables::Tables;
use std::net::OpenListener;
use std::rt::Clock;

/// Serves this many clients that come to a listener, one after another, without a time limit. The number is 0 once all
/// were served, and 3 if one could not be accepted. This is for callers with a gate and a listener of their own: the
/// program serves the tables of a database file.
pub fn serve_on<H: AllocGlobal + Clock, L: OpenListener, T: Tables>(
    rt: &H,
    listener: &L,
    count: u32,
    routes: &Routes,
    gate: &mut Gate<T>,
) -> u8
where
    L::Stream: Connection,
    ensures sure { T.meaning.is_sure gate.new → T.meaning.is_sure gate.old }
    ensures served { IsService T.meaning gate.old gate.new routes.now
        (source_at (link_of L.Stream.limits ⟦<H as Timer>⟧.shows L.Stream.reads L.Stream.remaining L.Stream.contents)
        ⟦<L as ClientListener>⟧.accepts L.Stream.clones listener.now) count result }
{
    number_of(serving::serve_on(rt, listener, count, None, routes, gate))
}

fn number_of(served: Result<(), ServeFault>) -> u8
    ensures { result ≡ number_of (status_of_service served) }
{
    match served {
        Ok(()) => Status::Done.number(),
        Err(_) => Status::Failed.number(),
    }
}
