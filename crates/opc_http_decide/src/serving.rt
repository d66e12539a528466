//! Clients of a decision point, served one after another.
ghost use Rattle.std.specs.Prelude.{◌≡◌};
ghost use Rattle.opc_http_connections.specs.Links.{link_of};
ghost use Rattle.opc_http_serve.specs.Coming.{ComesTo};
ghost use Rattle.opc_http_serve.specs.Serving.{AreClientsServed};
ghost use Rattle.opc_http_questions.specs.Questions.{MayReadQuestion};
ghost use Rattle.opc_http_decide.specs.DecideExchanges.{IsPointExchange};

use crate::point::DecisionPoint;
use opc_decide_present::decider::Decider;
use opc_decide_present::files::PolicyPlace;
use opc_decide_present::present::PresentPolicy;
use opc_http_connections::listener::ClientListener;
use opc_http_connections::timer::Timer;
use opc_http_requests::origins::Origins;
use opc_http_serve::acceptor::Acceptor;
use opc_http_serve::arrival::ServeFault;
use opc_http_serve::serving::serve;
use opc_io::sink::Sink;
use std::rt::Clock;
use std::time::Duration;

/// Serves this many clients that come to a listener, each for this long, as a gate is served, and logs each exchange, if
/// that is requested.
pub fn serve_decisions_on<
    H: AllocGlobal + Clock,
    L: ClientListener,
    F: PolicyPlace,
    D: Decider,
    K: Sink,
>(
    rt: &H,
    listener: &L,
    count: u32,
    timeout: Option<Duration>,
    origins: &Origins,
    point: &mut DecisionPoint<'_, PresentPolicy<F, D>, K>,
) -> Result<(), ServeFault>
    ensures served { AreClientsServed
        (link_of L.Client.limits ⟦<H as Timer>⟧.shows L.Client.reads L.Client.remaining L.Client.contents)
        (MayReadQuestion origins.now)
        (IsPointExchange F.finds F.reads D.refuses D.answers K.held K.has_failed origins.now)
        (ComesTo L.accepts L.Client.clones listener.now) rt.now timeout point.old count result point.new }
{
    let mut acceptor = Acceptor::new(rt, listener);
    serve(
        rt.alloc(),
        rt,
        &mut acceptor,
        count,
        timeout,
        origins,
        point,
    )
}
