//! What serves a client.
ghost use Rattle.std.specs.Prelude.{◌≡◌, [], false};
ghost use Rattle.opc_io.specs.Reads.{ReadsOnly};
ghost use Rattle.opc_http_requests.specs.Asked.{MayRead};
ghost use Rattle.opc_http_serve.specs.Handled.{IsExchange};

use opc_gate::gate::Gate;
use opc_http::{LinkFault, Served, exchange};
use opc_http_requests::routes::Routes;
use opc_io::sink::Sink;
use opc_io::source::Source;
use opc_state::tables::Tables;
use std::alloc::Global;

/// What serves one client after another, each by one exchange.
pub trait Exchanges {
    ghost use Rattle.std.specs.Prelude.{ℕ, List, Option, Result};
    ghost use Rattle.opc_http.specs.declared.exchanging.LinkFault.{LinkFault};
    ghost use Rattle.opc_http.specs.declared.exchanging.Served.{Served};

    /// The routes of all its exchanges, and from where requests are accepted.
    type Routes;

    /// A read may be made after these bytes, and give so many more.
    ghost may_read: { Self.Routes → List ℕ → ℕ → Type 0 };

    /// An exchange was made, by these routes: with what the reader had left, at this time, over this writer, of which it
    /// is stated what it holds, as it was before and after, and how it ended. Only such an exchange can show what a
    /// function over any of these promises by it.
    ghost exchanged: { Self.Routes → Self → Option (List ℕ) → ℕ → (W : Type 0) → (W → Option (List ℕ))
        → (before after : W) → Result Served LinkFault → Self → Type 0 };

    /// One exchange, over a reader and a writer of which no call has failed.
    fn serve_one<S: Source, K: Sink>(
        &mut self,
        alloc: Global,
        routes: &Self::Routes,
        source: &mut S,
        sink: &mut K,
        moment: u64,
    ) -> Result<Served, LinkFault>
        requires reader { S.has_failed source.old ≡ false }
        requires writer { K.has_failed sink.old ≡ false }
        ensures exchanged { exchanged routes.now self.old (S.left source.old) moment _ K.held sink.old sink.new result
            self.new }
        ensures reads { ReadsOnly S.left S.gives (may_read routes.now) source.old [] source.new };
}

impl<T: Tables> Exchanges for Gate<T> {
    type Routes = Routes;

    ghost may_read = { λ origins. MayRead origins };

    ghost exchanged = { λ origins old left moment _ held before after result new. IsExchange origins T.meaning old left
        moment (held before) (held after) result new };

    fn serve_one<S: Source, K: Sink>(
        &mut self,
        alloc: Global,
        routes: &Routes,
        source: &mut S,
        sink: &mut K,
        moment: u64,
    ) -> Result<Served, LinkFault> {
        exchange(alloc, routes, source, sink, self, moment)
    }
}
