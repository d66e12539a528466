//! A gate that is served, and the log of its exchanges.
ghost use Rattle.std.specs.Prelude.{◌≡◌, Some, false, is_some};
ghost use Rattle.std.specs.Io.KnownBytes.{Appends};
ghost use Rattle.opc_io.specs.Writes.{AppendsPrefix};
ghost use Rattle.opc_http_requests.specs.Asked.{MayRead};
ghost use Rattle.opc_http_log.specs.LogLines.{IsLogLine};
ghost use Rattle.opc_http_serve.specs.Logging.{IsLineWritten, IsLogged, IsServiceExchange};

use crate::exchanges::Exchanges;
use crate::policies;
use crate::policies::PolicyFolder;
use opc_board::text::KeptText;
use opc_gate::gate::Gate;
use opc_http::trail::Trail;
use opc_http::{LinkFault, Served, exchange_told};
use opc_http_log::entry::LogEntry;
use opc_http_log::line::log_line;
use opc_http_requests::routes::Routes;
use opc_io::sink::{Sink, write_whole};
use opc_io::source::Source;
use opc_machine::request::{Answer, Request};
use opc_policy_folder::fault::PolicyFault;
use opc_policy_folder::folder::Folder;
use opc_state::tables::Tables;
use std::alloc::Global;

/// Where exchanges are logged, and the folder into which the policy is brought, if any.
#[derive(Drop)]
pub struct ServiceTrail<'a, K, N> {
    pub log: Option<K>,
    pub folder: Option<PolicyFolder<'a, N>>,
}

/// A gate, and what follows its exchanges.
#[derive(Drop)]
pub struct Service<'a, T: Tables, K, N> {
    pub gate: Gate<T>,
    pub trail: ServiceTrail<'a, K, N>,
}

impl<L: Sink, N: Folder> Trail for ServiceTrail<'_, L, N> {
    ghost use Rattle.std.specs.Prelude.{◌≡◌, is_some};
    ghost use Rattle.opc_http_serve.specs.Policies.{IsPolicyKept};

    ghost tells = { λ trail. is_some trail.log };

    ghost follows = { λ old s moment request answer _ policy new. IsPolicyKept N.holds N.writes N.publishes s moment
        request answer policy old.folder new.folder };

    ghost stays = { λ old new. new.log ≡ old.log };

    fn is_told(&self) -> bool {
        self.log.is_some()
    }

    fn follow<T: Tables, K: Sink>(
        &mut self,
        alloc: Global,
        gate: &mut Gate<T>,
        _sink: &K,
        moment: u64,
        request: &Request,
        answer: &Answer,
    ) -> Result<Option<KeptText>, PolicyFault> {
        policies::follow(alloc, gate, &mut self.folder, moment, request, answer)
    }
}

/// Writes to a log. Nothing but the log depends on it: if a write fails, the line is cut.
pub fn write_to<K: Sink>(log: &mut K, line: &[u8])
    ensures part { AppendsPrefix (K.held log.old) (K.held log.new) line.now }
    ensures whole { K.has_failed log.new ≡ false → Appends (K.held log.old) (K.held log.new) line.now }
{
    let _ = write_whole(log, line);
}

/// Writes the line of an exchange, which is over, to the log. If its allocation fails, it is left out.
fn write_line<K: Sink>(alloc: Global, log: &mut K, entry: &LogEntry)
    ensures { IsLineWritten K.held K.has_failed (IsLogLine entry.now) log.old log.new }
{
    let Ok(line) = log_line(alloc, entry) else {
        return;
    };
    write_to(log, line.as_slice());
}

/// Writes the line of an exchange, which is over, to the log, if there are an entry and a log.
fn write_entry<K: Sink>(alloc: Global, log: &mut Option<K>, entry: &Option<LogEntry>)
    ensures { is_some entry.now ≡ is_some log.old
        → IsLogged K.held K.has_failed (λ told. entry.now ≡ Some told) log.old log.new }
{
    if let (Some(log), Some(entry)) = (log, entry) {
        write_line(alloc, log, entry);
    }
}

impl<T: Tables, L: Sink, N: Folder> Exchanges for Service<'_, T, L, N> {
    type Routes = Routes;

    ghost may_read = { λ origins. MayRead origins };

    ghost exchanged = { λ origins old left moment _ held before after result new. IsServiceExchange L.held L.has_failed
        N.holds N.writes N.publishes origins T.meaning old left moment (held before) (held after) result new };

    fn serve_one<S: Source, K: Sink>(
        &mut self,
        alloc: Global,
        routes: &Routes,
        source: &mut S,
        sink: &mut K,
        moment: u64,
    ) -> Result<Served, LinkFault> {
        let exchanged = exchange_told(
            alloc,
            routes,
            source,
            sink,
            &mut self.gate,
            moment,
            &mut self.trail,
        );
        write_entry(alloc, &mut self.trail.log, &exchanged.entry);
        exchanged.served
    }
}
