//! One exchange.
ghost use Rattle.std.specs.Prelude.{
  ◌≡◌,
  [],
  IfErr,
  IfOk,
  IfSome,
  OnErr,
  OnOk,
  Ok,
  Err,
  is_err,
  is_some,
  false,
  if◌then◌else◌,
  true,
};
ghost use Rattle.std.specs.Io.KnownBytes.{Appends};
ghost use Rattle.opc_io.specs.Reads.{ReadsOnly, TakesAtMost};
ghost use Rattle.opc_io.specs.Writes.{AppendsPrefix};
ghost use Rattle.opc_http_requests.specs.Asked.{MayRead, StopsAtEnd};
ghost use Rattle.opc_http.specs.Exchange.{IsCutOff, IsFaulty, IsReplyWritten, IsServed, is_read, is_write};
ghost use Rattle.opc_http.specs.Told.{IsEntry};
ghost use Rattle.opc_http.specs.Trails.{IsTrailed};

use crate::telling::{Exchanged, answer, told, told_answer};
use crate::trail::Trail;
use opc_gate::gate::Gate;
use opc_http_requests::ask::read_request;
use opc_http_requests::fault::ReadingFault;
use opc_http_requests::refusal::HttpRefusal;
use opc_http_requests::routes::Routes;
use opc_http_responses::response::{Response, answered, refused};
use opc_io::sink::{Sink, write_whole};
use opc_io::source::Source;
use opc_machine::request::Answer;
use opc_state::tables::Tables;
use std::alloc::Global;
use thiserror::Error;

/// A response was written, whole: its status, and whether a request was handled.
#[derive(Clone, Copy, PartialEq, Eq)]
pub struct Served {
    pub status: u16,
    pub handled: bool,
}

/// Why no whole response was written. If a request was `handled`, it stays done.
#[derive(Clone, Copy, Debug, PartialEq, Eq, Error)]
pub enum LinkFault {
    /// The reader failed.
    #[error("the request could not be read")]
    Read,
    /// The writer failed.
    #[error("the response could not be written")]
    Write { handled: bool },
    #[error("no memory")]
    NoMemory { handled: bool },
}

/// Writes a response.
pub fn respond<K: Sink>(
    sink: &mut K,
    response: &Response,
    handled: bool,
) -> Result<Served, LinkFault>
    ensures served { IfOk result (λ served. (served.status ≡ response.now.status) × (served.handled ≡ handled)) }
    ensures whole { OnOk result (Appends (K.held sink.old) (K.held sink.new) response.now.bytes.items) }
    ensures fault { IfErr result (λ fault. fault ≡ LinkFault.Write handled) }
    ensures part { OnErr result (AppendsPrefix (K.held sink.old) (K.held sink.new) response.now.bytes.items) }
    ensures failed { K.has_failed sink.new ≡ (if is_err result then true else K.has_failed sink.old) }
{
    match write_whole(sink, response.bytes.as_slice()) {
        Ok(()) => Ok(Served {
            status: response.status,
            handled,
        }),
        Err(_) => Err(LinkFault::Write { handled }),
    }
}

// Writes the response to an answer.
fn send_answer<K: Sink>(alloc: Global, sink: &mut K, answer: &Answer) -> Result<Served, LinkFault>
    ensures reported { IfOk result (IsReplyWritten K.held (Ok answer.now) sink.old sink.new) }
    ensures cut_off { IfErr result (IsCutOff K.held (Ok answer.now) sink.old sink.new) }
    ensures write { K.has_failed sink.new ≡ (if is_write result then true else K.has_failed sink.old) }
{
    match answered(alloc, answer) {
        Ok(response) => respond(sink, &response, true),
        Err(_) => Err(LinkFault::NoMemory { handled: true }),
    }
}

// Writes the response to what is not a request.
fn send_refusal<K: Sink>(
    alloc: Global,
    sink: &mut K,
    refusal: &HttpRefusal,
) -> Result<Served, LinkFault>
    ensures reported { IfOk result (IsReplyWritten K.held (Err refusal.now) sink.old sink.new) }
    ensures cut_off { IfErr result (IsCutOff K.held (Err refusal.now) sink.old sink.new) }
    ensures write { K.has_failed sink.new ≡ (if is_write result then true else K.has_failed sink.old) }
{
    match refused(alloc, refusal) {
        Ok(response) => respond(sink, &response, false),
        Err(_) => Err(LinkFault::NoMemory { handled: false }),
    }
}

/// Reads one request of at most 73,728 bytes, lets the gate handle it, and writes its response, which is built whole
/// before its first byte is written. What is not a request is refused, without a call of the gate. It reads on only if
/// the head or its body is not there yet, and a read that fails ends the exchange: that is reported, and nothing is
/// answered. No call of the reader or the writer may have failed before, so that a failure that is reported is one of
/// this exchange.
pub fn exchange<T: Tables, S: Source, K: Sink>(
    alloc: Global,
    routes: &Routes,
    source: &mut S,
    sink: &mut K,
    gate: &mut Gate<T>,
    moment: u64,
) -> Result<Served, LinkFault>
    requires reader { S.has_failed source.old ≡ false }
    requires writer { K.has_failed sink.old ≡ false }
    ensures served { IfOk result (IsServed routes.now T.meaning K.held (S.left source.old) sink.old sink.new gate.old
        gate.new moment) }
    ensures fault { IfErr result (IsFaulty routes.now T.meaning K.held (S.left source.old) sink.old sink.new
        gate.old gate.new moment) }
    ensures sure { T.meaning.is_sure gate.new → T.meaning.is_sure gate.old }
    ensures stops { IfSome (S.left source.old) (λ all. StopsAtEnd routes.now all (S.left source.new)) }
    ensures most { TakesAtMost 73728 (S.left source.old) (S.left source.new) }
    ensures reads { ReadsOnly S.left S.gives (MayRead routes.now) source.old [] source.new }
    ensures read { S.has_failed source.new ≡ is_read result }
    ensures write { K.has_failed sink.new ≡ is_write result }
{
    exchange_told(alloc, routes, source, sink, gate, moment, &mut ()).served
}

/// Does what `exchange` does, lets a trail follow a request before its response is written, and if the trail requests it,
/// also returns the log entry. For that it loads for whom the console acts, before the request is handled, and after it
/// the number of its row of the account.
pub fn exchange_told<T: Tables, S: Source, K: Sink, R: Trail>(
    alloc: Global,
    routes: &Routes,
    source: &mut S,
    sink: &mut K,
    gate: &mut Gate<T>,
    moment: u64,
    trail: &mut R,
) -> Exchanged
    requires reader { S.has_failed source.old ≡ false }
    requires writer { K.has_failed sink.old ≡ false }
    ensures served { IfOk result.served (IsServed routes.now T.meaning K.held (S.left source.old) sink.old sink.new
        gate.old gate.new moment) }
    ensures fault { IfErr result.served (IsFaulty routes.now T.meaning K.held (S.left source.old) sink.old sink.new
        gate.old gate.new moment) }
    ensures sure { T.meaning.is_sure gate.new → T.meaning.is_sure gate.old }
    ensures stops { IfSome (S.left source.old) (λ all. StopsAtEnd routes.now all (S.left source.new)) }
    ensures most { TakesAtMost 73728 (S.left source.old) (S.left source.new) }
    ensures reads { ReadsOnly S.left S.gives (MayRead routes.now) source.old [] source.new }
    ensures read { S.has_failed source.new ≡ is_read result.served }
    ensures write { K.has_failed sink.new ≡ is_write result.served }
    ensures entry { is_some result.entry ≡ R.tells trail.old }
    ensures told { IfSome result.entry (IsEntry routes.now T.meaning (S.left source.old) gate.old gate.new moment
        (K.held sink.old) (K.held sink.new) result.served) }
    ensures trailed { IsTrailed R.follows R.stays routes.now T.meaning (S.left source.old) gate.old gate.new moment
        (K.held sink.old) (K.held sink.new) result.served result.entry trail.old trail.new }
{
    let is_told = trail.is_told();
    match read_request(alloc, routes, source) {
        Ok(request) => {
            let answered = answer(alloc, gate, sink, moment, &request, trail);
            let served = send_answer(alloc, sink, &answered.answer);
            told_answer(is_told, moment, request, answered, served)
        }
        Err(ReadingFault::Refused(refusal)) => {
            let served = send_refusal(alloc, sink, &refusal);
            told(is_told, moment, Some(Err(refusal)), served)
        }
        Err(ReadingFault::Read) => told(is_told, moment, None, Err(LinkFault::Read)),
        Err(ReadingFault::NoMemory) => {
            let served = Err(LinkFault::NoMemory { handled: false });
            told(is_told, moment, None, served)
        }
    }
}
