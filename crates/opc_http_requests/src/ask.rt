//! A whole request, read from a source.
ghost use Rattle.std.specs.Prelude.{
  ◌≡◌,
  ◌≤◌,
  ◌+◌,
  ◌-◌,
  ◌++◌,
  [],
  Err,
  IfErr,
  IfOk,
  IfSome,
  MatchResult,
  Ok,
  drop,
  if◌then◌else◌,
  true,
  vec_len,
};
ghost use Rattle.httparse.specs.Spans.{IsWithin, span_bytes};
ghost use Rattle.opc_io.specs.Reads.{ReadsOnly, TakesAtMost};
ghost use Rattle.opc_http_requests.specs.Refusals.{Refuses};
ghost use Rattle.opc_http_requests.specs.Asked.{AsksOnly, MayRead, StopsAtEnd};
ghost use Rattle.opc_http_requests.specs.Bodies.{MayFill};
ghost use Rattle.opc_http_requests.specs.Faults.{IfRefused, is_read};
ghost use Rattle.opc_http_requests.specs.Requests.{planned, request_at, request_by};

use crate::body::read_to;
use crate::body_values::{command_in, operation_in, rows_in};
use crate::fault::ReadingFault;
use crate::head::read_head;
use crate::path::{batch_in, class_in, console_in, count_in, from_in, path_in};
use crate::plan::{Plan, plan_in};
use crate::refusal::{AskFault, HttpRefusal, InvalidPart};
use crate::routes::{Route, Routes};
use httparse::spans::{EMPTY_HEADER_SPAN, RequestSpans};
use opc_io::source::Source;
use opc_machine::request::Request;
use opc_names::name::ConsoleName;
use opc_rows::Rows;
use std::alloc::Global;

/// The most fields of a head.
pub const MOST_FIELDS: usize = 32;

// What a route asks for at a console.
fn request_by(
    alloc: Global,
    route: Route,
    console: ConsoleName,
    path: &str,
    body: &[u8],
) -> Result<Request, AskFault>
    ensures { MatchResult result (λ request. request_by route console path.now body.now ≡ Ok request)
        (λ fault. Refuses fault (request_by route console path.now body.now)) }
{
    match route {
        Route::Command => {
            let text = command_in(alloc, body)?;
            Ok(Request::Command { console, text })
        }
        Route::Admin => {
            let op = operation_in(alloc, body)?;
            Ok(Request::Admin { console, op })
        }
        Route::Import => {
            let batch = batch_in(path)?;
            let rows = rows_in(alloc, body)?;
            Ok(Request::Import {
                console,
                batch,
                rows: Rows::of(rows),
            })
        }
        Route::ListProfiles => {
            let class = class_in(path)?;
            Ok(Request::ListProfiles { console, class })
        }
        Route::ListAccount => {
            let from = from_in(path)?;
            let count = count_in(path)?;
            Ok(Request::ListAccount {
                console,
                from,
                count,
            })
        }
    }
}

// The request of a route, by its path and its body.
fn request_at(alloc: Global, route: Route, path: &str, body: &[u8]) -> Result<Request, AskFault>
    ensures { MatchResult result (λ request. request_at route path.now body.now ≡ Ok request)
        (λ fault. Refuses fault (request_at route path.now body.now)) }
{
    let console = console_in(alloc, path)?;
    request_by(alloc, route, console, path, body)
}

// Reads the body that is planned, after the head that `buf` begins with, and makes the request.
fn read_planned<S: Source>(
    alloc: Global,
    source: &mut S,
    buf: &mut Vec<u8>,
    spans: &RequestSpans,
    plan: Plan,
) -> Result<Request, ReadingFault>
    requires head { spans.now.len ≤ vec_len buf.old }
    requires short { spans.now.len ≤ 8192 }
    requires few { plan.length ≤ 65536 }
    requires path { IsWithin spans.now.len spans.now.path }
    ensures asked { IfOk result (λ request. IfSome (S.left source.old) (λ left.
        planned (span_bytes buf.old.items spans.now.path) (drop spans.now.len (buf.old.items ++ left)) plan ≡ Ok
        request)) }
    ensures refused { IfErr result (λ fault. IfRefused fault (λ why. IfSome (S.left source.old) (λ left.
        planned (span_bytes buf.old.items spans.now.path) (drop spans.now.len (buf.old.items ++ left)) plan
        ≡ Err why))) }
    ensures most { TakesAtMost (spans.now.len + plan.length - vec_len buf.old) (S.left source.old) (S.left source.new) }
    ensures reads { ReadsOnly S.left S.gives (MayFill (spans.now.len + plan.length)) source.old
        buf.old.items source.new }
    ensures failed { S.has_failed source.new ≡ (if is_read result then true else S.has_failed source.old) }
{
    let end = spans.len + plan.length as usize;
    if !read_to(source, buf, end)? {
        return Err(ReadingFault::Refused(HttpRefusal::BadRequest(InvalidPart::CutShort)));
    }
    let path = path_in(spans.path.of(buf.as_slice()))?;
    let request = request_at(alloc, plan.route, path, &buf[spans.len..end])?;
    Ok(request)
}

/// Reads a request, or finds the first refusal. Nothing but the bytes of its head and its body decides what a request
/// is. The contract states which reads take place: nobody knows what a socket has left, and an extra read would wait
/// for a peer that has nothing more to send. It reads on only if what it read is no whole head and may become one, or
/// has its head and not yet its body. Each read takes at most 1,024 bytes, since each is a system call, and none goes
/// past the end of the body, except the last one that looks for the head. After a refusal by the head no more is read.
/// If an allocation or a read fails, the source has given some of its bytes and no request is known.
pub fn read_request<S: Source>(
    alloc: Global,
    routes: &Routes,
    source: &mut S,
) -> Result<Request, ReadingFault>
    ensures asked { IfOk result (λ request. IfSome (S.left source.old) (λ all. AsksOnly routes.now all (Ok request))) }
    ensures refused { IfErr result (λ fault. IfRefused fault (λ why.
        IfSome (S.left source.old) (λ all. AsksOnly routes.now all (Err why)))) }
    ensures stops { IfSome (S.left source.old) (λ all. StopsAtEnd routes.now all (S.left source.new)) }
    ensures most { TakesAtMost 73728 (S.left source.old) (S.left source.new) }
    ensures reads { ReadsOnly S.left S.gives (MayRead routes.now) source.old [] source.new }
    ensures failed { S.has_failed source.new ≡ (if is_read result then true else S.has_failed source.old) }
{
    let mut buf = Vec::new(alloc);
    let mut headers = [EMPTY_HEADER_SPAN; MOST_FIELDS];
    let Some(spans) = read_head(source, &mut buf, &mut headers)? else {
        return Err(ReadingFault::Refused(HttpRefusal::BadRequest(InvalidPart::Head)));
    };
    let plan = plan_in(routes, buf.as_slice(), &headers, &spans)?;
    read_planned(alloc, source, &mut buf, &spans, plan)
}
