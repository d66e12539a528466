//! What the head of a request states: whether it is accepted, its route, and the length of its body.
ghost use Rattle.std.specs.Prelude.{◌≡◌, ◌≤◌, All, IfOk, length, map};
ghost use Rattle.httparse.specs.Spans.{IsHeaderWithin, IsRequestWithin, header_bytes};
ghost use Rattle.opc_http_questions.specs.QuestionPlans.{found, plan_in, plan_of};

use crate::routes::{DecideRoute, method_of, route_of};
use httparse::spans::{HeaderSpan, RequestSpans};
use opc_http_requests::framing::body_length;
use opc_http_requests::origins::{Origins, admitted};
use opc_http_requests::plan::has_method;
use opc_http_requests::refusal::HttpRefusal;

/// The route of a request, and how many bytes its body has.
#[derive(Clone, Copy)]
pub(crate) struct QuestionPlan {
    pub route: DecideRoute,
    pub length: u64,
}

fn found(route: Option<DecideRoute>) -> Result<DecideRoute, HttpRefusal>
    ensures { result ≡ found route }
{
    match route {
        Some(route) => Ok(route),
        None => Err(HttpRefusal::NotFound),
    }
}

// The plan of a head, given its method, its target and the places of its fields in `buf`.
fn plan_of(
    origins: Origins,
    method: &[u8],
    target: &[u8],
    buf: &[u8],
    headers: &[HeaderSpan],
) -> Result<QuestionPlan, HttpRefusal>
    requires { All (IsHeaderWithin (length buf.now)) headers.now }
    ensures plan { result ≡ plan_of origins method.now target.now (map (header_bytes buf.now) headers.now) }
    ensures few { IfOk result (λ plan. plan.length ≤ 65536) }
{
    admitted(origins, buf, headers)?;
    let route = found(route_of(target))?;
    has_method(method, method_of(route))?;
    let length = body_length(buf, headers)?;
    Ok(QuestionPlan { route, length })
}

/// The plan of the head that `buf` begins with, if the spans find its parts.
pub(crate) fn plan_in(
    origins: Origins,
    buf: &[u8],
    headers: &[HeaderSpan],
    spans: &RequestSpans,
) -> Result<QuestionPlan, HttpRefusal>
    requires { IsRequestWithin buf.now headers.now spans.now }
    ensures plan { result ≡ plan_in origins buf.now headers.now spans.now }
    ensures few { IfOk result (λ plan. plan.length ≤ 65536) }
{
    plan_of(
        origins,
        spans.method.of(buf),
        spans.path.of(buf),
        buf,
        &headers[..spans.headers],
    )
}
