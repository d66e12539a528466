//! What the head of a request states: whether it is accepted, its route, and the length of its body.
ghost use Rattle.std.specs.Prelude.{◌≡◌, ◌≤◌, All, IfOk, length, map};
ghost use Rattle.httparse.specs.Spans.{IsHeaderWithin, IsRequestWithin, header_bytes};
ghost use Rattle.opc_http_requests.specs.Plans.{has_method, method_of, method_text, plan_in, plan_of};

use crate::framing::body_length;
use crate::origins::admitted;
use crate::path::{path_in, route_in};
use crate::refusal::{HttpRefusal, Method};
use crate::routes::{Route, Routes};
use httparse::spans::{HeaderSpan, RequestSpans};

/// The route of a request, and how many bytes its body has.
#[derive(Clone, Copy)]
pub(crate) struct Plan {
    pub route: Route,
    pub length: u64,
}

fn method_of(route: Route) -> Method
    ensures { result ≡ method_of route }
{
    match route {
        Route::Command | Route::Admin | Route::Import => Method::Post,
        Route::ListProfiles | Route::ListAccount => Method::Get,
    }
}

fn method_text(method: Method) -> &'static str
    ensures { result.now ≡ method_text method }
{
    match method {
        Method::Get => "GET",
        Method::Post => "POST",
    }
}

/// Checks that a request has the one method of its path.
pub fn has_method(name: &[u8], method: Method) -> Result<(), HttpRefusal>
    ensures { result ≡ has_method name.now method }
{
    if name == method_text(method).as_bytes() {
        Ok(())
    } else {
        Err(HttpRefusal::MethodNotAllowed(method))
    }
}

// The plan of a head, given its method, its target and the places of its fields in `buf`.
fn plan_of(
    routes: &Routes,
    method: &[u8],
    target: &[u8],
    buf: &[u8],
    headers: &[HeaderSpan],
) -> Result<Plan, HttpRefusal>
    requires { All (IsHeaderWithin (length buf.now)) headers.now }
    ensures plan { result ≡ plan_of routes.now method.now target.now (map (header_bytes buf.now) headers.now) }
    ensures few { IfOk result (λ plan. plan.length ≤ 65536) }
{
    admitted(routes.origins(), buf, headers)?;
    let path = path_in(target)?;
    let route = route_in(routes, path)?;
    has_method(method, method_of(route))?;
    let length = body_length(buf, headers)?;
    Ok(Plan { route, length })
}

/// The plan of the head that `buf` begins with, if the spans find its parts.
pub(crate) fn plan_in(
    routes: &Routes,
    buf: &[u8],
    headers: &[HeaderSpan],
    spans: &RequestSpans,
) -> Result<Plan, HttpRefusal>
    requires { IsRequestWithin buf.now headers.now spans.now }
    ensures plan { result ≡ plan_in routes.now buf.now headers.now spans.now }
    ensures few { IfOk result (λ plan. plan.length ≤ 65536) }
{
    plan_of(
        routes,
        spans.method.of(buf),
        spans.path.of(buf),
        buf,
        &headers[..spans.headers],
    )
}
