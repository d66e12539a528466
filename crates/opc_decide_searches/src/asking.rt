//! Which page of what it finds a search asks for.
ghost use Rattle.std.specs.Prelude.{◌≡◌, Err, MatchResult, Ok};
ghost use Rattle.serde_json.specs.View.{view};
ghost use Rattle.opc_decide_searches.specs.Asking.{
  limit_at,
  limit_in,
  limit_on,
  token_at,
  token_on,
};

use opc_decide_requests::fault::RequestFault;
use opc_decide_requests::key::RequestKey;
use opc_decide_requests::parts::{being_object, text_if};
use opc_terms::fault::Fault;
use serde_json::Value;

/// The most results on a page.
const MOST_RESULTS: u64 = 1000;

fn limit_in(value: &Value) -> Option<u64>
    ensures { result ≡ limit_in (view value.now) }
{
    match value.as_u64() {
        Some(limit) if 1 <= limit && limit <= MOST_RESULTS => Some(limit),
        Some(_) | None => None,
    }
}

fn limit_on(page: &Value) -> Result<u64, RequestFault>
    ensures { result ≡ limit_on (view page.now) }
{
    // Named for the prover, which otherwise does not find the type of a command's fault.
    let _no_fault: Option<Fault> = None;
    being_object(page, RequestKey::Page)?;
    match page.get(RequestKey::Limit.text()) {
        Some(limit) => limit_in(limit).ok_or(RequestFault::Invalid(RequestKey::Limit)),
        None => Ok(MOST_RESULTS),
    }
}

/// How many results are on the page.
pub(crate) fn limit_at(body: &Value) -> Result<u64, RequestFault>
    ensures { result ≡ limit_at (view body.now) }
{
    match body.get(RequestKey::Page.text()) {
        Some(page) => limit_on(page),
        None => Ok(MOST_RESULTS),
    }
}

fn token_on(page: &Value) -> Result<&str, RequestFault>
    ensures { MatchResult result (λ token. token_on (view page.now) ≡ Ok token.now)
        (λ why. token_on (view page.now) ≡ Err why) }
{
    being_object(page, RequestKey::Page)?;
    match text_if(page, RequestKey::Token)? {
        Some(token) => Ok(token),
        None => Ok(""),
    }
}

/// The last result of the page before, or an empty text for the first page.
pub(crate) fn token_at(body: &Value) -> Result<&str, RequestFault>
    ensures { MatchResult result (λ token. token_at (view body.now) ≡ Ok token.now)
        (λ why. token_at (view body.now) ≡ Err why) }
{
    match body.get(RequestKey::Page.text()) {
        Some(page) => token_on(page),
        None => Ok(""),
    }
}
