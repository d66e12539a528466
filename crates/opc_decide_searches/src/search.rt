//! The answers to searches.
ghost use Rattle.std.specs.Prelude.{◌≡◌, IfOk};
ghost use Rattle.serde_json.specs.View.{view};
ghost use Rattle.opc_decide_searches.specs.SearchReplies.{found_reply, search, search_in};

use crate::asking::{limit_at, token_at};
use crate::candidate::AccessCandidate;
use crate::finding::{candidates_of, permitted, shared_fault};
use crate::page::results_value;
use crate::sought::{SearchKind, sought_at};
use opc_decide_answers::policy::DecidingPolicy;
use opc_decide_answers::reply::{DecideReply, bad, done};
use opc_decide_requests::body::value_in;
use opc_decide_requests::fault::RequestFault;
use serde_json::Value;
use std::alloc::{AllocError, Global};

/// Those of the candidates with whom the question of a body is permitted, on the page that it asks for.
#[tactic(auto, using(crate::proofs::NoFloats::results_so))]
fn found_reply(
    alloc: Global,
    policy: &DecidingPolicy,
    body: &Value,
    candidates: &[AccessCandidate],
) -> Result<DecideReply, AllocError>
    ensures { IfOk result (λ reply. reply ≡ found_reply policy.now (view body.now) candidates.now) }
{
    let limit = match limit_at(body) {
        Ok(limit) => limit as usize,
        Err(why) => return bad(alloc, &why),
    };
    let token = match token_at(body) {
        Ok(token) => token,
        Err(why) => return bad(alloc, &why),
    };
    if let Some(why) = shared_fault(body, candidates) {
        return bad(alloc, &why);
    }
    let found = permitted(alloc, policy, body, candidates)?;
    let value = results_value(alloc, found.as_slice(), limit, token)?;
    done(alloc, &value)
}

fn search_in(
    alloc: Global,
    policy: &DecidingPolicy,
    kind: SearchKind,
    body: &Value,
) -> Result<DecideReply, AllocError>
    ensures { IfOk result (λ reply. reply ≡ search_in policy.now kind (view body.now)) }
{
    match sought_at(kind, body) {
        Ok(sought) => {
            let candidates = candidates_of(alloc, policy, sought)?;
            found_reply(alloc, policy, body, candidates.as_slice())
        }
        Err(why) => bad(alloc, &why),
    }
}

/// Which subjects may do this, what a subject may do with a resource, or at which consoles.
pub fn search(
    alloc: Global,
    policy: &DecidingPolicy,
    kind: SearchKind,
    body: &[u8],
) -> Result<DecideReply, AllocError>
    ensures { IfOk result (λ reply. reply ≡ search policy.now kind body.now) }
{
    match value_in(alloc, body)? {
        Some(value) => search_in(alloc, policy, kind, &value),
        None => bad(alloc, &RequestFault::NotJson),
    }
}
