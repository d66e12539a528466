//! Several questions in one request.
ghost use Rattle.std.specs.Prelude.{◌≡◌, Err, MatchResult, Ok, map};
ghost use Rattle.serde_json.specs.View.{view};
ghost use Rattle.opc_decide_requests.specs.Evaluations.{
  elements_in,
  list_at,
  named_semantics,
  semantics_at,
  semantics_in,
};

use crate::fault::RequestFault;
use crate::key::RequestKey;
use crate::parts::{being_object, text_if};
use serde_json::Value;

/// The most questions in one request.
pub const MOST_EVALUATIONS: usize = 1000;

/// When the answers end: with the last question, with the first that is denied, or with the first that is permitted.
#[derive(Clone, Copy)]
pub enum EvaluationSemantics {
    ExecuteAll,
    DenyOnFirstDeny,
    PermitOnFirstPermit,
}

impl EvaluationSemantics {
    ghost use Rattle.opc_decide_requests.specs.Evaluations.{ends_with};

    /// Whether a decision is the last one.
    pub fn ends_with(self, decision: bool) -> bool
        ensures { result ≡ ends_with self decision }
    {
        match self {
            EvaluationSemantics::ExecuteAll => false,
            EvaluationSemantics::DenyOnFirstDeny => !decision,
            EvaluationSemantics::PermitOnFirstPermit => decision,
        }
    }
}

fn named_semantics(text: &str) -> Option<EvaluationSemantics>
    ensures { result ≡ named_semantics text.now }
{
    match text {
        "execute_all" => Some(EvaluationSemantics::ExecuteAll),
        "deny_on_first_deny" => Some(EvaluationSemantics::DenyOnFirstDeny),
        "permit_on_first_permit" => Some(EvaluationSemantics::PermitOnFirstPermit),
        // The standard names no other.
        _ => None,
    }
}

fn semantics_in(options: &Value) -> Result<EvaluationSemantics, RequestFault>
    ensures { result ≡ semantics_in (view options.now) }
{
    being_object(options, RequestKey::Options)?;
    match text_if(options, RequestKey::Semantic)? {
        Some(text) => { named_semantics(text).ok_or(RequestFault::Invalid(RequestKey::Semantic)) }
        None => Ok(EvaluationSemantics::ExecuteAll),
    }
}

/// When the answers to the questions of a body end.
pub fn semantics_at(body: &Value) -> Result<EvaluationSemantics, RequestFault>
    ensures { result ≡ semantics_at (view body.now) }
{
    match body.get(RequestKey::Options.text()) {
        Some(options) => semantics_in(options),
        None => Ok(EvaluationSemantics::ExecuteAll),
    }
}

#[tactic(auto, using(crate::proofs::Lists::list_so))]
fn list_at(value: &Value) -> Result<&[Value], RequestFault>
    ensures { MatchResult result (λ list. list_at (view value.now) ≡ Ok (map view list.now))
        (λ why. list_at (view value.now) ≡ Err why) }
{
    match value.as_array() {
        Some(list) => Ok(list.as_slice()),
        None => Err(RequestFault::Invalid(RequestKey::Evaluations)),
    }
}

/// The questions of a body. Without any, the body is itself a question.
pub fn elements_in(body: &Value) -> Result<&[Value], RequestFault>
    ensures { MatchResult result (λ list. elements_in (view body.now) ≡ Ok (map view list.now))
        (λ why. elements_in (view body.now) ≡ Err why) }
{
    let Some(value) = body.get(RequestKey::Evaluations.text()) else {
        return Ok(&[]);
    };
    let list = list_at(value)?;
    if list.len() > MOST_EVALUATIONS {
        return Err(RequestFault::Invalid(RequestKey::Evaluations));
    }
    Ok(list)
}
