//! The answers to the questions of a request.
ghost use Rattle.std.specs.Prelude.{◌≡◌, IfOk, Some, map};
ghost use Rattle.serde_json.specs.Data.{array};
ghost use Rattle.serde_json.specs.Read.{read};
ghost use Rattle.serde_json.specs.View.{items_of, view};
ghost use Rattle.opc_decide_requests.specs.Requests.{element_question};
ghost use Rattle.opc_decide_answers.specs.DecisionValues.{decision_value};
ghost use Rattle.opc_decide_answers.specs.Evaluated.{
  answers,
  decision_reply,
  element_permits,
  element_value,
  evaluation_in,
  evaluations,
  evaluations_in,
  evaluations_value,
  list_reply,
};

use crate::decision::{AccessDecision, decision_of};
use crate::policy::DecidingPolicy;
use crate::reply::{DecideReply, bad, done};
use crate::values::{decision_value, fault_value};
use opc_answers::logons::{Instead, NoLogon};
use opc_decide_requests::body::{being_body, element_question, request_question, value_in};
use opc_decide_requests::evaluations::{EvaluationSemantics, elements_in, semantics_at};
use opc_decide_requests::fault::RequestFault;
use opc_policy::ruling::Ruling;
use opc_terms::rule::Rule;
use serde_json::{Value, json};
use std::alloc::{AllocError, Global};

/// What is answered to one question. It reads as what is decided.
#[tactic(auto, using(crate::proofs::NoFloats::decision_so, crate::proofs::Depths::decision_shallow))]
pub fn decision_reply(
    alloc: Global,
    policy: &DecidingPolicy,
    decision: &AccessDecision,
) -> Result<DecideReply, AllocError>
    ensures is { IfOk result (λ reply. reply ≡ decision_reply policy.now decision.now) }
    ensures reads { IfOk result (λ reply. read reply.body ≡ Some (decision_value policy.now.name decision.now)) }
{
    let value = decision_value(alloc, policy, decision)?;
    done(alloc, &value)
}

/// The answer to a body that asks one question.
fn evaluation_in(
    alloc: Global,
    policy: &DecidingPolicy,
    body: &Value,
) -> Result<DecideReply, AllocError>
    ensures { IfOk result (λ reply. reply ≡ evaluation_in policy.now (view body.now)) }
{
    // Named for the prover, which otherwise does not find the types of a decision.
    let (_no_rule, _no_ruling): (Option<Rule>, Option<Ruling>) = (None, None);
    let (_off, _instead): (Option<NoLogon>, Option<Instead>) = (None, None);
    match request_question(body) {
        Ok(question) => {
            let decision = decision_of(alloc, policy, &question)?;
            decision_reply(alloc, policy, &decision)
        }
        Err(why) => bad(alloc, &why),
    }
}

/// What is answered to an element, and whether that permits.
#[derive(Drop)]
struct ElementAnswer {
    value: Value,
    permits: bool,
}

fn element_answer(
    alloc: Global,
    policy: &DecidingPolicy,
    element: &Value,
    shared: &Value,
) -> Result<ElementAnswer, AllocError>
    ensures value { IfOk result (λ answer. view answer.value
        ≡ element_value policy.now (element_question (view element.now) (view shared.now))) }
    ensures permits { IfOk result (λ answer. answer.permits
        ≡ element_permits policy.now (element_question (view element.now) (view shared.now))) }
{
    // Named for the prover, which otherwise does not find the types of a decision.
    let (_no_rule, _no_ruling): (Option<Rule>, Option<Ruling>) = (None, None);
    let (_off, _instead): (Option<NoLogon>, Option<Instead>) = (None, None);
    let question = match element_question(element, shared) {
        Ok(question) => question,
        Err(why) => {
            let text = why.text(alloc)?;
            let value = fault_value(alloc, text.as_str())?;
            return Ok(ElementAnswer {
                value,
                permits: false,
            });
        }
    };
    let decision = decision_of(alloc, policy, &question)?;
    let value = decision_value(alloc, policy, &decision)?;
    Ok(ElementAnswer {
        value,
        permits: decision.permits(),
    })
}

/// The answers to elements, up to the one with which they end.
fn answers(
    alloc: Global,
    policy: &DecidingPolicy,
    semantics: EvaluationSemantics,
    elements: &[Value],
    shared: &Value,
) -> Result<Vec<Value>, AllocError>
    ensures { IfOk result (λ items. map view items.items
        ≡ answers policy.now semantics (view shared.now) (map view elements.now)) }
{
    let mut items = Vec::new(alloc);
    for element in elements {
        let answer = element_answer(alloc, policy, element, shared)?;
        items.push(answer.value)?;
        if semantics.ends_with(answer.permits) {
            return Ok(items);
        }
    }
    Ok(items)
}

fn evaluations_value(
    alloc: Global,
    policy: &DecidingPolicy,
    semantics: EvaluationSemantics,
    elements: &[Value],
    shared: &Value,
) -> Result<Value, AllocError>
    ensures { IfOk result (λ value. view value ≡ evaluations_value
        (answers policy.now semantics (view shared.now) (map view elements.now))) }
{
    let items = Value::Array(answers(alloc, policy, semantics, elements, shared)?);
    json!(in alloc; {"evaluations": items})
}

/// The answer to a list of elements.
#[tactic(auto, using(crate::proofs::NoFloats::evaluations_so))]
fn list_reply(
    alloc: Global,
    policy: &DecidingPolicy,
    elements: &[Value],
    body: &Value,
) -> Result<DecideReply, AllocError>
    ensures { IfOk result (λ reply. reply ≡ list_reply policy.now (view body.now) (map view elements.now)) }
{
    let semantics = match semantics_at(body) {
        Ok(semantics) => semantics,
        Err(why) => return bad(alloc, &why),
    };
    let value = evaluations_value(alloc, policy, semantics, elements, body)?;
    done(alloc, &value)
}

/// The answer to a body with a list of elements or, if it has none, to the question that it is.
fn evaluations_in(
    alloc: Global,
    policy: &DecidingPolicy,
    body: &Value,
) -> Result<DecideReply, AllocError>
    ensures { IfOk result (λ reply. reply ≡ evaluations_in policy.now (view body.now)) }
{
    if let Err(why) = being_body(body) {
        return bad(alloc, &why);
    }
    match elements_in(body) {
        Ok([]) => evaluation_in(alloc, policy, body),
        Ok(elements) => list_reply(alloc, policy, elements, body),
        Err(why) => bad(alloc, &why),
    }
}

/// The answer to a body that asks several questions, or one.
pub fn evaluations(
    alloc: Global,
    policy: &DecidingPolicy,
    body: &[u8],
) -> Result<DecideReply, AllocError>
    ensures { IfOk result (λ reply. reply ≡ evaluations policy.now body.now) }
{
    match value_in(alloc, body)? {
        Some(value) => evaluations_in(alloc, policy, &value),
        None => bad(alloc, &RequestFault::NotJson),
    }
}
