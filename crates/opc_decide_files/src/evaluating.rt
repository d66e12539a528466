//! The answer to a body that asks one question.
ghost use Rattle.std.specs.Prelude.{◌≡◌, IfOk, Some};
ghost use Rattle.std.specs.Result.{result_ok};
ghost use Rattle.serde_json.specs.Read.{read};
ghost use Rattle.serde_json.specs.View.{view};
ghost use Rattle.opc_decide_requests.specs.Requests.{request_question, value_of};
ghost use Rattle.opc_decide_requests.specs.declared.question.AccessQuestion.{AccessQuestion as Asked};
ghost use Rattle.opc_decide_answers.specs.DecisionValues.{decision_value};
ghost use Rattle.opc_decide_answers.specs.Decisions.{decision_of};
ghost use Rattle.opc_decide_answers.specs.Evaluated.{decision_reply, evaluation, evaluation_in};
ghost use Rattle.opc_decide_files.specs.Answering.{answer_by, question_in};
ghost use Rattle.opc_decide_files.specs.Told.{decision_told, evaluation_told, evaluation_told_of, reply_told};

use crate::told::{decision_told, reply_told};
use opc_answers::logons::{Instead, NoLogon};
use opc_decide_answers::decision::decision_of;
use opc_decide_answers::evaluation::decision_reply;
use opc_decide_answers::policy::DecidingPolicy;
use opc_decide_answers::reply::{DecideReply, bad};
use opc_decide_present::decider::DecidedAnswer;
use opc_decide_present::kind::QuestionKind;
use opc_decide_requests::body::{request_question, value_in};
use opc_decide_requests::fault::RequestFault;
use opc_decide_requests::question::AccessQuestion;
use opc_policy::ruling::Ruling;
use opc_terms::rule::Rule;
use serde_json::Value;
use std::alloc::{AllocError, Global};

/// A reply of which a log tells no more than its kind, or what is wrong.
pub(crate) fn reply_answer(
    alloc: Global,
    policy: &DecidingPolicy,
    kind: QuestionKind,
    reply: DecideReply,
) -> Result<DecidedAnswer, AllocError>
    ensures { IfOk result (λ answer. answer ≡ answer_by reply (reply_told policy.now kind reply)) }
{
    let told = reply_told(alloc, policy, kind, &reply)?;
    Ok(DecidedAnswer {
        status: reply.status,
        body: reply.body,
        told,
    })
}

/// The answer to the question of a body.
fn question_answer(
    alloc: Global,
    policy: &DecidingPolicy,
    body: &Value,
    question: &AccessQuestion,
) -> Result<DecidedAnswer, AllocError>
    ensures is { IfOk result (λ answer. answer
        ≡ answer_by (decision_reply policy.now (decision_of policy.now.state question.now))
        (decision_told policy.now (view body.now) question.now (decision_of policy.now.state question.now))) }
    ensures reads { IfOk result (λ answer. read answer.body
        ≡ Some (decision_value policy.now.name (decision_of policy.now.state question.now))) }
{
    // Named for the prover, which otherwise does not find the types of a decision.
    let (_no_rule, _no_ruling): (Option<Rule>, Option<Ruling>) = (None, None);
    let (_off, _instead): (Option<NoLogon>, Option<Instead>) = (None, None);
    let decision = decision_of(alloc, policy, question)?;
    let reply = decision_reply(alloc, policy, &decision)?;
    let told = decision_told(alloc, policy, body, question, &decision)?;
    Ok(DecidedAnswer {
        status: reply.status,
        body: reply.body,
        told,
    })
}

fn evaluation_in(
    alloc: Global,
    policy: &DecidingPolicy,
    body: &Value,
) -> Result<DecidedAnswer, AllocError>
    ensures is { IfOk result (λ answer. answer ≡ answer_by (evaluation_in policy.now (view body.now))
        (evaluation_told policy.now (view body.now) (request_question (view body.now)))) }
    ensures reads { IfOk result (λ answer. (asked : Asked) → result_ok (request_question (view body.now)) ≡ Some asked
        → read answer.body ≡ Some (decision_value policy.now.name (decision_of policy.now.state asked))) }
{
    match request_question(body) {
        Ok(question) => question_answer(alloc, policy, body, &question),
        Err(why) => {
            let reply = bad(alloc, &why)?;
            reply_answer(alloc, policy, QuestionKind::Evaluation, reply)
        }
    }
}

/// The answer to a body that asks one question. It says what is decided.
pub(crate) fn evaluation_answer(
    alloc: Global,
    policy: &DecidingPolicy,
    body: &[u8],
) -> Result<DecidedAnswer, AllocError>
    ensures is { IfOk result (λ answer. answer
        ≡ answer_by (evaluation policy.now body.now) (evaluation_told_of policy.now (value_of body.now))) }
    ensures reads { IfOk result (λ answer. (asked : Asked) → question_in body.now ≡ Some asked
        → read answer.body ≡ Some (decision_value policy.now.name (decision_of policy.now.state asked))) }
{
    match value_in(alloc, body)? {
        Some(value) => evaluation_in(alloc, policy, &value),
        None => {
            let reply = bad(alloc, &RequestFault::NotJson)?;
            reply_answer(alloc, policy, QuestionKind::Evaluation, reply)
        }
    }
}
