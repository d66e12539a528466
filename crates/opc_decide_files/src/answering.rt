//! The answers to questions by a policy.
ghost use Rattle.std.specs.Prelude.{◌≡◌, IfOk, Some};
ghost use Rattle.serde_json.specs.Read.{read};
ghost use Rattle.opc_decide_requests.specs.declared.question.AccessQuestion.{AccessQuestion};
ghost use Rattle.opc_decide_answers.specs.DecisionValues.{decision_value};
ghost use Rattle.opc_decide_answers.specs.Decisions.{decision_of};
ghost use Rattle.opc_decide_present.specs.declared.kind.QuestionKind.TheVariants as question;
ghost use Rattle.opc_decide_files.specs.Answering.{answer_to, question_in};

use crate::evaluating::{evaluation_answer, reply_answer};
use opc_decide_answers::evaluation::evaluations;
use opc_decide_answers::policy::DecidingPolicy;
use opc_decide_present::decider::DecidedAnswer;
use opc_decide_present::kind::QuestionKind;
use opc_decide_searches::search::search;
use opc_decide_searches::sought::SearchKind;
use std::alloc::{AllocError, Global};

/// The answer to the body of a request, by the kind of its question. That to one question says what is decided.
pub fn answer_to(
    alloc: Global,
    policy: &DecidingPolicy,
    kind: QuestionKind,
    body: &[u8],
) -> Result<DecidedAnswer, AllocError>
    ensures is { IfOk result (λ answer. answer ≡ answer_to policy.now kind body.now) }
    ensures reads { IfOk result (λ answer. kind ≡ question.Evaluation
        → (asked : AccessQuestion) → question_in body.now ≡ Some asked
        → read answer.body ≡ Some (decision_value policy.now.name (decision_of policy.now.state asked))) }
{
    let reply = match kind {
        QuestionKind::Evaluation => return evaluation_answer(alloc, policy, body),
        QuestionKind::Evaluations => evaluations(alloc, policy, body)?,
        QuestionKind::SubjectSearch => search(alloc, policy, SearchKind::Subject, body)?,
        QuestionKind::ActionSearch => search(alloc, policy, SearchKind::Action, body)?,
        QuestionKind::ResourceSearch => search(alloc, policy, SearchKind::Resource, body)?,
    };
    reply_answer(alloc, policy, kind, reply)
}
