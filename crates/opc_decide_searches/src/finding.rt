//! Who or what a search finds.
ghost use Rattle.std.specs.Prelude.{◌≡◌, IfOk};
ghost use Rattle.std.specs.List.{list_any};
ghost use Rattle.serde_json.specs.View.{view};
ghost use Rattle.opc_decide_answers.specs.Evaluated.{element_permits};
ghost use Rattle.opc_decide_searches.specs.Candidates.{asked};
ghost use Rattle.opc_decide_searches.specs.Found.{
  action_candidates,
  candidates_of,
  console_candidates,
  first_fault,
  nobody_at,
  permitted,
  reads,
  shared_fault,
  user_candidates,
};

use crate::candidate::AccessCandidate;
use crate::sought::{Sought, actions_on};
use opc_answers::logons::{Instead, NoLogon};
use opc_decide_answers::decision::decision_of;
use opc_decide_answers::policy::DecidingPolicy;
use opc_decide_requests::action::AccessAction;
use opc_decide_requests::fault::RequestFault;
use opc_decide_requests::subject::SubjectKind;
use opc_policy::ruling::Ruling;
use opc_terms::rule::Rule;
use serde_json::Value;
use std::alloc::{AllocError, Global};

fn permits(
    alloc: Global,
    policy: &DecidingPolicy,
    body: &Value,
    candidate: &AccessCandidate,
) -> Result<bool, AllocError>
    ensures { IfOk result (λ permits. permits ≡ element_permits policy.now (asked (view body.now) candidate.now)) }
{
    // Named for the prover, which otherwise does not find the types of a decision.
    let (_no_rule, _no_ruling): (Option<Rule>, Option<Ruling>) = (None, None);
    let (_off, _instead): (Option<NoLogon>, Option<Instead>) = (None, None);
    match candidate.asked(body) {
        Ok(question) => Ok(decision_of(alloc, policy, &question)?.permits()),
        Err(_) => Ok(false),
    }
}

/// Those with whom the question of a body is permitted.
pub(crate) fn permitted(
    alloc: Global,
    policy: &DecidingPolicy,
    body: &Value,
    candidates: &[AccessCandidate],
) -> Result<Vec<AccessCandidate>, AllocError>
    ensures { IfOk result (λ found. found.items ≡ permitted policy.now (view body.now) candidates.now) }
{
    let mut found = Vec::new(alloc);
    for candidate in candidates {
        if permits(alloc, policy, body, candidate)? {
            found.push(*candidate)?;
        }
    }
    Ok(found)
}

/// What is wrong with the question about the first candidate.
fn first_fault(body: &Value, candidates: &[AccessCandidate]) -> Option<RequestFault>
    ensures { result ≡ first_fault (view body.now) candidates.now }
{
    let [first, ..] = candidates else {
        return None;
    };
    match first.asked(body) {
        Ok(_) => None,
        Err(why) => Some(why),
    }
}

/// Whether the question about a candidate reads.
fn reads(body: &Value, candidate: &AccessCandidate) -> bool
    ensures { result ≡ reads (view body.now) candidate.now }
{
    candidate.asked(body).is_ok()
}

fn reads_some(body: &Value, candidates: &[AccessCandidate]) -> bool
    ensures { result ≡ list_any (reads (view body.now)) candidates.now }
{
    candidates.iter().any(|candidate| reads(body, candidate))
}

/// What is wrong with the question, if it reads about none of the candidates.
pub(crate) fn shared_fault(body: &Value, candidates: &[AccessCandidate]) -> Option<RequestFault>
    ensures { result ≡ shared_fault (view body.now) candidates.now }
{
    if reads_some(body, candidates) {
        return None;
    }
    first_fault(body, candidates)
}

fn user_candidates(
    alloc: Global,
    policy: &DecidingPolicy,
) -> Result<Vec<AccessCandidate>, AllocError>
    ensures { IfOk result (λ list. list.items ≡ user_candidates policy.now.state) }
{
    let members = policy.members();
    let mut list = Vec::new(alloc);
    for member in members {
        list.push(AccessCandidate::User(member.user.id))?;
    }
    Ok(list)
}

fn nobody_candidates(
    alloc: Global,
    policy: &DecidingPolicy,
) -> Result<Vec<AccessCandidate>, AllocError>
    ensures { IfOk result (λ list. list.items ≡ nobody_at policy.now.state.board.consoles) }
{
    let consoles = policy.consoles();
    let mut list = Vec::new(alloc);
    for console in consoles {
        list.push(AccessCandidate::Nobody(console.name))?;
    }
    Ok(list)
}

fn action_candidates(
    alloc: Global,
    actions: &[AccessAction],
) -> Result<Vec<AccessCandidate>, AllocError>
    ensures { IfOk result (λ list. list.items ≡ action_candidates actions.now) }
{
    let mut list = Vec::new(alloc);
    for action in actions {
        list.push(AccessCandidate::Action(*action))?;
    }
    Ok(list)
}

fn console_candidates(
    alloc: Global,
    policy: &DecidingPolicy,
) -> Result<Vec<AccessCandidate>, AllocError>
    ensures { IfOk result (λ list. list.items ≡ console_candidates policy.now.state) }
{
    let consoles = policy.consoles();
    let mut list = Vec::new(alloc);
    for console in consoles {
        list.push(AccessCandidate::Console(console.name))?;
    }
    Ok(list)
}

/// Those that a search tries.
pub(crate) fn candidates_of(
    alloc: Global,
    policy: &DecidingPolicy,
    sought: Sought,
) -> Result<Vec<AccessCandidate>, AllocError>
    ensures { IfOk result (λ list. list.items ≡ candidates_of policy.now.state sought) }
{
    match sought {
        Sought::Subjects(SubjectKind::User) => user_candidates(alloc, policy),
        Sought::Subjects(SubjectKind::Console) => nobody_candidates(alloc, policy),
        Sought::Actions(kind) => action_candidates(alloc, actions_on(kind)),
        Sought::Consoles => console_candidates(alloc, policy),
    }
}
