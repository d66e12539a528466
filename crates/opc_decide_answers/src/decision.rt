//! What a policy decides about a question.
ghost use Rattle.std.specs.Prelude.{◌≡◌, IfOk};
ghost use Rattle.serde_json.specs.View.{view};
ghost use Rattle.opc_answers.specs.Json.{text_or_null};
ghost use Rattle.opc_answers.specs.Texts.{allows};
ghost use Rattle.opc_decide_answers.specs.Decisions.{decision_of, said, unknown};

use crate::policy::DecidingPolicy;
use opc_answers::json::rule_value;
use opc_answers::logons::Instead;
use opc_answers::text::{is_allowed, verdict_word};
use opc_answers::why::Explanation;
use opc_decide_requests::question::AccessQuestion;
use opc_policy::ruling::Ruling;
use opc_terms::fault::Fault;
use serde_json::Value;
use std::alloc::{AllocError, Global};

/// What is decided: the ruling, if there is one, and what replaces it, if that says more; or that the policy has no
/// such user, or no such console.
#[derive(Clone, Copy)]
pub enum AccessDecision {
    Said {
        ruling: Option<Ruling>,
        instead: Option<Instead>,
    },
    NoUser,
    NoConsole,
}

fn said(why: &Explanation) -> AccessDecision
    ensures { result ≡ said why.now }
{
    AccessDecision::Said {
        ruling: why.ruling(),
        instead: why.instead,
    }
}

/// The policy lacks the user, or the console.
fn unknown(fault: &Fault) -> AccessDecision
    ensures { result ≡ unknown fault.now }
{
    match fault {
        Fault::Missing(_) => AccessDecision::NoUser,
        // A question that is read has no other fault than E10.
        _ => AccessDecision::NoConsole,
    }
}

/// What a policy decides about a question.
pub fn decision_of(
    alloc: Global,
    policy: &DecidingPolicy,
    question: &AccessQuestion,
) -> Result<AccessDecision, AllocError>
    ensures { IfOk result (λ decision. decision ≡ decision_of policy.now.state question.now) }
{
    match policy.explained(alloc, question) {
        Ok(why) => Ok(said(&why)),
        Err(Fault::NoMemory) => Err(AllocError),
        Err(fault) => Ok(unknown(&fault)),
    }
}

/// Whether a ruling allows.
fn allows(ruling: &Option<Ruling>) -> bool
    ensures { result ≡ allows ruling.now }
{
    match ruling {
        Some(ruling) => is_allowed(ruling),
        None => false,
    }
}

impl AccessDecision {
    ghost use Rattle.opc_decide_answers.specs.Decisions.{decision_rule, decision_word, permits};

    /// Whether access is permitted.
    pub fn permits(&self) -> bool
        ensures { result ≡ permits self.now }
    {
        match self {
            AccessDecision::Said { ruling, instead } => instead.is_none() && allows(ruling),
            AccessDecision::NoUser | AccessDecision::NoConsole => false,
        }
    }

    /// The verdict in a word.
    pub fn word(&self) -> &'static str
        ensures { result.now ≡ decision_word self.now }
    {
        match self {
            AccessDecision::Said { ruling, instead } => verdict_word(ruling, instead),
            AccessDecision::NoUser => "NOUSER",
            AccessDecision::NoConsole => "NOCONSOLE",
        }
    }

    /// The rule that decided, or `null`.
    pub fn rule(&self, alloc: Global) -> Result<Value, AllocError>
        ensures { IfOk result (λ value. view value ≡ text_or_null (decision_rule self.now)) }
    {
        match self {
            AccessDecision::Said { ruling, instead } => rule_value(alloc, ruling, instead),
            AccessDecision::NoUser | AccessDecision::NoConsole => Ok(Value::Null),
        }
    }
}
