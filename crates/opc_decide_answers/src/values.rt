//! Answers as values of JSON.
ghost use Rattle.std.specs.Prelude.{◌≡◌, IfOk};
ghost use Rattle.serde_json.specs.View.{view};
ghost use Rattle.opc_decide_answers.specs.DecisionValues.{decision_value, fault_value};

use crate::decision::AccessDecision;
use crate::policy::DecidingPolicy;
use serde_json::{Value, json};
use std::alloc::{AllocError, Global};

/// What is decided, with its verdict, its rule and the policy.
pub(crate) fn decision_value(
    alloc: Global,
    policy: &DecidingPolicy,
    decision: &AccessDecision,
) -> Result<Value, AllocError>
    ensures { IfOk result (λ value. view value ≡ decision_value policy.now.name decision.now) }
{
    let rule = decision.rule(alloc)?;
    let (name, verdict, permitted) = (policy.name(), decision.word(), decision.permits());
    json!(in alloc; {
        "context": {"policy": name, "rule": rule, "verdict": verdict}, "decision": permitted
    })
}

/// Nothing is permitted, since the question does not read.
pub(crate) fn fault_value(alloc: Global, message: &str) -> Result<Value, AllocError>
    ensures { IfOk result (λ value. view value ≡ fault_value message.now) }
{
    let status = 400u64;
    json!(in alloc; {
        "context": {"error": {"message": message, "status": status}}, "decision": false
    })
}
