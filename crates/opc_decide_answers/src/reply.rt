//! The status and the body of an answer.
ghost use Rattle.std.specs.Prelude.{◌≡◌, ◌≤◌, IfOk, Some, false};
ghost use Rattle.serde_json.specs.Data.{depth};
ghost use Rattle.serde_json.specs.Read.{max_depth, read};
ghost use Rattle.serde_json.specs.View.{view};
ghost use Rattle.serde_json.specs.Written.{has_float};
ghost use Rattle.opc_decide_answers.specs.Replies.{bad, done};

use http::StatusCode;
use opc_board::text::KeptText;
use opc_decide_requests::fault::RequestFault;
use serde_json::Value;
use std::alloc::{AllocError, Global};

/// A status, a body, and why it asks no question, if the body of the request asks none.
#[derive(Drop)]
pub struct DecideReply {
    pub status: StatusCode,
    pub body: KeptText,
    pub fault: Option<RequestFault>,
}

/// What is answered to a question.
pub fn done(alloc: Global, value: &Value) -> Result<DecideReply, AllocError>
    requires { has_float (view value.now) ≡ false }
    ensures is { IfOk result (λ reply. reply ≡ done (view value.now)) }
    ensures reads { IfOk result (λ reply. depth (view value.now) ≤ max_depth
        → read reply.body ≡ Some (view value.now)) }
{
    let body = KeptText::from(value.to_string(alloc)?);
    Ok(DecideReply {
        status: StatusCode::OK,
        body,
        fault: None,
    })
}

/// What is answered to a body that asks no question.
pub fn bad(alloc: Global, why: &RequestFault) -> Result<DecideReply, AllocError>
    ensures { IfOk result (λ reply. reply ≡ bad why.now) }
{
    let text = why.text(alloc)?;
    let body = Value::try_from_str(alloc, text.as_str())?.to_string(alloc)?;
    Ok(DecideReply {
        status: StatusCode::BAD_REQUEST,
        body: KeptText::from(body),
        fault: Some(*why),
    })
}
