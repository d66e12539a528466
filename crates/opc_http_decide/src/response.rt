//! Responses to requests to `decide`.
ghost use Rattle.std.specs.Prelude.{◌≡◌, ◌++◌, IfOk, codes, string_bytes};
ghost use Rattle.opc_http_responses.specs.Responses.{line, refusal_response_with, response_text};
ghost use Rattle.opc_http_responses.specs.Statuses.{refusal_status};
ghost use Rattle.opc_http_decide.specs.DecideLines.{refusal_told};
ghost use Rattle.opc_http_decide.specs.DecideResponses.{id_field};

use crate::telling::refusal_told;
use opc_board::text::KeptText;
use opc_decide_present::decider::DecidedAnswer;
use opc_http_requests::refusal::HttpRefusal;
use opc_http_responses::response::{Response, refused_with, response_with};
use std::alloc::{AllocError, Global};

/// A response, and what a log tells of it.
#[derive(Drop)]
pub(crate) struct ToldResponse {
    pub response: Response,
    pub told: KeptText,
}

fn id_line(alloc: Global, id: &str) -> Result<String, AllocError>
    ensures { IfOk result (λ text. string_bytes text ≡ line (codes "X-Request-ID: " ++ id.now)) }
{
    let mut text = String::from_str(alloc, "X-Request-ID: ")?;
    text.push_str(id)?;
    text.push_str("\r\n")?;
    Ok(text)
}

/// The field that repeats an id, if there is one.
pub(crate) fn id_field(alloc: Global, id: &Option<KeptText>) -> Result<String, AllocError>
    ensures { IfOk result (λ field. string_bytes field ≡ id_field id.now) }
{
    match id {
        Some(id) => id_line(alloc, id.as_str()),
        None => Ok(String::new(alloc)),
    }
}

/// The response to a question that was answered, with these fields besides those of every response.
pub(crate) fn answered_told(
    alloc: Global,
    decision: DecidedAnswer,
    fields: &str,
) -> Result<ToldResponse, AllocError>
    ensures { IfOk result (λ made. (made.response.status ≡ decision.status)
        × (made.response.bytes.items ≡ response_text decision.status fields.now decision.body)
        × (made.told ≡ decision.told)) }
{
    let DecidedAnswer { status, body, told } = decision;
    let response = response_with(alloc, status, fields, body.as_str())?;
    Ok(ToldResponse { response, told })
}

/// The response to what is no request, with these fields besides those of every response.
pub(crate) fn refused_told(
    alloc: Global,
    refusal: &HttpRefusal,
    fields: &str,
) -> Result<ToldResponse, AllocError>
    ensures { IfOk result (λ made. (made.response.status ≡ refusal_status refusal.now)
        × (made.response.bytes.items ≡ refusal_response_with refusal.now fields.now)
        × (made.told ≡ refusal_told refusal.now)) }
{
    let response = refused_with(alloc, refusal, fields)?;
    let told = refusal_told(alloc, response.status, refusal)?;
    Ok(ToldResponse { response, told })
}
