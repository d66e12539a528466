//! Responses, byte for byte.
ghost use Rattle.std.specs.Prelude.{◌≡◌, ◌++◌, [], IfOk, codes, decimal, length, string_bytes};
ghost use Rattle.opc_http_responses.specs.Bodies.{answer_body, refusal_body};
ghost use Rattle.opc_http_responses.specs.Responses.{
  allow_field,
  allowed,
  head_of,
  line,
  refusal_response,
  refusal_response_with,
  response_of,
  response_text,
  status_line,
};
ghost use Rattle.opc_http_responses.specs.Statuses.{refusal_status, status_of};

use crate::body::{answer_body, refusal_body};
use crate::status::{phrase, refusal_status, status_of};
use http::StatusCode;
use opc_http_requests::refusal::{HttpRefusal, Method};
use opc_http_requests::routes::NoMemory;
use opc_machine::request::Answer;
use std::alloc::{AllocError, Global};

/// A response: its status, and all its bytes.
#[derive(Drop)]
pub struct Response {
    pub status: u16,
    pub bytes: Vec<u8>,
}

fn allow_field(allow: Option<Method>) -> &'static str
    ensures { result.now ≡ allow_field allow }
{
    match allow {
        None => "",
        Some(Method::Get) => "Allow: GET\r\n",
        Some(Method::Post) => "Allow: POST\r\n",
    }
}

fn status_line(alloc: Global, status: StatusCode) -> Result<String, AllocError>
    ensures { IfOk result (λ text. string_bytes text ≡ status_line status) }
{
    let number = status.as_u16().to_string(alloc)?;
    let mut text = String::from_str(alloc, "HTTP/1.1 ")?;
    text.push_str(number.as_str())?;
    text.push_str(" ")?;
    text.push_str(phrase(status))?;
    text.push_str("\r\n")?;
    Ok(text)
}

fn length_field(alloc: Global, body: &str) -> Result<String, AllocError>
    ensures { IfOk result (λ text. string_bytes text ≡ line (codes "Content-Length: " ++ decimal (length body.now))) }
{
    let number = body.len().to_string(alloc)?;
    let mut text = String::from_str(alloc, "Content-Length: ")?;
    text.push_str(number.as_str())?;
    text.push_str("\r\n")?;
    Ok(text)
}

fn head(alloc: Global, status: StatusCode, fields: &str, body: &str) -> Result<String, AllocError>
    ensures { IfOk result (λ text. string_bytes text ≡ head_of status fields.now body.now) }
{
    let length = length_field(alloc, body)?;
    let mut text = status_line(alloc, status)?;
    text.push_str("Content-Type: application/json\r\n")?;
    text.push_str(length.as_str())?;
    text.push_str(fields)?;
    text.push_str("Connection: close\r\n")?;
    text.push_str("\r\n")?;
    Ok(text)
}

/// The response of a status, with these fields besides those that every response has.
pub fn response_with(
    alloc: Global,
    status: StatusCode,
    fields: &str,
    body: &str,
) -> Result<Response, AllocError>
    ensures { IfOk result (λ made. (made.status ≡ status)
        × (made.bytes.items ≡ response_text status fields.now body.now)) }
{
    let mut text = head(alloc, status, fields, body)?;
    text.push_str(body)?;
    Ok(Response {
        status: status.as_u16(),
        bytes: text.into_bytes(),
    })
}

fn answer_response(alloc: Global, answer: &Answer) -> Result<Response, AllocError>
    ensures { IfOk result (λ made. (made.status ≡ status_of answer.now) × (made.bytes.items ≡ response_of answer.now)) }
{
    let body = answer_body(alloc, answer)?;
    response_with(alloc, status_of(answer), "", body.as_str())
}

/// The response to a request that was handled.
pub fn answered(alloc: Global, answer: &Answer) -> Result<Response, NoMemory>
    ensures { IfOk result (λ made. (made.status ≡ status_of answer.now) × (made.bytes.items ≡ response_of answer.now)) }
{
    answer_response(alloc, answer).map_err(|_| NoMemory)
}

fn allowed(refusal: &HttpRefusal) -> Option<Method>
    ensures { result ≡ allowed refusal.now }
{
    match *refusal {
        HttpRefusal::MethodNotAllowed(method) => Some(method),
        // The field Allow belongs to no other refusal.
        _ => None,
    }
}

/// The field Allow, if the refusal has it, and further fields.
fn fields_with(alloc: Global, refusal: &HttpRefusal, more: &str) -> Result<String, AllocError>
    ensures { IfOk result (λ fields. string_bytes fields ≡ allow_field (allowed refusal.now) ++ more.now) }
{
    let mut fields = String::from_str(alloc, allow_field(allowed(refusal)))?;
    fields.push_str(more)?;
    Ok(fields)
}

/// The response to what is not a request, with further fields.
pub fn refused_with(
    alloc: Global,
    refusal: &HttpRefusal,
    more: &str,
) -> Result<Response, AllocError>
    ensures { IfOk result (λ made. (made.status ≡ refusal_status refusal.now)
        × (made.bytes.items ≡ refusal_response_with refusal.now more.now)) }
{
    let fields = fields_with(alloc, refusal, more)?;
    let body = refusal_body(alloc, refusal)?;
    response_with(
        alloc,
        refusal_status(refusal),
        fields.as_str(),
        body.as_str(),
    )
}

fn response_to_refusal(alloc: Global, refusal: &HttpRefusal) -> Result<Response, AllocError>
    ensures { IfOk result (λ made. (made.status ≡ refusal_status refusal.now)
        × (made.bytes.items ≡ refusal_response refusal.now)) }
{
    refused_with(alloc, refusal, "")
}

/// The response to what is not a request.
pub fn refused(alloc: Global, refusal: &HttpRefusal) -> Result<Response, NoMemory>
    ensures { IfOk result (λ made. (made.status ≡ refusal_status refusal.now)
        × (made.bytes.items ≡ refusal_response refusal.now)) }
{
    response_to_refusal(alloc, refusal).map_err(|_| NoMemory)
}
