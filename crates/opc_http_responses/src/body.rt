//! Bodies of responses.
ghost use Rattle.std.specs.Prelude.{◌≡◌, IfOk, string_bytes};
ghost use Rattle.std.specs.Option.{option_copied};
ghost use Rattle.serde_json.specs.Data.{array};
ghost use Rattle.serde_json.specs.View.{view};
ghost use Rattle.serde_json.specs.Written.{compact_text};
ghost use Rattle.opc_machine.specs.declared.request.Answer.{Answer as TheAnswer};
ghost use Rattle.opc_http_responses.specs.Bodies.{
  answer_body,
  done_value,
  line_items,
  refusal_body,
  refused_value,
  status_body,
};

use crate::status::{phrase, refusal_status};
use http::StatusCode;
use opc_board::line::Line;
use opc_http_requests::refusal::HttpRefusal;
use opc_machine::request::Answer;
use opc_terms::fault::Fault;
use opc_terms::rule::Rule;
use serde_json::{Value, json};
use std::alloc::{AllocError, Global};

fn lines_value(alloc: Global, lines: &[Line]) -> Result<Value, AllocError>
    ensures { IfOk result (λ value. view value ≡ array (line_items lines.now)) }
{
    let mut items = Vec::new(alloc);
    for line in lines {
        let text = Value::try_from_str(alloc, line.text.as_str())?;
        items.push(text)?;
    }
    Ok(Value::Array(items))
}

fn done_value(alloc: Global, lines: &[Line], rule: &str) -> Result<Value, AllocError>
    ensures { IfOk result (λ value. view value ≡ done_value lines.now rule.now) }
{
    let lines = lines_value(alloc, lines)?;
    json!(in alloc; {"lines": lines, "rule": rule, "status": "done"})
}

fn done_text(alloc: Global, lines: &[Line], rule: &str) -> Result<String, AllocError>
    ensures { IfOk result (λ body. string_bytes body ≡ compact_text (done_value lines.now rule.now)) }
{
    let value = done_value(alloc, lines, rule)?;
    value.to_string(alloc)
}

fn refused_value(alloc: Global, code: &str, rule: &str, text: &str) -> Result<Value, AllocError>
    ensures { IfOk result (λ value. view value ≡ refused_value code.now rule.now text.now) }
{
    json!(in alloc; {"code": code, "rule": rule, "status": "refused", "text": text})
}

fn refused_text(alloc: Global, code: &str, rule: &str, text: &str) -> Result<String, AllocError>
    ensures { IfOk result (λ body. string_bytes body ≡ compact_text (refused_value code.now rule.now text.now)) }
{
    let value = refused_value(alloc, code, rule, text)?;
    value.to_string(alloc)
}

fn fault_body(alloc: Global, fault: &Fault, rule: Option<&Rule>) -> Result<String, AllocError>
    ensures { IfOk result (λ body. string_bytes body ≡ answer_body
        (TheAnswer.Refused fault.now (option_copied rule.entry))) }
{
    let rule = Rule::text_or_none(alloc, rule)?;
    let text = fault.text(alloc)?;
    refused_text(alloc, fault.code(), rule.as_str(), text.as_str())
}

/// The body of the response to a request that was handled.
pub(crate) fn answer_body(alloc: Global, answer: &Answer) -> Result<String, AllocError>
    ensures { IfOk result (λ body. string_bytes body ≡ answer_body answer.now) }
{
    match answer {
        Answer::Done { lines, rule } => {
            let rule = Rule::text_or_none(alloc, rule.as_ref())?;
            done_text(alloc, lines.as_slice(), rule.as_str())
        }
        Answer::Refused { fault, rule } => fault_body(alloc, fault, rule.as_ref()),
    }
}

fn status_body(alloc: Global, status: StatusCode) -> Result<String, AllocError>
    ensures { IfOk result (λ body. string_bytes body ≡ status_body status) }
{
    let code = format!(in alloc; "H{}", status.as_u16())?;
    refused_text(alloc, code.as_str(), "-", phrase(status))
}

/// The body of the response to what is not a request.
pub(crate) fn refusal_body(alloc: Global, refusal: &HttpRefusal) -> Result<String, AllocError>
    ensures { IfOk result (λ body. string_bytes body ≡ refusal_body refusal.now) }
{
    match *refusal {
        HttpRefusal::BadRow { row, why } => fault_body(alloc, &Fault::RowFault { row, why }, None),
        // Every other refusal is reported by its status alone.
        _ => status_body(alloc, refusal_status(refusal)),
    }
}
