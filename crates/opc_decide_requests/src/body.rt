//! The body of a request.
ghost use Rattle.std.specs.Prelude.{◌≡◌, IfOk};
ghost use Rattle.std.specs.Option.{option_map};
ghost use Rattle.serde_json.specs.View.{view};
ghost use Rattle.opc_decide_requests.specs.Requests.{being_body, element_question, request_question, value_of};

use crate::fault::RequestFault;
use crate::key::RequestKey;
use crate::parts::being_object;
use crate::question::{AccessQuestion, question_of};
use opc_terms::fault::Fault;
use serde_json::Value;
use serde_json::error::Category;
use std::alloc::{AllocError, Global};

/// The value of JSON that some bytes are, if they are one.
#[tactic(auto, using(crate::proofs::Bodies::value_none, crate::proofs::Bodies::value_read))]
pub fn value_in(alloc: Global, body: &[u8]) -> Result<Option<Value>, AllocError>
    ensures { IfOk result (λ found. option_map view found ≡ value_of body.now) }
{
    match Value::from_slice(alloc, body) {
        Ok(value) => Ok(Some(value)),
        Err(error) => match error.classify() {
            Category::Memory => Err(AllocError),
            // The bytes are not a JSON value.
            _ => Ok(None),
        },
    }
}

/// Checks that the body is an object.
pub fn being_body(body: &Value) -> Result<(), RequestFault>
    ensures { result ≡ being_body (view body.now) }
{
    if body.is_object() {
        Ok(())
    } else {
        Err(RequestFault::NotObject)
    }
}

/// The question that a body is.
pub fn request_question(body: &Value) -> Result<AccessQuestion, RequestFault>
    ensures { result ≡ request_question (view body.now) }
{
    // Named for the prover, which otherwise does not find the type of a command's fault.
    let _no_fault: Option<Fault> = None;
    being_body(body)?;
    question_of(body, body)
}

/// The question of one of several elements.
pub fn element_question(element: &Value, shared: &Value) -> Result<AccessQuestion, RequestFault>
    ensures { result ≡ element_question (view element.now) (view shared.now) }
{
    // Named for the prover, which otherwise does not find the type of a command's fault.
    let _no_fault: Option<Fault> = None;
    being_object(element, RequestKey::Evaluations)?;
    question_of(element, shared)
}
