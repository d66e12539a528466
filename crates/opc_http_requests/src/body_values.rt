//! Bodies of requests.
ghost use Rattle.std.specs.Prelude.{◌≡◌, Err, MatchResult, Ok};
ghost use Rattle.serde_json.specs.View.{view};
ghost use Rattle.opc_http_requests.specs.Refusals.{Refuses};
ghost use Rattle.opc_http_requests.specs.BodyValues.{
  command_in,
  operation_in,
  rows_in,
  text_of,
  value_in,
};

use crate::body_key::BodyKey;
use crate::keys::{has_keys, text_at};
use crate::operation::operation_of;
use crate::refusal::{AskFault, HttpRefusal, InvalidPart};
use opc_board::text::KeptText;
use opc_import::fault::ImportFault;
use opc_import::read::read_policy;
use opc_machine::operation::Operation;
use opc_names::name::ConsoleName;
use opc_policy_members::row::Row;
use serde_json::Value;
use serde_json::error::Category;
use std::alloc::Global;
use std::str;

fn text_of(value: &Value) -> Result<&str, InvalidPart>
    ensures { MatchResult result (λ text. text_of (view value.now) ≡ Ok text.now)
        (λ part. text_of (view value.now) ≡ Err part) }
{
    let text = text_at(value, BodyKey::Text)?;
    has_keys(value, 1)?;
    Ok(text)
}

// The JSON value that some bytes are.
fn value_in(alloc: Global, body: &[u8]) -> Result<Value, AskFault>
    ensures { MatchResult result (λ value. value_in body.now ≡ Ok (view value))
        (λ fault. Refuses fault (value_in body.now)) }
{
    match Value::from_slice(alloc, body) {
        Ok(value) => Ok(value),
        Err(error) => match error.classify() {
            Category::Memory => Err(AskFault::NoMemory),
            // The bytes are not a JSON value.
            _ => Err(AskFault::Refused(HttpRefusal::BadRequest(InvalidPart::Json))),
        },
    }
}

/// The text of a command: an object with the one key `text`.
pub fn command_in(alloc: Global, body: &[u8]) -> Result<KeptText, AskFault>
    ensures { MatchResult result (λ text. command_in body.now ≡ Ok text)
        (λ fault. Refuses fault (command_in body.now)) }
{
    let value = value_in(alloc, body)?;
    let text = text_of(&value)?;
    Ok(KeptText::new(alloc, text)?)
}

/// An operation of administration: an object with exactly its keys.
pub fn operation_in(alloc: Global, body: &[u8]) -> Result<Operation, AskFault>
    ensures { MatchResult result (λ op. operation_in body.now ≡ Ok op)
        (λ fault. Refuses fault (operation_in body.now)) }
{
    let value = value_in(alloc, body)?;
    let op = operation_of(&value)?;
    Ok(op)
}

/// The rows of a policy file.
pub fn rows_in(alloc: Global, body: &[u8]) -> Result<Vec<Row>, AskFault>
    ensures { MatchResult result (λ rows. rows_in body.now ≡ Ok rows.items)
        (λ fault. Refuses fault (rows_in body.now)) }
{
    let Ok(text) = str::from_utf8(body) else {
        return Err(AskFault::Refused(HttpRefusal::BadRequest(InvalidPart::Utf8)));
    };
    // Named for the prover, which otherwise cannot infer the type of a row's console.
    let _nowhere: Option<ConsoleName> = None;
    match read_policy(alloc, text) {
        Ok(rows) => Ok(rows),
        Err(ImportFault::Row { row, why }) => {
            Err(AskFault::Refused(HttpRefusal::BadRow { row, why }))
        }
        Err(ImportFault::NoMemory) => Err(AskFault::NoMemory),
    }
}
