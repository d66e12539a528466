//! Why a body asks no question.
ghost use Rattle.std.specs.Prelude.{◌≡◌, IfOk, string_bytes};
ghost use Rattle.opc_decide_requests.specs.RequestFaults.{command_text, fault_text};

use crate::key::RequestKey;
use opc_terms::fault::Fault;
use std::alloc::{AllocError, Global};

/// The first fault of a body: it is no JSON, or no object; a key is missing, or its value is none of those that it may
/// have; the text is no command, for this reason; or the command needs nothing, so that no policy decides about it.
#[derive(Clone, Copy)]
pub enum RequestFault {
    NotJson,
    NotObject,
    Missing(RequestKey),
    Invalid(RequestKey),
    NoCommand(Fault),
    NeedsNothing,
}

/// The code and the text of a fault, after the key that has the command.
fn command_text(alloc: Global, fault: &Fault) -> Result<String, AllocError>
    ensures { IfOk result (λ text. string_bytes text ≡ command_text fault.now) }
{
    let (path, code) = (RequestKey::ResourceId.path(), fault.code());
    let name = fault.text(alloc)?;
    let name = name.as_str();
    format!(in alloc; "{path}: {code} {name}")
}

impl RequestFault {
    /// What is wrong, with the key that it is about.
    pub fn text(&self, alloc: Global) -> Result<String, AllocError>
        ensures { IfOk result (λ text. string_bytes text ≡ fault_text self.now) }
    {
        match self {
            RequestFault::NotJson => String::from_str(alloc, "the body is no JSON"),
            RequestFault::NotObject => String::from_str(alloc, "the body is no object"),
            RequestFault::Missing(key) => {
                let path = key.path();
                format!(in alloc; "the key {path} is missing")
            }
            RequestFault::Invalid(key) => {
                let path = key.path();
                format!(in alloc; "the key {path} is invalid")
            }
            RequestFault::NoCommand(fault) => command_text(alloc, fault),
            RequestFault::NeedsNothing => {
                let path = RequestKey::ResourceId.path();
                format!(in alloc; "{path}: the command needs nothing")
            }
        }
    }
}
