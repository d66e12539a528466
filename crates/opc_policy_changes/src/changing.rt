//! Whether a request may have changed what a policy file has: the policy, and the name, the authority and the mode of
//! each console.
ghost use Rattle.std.specs.Prelude.{◌≡◌};
ghost use Rattle.opc_policy_changes.specs.Changing.{is_authority, may_change, may_edit};

use opc_machine::request::{Answer, Request};
use opc_reader::{Command, read_command};
use opc_terms::fault::Fault;

/// Whether a line is V CN(..),AUTH, the one command that changes it.
fn is_authority(text: &str) -> bool
    ensures { result ≡ is_authority text.now }
{
    match read_command(text) {
        Ok(Command::VaryConsoleAuth { .. }) => true,
        // It is another command, or none.
        _ => false,
    }
}

/// Whether a request may change it if it is done.
fn may_edit(request: &Request) -> bool
    ensures { result ≡ may_edit request.now }
{
    match request {
        Request::Command { text, .. } => is_authority(text.as_str()),
        Request::Admin { .. } | Request::Import { .. } => true,
        Request::ListProfiles { .. } | Request::ListAccount { .. } | Request::Event(_) => false,
    }
}

/// Whether a request that has this answer may have changed it. If the store failed, that is not known.
pub fn may_change(request: &Request, answer: &Answer) -> bool
    ensures { result ≡ may_change request.now answer.now }
{
    match answer {
        Answer::Done { .. } => may_edit(request),
        Answer::Refused { fault, .. } => *fault == Fault::Store,
    }
}
