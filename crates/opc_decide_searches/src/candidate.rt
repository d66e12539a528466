//! What a search may find.
ghost use Rattle.std.specs.Prelude.{◌≡◌, IfOk};
ghost use Rattle.serde_json.specs.View.{view};
ghost use Rattle.opc_decide_searches.specs.Candidates.{
  asked,
  by_action,
  by_console,
  by_subject,
  candidate_value,
};

use opc_decide_requests::action::{AccessAction, action_at};
use opc_decide_requests::context::context_at;
use opc_decide_requests::fault::RequestFault;
use opc_decide_requests::question::{AccessQuestion, question_by, question_for};
use opc_decide_requests::subject::{AccessSubject, subject_at};
use opc_names::name::{ConsoleName, UserId};
use opc_terms::fault::Fault;
use opc_terms::unit_kind::UnitKindAt;
use serde_json::{Value, json};
use std::alloc::{AllocError, Global};

/// A subject, which is a user or whoever types at a console where nobody is logged on; an action; or a resource, which
/// is a console.
#[derive(Clone, Copy)]
pub enum AccessCandidate {
    User(UserId),
    Nobody(ConsoleName),
    Action(AccessAction),
    Console(ConsoleName),
}

/// The question of a body about a subject.
fn by_subject(subject: &AccessSubject, body: &Value) -> Result<AccessQuestion, RequestFault>
    ensures { result ≡ by_subject subject.now (view body.now) }
{
    // Named for the prover, which otherwise does not find the type of a command's fault.
    let _no_fault: Option<Fault> = None;
    let action = action_at(body, body)?;
    question_by(subject, &action, body, body)
}

/// About an action.
fn by_action(action: &AccessAction, body: &Value) -> Result<AccessQuestion, RequestFault>
    ensures { result ≡ by_action action.now (view body.now) }
{
    // Named for the prover, which otherwise does not find the type of a command's fault.
    let _no_fault: Option<Fault> = None;
    let subject = subject_at(body, body)?;
    question_by(&subject, action, body, body)
}

/// About a console, which is the resource.
fn by_console(name: &ConsoleName, body: &Value) -> Result<AccessQuestion, RequestFault>
    ensures { result ≡ by_console name.now (view body.now) }
{
    // Named for the prover, which otherwise does not find the types of a fault and of a context.
    let _no_fault: Option<Fault> = None;
    let (_nowhere, _no_unit): (Option<ConsoleName>, Option<UnitKindAt>) = (None, None);
    let subject = subject_at(body, body)?;
    let action = action_at(body, body)?;
    let context = context_at(body, body)?;
    question_for(&subject, &action, "CONSOLE", name.text(), &context)
}

impl AccessCandidate {
    ghost use Rattle.opc_decide_searches.specs.Candidates.{candidate_name};

    /// The question of a body with this in its place.
    pub fn asked(&self, body: &Value) -> Result<AccessQuestion, RequestFault>
        ensures { result ≡ asked (view body.now) self.now }
    {
        match self {
            AccessCandidate::User(id) => by_subject(&AccessSubject::User(*id), body),
            AccessCandidate::Nobody(name) => by_subject(&AccessSubject::Console(*name), body),
            AccessCandidate::Action(action) => by_action(action, body),
            AccessCandidate::Console(name) => by_console(name, body),
        }
    }

    /// Its id, or its name.
    pub fn name(&self) -> &str
        ensures { result.now ≡ candidate_name self.now }
    {
        match self {
            AccessCandidate::User(id) => id.text(),
            AccessCandidate::Nobody(name) | AccessCandidate::Console(name) => name.text(),
            AccessCandidate::Action(action) => action.text(),
        }
    }

    /// A result.
    pub(crate) fn value(&self, alloc: Global) -> Result<Value, AllocError>
        ensures { IfOk result (λ value. view value ≡ candidate_value self.now) }
    {
        let name = self.name();
        match self {
            AccessCandidate::User(_) => json!(in alloc; {"id": name, "type": "user"}),
            AccessCandidate::Nobody(_) => json!(in alloc; {"id": name, "type": "console"}),
            AccessCandidate::Action(_) => json!(in alloc; {"name": name}),
            AccessCandidate::Console(_) => json!(in alloc; {"id": name, "type": "CONSOLE"}),
        }
    }
}
