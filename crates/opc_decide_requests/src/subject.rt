//! Who asks for access: the subject of a question.
ghost use Rattle.std.specs.Prelude.{◌≡◌};
ghost use Rattle.serde_json.specs.View.{view};
ghost use Rattle.opc_decide_requests.specs.Subjects.{
  kind_at,
  kind_of,
  subject_at,
  subject_by,
  subject_in,
  subject_kind,
};

use crate::fault::RequestFault;
use crate::key::RequestKey;
use crate::parts::{object_at, text_at};
use opc_import::field::read_name;
use opc_names::name::{ConsoleName, UserId};
use serde_json::Value;

/// The type of a subject: a user, or whoever types at a console where nobody is logged on.
#[derive(Clone, Copy)]
pub enum SubjectKind {
    User,
    Console,
}

/// A subject.
#[derive(Clone, Copy)]
pub enum AccessSubject {
    User(UserId),
    Console(ConsoleName),
}

fn kind_of(text: &str) -> Option<SubjectKind>
    ensures { result ≡ kind_of text.now }
{
    match text {
        "user" => Some(SubjectKind::User),
        "console" => Some(SubjectKind::Console),
        // No other type asks for access.
        _ => None,
    }
}

fn subject_kind(subject: &Value) -> Result<SubjectKind, RequestFault>
    ensures { result ≡ subject_kind (view subject.now) }
{
    let kind = text_at(subject, RequestKey::SubjectType)?;
    kind_of(kind).ok_or(RequestFault::Invalid(RequestKey::SubjectType))
}

fn subject_by(kind: SubjectKind, id: &str) -> Option<AccessSubject>
    ensures { result ≡ subject_by kind id.now }
{
    match kind {
        SubjectKind::User => Some(AccessSubject::User(read_name(id)?)),
        SubjectKind::Console => Some(AccessSubject::Console(read_name(id)?)),
    }
}

fn subject_in(subject: &Value) -> Result<AccessSubject, RequestFault>
    ensures { result ≡ subject_in (view subject.now) }
{
    let kind = subject_kind(subject)?;
    let id = text_at(subject, RequestKey::SubjectId)?;
    subject_by(kind, id).ok_or(RequestFault::Invalid(RequestKey::SubjectId))
}

/// The subject of an element, or else the one that all elements share.
pub fn subject_at(element: &Value, shared: &Value) -> Result<AccessSubject, RequestFault>
    ensures { result ≡ subject_at (view element.now) (view shared.now) }
{
    subject_in(object_at(element, shared, RequestKey::Subject)?)
}

/// The type alone of the subject of a body, in which subjects are searched.
pub fn kind_at(body: &Value) -> Result<SubjectKind, RequestFault>
    ensures { result ≡ kind_at (view body.now) }
{
    subject_kind(object_at(body, body, RequestKey::Subject)?)
}
