//! A question of another program, as a question about the policy.
ghost use Rattle.std.specs.Prelude.{◌≡◌};
ghost use Rattle.std.specs.Option.{option_copied};
ghost use Rattle.serde_json.specs.View.{view};
ghost use Rattle.opc_decide_requests.specs.AccessQuestions.{
  access_asked,
  being_kind,
  being_no_logon,
  by_nobody,
  command_asked,
  logon_asked,
  needed,
  question_about,
  question_by,
  question_for,
  question_of,
};
ghost use Rattle.opc_answers.specs.Questions.{wanted_of};

use crate::action::{AccessAction, action_at};
use crate::context::{AccessContext, context_at};
use crate::fault::RequestFault;
use crate::key::RequestKey;
use crate::parts::{object_at, text_at};
use crate::subject::{AccessSubject, subject_at};
use opc_answers::question::About;
use opc_answers::wanted::Wanted;
use opc_import::field::read_name;
use opc_names::class::Class;
use opc_names::level::Level;
use opc_names::name::{ConsoleName, UserId};
use opc_terms::fault::Fault;
use opc_terms::unit_kind::UnitKindAt;
use serde_json::Value;

/// What is wanted, by whom, or by nobody, and at which console, if one is named.
#[derive(Clone, Copy)]
pub struct AccessQuestion {
    pub wanted: Wanted,
    pub actor: Option<UserId>,
    pub console: Option<ConsoleName>,
}

/// What is wanted, if a policy decides about it.
fn needed(about: &About<'_>, console: Option<&ConsoleName>) -> Result<Wanted, RequestFault>
    ensures { result ≡ needed (wanted_of about.now (option_copied console.entry)) }
{
    match about.wanted(console) {
        Ok(Some(wanted)) => Ok(wanted),
        Ok(None) => Err(RequestFault::NeedsNothing),
        Err(Fault::NoConsole) => Err(RequestFault::Missing(RequestKey::Console)),
        Err(fault) => Err(RequestFault::NoCommand(fault)),
    }
}

/// Checks the type of a resource.
fn being_kind(kind: &str, wanted: &str) -> Result<(), RequestFault>
    ensures { result ≡ being_kind wanted.now kind.now }
{
    if kind == wanted {
        Ok(())
    } else {
        Err(RequestFault::Invalid(RequestKey::ResourceType))
    }
}

/// About a level of access to a resource of a class.
fn access_asked(
    level: Level,
    kind: &str,
    id: &str,
    actor: Option<UserId>,
    console: Option<ConsoleName>,
) -> Result<AccessQuestion, RequestFault>
    ensures { result ≡ access_asked level kind.now id.now actor console }
{
    // Named for the prover, which otherwise does not find the type of a command's fault.
    let _no_fault: Option<Fault> = None;
    let class = Class::read(kind).ok_or(RequestFault::Invalid(RequestKey::ResourceType))?;
    let resource = read_name(id).ok_or(RequestFault::Invalid(RequestKey::ResourceId))?;
    let wanted = Wanted::Access {
        class,
        resource,
        level,
    };
    Ok(AccessQuestion {
        wanted,
        actor,
        console,
    })
}

/// About a LOGON at a console, which is the resource.
fn logon_asked(
    kind: &str,
    id: &str,
    actor: Option<UserId>,
    context: &AccessContext,
) -> Result<AccessQuestion, RequestFault>
    ensures { result ≡ logon_asked kind.now id.now actor context.now.console }
{
    // Named for the prover, which otherwise does not find the type of a command's fault.
    let _no_fault: Option<Fault> = None;
    being_kind(kind, "CONSOLE")?;
    let name = read_name(id).ok_or(RequestFault::Invalid(RequestKey::ResourceId))?;
    context.being_at(&name)?;
    Ok(AccessQuestion {
        wanted: Wanted::Logon(name),
        actor,
        console: Some(name),
    })
}

/// About a command.
fn command_asked(
    kind: &str,
    id: &str,
    taken: UnitKindAt,
    actor: Option<UserId>,
    console: Option<ConsoleName>,
) -> Result<AccessQuestion, RequestFault>
    ensures { result ≡ command_asked kind.now id.now taken actor console }
{
    // Named for the prover, which otherwise does not find the type of a command's fault.
    let _no_fault: Option<Fault> = None;
    being_kind(kind, "command")?;
    let about = About::Command {
        text: id,
        kind: taken,
    };
    let wanted = needed(&about, console.as_ref())?;
    Ok(AccessQuestion {
        wanted,
        actor,
        console,
    })
}

/// About an action on a resource.
fn question_about(
    action: &AccessAction,
    kind: &str,
    id: &str,
    actor: Option<UserId>,
    context: &AccessContext,
) -> Result<AccessQuestion, RequestFault>
    ensures { result ≡ question_about action.now kind.now id.now actor context.now }
{
    match *action {
        AccessAction::Have(level) => access_asked(level, kind, id, actor, context.console),
        AccessAction::Logon => logon_asked(kind, id, actor, context),
        AccessAction::Enter => command_asked(kind, id, context.taken, actor, context.console),
    }
}

/// Checks that no LOGON is asked about: only users log on.
fn being_no_logon(wanted: &Wanted) -> Result<(), RequestFault>
    ensures { result ≡ being_no_logon wanted.now }
{
    match wanted {
        Wanted::Logon(_) => Err(RequestFault::Invalid(RequestKey::SubjectType)),
        Wanted::Command(_) | Wanted::Access { .. } => Ok(()),
    }
}

/// At a console where nobody is logged on only commands are entered.
fn by_nobody(
    name: &ConsoleName,
    action: &AccessAction,
    kind: &str,
    id: &str,
    context: &AccessContext,
) -> Result<AccessQuestion, RequestFault>
    ensures { result ≡ by_nobody name.now action.now kind.now id.now context.now }
{
    match action {
        AccessAction::Enter => {
            context.being_at(name)?;
            let asked = command_asked(kind, id, context.taken, None, Some(*name))?;
            being_no_logon(&asked.wanted)?;
            Ok(asked)
        }
        AccessAction::Have(_) | AccessAction::Logon => {
            Err(RequestFault::Invalid(RequestKey::SubjectType))
        }
    }
}

/// About an action on a resource, asked by a subject.
pub fn question_for(
    subject: &AccessSubject,
    action: &AccessAction,
    kind: &str,
    id: &str,
    context: &AccessContext,
) -> Result<AccessQuestion, RequestFault>
    ensures { result ≡ question_for subject.now action.now kind.now id.now context.now }
{
    match subject {
        AccessSubject::User(user) => question_about(action, kind, id, Some(*user), context),
        AccessSubject::Console(name) => by_nobody(name, action, kind, id, context),
    }
}

/// The question of a subject about an action, with the resource and the context of an element, or else with those that
/// all elements share.
pub fn question_by(
    subject: &AccessSubject,
    action: &AccessAction,
    element: &Value,
    shared: &Value,
) -> Result<AccessQuestion, RequestFault>
    ensures { result ≡ question_by subject.now action.now (view element.now) (view shared.now) }
{
    // Named for the prover, which otherwise does not find the types of a context.
    let (_nowhere, _no_unit): (Option<ConsoleName>, Option<UnitKindAt>) = (None, None);
    let resource = object_at(element, shared, RequestKey::Resource)?;
    let kind = text_at(resource, RequestKey::ResourceType)?;
    let id = text_at(resource, RequestKey::ResourceId)?;
    let context = context_at(element, shared)?;
    question_for(subject, action, kind, id, &context)
}

/// The question of an element; what it does not have is what all elements share.
pub fn question_of(element: &Value, shared: &Value) -> Result<AccessQuestion, RequestFault>
    ensures { result ≡ question_of (view element.now) (view shared.now) }
{
    // Named for the prover, which otherwise does not find the type of a command's fault.
    let _no_fault: Option<Fault> = None;
    let subject = subject_at(element, shared)?;
    let action = action_at(element, shared)?;
    question_by(&subject, &action, element, shared)
}
