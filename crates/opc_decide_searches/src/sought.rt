//! What a search looks for.
ghost use Rattle.std.specs.Prelude.{◌≡◌};
ghost use Rattle.serde_json.specs.View.{view};
ghost use Rattle.opc_decide_searches.specs.Sought.{
  actions_on,
  resources_of,
  sought_at,
  sought_by,
  type_at,
  type_of,
};

use opc_decide_requests::action::AccessAction;
use opc_decide_requests::body::being_body;
use opc_decide_requests::fault::RequestFault;
use opc_decide_requests::key::RequestKey;
use opc_decide_requests::parts::{object_at, text_at};
use opc_decide_requests::subject::{SubjectKind, kind_at};
use opc_names::level::Level;
use opc_terms::fault::Fault;
use serde_json::Value;

/// Which part of a question a search looks for.
#[derive(Clone, Copy)]
pub enum SearchKind {
    Subject,
    Action,
    Resource,
}

/// The type of a resource.
#[derive(Clone, Copy)]
pub(crate) enum ResourceType {
    Opercmds,
    Console,
    Command,
}

/// The subjects of a type, the actions on a resource of a type, or the consoles, as resources.
#[derive(Clone, Copy)]
pub(crate) enum Sought {
    Subjects(SubjectKind),
    Actions(ResourceType),
    Consoles,
}

const ON_OPERCMDS: [AccessAction; 4] = [
    AccessAction::Have(Level::Alter),
    AccessAction::Have(Level::Control),
    AccessAction::Have(Level::Read),
    AccessAction::Have(Level::Update),
];

const ON_CONSOLE: [AccessAction; 5] = [
    AccessAction::Have(Level::Alter),
    AccessAction::Have(Level::Control),
    AccessAction::Logon,
    AccessAction::Have(Level::Read),
    AccessAction::Have(Level::Update),
];

const ON_COMMANDS: [AccessAction; 1] = [AccessAction::Enter];

/// The actions on a resource of a type, by their names.
pub(crate) fn actions_on(kind: ResourceType) -> &'static [AccessAction]
    ensures { result.now ≡ actions_on kind }
{
    match kind {
        ResourceType::Opercmds => &ON_OPERCMDS,
        ResourceType::Console => &ON_CONSOLE,
        ResourceType::Command => &ON_COMMANDS,
    }
}

fn type_of(text: &str) -> Option<ResourceType>
    ensures { result ≡ type_of text.now }
{
    match text {
        "OPERCMDS" => Some(ResourceType::Opercmds),
        "CONSOLE" => Some(ResourceType::Console),
        "command" => Some(ResourceType::Command),
        // No resource has another type.
        _ => None,
    }
}

/// The type of the resource of a body.
fn type_at(body: &Value) -> Result<ResourceType, RequestFault>
    ensures { result ≡ type_at (view body.now) }
{
    let resource = object_at(body, body, RequestKey::Resource)?;
    let text = text_at(resource, RequestKey::ResourceType)?;
    type_of(text).ok_or(RequestFault::Invalid(RequestKey::ResourceType))
}

/// Only consoles are searched for: there is no end of other resources.
fn resources_of(kind: ResourceType) -> Result<Sought, RequestFault>
    ensures { result ≡ resources_of kind }
{
    match kind {
        ResourceType::Console => Ok(Sought::Consoles),
        ResourceType::Opercmds | ResourceType::Command => {
            Err(RequestFault::Invalid(RequestKey::ResourceType))
        }
    }
}

fn sought_by(kind: SearchKind, body: &Value) -> Result<Sought, RequestFault>
    ensures { result ≡ sought_by kind (view body.now) }
{
    // Named for the prover, which otherwise does not find the type of a command's fault.
    let _no_fault: Option<Fault> = None;
    match kind {
        SearchKind::Subject => Ok(Sought::Subjects(kind_at(body)?)),
        SearchKind::Action => Ok(Sought::Actions(type_at(body)?)),
        SearchKind::Resource => resources_of(type_at(body)?),
    }
}

/// What the body of a search looks for.
pub(crate) fn sought_at(kind: SearchKind, body: &Value) -> Result<Sought, RequestFault>
    ensures { result ≡ sought_at kind (view body.now) }
{
    // Named for the prover, which otherwise does not find the type of a command's fault.
    let _no_fault: Option<Fault> = None;
    being_body(body)?;
    sought_by(kind, body)
}
