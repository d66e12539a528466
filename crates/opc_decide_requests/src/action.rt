//! What is asked for: the action of a question.
ghost use Rattle.std.specs.Prelude.{◌≡◌};
ghost use Rattle.serde_json.specs.View.{view};
ghost use Rattle.opc_decide_requests.specs.Actions.{
  action_at,
  action_in,
  action_text,
  level_asked,
  named_action,
};

use crate::fault::RequestFault;
use crate::key::RequestKey;
use crate::parts::{object_at, text_at};
use opc_names::level::Level;
use serde_json::Value;

/// An action: to have a level of access, to log on, or to enter a command.
#[derive(Clone, Copy)]
pub enum AccessAction {
    Have(Level),
    Logon,
    Enter,
}

/// READ to ALTER: whoever has NONE has no access.
fn level_asked(level: Level) -> Option<AccessAction>
    ensures { result ≡ level_asked level }
{
    if level.includes(Level::Read) {
        Some(AccessAction::Have(level))
    } else {
        None
    }
}

fn named_action(name: &str) -> Option<AccessAction>
    ensures { result ≡ named_action name.now }
{
    match name {
        "LOGON" => Some(AccessAction::Logon),
        "enter" => Some(AccessAction::Enter),
        // The other actions are levels.
        _ => level_asked(Level::read(name)?),
    }
}

fn action_in(action: &Value) -> Result<AccessAction, RequestFault>
    ensures { result ≡ action_in (view action.now) }
{
    let name = text_at(action, RequestKey::ActionName)?;
    named_action(name).ok_or(RequestFault::Invalid(RequestKey::ActionName))
}

/// The action of an element, or else the one that all elements share.
pub fn action_at(element: &Value, shared: &Value) -> Result<AccessAction, RequestFault>
    ensures { result ≡ action_at (view element.now) (view shared.now) }
{
    action_in(object_at(element, shared, RequestKey::Action)?)
}

impl AccessAction {
    /// Its name.
    pub fn text(&self) -> &str
        ensures { result.now ≡ action_text self.now }
    {
        match self {
            AccessAction::Have(level) => level.text(),
            AccessAction::Logon => "LOGON",
            AccessAction::Enter => "enter",
        }
    }
}
