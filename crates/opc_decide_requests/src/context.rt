//! Where access is asked for: the context of a question.
ghost use Rattle.std.specs.Prelude.{◌≡◌};
ghost use Rattle.serde_json.specs.View.{view};
ghost use Rattle.opc_decide_requests.specs.Contexts.{
  being_at,
  console_in,
  context_at,
  context_in,
  no_context,
  taken_in,
};

use crate::fault::RequestFault;
use crate::key::RequestKey;
use crate::parts::{being_object, member_of, text_if};
use opc_answers::taken::kind_of;
use opc_import::field::read_name;
use opc_names::name::ConsoleName;
use opc_terms::fault::Fault;
use opc_terms::unit_kind::UnitKindAt;
use serde_json::Value;

/// The console, if one is named, and what the unit of a command is taken for.
#[derive(Clone, Copy)]
pub struct AccessContext {
    pub console: Option<ConsoleName>,
    pub taken: UnitKindAt,
}

fn console_in(context: &Value) -> Result<Option<ConsoleName>, RequestFault>
    ensures { result ≡ console_in (view context.now) }
{
    let Some(name) = text_if(context, RequestKey::Console)? else {
        return Ok(None);
    };
    match read_name(name) {
        Some(console) => Ok(Some(console)),
        None => Err(RequestFault::Invalid(RequestKey::Console)),
    }
}

fn taken_in(context: &Value) -> Result<UnitKindAt, RequestFault>
    ensures { result ≡ taken_in (view context.now) }
{
    match text_if(context, RequestKey::Taken)? {
        Some(text) => kind_of(text).ok_or(RequestFault::Invalid(RequestKey::Taken)),
        None => Ok(UnitKindAt::Absent),
    }
}

fn context_in(context: &Value) -> Result<AccessContext, RequestFault>
    ensures { result ≡ context_in (view context.now) }
{
    // Named for the prover, which otherwise does not find the type of a command's fault.
    let _no_fault: Option<Fault> = None;
    being_object(context, RequestKey::Context)?;
    let console = console_in(context)?;
    let taken = taken_in(context)?;
    Ok(AccessContext { console, taken })
}

/// The context of an element or the one that all elements share, if there is one.
pub fn context_at(element: &Value, shared: &Value) -> Result<AccessContext, RequestFault>
    ensures { result ≡ context_at (view element.now) (view shared.now) }
{
    match member_of(element, shared, RequestKey::Context) {
        Some(context) => context_in(context),
        None => Ok(AccessContext {
            console: None,
            taken: UnitKindAt::Absent,
        }),
    }
}

impl AccessContext {
    /// Checks that no other console is named.
    pub(crate) fn being_at(&self, name: &ConsoleName) -> Result<(), RequestFault>
        ensures { result ≡ being_at name.now self.now.console }
    {
        match &self.console {
            Some(console) if console != name => Err(RequestFault::Invalid(RequestKey::Console)),
            Some(_) | None => Ok(()),
        }
    }
}
