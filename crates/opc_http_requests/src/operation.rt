//! Operations of administration, as JSON objects.
ghost use Rattle.std.specs.Prelude.{◌≡◌};
ghost use Rattle.serde_json.specs.View.{view};
ghost use Rattle.opc_http_requests.specs.Operations.{
  add_group,
  add_user,
  alt_user,
  alter,
  class_active,
  connect,
  define,
  define_console,
  del_user,
  delete,
  operation_by,
  operation_of,
  permit,
  permit_delete,
  remove,
};

use crate::body_key::BodyKey;
use crate::keys::{
    auth_at, class_at, digest_at, entry_at, flag_at, has_keys, level_at, mode_at, name_at, text_at,
    when_at,
};
use crate::refusal::InvalidPart;
use opc_machine::operation::Operation;
use serde_json::Value;

fn add_user(value: &Value) -> Result<Operation, InvalidPart>
    ensures { result ≡ add_user (view value.now) }
{
    let op = Operation::AddUser {
        id: name_at(value, BodyKey::Id)?,
        special: flag_at(value, BodyKey::Special)?,
        auditor: flag_at(value, BodyKey::Auditor)?,
        digest: digest_at(value, BodyKey::Digest)?,
        restricted: flag_at(value, BodyKey::Restricted)?,
    };
    has_keys(value, 6)?;
    Ok(op)
}

fn alt_user(value: &Value) -> Result<Operation, InvalidPart>
    ensures { result ≡ alt_user (view value.now) }
{
    let op = Operation::AltUser {
        id: name_at(value, BodyKey::Id)?,
        special: flag_at(value, BodyKey::Special)?,
        auditor: flag_at(value, BodyKey::Auditor)?,
        revoked: flag_at(value, BodyKey::Revoked)?,
        digest: digest_at(value, BodyKey::Digest)?,
        restricted: flag_at(value, BodyKey::Restricted)?,
    };
    has_keys(value, 7)?;
    Ok(op)
}

fn del_user(value: &Value) -> Result<Operation, InvalidPart>
    ensures { result ≡ del_user (view value.now) }
{
    let op = Operation::DelUser {
        id: name_at(value, BodyKey::Id)?,
    };
    has_keys(value, 2)?;
    Ok(op)
}

fn add_group(value: &Value) -> Result<Operation, InvalidPart>
    ensures { result ≡ add_group (view value.now) }
{
    let op = Operation::AddGroup {
        name: name_at(value, BodyKey::Name)?,
    };
    has_keys(value, 2)?;
    Ok(op)
}

fn connect(value: &Value) -> Result<Operation, InvalidPart>
    ensures { result ≡ connect (view value.now) }
{
    let op = Operation::Connect {
        user: name_at(value, BodyKey::User)?,
        group: name_at(value, BodyKey::Group)?,
    };
    has_keys(value, 3)?;
    Ok(op)
}

fn remove(value: &Value) -> Result<Operation, InvalidPart>
    ensures { result ≡ remove (view value.now) }
{
    let op = Operation::Remove {
        user: name_at(value, BodyKey::User)?,
        group: name_at(value, BodyKey::Group)?,
    };
    has_keys(value, 3)?;
    Ok(op)
}

fn define(value: &Value) -> Result<Operation, InvalidPart>
    ensures { result ≡ define (view value.now) }
{
    let op = Operation::RDefine {
        class: class_at(value, BodyKey::Class)?,
        pattern: name_at(value, BodyKey::Pattern)?,
        owner: name_at(value, BodyKey::Owner)?,
        uacc: level_at(value, BodyKey::Uacc)?,
        warning: flag_at(value, BodyKey::Warning)?,
    };
    has_keys(value, 6)?;
    Ok(op)
}

fn alter(value: &Value) -> Result<Operation, InvalidPart>
    ensures { result ≡ alter (view value.now) }
{
    let op = Operation::RAlter {
        class: class_at(value, BodyKey::Class)?,
        pattern: name_at(value, BodyKey::Pattern)?,
        owner: name_at(value, BodyKey::Owner)?,
        uacc: level_at(value, BodyKey::Uacc)?,
        warning: flag_at(value, BodyKey::Warning)?,
    };
    has_keys(value, 6)?;
    Ok(op)
}

fn delete(value: &Value) -> Result<Operation, InvalidPart>
    ensures { result ≡ delete (view value.now) }
{
    let op = Operation::RDelete {
        class: class_at(value, BodyKey::Class)?,
        pattern: name_at(value, BodyKey::Pattern)?,
    };
    has_keys(value, 3)?;
    Ok(op)
}

fn permit(value: &Value) -> Result<Operation, InvalidPart>
    ensures { result ≡ permit (view value.now) }
{
    let op = Operation::Permit {
        class: class_at(value, BodyKey::Class)?,
        pattern: name_at(value, BodyKey::Pattern)?,
        id: entry_at(value, BodyKey::Id)?,
        level: level_at(value, BodyKey::Level)?,
        when: when_at(value, BodyKey::When)?,
    };
    has_keys(value, 6)?;
    Ok(op)
}

fn permit_delete(value: &Value) -> Result<Operation, InvalidPart>
    ensures { result ≡ permit_delete (view value.now) }
{
    let op = Operation::PermitDelete {
        class: class_at(value, BodyKey::Class)?,
        pattern: name_at(value, BodyKey::Pattern)?,
        id: entry_at(value, BodyKey::Id)?,
        when: when_at(value, BodyKey::When)?,
    };
    has_keys(value, 5)?;
    Ok(op)
}

fn class_active(value: &Value) -> Result<Operation, InvalidPart>
    ensures { result ≡ class_active (view value.now) }
{
    let op = Operation::ClassActive {
        class: class_at(value, BodyKey::Class)?,
        active: flag_at(value, BodyKey::Active)?,
    };
    has_keys(value, 3)?;
    Ok(op)
}

fn define_console(value: &Value) -> Result<Operation, InvalidPart>
    ensures { result ≡ define_console (view value.now) }
{
    let op = Operation::DefineConsole {
        name: name_at(value, BodyKey::Name)?,
        auth: auth_at(value, BodyKey::Auth)?,
        mode: mode_at(value, BodyKey::Mode)?,
    };
    has_keys(value, 4)?;
    Ok(op)
}

fn operation_by(name: &str, value: &Value) -> Result<Operation, InvalidPart>
    ensures { result ≡ operation_by name.now (view value.now) }
{
    match name {
        "AddUser" => add_user(value),
        "AltUser" => alt_user(value),
        "DelUser" => del_user(value),
        "AddGroup" => add_group(value),
        "Connect" => connect(value),
        "Remove" => remove(value),
        "RDefine" => define(value),
        "RAlter" => alter(value),
        "RDelete" => delete(value),
        "Permit" => permit(value),
        "PermitDelete" => permit_delete(value),
        "ClassActive" => class_active(value),
        "DefineConsole" => define_console(value),
        // No other operation exists.
        _ => Err(InvalidPart::Value(BodyKey::Op)),
    }
}

// The operation that an object with exactly its keys is, or its first invalid key.
pub(crate) fn operation_of(value: &Value) -> Result<Operation, InvalidPart>
    ensures { result ≡ operation_of (view value.now) }
{
    operation_by(text_at(value, BodyKey::Op)?, value)
}
