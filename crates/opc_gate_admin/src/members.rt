//! What is done to users, groups, connects and classes.
ghost use Rattle.std.specs.Prelude.{◌≡◌, false};
ghost use Rattle.opc_state.specs.Asked.{Loads};
ghost use Rattle.opc_state.specs.Invariants.{IsKeyed};
ghost use Rattle.opc_machine.specs.declared.operation.Operation.TheVariants as operation;
ghost use Rattle.opc_machine.specs.Administration.{has_name, is_in_use, policy_changed};
ghost use Rattle.opc_machine.specs.Effects.{IsOutcome};
ghost use Rattle.opc_gate_admin.specs.Operations.{policy_outcome};

use crate::outcomes::{done_by, exists, missing};
use opc_machine::outcome::{Outcome, done, refused};
use opc_machine::same::same_user;
use opc_names::class::Class;
use opc_names::name::{GroupName, UserId};
use opc_policy_members::connect::Connect;
use opc_policy_members::user::User;
use opc_state::change::Edit;
use opc_state::tables::Tables;
use opc_terms::fault::{Fault, Subject};
use opc_terms::store_fault::StoreFault;
use std::alloc::Global;

fn has_name<T: Tables>(tables: &mut T, name: &str) -> Result<bool, StoreFault>
    ensures { Loads T.meaning tables.old tables.new result (λ s there. there ≡ has_name s.policy name.now) }
{
    Ok(tables.has_user(name)? || tables.has_group(name)?)
}

// Whether a user is in use: named by a connect, as an owner, or by an access list, or logged on at a console.
fn is_in_use<T: Tables>(tables: &mut T, alloc: Global, id: &UserId) -> Result<bool, StoreFault>
    ensures { Loads T.meaning tables.old tables.new result (λ s used. used ≡ is_in_use s.policy s.board id.now) }
{
    if tables.is_named(id)? {
        return Ok(true);
    }
    let consoles = tables.consoles_of(alloc, id)?;
    Ok(!consoles.as_slice().is_empty())
}

/// A user who is not revoked, unless a user or a group has the name (E52).
pub(crate) fn add_user<T: Tables>(
    tables: &mut T,
    alloc: Global,
    user: User,
) -> Result<Outcome, StoreFault>
    requires { user.revoked ≡ false }
    ensures { Loads T.meaning tables.old tables.new result (λ s o.
        IsOutcome s (policy_outcome s (policy_changed s.board
        (operation.AddUser user.id user.special user.auditor user.digest user.restricted) s.policy)) o) }
{
    if has_name(tables, user.id.text())? {
        return exists(&user.id);
    }
    done_by(alloc, Edit::PutUser(user))
}

/// All but the id of a user who is stored (E53).
pub(crate) fn alt_user<T: Tables>(
    tables: &mut T,
    alloc: Global,
    user: User,
) -> Result<Outcome, StoreFault>
    ensures { Loads T.meaning tables.old tables.new result (λ s o. IsKeyed s →
        IsOutcome s (policy_outcome s (policy_changed s.board
        (operation.AltUser user.id user.special user.auditor user.revoked user.digest user.restricted) s.policy)) o) }
{
    match tables.user(alloc, &user.id)? {
        None => missing(&user.id),
        Some(stored) if same_user(&stored, &user) => done(alloc, Vec::new(alloc), None),
        Some(_) => done_by(alloc, Edit::PutUser(user)),
    }
}

/// A user who is stored (E53) and not in use (E55) is removed.
pub(crate) fn del_user<T: Tables>(
    tables: &mut T,
    alloc: Global,
    id: UserId,
) -> Result<Outcome, StoreFault>
    ensures { Loads T.meaning tables.old tables.new result (λ s o.
        IsOutcome s (policy_outcome s (policy_changed s.board (operation.DelUser id) s.policy)) o) }
{
    if !tables.has_user(id.text())? {
        return missing(&id);
    }
    if is_in_use(tables, alloc, &id)? {
        return refused(Fault::InUse(Subject::of(&id)), None);
    }
    done_by(alloc, Edit::RemoveUser(id))
}

/// A group, unless a user or a group has the name (E52).
pub(crate) fn add_group<T: Tables>(
    tables: &mut T,
    alloc: Global,
    name: GroupName,
) -> Result<Outcome, StoreFault>
    ensures { Loads T.meaning tables.old tables.new result (λ s o.
        IsOutcome s (policy_outcome s (policy_changed s.board (operation.AddGroup name) s.policy)) o) }
{
    if has_name(tables, name.text())? {
        return exists(&name);
    }
    done_by(alloc, Edit::PutGroup(name))
}

/// Connects a stored user to a stored group (E53), unless the user is already connected to it (E52, of the group).
pub(crate) fn connect<T: Tables>(
    tables: &mut T,
    alloc: Global,
    connect: Connect,
) -> Result<Outcome, StoreFault>
    ensures { Loads T.meaning tables.old tables.new result (λ s o.
        IsOutcome s (policy_outcome s (policy_changed s.board (operation.Connect connect.user connect.group) s.policy))
        o) }
{
    if !tables.has_user(connect.user.text())? {
        return missing(&connect.user);
    }
    if !tables.has_group(connect.group.text())? {
        return missing(&connect.group);
    }
    if tables.is_connected(&connect.user, connect.group.text())? {
        return exists(&connect.group);
    }
    done_by(alloc, Edit::PutConnect(connect))
}

/// The user, the group and the connect are stored (E53), and the connect is removed.
pub(crate) fn remove<T: Tables>(
    tables: &mut T,
    alloc: Global,
    connect: Connect,
) -> Result<Outcome, StoreFault>
    ensures { Loads T.meaning tables.old tables.new result (λ s o.
        IsOutcome s (policy_outcome s (policy_changed s.board (operation.Remove connect.user connect.group) s.policy))
        o) }
{
    if !tables.has_user(connect.user.text())? {
        return missing(&connect.user);
    }
    if !tables.has_group(connect.group.text())? {
        return missing(&connect.group);
    }
    if !tables.is_connected(&connect.user, connect.group.text())? {
        return missing(&connect.group);
    }
    done_by(alloc, Edit::RemoveConnect(connect))
}

/// A class becomes active or inactive.
pub(crate) fn class_active<T: Tables>(
    tables: &mut T,
    alloc: Global,
    class: Class,
    active: bool,
) -> Result<Outcome, StoreFault>
    ensures { Loads T.meaning tables.old tables.new result (λ s o.
        IsOutcome s (policy_outcome s (policy_changed s.board (operation.ClassActive class active) s.policy)) o) }
{
    if tables.is_active(class)? == active {
        return done(alloc, Vec::new(alloc), None);
    }
    done_by(alloc, Edit::SetActive(class, active))
}
