//! Who has the right to an operation, and its outcome.
ghost use Rattle.std.specs.Prelude.{◌≡◌, true, Option};
ghost use Rattle.opc_board.specs.Invariants.{Name, console_at};
ghost use Rattle.opc_policy_members.specs.Profiles.{profile_of};
ghost use Rattle.opc_policy_members.specs.declared.policy.Policy.{Policy as ThePolicy};
ghost use Rattle.opc_policy_members.specs.declared.user.User.{User as TheUser};
ghost use Rattle.opc_state.specs.Asked.{Loads};
ghost use Rattle.opc_state.specs.Invariants.{IsKeyed};
ghost use Rattle.opc_machine.specs.Administration.{admin_outcome, definition};
ghost use Rattle.opc_machine.specs.Effects.{IsOutcome};
ghost use Rattle.opc_machine.specs.Rights.{is_owner, may_change, owns_changed, right_fault};
ghost use Rattle.opc_machine.specs.Rulings.{acting};
ghost use Rattle.opc_gate_admin.specs.Operations.{ComesTo, fault_without, is_of_profiles, owns_profile};

use crate::consoles::define_console;
use crate::members::{add_group, add_user, alt_user, class_active, connect, del_user, remove};
use crate::profiles::{permit, permit_delete, ralter, rdefine, rdelete};
use opc_board::rows::ConsoleRow;
use opc_gate_rulings::requester::{Asking, Requester, is_owner, is_special, requester_on};
use opc_machine::operation::Operation;
use opc_machine::outcome::{Outcome, refused};
use opc_names::class::Class;
use opc_names::level::Level;
use opc_names::name::{Pattern, UserId};
use opc_policy_members::connect::Connect;
use opc_policy_members::entries::Entries;
use opc_policy_members::entry::Entry;
use opc_policy_members::profile::Profile;
use opc_policy_members::user::User;
use opc_state::tables::Tables;
use opc_terms::fault::Fault;
use opc_terms::store_fault::StoreFault;
use std::alloc::Global;

// The profile that an operation changes, if its owner has the right to it. Everything else is for SPECIAL alone.
fn owned_profile(op: &Operation) -> Option<(Class, Pattern)>
    ensures owner { (p : ThePolicy) → (user : Option TheUser) →
        owns_changed p user op.now ≡ owns_profile p user result }
    ensures fault { right_fault op.now ≡ fault_without result }
{
    match op {
        Operation::RAlter { class, pattern, .. }
        | Operation::RDelete { class, pattern }
        | Operation::Permit { class, pattern, .. }
        | Operation::PermitDelete { class, pattern, .. } => Some((*class, *pattern)),
        // The other operations are about no profile, or define one, which has no owner yet.
        _ => None,
    }
}

fn right_fault(op: &Operation) -> Fault
    ensures { result ≡ right_fault op.now }
{
    match owned_profile(op) {
        Some(_) => Fault::NotOwner,
        None => Fault::NotSpecial,
    }
}

// Whether the acting user owns the profile of a class and a pattern. Nobody owns one that is not there.
fn owns<T: Tables>(
    tables: &mut T,
    alloc: Global,
    user: &Option<User>,
    class: Class,
    pattern: &Pattern,
) -> Result<bool, StoreFault>
    ensures { Loads T.meaning tables.old tables.new result
        (λ s owns. owns ≡ is_owner user.now (profile_of s.policy.profiles class pattern.now)) }
{
    match tables.definition(alloc, class, pattern)? {
        Some(profile) => Ok(is_owner(user, &profile)),
        None => Ok(false),
    }
}

// Whether the acting user has the right to an operation.
fn may_change<T: Tables>(
    tables: &mut T,
    alloc: Global,
    asking: &Requester,
    op: &Operation,
) -> Result<bool, StoreFault>
    ensures { Loads T.meaning tables.old tables.new result
        (λ s may. asking.now.user ≡ acting s asking.now.console → may ≡ may_change s asking.now.console op.now) }
{
    if is_special(&asking.user) {
        return Ok(true);
    }
    let Some((class, pattern)) = owned_profile(op) else {
        return Ok(false);
    };
    owns(tables, alloc, &asking.user, class, &pattern)
}

// The user that an operation gives.
fn given_user(
    id: UserId,
    special: bool,
    auditor: bool,
    revoked: bool,
    digest: Option<[u8; 32]>,
    restricted: bool,
) -> User
    ensures { result ≡ record {
      id = id;
      special = special;
      auditor = auditor;
      revoked = revoked;
      digest = digest;
      restricted = restricted;
    } }
{
    User {
        id,
        special,
        auditor,
        revoked,
        digest,
        restricted,
    }
}

// The profile that an operation defines, without an access list.
fn definition(
    alloc: Global,
    class: Class,
    pattern: Pattern,
    owner: UserId,
    uacc: Level,
    warning: bool,
) -> Profile
    ensures { result ≡ definition class pattern owner uacc warning }
{
    Profile {
        class,
        pattern,
        owner,
        uacc,
        warning,
        entries: Entries::new(alloc),
    }
}

// The outcome of an operation on a profile or its access list, if the acting user has the right to it.
fn profile_changed_on<T: Tables>(
    tables: &mut T,
    alloc: Global,
    op: &Operation,
) -> Result<Outcome, StoreFault>
    requires { is_of_profiles op.now ≡ true }
    ensures { ComesTo T.meaning tables.old tables.new result op.now }
{
    match *op {
        Operation::RDefine {
            class,
            pattern,
            owner,
            uacc,
            warning,
        } => {
            let profile = definition(alloc, class, pattern, owner, uacc, warning);
            rdefine(tables, alloc, profile)
        }
        Operation::RAlter {
            class,
            pattern,
            owner,
            uacc,
            warning,
        } => {
            let profile = definition(alloc, class, pattern, owner, uacc, warning);
            ralter(tables, alloc, profile)
        }
        Operation::RDelete { class, pattern } => rdelete(tables, alloc, class, &pattern),
        Operation::Permit {
            class,
            pattern,
            id,
            level,
            when,
        } => permit(tables, alloc, class, &pattern, Entry { id, when, level }),
        Operation::PermitDelete {
            class,
            pattern,
            id,
            when,
        } => permit_delete(tables, alloc, class, &pattern, &id, when),
        // The caller passes operations on profiles alone.
        _ => unreachable!(),
    }
}

// The outcome of an operation, if the acting user has the right to it. Each operation is one function: tests in the
// order of its definition, and at the end one edit, or none if nothing changes. For most of them, the lemma `one_edit`
// states what the policy becomes.
fn changed_on<T: Tables>(
    tables: &mut T,
    alloc: Global,
    op: &Operation,
) -> Result<Outcome, StoreFault>
    ensures { ComesTo T.meaning tables.old tables.new result op.now }
{
    match *op {
        Operation::AddUser {
            id,
            special,
            auditor,
            digest,
            restricted,
        } => {
            let user = given_user(id, special, auditor, false, digest, restricted);
            add_user(tables, alloc, user)
        }
        Operation::AltUser {
            id,
            special,
            auditor,
            revoked,
            digest,
            restricted,
        } => {
            let user = given_user(id, special, auditor, revoked, digest, restricted);
            alt_user(tables, alloc, user)
        }
        Operation::DelUser { id } => del_user(tables, alloc, id),
        Operation::AddGroup { name } => add_group(tables, alloc, name),
        Operation::Connect { user, group } => connect(tables, alloc, Connect { user, group }),
        Operation::Remove { user, group } => remove(tables, alloc, Connect { user, group }),
        Operation::ClassActive { class, active } => class_active(tables, alloc, class, active),
        Operation::DefineConsole { name, auth, mode } => {
            define_console(tables, alloc, name, auth, mode)
        }
        Operation::RDefine { .. }
        | Operation::RAlter { .. }
        | Operation::RDelete { .. }
        | Operation::Permit { .. }
        | Operation::PermitDelete { .. } => profile_changed_on(tables, alloc, op),
    }
}

/// The outcome of an operation of administration at a console, whose row is loaded: who may act (E10 to E13), the right
/// (E50, E51), and what the operation itself refuses. It loads, by key, what the operation names: no access list, no
/// policy, no board. A profile's definition is looked up at most three times, in an RAlter by an owner: for the right,
/// for the operation, and by the cache. Each is one look-up by key; to pass the first on, an edit would have to state
/// whether its profile is new, through the contracts of the tables, the store and the cache.
pub fn admin_on<T: Tables>(
    tables: &mut T,
    alloc: Global,
    console: Option<ConsoleRow>,
    op: &Operation,
) -> Result<Outcome, StoreFault>
    ensures { Loads T.meaning tables.old tables.new result
        (λ s o. (name : Name) → console ≡ console_at s.board name → IsKeyed s
        → IsOutcome s (admin_outcome s name op.now) o) }
{
    let requester = match requester_on(tables, alloc, console)? {
        Asking::By(requester) => requester,
        Asking::Refused(refusal) => return Ok(Outcome::Refused(refusal)),
    };
    if !may_change(tables, alloc, &requester, op)? {
        return refused(right_fault(op), None);
    }
    changed_on(tables, alloc, op)
}
