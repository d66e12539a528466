//! What is in the way of a row, in words.
ghost use Rattle.std.specs.Prelude.{◌≡◌, IfOk, string_bytes};
ghost use Rattle.opc_check.specs.Problems.{obstacle_text};
ghost use Rattle.opc_policy_members.specs.declared.row.Row.TheVariants as rows;

use opc_names::class::Class;
use opc_names::level::Level;
use opc_names::name::{ConsoleName, GroupName, Pattern, UserId};
use opc_policy_members::policy::Policy;
use opc_policy_members::row::Row;
use opc_terms::entry_id::EntryId;
use std::alloc::{AllocError, Global};

fn connect_text(
    alloc: Global,
    policy: &Policy,
    user: UserId,
    group: GroupName,
) -> Result<String, AllocError>
    ensures { IfOk result (λ text. string_bytes text ≡ obstacle_text policy.now (rows.Connect user group)) }
{
    if policy.users.contains(user.text()) {
        format!(in alloc; "no group {}", group.text())
    } else {
        format!(in alloc; "no user {}", user.text())
    }
}

fn permit_text(
    alloc: Global,
    policy: &Policy,
    class: Class,
    pattern: Pattern,
    id: EntryId,
    level: Level,
    when: Option<ConsoleName>,
) -> Result<String, AllocError>
    ensures { IfOk result (λ text. string_bytes text
        ≡ obstacle_text policy.now (rows.Permit class pattern id level when)) }
{
    let _unused = (level, when);
    if policy.profiles.get(class, &pattern).is_some() {
        format!(in alloc; "no user or group {}", id.text())
    } else {
        format!(in alloc; "no profile {} {}", class.text(), pattern.text())
    }
}

/// What is in the way of a row, by the policy at that point.
pub(crate) fn obstacle_text(alloc: Global, policy: &Policy, row: &Row) -> Result<String, AllocError>
    ensures { IfOk result (λ text. string_bytes text ≡ obstacle_text policy.now row.now) }
{
    match *row {
        Row::Class { .. } | Row::Console { .. } => Ok(String::new(alloc)),
        Row::Group { name } => format!(in alloc; "a user has the name {}", name.text()),
        Row::User(user) => format!(in alloc; "a group has the name {}", user.id.text()),
        Row::Connect { user, group } => connect_text(alloc, policy, user, group),
        Row::Profile { owner, .. } => format!(in alloc; "no user {}", owner.text()),
        Row::Permit {
            class,
            pattern,
            id,
            level,
            when,
        } => permit_text(alloc, policy, class, pattern, id, level, when),
    }
}
