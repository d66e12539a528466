//! The name that a refused row may mean.
ghost use Rattle.std.specs.Prelude.{◌≡◌, ◌++◌, IfOk, OnOk, map};
ghost use Rattle.std.specs.List.{filter_map};
ghost use Rattle.std.specs.Option.{option_map};
ghost use Rattle.opc_cli_commands.specs.Nearest.{nearest};
ghost use Rattle.opc_check.specs.NearNames.{
  holders_of,
  name_in,
  names_of,
  near_connected,
  near_name,
  near_permitted,
};

use opc_cli_commands::nearest;
use opc_names::class::Class;
use opc_names::level::Level;
use opc_names::name::{ConsoleName, GroupName, Pattern, UserId};
use opc_policy_members::policy::Policy;
use opc_policy_members::row::Row;
use opc_terms::entry_id::EntryId;
use std::alloc::{AllocError, Global};

/// Whose name it is.
#[derive(Clone, Copy)]
pub(crate) enum Holder {
    User,
    Group,
}

/// The name of such a holder, if a row has one and the policy has it.
fn name_in<'a>(holder: Holder, policy: &Policy, row: &'a Row) -> Option<&'a str>
    ensures { option_map (λ name. name.now) result ≡ name_in holder policy.now row.now }
{
    match (holder, row) {
        (Holder::User, Row::User(user)) if policy.users.contains(user.id.text()) => {
            Some(user.id.text())
        }
        (Holder::Group, Row::Group { name }) if policy.groups.contains(name.text()) => {
            Some(name.text())
        }
        // No other row makes one.
        _ => None,
    }
}

/// Adds the names of such holders that rows have.
fn add_names<'a>(
    names: &mut Vec<&'a str>,
    holder: Holder,
    policy: &Policy,
    rows: &'a [Row],
) -> Result<(), AllocError>
    ensures { OnOk result (map (λ name. name.now) names.new.items
        ≡ map (λ name. name.now) names.old.items ++ filter_map (name_in holder policy.now) rows.now) }
{
    for row in rows {
        if let Some(name) = name_in(holder, policy, row) {
            names.push(name)?;
        }
    }
    Ok(())
}

fn names_of<'a>(
    alloc: Global,
    holder: Holder,
    policy: &Policy,
    stored: &'a [Row],
    rows: &'a [Row],
) -> Result<Vec<&'a str>, AllocError>
    ensures { IfOk result (λ names. map (λ name. name.now) names.items
        ≡ names_of holder policy.now stored.now rows.now) }
{
    let mut names = Vec::new(alloc);
    add_names(&mut names, holder, policy, stored)?;
    add_names(&mut names, holder, policy, rows)?;
    Ok(names)
}

/// The names of users and groups.
fn holders_of<'a>(
    alloc: Global,
    policy: &Policy,
    stored: &'a [Row],
    rows: &'a [Row],
) -> Result<Vec<&'a str>, AllocError>
    ensures { IfOk result (λ names. map (λ name. name.now) names.items
        ≡ holders_of policy.now stored.now rows.now) }
{
    let mut names = names_of(alloc, Holder::User, policy, stored, rows)?;
    add_names(&mut names, Holder::Group, policy, stored)?;
    add_names(&mut names, Holder::Group, policy, rows)?;
    Ok(names)
}

fn near_connected<'a>(
    alloc: Global,
    policy: &Policy,
    stored: &'a [Row],
    rows: &'a [Row],
    user: UserId,
    group: GroupName,
) -> Result<Option<&'a str>, AllocError>
    ensures { IfOk result (λ name. option_map (λ name. name.now) name
        ≡ near_connected policy.now stored.now rows.now user group) }
{
    if policy.users.contains(user.text()) {
        let groups = names_of(alloc, Holder::Group, policy, stored, rows)?;
        Ok(nearest(group.text(), &groups))
    } else {
        let users = names_of(alloc, Holder::User, policy, stored, rows)?;
        Ok(nearest(user.text(), &users))
    }
}

fn near_owner<'a>(
    alloc: Global,
    policy: &Policy,
    stored: &'a [Row],
    rows: &'a [Row],
    owner: UserId,
) -> Result<Option<&'a str>, AllocError>
    ensures { IfOk result (λ name. option_map (λ name. name.now) name
        ≡ nearest owner (names_of Holder.User policy.now stored.now rows.now)) }
{
    let users = names_of(alloc, Holder::User, policy, stored, rows)?;
    Ok(nearest(owner.text(), &users))
}

/// Of a permit of a profile, if the policy has the profile.
fn near_permitted<'a>(
    alloc: Global,
    policy: &Policy,
    stored: &'a [Row],
    rows: &'a [Row],
    class: Class,
    pattern: Pattern,
    id: EntryId,
) -> Result<Option<&'a str>, AllocError>
    ensures { IfOk result (λ name. option_map (λ name. name.now) name
        ≡ near_permitted policy.now stored.now rows.now class pattern id) }
{
    if policy.profiles.get(class, &pattern).is_none() {
        return Ok(None);
    }
    let holders = holders_of(alloc, policy, stored, rows)?;
    Ok(nearest(id.text(), &holders))
}

/// The name that a row may mean, if one that it needs is missing: the nearest that the policy has of rows that are
/// stored and of others.
pub(crate) fn near_name<'a>(
    alloc: Global,
    policy: &Policy,
    stored: &'a [Row],
    rows: &'a [Row],
    row: &Row,
) -> Result<Option<&'a str>, AllocError>
    ensures { IfOk result (λ name. option_map (λ name. name.now) name
        ≡ near_name policy.now stored.now rows.now row.now) }
{
    // Named for the prover, which otherwise cannot infer the types of a permit.
    let _nothing: (Option<Level>, Option<ConsoleName>) = (None, None);
    match *row {
        Row::Class { .. } | Row::Group { .. } | Row::User(_) | Row::Console { .. } => Ok(None),
        Row::Connect { user, group } => { near_connected(alloc, policy, stored, rows, user, group) }
        Row::Profile { owner, .. } => near_owner(alloc, policy, stored, rows, owner),
        Row::Permit {
            class,
            pattern,
            id,
            ..
        } => near_permitted(alloc, policy, stored, rows, class, pattern, id),
    }
}
