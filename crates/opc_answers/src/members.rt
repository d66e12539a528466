//! Users, each with the groups of the user.
ghost use Rattle.std.specs.Prelude.{◌≡◌, ◌≤◌, [], IfOk, OnOk, length, map};
ghost use Rattle.std.specs.List.Sorted.{IsStrictlySortedBy};
ghost use Rattle.opc_policy_members.specs.Members.{connect_cmp, groups_of};
ghost use Rattle.opc_answers.specs.Made.{
  IsSplit,
  connect_after,
  connects_after,
  connects_of,
  is_before,
  is_up_to,
  member_of,
};

use opc_names::name::{GroupName, UserId};
use opc_policy_members::connect::Connect;
use opc_policy_members::row::Row;
use opc_policy_members::user::User;
use opc_rows::Rows;
use std::alloc::{AllocError, Global};
use std::collections::BTreeSet;

/// A user, and the groups that the user is connected to, in order.
#[derive(Drop)]
pub struct UserWithGroups {
    pub user: User,
    pub groups: Rows<GroupName>,
}

/// Keeps the connect of a row.
fn keep_connect(connects: &mut BTreeSet<Connect>, row: &Row) -> Result<(), AllocError>
    ensures { OnOk result (connects.new.keys ≡ connect_after row.now connects.old.keys) }
{
    match *row {
        Row::Connect { user, group } => {
            connects.insert(Connect { user, group })?;
            Ok(())
        }
        // No other row connects a user.
        _ => Ok(()),
    }
}

fn connects_in_order(
    alloc: Global,
    connects: &BTreeSet<Connect>,
) -> Result<Vec<Connect>, AllocError>
    ensures connects { IfOk result (λ list. list.items ≡ connects.now.keys) }
    ensures in_order { IfOk result (λ list. IsStrictlySortedBy connect_cmp list.items) }
{
    connects.iter().copied().collect(alloc)
}

/// The connects that rows make, in the order of users, then groups.
pub fn connects_made(alloc: Global, rows: &[Row]) -> Result<Vec<Connect>, AllocError>
    ensures connects { IfOk result (λ list. list.items ≡ connects_after rows.now []) }
    ensures in_order { IfOk result (λ list. IsStrictlySortedBy connect_cmp list.items) }
{
    let mut connects = BTreeSet::new(alloc);
    for row in rows {
        keep_connect(&mut connects, row)?;
    }
    connects_in_order(alloc, &connects)
}

fn is_before(connect: &Connect, user: &UserId) -> bool
    ensures { result ≡ is_before user.now connect.now }
{
    connect.user < *user
}

fn is_up_to(connect: &Connect, user: &UserId) -> bool
    ensures { result ≡ is_up_to user.now connect.now }
{
    !(*user < connect.user)
}

// The place of the first connect that is not before those of a user.
fn first_of(connects: &[Connect], user: &UserId) -> usize
    requires { IsStrictlySortedBy connect_cmp connects.now }
    ensures bound { result ≤ length connects.now }
    ensures split { IsSplit (is_before user.now) connects.now result }
{
    connects.partition_point(|connect| is_before(connect, user))
}

// The place of the first connect of a later user.
fn after_of(connects: &[Connect], user: &UserId) -> usize
    requires { IsStrictlySortedBy connect_cmp connects.now }
    ensures bound { result ≤ length connects.now }
    ensures split { IsSplit (is_up_to user.now) connects.now result }
{
    connects.partition_point(|connect| is_up_to(connect, user))
}

/// The connects of a user, which stand side by side.
fn connects_of<'a>(connects: &'a [Connect], user: &UserId) -> &'a [Connect]
    requires { IsStrictlySortedBy connect_cmp connects.now }
    ensures { result.now ≡ connects_of connects.now user.now }
{
    &connects[first_of(connects, user)..after_of(connects, user)]
}

/// The groups that a user is connected to, in order.
fn groups_in(
    alloc: Global,
    connects: &[Connect],
    user: &UserId,
) -> Result<Rows<GroupName>, AllocError>
    requires { IsStrictlySortedBy connect_cmp connects.now }
    ensures { IfOk result (λ groups. groups ≡ groups_of connects.now user.now) }
{
    let mut groups = Rows::new(alloc);
    for connect in connects_of(connects, user) {
        groups.push(connect.group)?;
    }
    Ok(groups)
}

/// Each of these users with the groups of the user.
pub fn members_made(
    alloc: Global,
    users: &[User],
    connects: &[Connect],
) -> Result<Rows<UserWithGroups>, AllocError>
    requires { IsStrictlySortedBy connect_cmp connects.now }
    ensures { IfOk result (λ members. members ≡ map (member_of connects.now) users.now) }
{
    let mut members = Rows::new(alloc);
    for user in users {
        let groups = groups_in(alloc, connects, &user.id)?;
        members.push(UserWithGroups {
            user: *user,
            groups,
        })?;
    }
    Ok(members)
}
