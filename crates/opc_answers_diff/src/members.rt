//! The users of two policies, side by side.
ghost use Rattle.std.specs.Prelude.{◌≡◌, ℕ, List, IfOk, OnOk, filter, map};
ghost use Rattle.std.specs.BTreeMap.{get};
ghost use Rattle.std.specs.Option.{option_or};
ghost use Rattle.opc_policy_members.specs.Members.{name_cmp};
ghost use Rattle.opc_answers_diff.specs.Members.{
  change_by_id,
  changed_ids,
  ids_of_both,
  ids_with,
  if_is,
  is_changed,
  is_same_digest,
  is_same_flag,
  is_same_member,
  is_same_user,
  member_change,
  member_in,
  members_of_both,
};

use opc_answers::members::UserWithGroups;
use opc_answers::room::Room;
use opc_names::name::UserId;
use opc_policy_members::user::User;
use opc_rows::Rows;
use std::alloc::{AllocError, Global};
use std::collections::{BTreeMap, BTreeSet};

/// A user before and after, on each side that has the user.
#[derive(Drop)]
pub struct MemberChange {
    pub id: UserId,
    pub before: Option<UserWithGroups>,
    pub after: Option<UserWithGroups>,
}

/// The users of one side.
type MembersById = BTreeMap<UserId, UserWithGroups>;

fn copied(alloc: Global, member: &UserWithGroups) -> Result<UserWithGroups, AllocError>
    ensures { IfOk result (λ copy. copy ≡ member.now) }
{
    let groups = Rows::from_slice(alloc, member.groups.as_slice())?;
    Ok(UserWithGroups {
        user: member.user,
        groups,
    })
}

/// Keeps a user, unless one with the id is kept.
fn keep_member(
    alloc: Global,
    by_id: &mut MembersById,
    member: &UserWithGroups,
) -> Result<(), AllocError>
    ensures { OnOk result ((id : List ℕ) → get name_cmp by_id.new id
        ≡ option_or (get name_cmp by_id.old id) (if_is id member.now)) }
{
    if by_id.contains_key(&member.user.id) {
        return Ok(());
    }
    let copy = copied(alloc, member)?;
    by_id.insert(member.user.id, copy)?;
    Ok(())
}

fn members_by_id(alloc: Global, members: &[UserWithGroups]) -> Result<MembersById, AllocError>
    ensures { IfOk result (λ by_id. (id : List ℕ) → get name_cmp by_id id ≡ member_in members.now id) }
{
    let mut by_id = BTreeMap::new(alloc);
    for member in members {
        keep_member(alloc, &mut by_id, member)?;
    }
    Ok(by_id)
}

/// The user of an id.
fn member_by_id(
    alloc: Global,
    by_id: &MembersById,
    id: &UserId,
) -> Result<Option<UserWithGroups>, AllocError>
    ensures { IfOk result (λ member. member ≡ get name_cmp by_id.now id.now) }
{
    match by_id.get(id) {
        Some(member) => Ok(Some(copied(alloc, member)?)),
        None => Ok(None),
    }
}

fn change_by_id(
    alloc: Global,
    before: &MembersById,
    after: &MembersById,
    id: &UserId,
) -> Result<MemberChange, AllocError>
    ensures { IfOk result (λ change. change ≡ change_by_id before.now after.now id.now) }
{
    let before = member_by_id(alloc, before, id)?;
    let after = member_by_id(alloc, after, id)?;
    Ok(MemberChange {
        id: *id,
        before,
        after,
    })
}

/// The users of some ids.
fn changes_by_id(
    alloc: Global,
    before: &MembersById,
    after: &MembersById,
    ids: &[UserId],
) -> Result<Rows<MemberChange>, AllocError>
    ensures { IfOk result (λ list. list ≡ map (change_by_id before.now after.now) ids.now) }
{
    let mut list = Rows::new(alloc);
    for id in ids {
        list.push(change_by_id(alloc, before, after, id)?)?;
    }
    Ok(list)
}

/// The users of some ids on both sides.
fn changes_of(
    alloc: Global,
    before: &Room,
    after: &Room,
    ids: &[UserId],
) -> Result<Rows<MemberChange>, AllocError>
    ensures { IfOk result (λ list. list ≡ map (member_change before.now.members after.now.members) ids.now) }
{
    let old = members_by_id(alloc, before.members.as_slice())?;
    let new = members_by_id(alloc, after.members.as_slice())?;
    changes_by_id(alloc, &old, &new, ids)
}

/// Adds the ids of users.
fn add_ids(ids: &mut BTreeSet<UserId>, members: &[UserWithGroups]) -> Result<(), AllocError>
    ensures { OnOk result (ids.new.keys ≡ ids_with members.now ids.old.keys) }
{
    for member in members {
        ids.insert(member.user.id)?;
    }
    Ok(())
}

fn in_order(alloc: Global, ids: &BTreeSet<UserId>) -> Result<Vec<UserId>, AllocError>
    ensures { IfOk result (λ list. list.items ≡ ids.now.keys) }
{
    ids.iter().copied().collect(alloc)
}

/// The ids of the users of either side, in order.
fn ids_of_both(
    alloc: Global,
    before: &[UserWithGroups],
    after: &[UserWithGroups],
) -> Result<Vec<UserId>, AllocError>
    ensures { IfOk result (λ ids. ids.items ≡ ids_of_both before.now after.now) }
{
    let mut ids = BTreeSet::new(alloc);
    add_ids(&mut ids, before)?;
    add_ids(&mut ids, after)?;
    in_order(alloc, &ids)
}

/// The users of either side, by id.
pub fn members_of_both(
    alloc: Global,
    before: &Room,
    after: &Room,
) -> Result<Rows<MemberChange>, AllocError>
    ensures { IfOk result (λ list. list ≡ members_of_both before.now after.now) }
{
    let ids = ids_of_both(alloc, before.members.as_slice(), after.members.as_slice())?;
    changes_of(alloc, before, after, ids.as_slice())
}

fn is_same_flag(one: bool, other: bool) -> bool
    ensures { result ≡ is_same_flag one other }
{
    if one { other } else { !other }
}

fn is_same_digest(one: Option<[u8; 32]>, other: Option<[u8; 32]>) -> bool
    ensures { result ≡ is_same_digest one other }
{
    match (one, other) {
        (Some(digest), Some(other)) => digest == other,
        (None, None) => true,
        // One of them has no digest.
        _ => false,
    }
}

/// Whether all attributes of a user are the same.
fn is_same_user(one: &User, other: &User) -> bool
    ensures { result ≡ is_same_user one.now other.now }
{
    one.id == other.id
        && is_same_flag(one.special, other.special)
        && is_same_flag(one.auditor, other.auditor)
        && is_same_flag(one.revoked, other.revoked)
        && is_same_digest(one.digest, other.digest)
        && is_same_flag(one.restricted, other.restricted)
}

/// Whether a user is the same, with the same groups.
fn is_same_member(one: &UserWithGroups, other: &UserWithGroups) -> bool
    ensures { result ≡ is_same_member one.now other.now }
{
    is_same_user(&one.user, &other.user) && one.groups.as_slice() == other.groups.as_slice()
}

fn is_changed(change: &MemberChange) -> bool
    ensures { result ≡ is_changed change.now }
{
    match (&change.before, &change.after) {
        (Some(one), Some(other)) => !is_same_member(one, other),
        // One side does not have the user.
        _ => true,
    }
}

/// The ids of those who are not the same on both sides.
fn changed_ids(alloc: Global, members: &[MemberChange]) -> Result<Vec<UserId>, AllocError>
    ensures { IfOk result (λ ids. ids.items ≡ changed_ids members.now) }
{
    let mut ids = Vec::new(alloc);
    for member in members {
        if is_changed(member) {
            ids.push(member.id)?;
        }
    }
    Ok(ids)
}

/// Those of the users of either side who are not the same on both.
pub fn changed_of_both(
    alloc: Global,
    before: &Room,
    after: &Room,
    members: &[MemberChange],
) -> Result<Rows<MemberChange>, AllocError>
    requires { members.now ≡ members_of_both before.now after.now }
    ensures { IfOk result (λ list. list ≡ filter is_changed members.now) }
{
    let ids = changed_ids(alloc, members)?;
    changes_of(alloc, before, after, ids.as_slice())
}
