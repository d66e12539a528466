//! The policy, made of the lists that the tables keep.
ghost use Rattle.std.specs.Prelude.{◌≡◌, false, IfOk};
ghost use Rattle.opc_store_sql.specs.Order.{Rises};
ghost use Rattle.opc_store_sql.specs.Steps.{Looks};
ghost use Rattle.opc_policy_members.specs.Members.{name_cmp, user_cmp, connect_cmp};
ghost use Rattle.opc_policy_members.specs.Profiles.{profile_cmp};
ghost use Rattle.opc_store_schema.specs.Asked.{Finds};

use crate::lists::lists_on;
use opc_names::name::GroupName;
use opc_policy_members::connect::{Connect, Connects};
use opc_policy_members::groups::Groups;
use opc_policy_members::policy::Policy;
use opc_policy_members::profile::Profile;
use opc_policy_members::profiles::Profiles;
use opc_policy_members::user::User;
use opc_policy_members::users::Users;
use opc_terms::store_fault::StoreFault;
use sqlite::{Alter, Connection};
use std::alloc::{AllocError, Global};

// Each of these puts a list that is in order, member after member, into a collection that keeps that order.
fn groups_of(alloc: Global, list: &[GroupName]) -> Result<Groups, AllocError>
    ensures { Rises name_cmp list.now → IfOk result (λ v. v ≡ list.now) }
{
    let mut groups = Groups::new(alloc);
    for name in list {
        groups.insert(*name)?;
    }
    Ok(groups)
}

fn users_of(alloc: Global, list: &[User]) -> Result<Users, AllocError>
    ensures { Rises user_cmp list.now → IfOk result (λ v. v ≡ list.now) }
{
    let mut users = Users::new(alloc);
    for user in list {
        users.insert(*user)?;
    }
    Ok(users)
}

fn connects_of(alloc: Global, list: &[Connect]) -> Result<Connects, AllocError>
    ensures { Rises connect_cmp list.now → IfOk result (λ v. v ≡ list.now) }
{
    let mut connects = Connects::new(alloc);
    for connect in list {
        connects.insert(*connect)?;
    }
    Ok(connects)
}

fn profiles_of(alloc: Global, list: Vec<Profile>) -> Result<Profiles, AllocError>
    ensures { Rises profile_cmp list.items → IfOk result (λ v. v ≡ list.items) }
{
    let mut profiles = Profiles::new(alloc);
    for profile in list {
        profiles.define(profile)?;
    }
    Ok(profiles)
}

/// The whole policy.
pub fn policy_on<S: Alter>(alloc: Global, conn: &mut Connection<S>) -> Result<Policy, StoreFault>
    requires { conn.old.in_transaction ≡ false }
    ensures mode { conn.new.in_transaction ≡ false }
    ensures looks { Looks S.Store conn.old conn.new result }
    ensures found { Finds S.Store conn.old conn.new result (λ s v. v ≡ s.policy) }
{
    let lists = lists_on(alloc, conn)?;
    Ok(Policy {
        users: users_of(alloc, lists.members.users.as_slice())?,
        groups: groups_of(alloc, lists.members.groups.as_slice())?,
        connects: connects_of(alloc, lists.members.connects.as_slice())?,
        profiles: profiles_of(alloc, lists.profiles)?,
        active: lists.active,
    })
}
