//! The lists that the tables of a policy keep.
ghost use Rattle.std.specs.Prelude.{◌≡◌, false};
ghost use Rattle.opc_store_sql.specs.Steps.{Looks};
ghost use Rattle.opc_store_schema.specs.Asked.{Finds};
ghost use Rattle.opc_store_whole_policy.specs.Lists.{AreListsOf, AreMembersOf};

use opc_names::name::GroupName;
use opc_policy_members::connect::Connect;
use opc_policy_members::policy::ActiveClasses;
use opc_policy_members::profile::Profile;
use opc_policy_members::user::User;
use opc_rows::Rows;
use opc_store_profiles::profiles::profiles_on;
use opc_store_users::classes::actives_on;
use opc_store_users::connects::connects_on;
use opc_store_users::groups::groups_on;
use opc_store_users::users::users_on;
use opc_terms::store_fault::StoreFault;
use sqlite::{Alter, Connection};
use std::alloc::Global;

/// The groups, the users and their connects, each in its order.
#[derive(Drop)]
pub struct Members {
    pub groups: Rows<GroupName>,
    pub users: Rows<User>,
    pub connects: Rows<Connect>,
}

/// The lists of a policy, each in its order.
#[derive(Drop)]
pub struct Lists {
    pub active: ActiveClasses,
    pub members: Members,
    pub profiles: Vec<Profile>,
}

fn members_on<S: Alter>(alloc: Global, conn: &mut Connection<S>) -> Result<Members, StoreFault>
    requires { conn.old.in_transaction ≡ false }
    ensures mode { conn.new.in_transaction ≡ false }
    ensures looks { Looks S.Store conn.old conn.new result }
    ensures found { Finds S.Store conn.old conn.new result (λ s v. AreMembersOf s.policy v) }
{
    Ok(Members {
        groups: groups_on(alloc, conn)?,
        users: users_on(alloc, conn)?,
        connects: connects_on(alloc, conn)?,
    })
}

/// The lists of the policy, each loaded once. The policy and the rows of a policy file are both made from these.
pub fn lists_on<S: Alter>(alloc: Global, conn: &mut Connection<S>) -> Result<Lists, StoreFault>
    requires { conn.old.in_transaction ≡ false }
    ensures mode { conn.new.in_transaction ≡ false }
    ensures looks { Looks S.Store conn.old conn.new result }
    ensures found { Finds S.Store conn.old conn.new result (λ s v. AreListsOf s.policy v) }
{
    Ok(Lists {
        active: actives_on(conn)?,
        members: members_on(alloc, conn)?,
        profiles: profiles_on(alloc, conn)?,
    })
}
