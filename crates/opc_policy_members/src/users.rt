//! The users of a policy.
ghost use Rattle.std.specs.Prelude.{◌≡◌, ◌≤◌, [], OnOk, OnErr, is_some, length};
ghost use Rattle.std.specs.Option.{option_copied};
ghost use Rattle.opc_policy_members.specs.Members.{user_of, with_user};

use crate::user::User;
use opc_names::bytes::Bytes;
use opc_names::name::UserId;
use std::alloc::{AllocError, Global};
use std::collections::BTreeMap;
use std::marker::Model;

/// The users of a policy, in the order of their ids. They are kept by the texts of their ids, so that a name of any
/// kind can be looked up.
#[derive(Drop)]
pub struct Users {
    by_id: BTreeMap<Bytes<8>, User>,
}

impl Model for Users {
    ghost use Rattle.std.specs.Prelude.{List};
    ghost use Rattle.std.specs.BTreeMap.{values};
    ghost use Rattle.opc_policy_members.specs.declared.user.User.{User};
    ghost use Rattle.opc_policy_members.specs.Stored.{AreById};

    ghost Value = { List User };

    ghost view = { λ u. values u.by_id };

    ghost invariant = { λ u. AreById u.by_id.entries };
}

impl Users {
    /// No users.
    pub fn new(alloc: Global) -> Self
        ensures { result ≡ [] }
    {
        Users {
            by_id: BTreeMap::new(alloc),
        }
    }

    /// The user of an id.
    pub fn get(&self, id: &UserId) -> Option<&User>
        ensures { option_copied result ≡ user_of self.now id.now }
    {
        self.by_id.get(&Bytes::copied(id.text().as_bytes()))
    }

    /// Whether a user has this name.
    pub fn contains(&self, name: &str) -> bool
        requires { length name.now ≤ 8 }
        ensures { result ≡ is_some (user_of self.now name.now) }
    {
        self.by_id.contains_key(&Bytes::copied(name.as_bytes()))
    }

    /// One more user, who replaces the one with the same id.
    pub fn insert(&mut self, user: User) -> Result<(), AllocError>
        ensures ok { OnOk result (self.new ≡ with_user user self.old) }
        ensures err { OnErr result (self.new ≡ self.old) }
    {
        let id = Bytes::copied(user.id.text().as_bytes());
        self.by_id.insert(id, user)?;
        Ok(())
    }
}
