//! The connects of a policy.
ghost use Rattle.std.specs.Prelude.{◌≡◌, [], List, IfOk, OnOk, OnErr};
ghost use Rattle.opc_policy_members.specs.Members.{with_connect, groups_of};

use opc_names::name::{GroupName, UserId};
use std::alloc::{AllocError, Global};
use std::collections::BTreeSet;
use std::marker::Model;

/// A user's membership in a group (RACF guide: CONNECT). Connects are in the order of users, then groups.
#[derive(Clone, Copy, PartialEq, Eq, PartialOrd, Ord)]
pub struct Connect {
    pub user: UserId,
    pub group: GroupName,
}

/// The connects of a policy, in order.
#[derive(Drop)]
pub struct Connects {
    set: BTreeSet<Connect>,
}

impl Model for Connects {
    ghost use Rattle.std.specs.Prelude.{List};
    ghost use Rattle.opc_policy_members.specs.declared.connect.Connect.{Connect};

    ghost Value = { List Connect };

    ghost view = { λ c. c.set.keys };
}

impl Connects {
    /// No connects.
    pub fn new(alloc: Global) -> Self
        ensures { result ≡ [] }
    {
        Connects {
            set: BTreeSet::new(alloc),
        }
    }

    /// One more connect; one that is there stays.
    pub fn insert(&mut self, connect: Connect) -> Result<(), AllocError>
        ensures ok { OnOk result (self.new ≡ with_connect connect self.old) }
        ensures err { OnErr result (self.new ≡ self.old) }
    {
        self.set.insert(connect)?;
        Ok(())
    }

    /// The groups that a user is connected to, in order.
    pub fn groups_of(&self, alloc: Global, user: &UserId) -> Result<Vec<GroupName>, AllocError>
        ensures { IfOk result (λ groups. groups.items ≡ groups_of self.now user.now) }
    {
        self.set
            .iter()
            .filter(|connect| connect.user == *user)
            .map(|connect| connect.group)
            .collect(alloc)
    }
}
