//! The groups of a policy.
ghost use Rattle.std.specs.Prelude.{◌≡◌, ◌≤◌, [], OnOk, OnErr, length};
ghost use Rattle.opc_policy_members.specs.Members.{with_group, is_group};

use opc_names::bytes::Bytes;
use opc_names::name::GroupName;
use std::alloc::{AllocError, Global};
use std::collections::BTreeSet;
use std::marker::Model;

/// The groups of a policy, in order. They are kept by their texts, so that a name of any kind can be looked up.
#[derive(Drop)]
pub struct Groups {
    set: BTreeSet<Bytes<8>>,
}

impl Model for Groups {
    ghost use Rattle.std.specs.Prelude.{List, ℕ};

    ghost Value = { List (List ℕ) };

    ghost view = { λ g. g.set.keys };
}

impl Groups {
    /// No groups.
    pub fn new(alloc: Global) -> Self
        ensures { result ≡ [] }
    {
        Groups {
            set: BTreeSet::new(alloc),
        }
    }

    /// Whether a group has this name.
    pub fn contains(&self, name: &str) -> bool
        requires { length name.now ≤ 8 }
        ensures { result ≡ is_group self.now name.now }
    {
        self.set.contains(&Bytes::copied(name.as_bytes()))
    }

    /// One more group; one that is there stays.
    pub fn insert(&mut self, name: GroupName) -> Result<(), AllocError>
        ensures ok { OnOk result (self.new ≡ with_group name self.old) }
        ensures err { OnErr result (self.new ≡ self.old) }
    {
        self.set.insert(Bytes::copied(name.text().as_bytes()))?;
        Ok(())
    }
}
