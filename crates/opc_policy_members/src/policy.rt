//! A policy, and what the rows of a written one make of it.
ghost use Rattle.std.specs.Prelude.{◌≡◌, ◌≢◌, OnOk, OnErr, IfErr, IsOk, Ok, Err};

use crate::connect::{Connect, Connects};
use crate::entries::Entries;
use crate::entry::Entry;
use crate::groups::Groups;
use crate::profile::Profile;
use crate::profiles::Profiles;
use crate::row::Row;
use crate::user::User;
use crate::users::Users;
use opc_names::class::Class;
use opc_names::name::{GroupName, Pattern};
use opc_terms::entry_id::EntryId;
use opc_terms::fault::{Fault, Subject};
use std::alloc::Global;

/// Which classes are active (RACF guide: SETROPTS CLASSACT).
#[derive(Clone, Copy)]
pub struct ActiveClasses {
    pub console: bool,
    pub opercmds: bool,
}

impl ActiveClasses {
    ghost use Rattle.opc_policy_members.specs.Taken.{is_active, with_active};

    /// Whether a class is active.
    pub fn contains(&self, class: Class) -> bool
        ensures { result ≡ is_active self.now class }
    {
        match class {
            Class::Console => self.console,
            Class::Opercmds => self.opercmds,
        }
    }

    /// Sets whether a class is active.
    pub fn set(&mut self, class: Class, active: bool)
        ensures { self.new ≡ with_active class active self.old }
    {
        match class {
            Class::Console => self.console = active,
            Class::Opercmds => self.opercmds = active,
        }
    }
}

/// A policy: users, groups, the connects between them, profiles, and the active classes.
pub struct Policy {
    pub users: Users,
    pub groups: Groups,
    pub connects: Connects,
    pub profiles: Profiles,
    pub active: ActiveClasses,
}

// In a function of its own, so that no caller drops one part after another: that keeps its proof short.
impl Drop for Policy {
    fn drop(self) {
        let Policy {
            users: _,
            groups: _,
            connects: _,
            profiles: _,
            active: _,
        } = self;
    }
}

/// A row that is refused: its place among the rows that were to be applied, from 0 on, and why.
#[derive(Clone, Copy)]
pub struct RefusedAt {
    pub at: usize,
    pub fault: Fault,
}

impl Policy {
    ghost use Rattle.std.specs.Prelude.{IfOk};
    ghost use Rattle.opc_policy_members.specs.Taken.{
      IsRefusedAt,
      after_row,
      after_definition,
      has_holder,
      no_policy,
      policy_after,
    };
    ghost use Rattle.opc_terms.specs.declared.fault.Fault.TheVariants.{NoMemory};
    ghost use Rattle.opc_policy_members.specs.declared.row.Row.TheVariants as rows;

    /// A policy with nothing in it, and no class active.
    pub fn new(alloc: Global) -> Self
        ensures { result ≡ no_policy }
    {
        Policy {
            users: Users::new(alloc),
            groups: Groups::new(alloc),
            connects: Connects::new(alloc),
            profiles: Profiles::new(alloc),
            active: ActiveClasses {
                console: false,
                opercmds: false,
            },
        }
    }

    /// The policy that rows make, one after another.
    pub fn of_rows(alloc: Global, rows: &[Row]) -> Result<Self, Fault>
        ensures ok { IfOk result (λ policy. policy_after rows.now no_policy ≡ Ok policy) }
        ensures fault { IfErr result (λ fault. fault ≢ NoMemory → policy_after rows.now no_policy ≡ Err fault) }
    {
        let mut policy = Policy::new(alloc);
        match policy.take_all(alloc, rows) {
            Ok(()) => Ok(policy),
            Err(refused) => Err(refused.fault),
        }
    }

    /// Applies rows one after another, up to the first that is refused or whose allocation fails. Those before it stay
    /// applied.
    pub fn take_all(&mut self, alloc: Global, rows: &[Row]) -> Result<(), RefusedAt>
        ensures ok { OnOk result (policy_after rows.now self.old ≡ Ok self.new) }
        ensures fault { IfErr result (λ r. r.fault ≢ NoMemory → policy_after rows.now self.old ≡ Err r.fault) }
        ensures refused { IfErr result (λ r. r.fault ≢ NoMemory
            → IsRefusedAt self.old self.new rows.now r.at r.fault) }
    {
        for (at, row) in rows.iter().enumerate() {
            match self.take(alloc, row) {
                Ok(()) => {}
                Err(fault) => return Err(RefusedAt { at, fault }),
            }
        }
        Ok(())
    }

    /// Applies a row. A fault, a failed allocation included, leaves the policy as it was.
    pub fn take(&mut self, alloc: Global, row: &Row) -> Result<(), Fault>
        ensures ok { OnOk result (after_row row.now self.old ≡ Ok self.new) }
        ensures fault { IfErr result (λ fault. fault ≢ NoMemory → after_row row.now self.old ≡ Err fault) }
        ensures memory { IfErr result (λ fault. fault ≡ NoMemory → IsOk (after_row row.now self.old)) }
        ensures unchanged { OnErr result (self.new ≡ self.old) }
    {
        match *row {
            Row::Class { class, active } => {
                self.active.set(class, active);
                Ok(())
            }
            Row::Group { name } => self.take_group(name),
            Row::User(user) => self.take_user(user),
            Row::Connect { user, group } => self.take_connect(Connect { user, group }),
            Row::Console { .. } => Ok(()),
            Row::Profile {
                class,
                pattern,
                uacc,
                owner,
                warning,
            } => self.take_profile(Profile {
                class,
                pattern,
                owner,
                uacc,
                warning,
                entries: Entries::new(alloc),
            }),
            Row::Permit {
                class,
                pattern,
                id,
                level,
                when,
            } => self.take_permit(class, &pattern, Entry { id, when, level }),
        }
    }

    fn take_group(&mut self, name: GroupName) -> Result<(), Fault>
        ensures ok { OnOk result (after_row (rows.Group name) self.old ≡ Ok self.new) }
        ensures fault { IfErr result (λ fault. fault ≢ NoMemory → after_row (rows.Group name) self.old ≡ Err fault) }
        ensures memory { IfErr result (λ fault. fault ≡ NoMemory → IsOk (after_row (rows.Group name) self.old)) }
        ensures unchanged { OnErr result (self.new ≡ self.old) }
    {
        if self.users.contains(name.text()) {
            return Err(Fault::Exists(Subject::of(&name)));
        }
        self.groups.insert(name)?;
        Ok(())
    }

    fn take_user(&mut self, user: User) -> Result<(), Fault>
        ensures ok { OnOk result (after_row (rows.User user) self.old ≡ Ok self.new) }
        ensures fault { IfErr result (λ fault. fault ≢ NoMemory → after_row (rows.User user) self.old ≡ Err fault) }
        ensures memory { IfErr result (λ fault. fault ≡ NoMemory → IsOk (after_row (rows.User user) self.old)) }
        ensures unchanged { OnErr result (self.new ≡ self.old) }
    {
        if self.groups.contains(user.id.text()) {
            return Err(Fault::Exists(Subject::of(&user.id)));
        }
        self.users.insert(user)?;
        Ok(())
    }

    fn take_connect(&mut self, connect: Connect) -> Result<(), Fault>
        ensures ok { OnOk result (after_row (rows.Connect connect.user connect.group) self.old ≡ Ok self.new) }
        ensures fault { IfErr result (λ fault. fault ≢ NoMemory
            → after_row (rows.Connect connect.user connect.group) self.old ≡ Err fault) }
        ensures memory { IfErr result (λ fault. fault ≡ NoMemory
            → IsOk (after_row (rows.Connect connect.user connect.group) self.old)) }
        ensures unchanged { OnErr result (self.new ≡ self.old) }
    {
        if !self.users.contains(connect.user.text()) {
            return Err(Fault::Missing(Subject::of(&connect.user)));
        }
        if !self.groups.contains(connect.group.text()) {
            return Err(Fault::Missing(Subject::of(&connect.group)));
        }
        self.connects.insert(connect)?;
        Ok(())
    }

    fn take_profile(&mut self, profile: Profile) -> Result<(), Fault>
        ensures ok { OnOk result (after_definition profile self.old ≡ Ok self.new) }
        ensures fault { IfErr result (λ fault. fault ≢ NoMemory → after_definition profile self.old ≡ Err fault) }
        ensures memory { IfErr result (λ fault. fault ≡ NoMemory → IsOk (after_definition profile self.old)) }
        ensures unchanged { OnErr result (self.new ≡ self.old) }
    {
        if !self.users.contains(profile.owner.text()) {
            return Err(Fault::Missing(Subject::of(&profile.owner)));
        }
        self.profiles.define(profile)?;
        Ok(())
    }

    fn take_permit(&mut self, class: Class, pattern: &Pattern, entry: Entry) -> Result<(), Fault>
        ensures ok { OnOk result (after_row (rows.Permit class pattern.now entry.id entry.level entry.when)
            self.old ≡ Ok self.new) }
        ensures fault { IfErr result (λ fault. fault ≢ NoMemory
            → after_row (rows.Permit class pattern.now entry.id entry.level entry.when) self.old ≡ Err fault) }
        ensures memory { IfErr result (λ fault. fault ≡ NoMemory
            → IsOk (after_row (rows.Permit class pattern.now entry.id entry.level entry.when) self.old)) }
        ensures unchanged { OnErr result (self.new ≡ self.old) }
    {
        // A row for which both of them are missing names the profile.
        if !self.has_holder(&entry.id) && self.profiles.get(class, pattern).is_some() {
            return Err(Fault::Missing(Subject::of_entry(&entry.id)));
        }
        if !self.profiles.permit(class, pattern, entry)? {
            return Err(Fault::Missing(Subject::of(pattern)));
        }
        Ok(())
    }

    /// Whether an entry may be for this id: a user or a group that is stored, or everyone.
    fn has_holder(&self, id: &EntryId) -> bool
        ensures { result ≡ has_holder self.now id.now }
    {
        id.text() == "*" || self.users.contains(id.text()) || self.groups.contains(id.text())
    }
}
