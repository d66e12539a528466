//! Access lists.
ghost use Rattle.std.specs.Prelude.{◌≡◌, [], OnOk, OnErr, None, if◌then◌else◌};
ghost use Rattle.std.specs.Option.{option_copied, option_or};
ghost use Rattle.opc_policy_members.specs.Access.{
  entry_level,
  with_entry,
  highest_level,
  higher,
  higher_level,
  first_level,
  AreInOrder,
};
ghost use Rattle.opc_policy_members.specs.Places.{IsPlace};

use crate::entry::Entry;
use crate::user::User;
use opc_names::level::Level;
use opc_names::name::{ConsoleName, GroupName};
use std::alloc::{AllocError, Global};
use std::marker::Model;

/// An access list: one entry for an id and a console, in the order of the ids and then of the consoles.
#[derive(Drop)]
pub struct Entries {
    list: Vec<Entry>,
}

impl Model for Entries {
    ghost use Rattle.std.specs.Prelude.{List};
    ghost use Rattle.opc_policy_members.specs.declared.entry.Entry.{Entry};
    ghost use Rattle.opc_policy_members.specs.Access.{AreInOrder};

    ghost Value = { List Entry };

    ghost view = { λ e. e.list.items };

    ghost invariant = { λ e. AreInOrder e.list.items };
}

impl Entries {
    /// An empty access list.
    pub fn new(alloc: Global) -> Self
        ensures { result ≡ [] }
    {
        Entries {
            list: Vec::new(alloc),
        }
    }

    /// The entries, in order.
    pub fn as_slice(&self) -> &[Entry]
        ensures value { result.now ≡ self.now }
        ensures in_order { AreInOrder self.now }
    {
        self.list.as_slice()
    }

    /// The level of the entry for an id, which is the name of a user or a group, or `*`, at a console alone or, if none
    /// is given, at every console.
    pub fn level_of(&self, when: Option<&ConsoleName>, id: &str) -> Option<Level>
        ensures { result ≡ entry_level self.now (option_copied when.entry) id.now }
    {
        // by halves, since a long list is searched once for each group of a user
        match self
            .list
            .binary_search_by(|entry| entry.place_cmp_for(when, id))
        {
            Ok(at) => Some(self.list[at].level),
            Err(_) => None,
        }
    }

    /// Sets the level for an id and a console.
    pub fn set(&mut self, entry: Entry) -> Result<(), AllocError>
        ensures ok { OnOk result (self.new ≡ with_entry entry self.old) }
        ensures err { OnErr result (self.new ≡ self.old) }
    {
        match place_of(self.list.as_slice(), &entry) {
            Ok(at) => self.list[at] = entry,
            Err(at) => self.list.insert(at, entry)?,
        }
        Ok(())
    }

    /// The highest level of the entries for these groups.
    pub fn highest_level(&self, when: Option<&ConsoleName>, groups: &[GroupName]) -> Option<Level>
        ensures { result ≡ highest_level self.now (option_copied when.entry) groups.now }
    {
        let mut highest = None;
        for group in groups {
            highest = higher(highest, self.level_of(when, group.text()));
        }
        highest
    }

    /// The level of the first source that has one, for a user who is connected to these groups.
    pub fn first_level(
        &self,
        when: Option<&ConsoleName>,
        user: &User,
        groups: &[GroupName],
    ) -> Option<Level>
        ensures { result ≡ first_level self.now (option_copied when.entry) user.now groups.now }
    {
        let sources = EntryLevels {
            own: self.level_of(when, user.id.text()),
            groups: self.highest_level(when, groups),
            everyone: self.level_of(when, "*"),
        };
        sources.first_level(user)
    }
}

/// What an access list has for a user among the entries with one condition: the level of the user's own entry, the
/// highest one of the entries for the user's groups, and the level of the entry for everyone.
#[derive(Clone, Copy)]
pub struct EntryLevels {
    pub own: Option<Level>,
    pub groups: Option<Level>,
    pub everyone: Option<Level>,
}

impl EntryLevels {
    /// The level of the first of them that exists. A RESTRICTED user gets nothing from the entry for everyone.
    pub fn first_level(self, user: &User) -> Option<Level>
        ensures { result ≡ option_or self.own
            (option_or self.groups (if user.now.restricted then None else self.everyone)) }
    {
        let everyone = if user.restricted { None } else { self.everyone };
        self.own.or(self.groups).or(everyone)
    }
}

/// The place of the entry for the id and the console of another, or the place where it would stand.
fn place_of(entries: &[Entry], new: &Entry) -> Result<usize, usize>
    requires { AreInOrder entries.now }
    ensures { IsPlace new.now entries.now result }
{
    entries.binary_search_by(|entry| entry.place_cmp(new))
}

/// The higher of two levels.
pub(crate) fn higher_level(level: Level, other: Level) -> Level
    ensures { result ≡ higher_level level other }
{
    if level.includes(other) { level } else { other }
}

/// The higher of two levels, of those that are there.
pub fn higher(level: Option<Level>, other: Option<Level>) -> Option<Level>
    ensures { result ≡ higher level other }
{
    match (level, other) {
        (Some(level), Some(other)) => Some(higher_level(level, other)),
        (Some(level), None) => Some(level),
        (None, other) => other,
    }
}

impl Clone for Entries {
    ghost is_clone = { λ a b. b ≡ a };

    fn clone(&self) -> Result<Self, AllocError> {
        Ok(Entries {
            list: self.list.clone()?,
        })
    }
}
