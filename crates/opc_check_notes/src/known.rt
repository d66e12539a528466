//! The rows in effect, with what is looked up among them.
ghost use Rattle.std.specs.Prelude.{◌≡◌, IfOk, map, option_map};
ghost use Rattle.std.specs.BTreeMap.{get};
ghost use Rattle.opc_check_notes.specs.contracts.effect.RowKeyOrd.TheImpl.{ghosts as keys};
ghost use Rattle.opc_check_notes.specs.declared.effect.Kept.{Kept as KeptRow};
ghost use Rattle.opc_check_notes.specs.declared.effect.RowKey.TheVariants as key;
ghost use Rattle.opc_check_notes.specs.declared.connects.Side.TheVariants as side;
ghost use Rattle.opc_check_notes.specs.declared.names.Given.TheVariants as given;
ghost use Rattle.opc_check_notes.specs.Connects.{number_at, partners};
ghost use Rattle.opc_check_notes.specs.Digests.{first_with};
ghost use Rattle.opc_check_notes.specs.Effect.{AreInOrder, in_effect};
ghost use Rattle.opc_check_notes.specs.Entries.{groups_at};
ghost use Rattle.opc_check_notes.specs.Levels.{level_at};
ghost use Rattle.opc_check_notes.specs.Named.{HasNames, count, is_named};
ghost use Rattle.opc_check_notes.specs.Preceding.{ArePreceding};

use crate::connects::{Partners, Side, connects};
use crate::digests::{Digests, digests};
use crate::effect::{Kept, RowKey, RowsByKey, rows_in_effect};
use crate::entries::{EntryPlace, GroupEntries, group_entries};
use crate::kinds::ByKind;
use crate::names::{Given, SortedNames, copied, count, names};
use crate::preceding::{PatternsByKey, patterns_by_key, preceding};
use opc_names::bytes::Bytes;
use opc_names::level::Level;
use opc_names::name::{ConsoleName, GroupName, Pattern, UserId};
use opc_policy_members::row::Row;
use opc_terms::entry_id::EntryId;
use std::alloc::{AllocError, Global};
use std::marker::Model;

/// What is kept at a key.
fn kept_of(map: &RowsByKey, key: &RowKey) -> Option<Kept>
    ensures { result ≡ get keys.cmp map.now key.now }
{
    map.get(key).copied()
}

fn connect_key(user: &EntryId, group: &EntryId) -> RowKey
    ensures { result ≡ key.Connect user.now group.now }
{
    RowKey::Connect(copied(user.text()), copied(group.text()))
}

fn number(kept: Option<Kept>) -> Option<u64>
    ensures { result ≡ option_map (λ (k : KeptRow). k.number) kept }
{
    match kept {
        Some(kept) => Some(kept.number),
        None => None,
    }
}

/// The names of each kind that rows give.
#[derive(Drop)]
struct AllNames {
    users: SortedNames,
    revoked: SortedNames,
    special: SortedNames,
    connected: SortedNames,
    members: SortedNames,
    holders: SortedNames,
    auto_consoles: SortedNames,
    groups: SortedNames,
}

impl AllNames {
    fn of(alloc: Global, rows: &ByKind) -> Result<Self, AllocError>
        ensures users { IfOk result (λ names. HasNames rows.now given.User names.users) }
        ensures revoked { IfOk result (λ names. HasNames rows.now given.Revoked names.revoked) }
        ensures special { IfOk result (λ names. HasNames rows.now given.Special names.special) }
        ensures connected { IfOk result (λ names. HasNames rows.now given.ConnectedUser names.connected) }
        ensures members { IfOk result (λ names. HasNames rows.now given.ConnectedGroup names.members) }
        ensures holders { IfOk result (λ names. HasNames rows.now given.Holder names.holders) }
        ensures consoles { IfOk result (λ names. HasNames rows.now given.AutoConsole names.auto_consoles) }
        ensures groups { IfOk result (λ names. HasNames rows.now given.Group names.groups) }
    {
        let users = names(alloc, rows, Given::User)?;
        let revoked = names(alloc, rows, Given::Revoked)?;
        let special = names(alloc, rows, Given::Special)?;
        let connected = names(alloc, rows, Given::ConnectedUser)?;
        let members = names(alloc, rows, Given::ConnectedGroup)?;
        let holders = names(alloc, rows, Given::Holder)?;
        let auto_consoles = names(alloc, rows, Given::AutoConsole)?;
        let groups = names(alloc, rows, Given::Group)?;
        Ok(AllNames {
            users,
            revoked,
            special,
            connected,
            members,
            holders,
            auto_consoles,
            groups,
        })
    }
}

/// The rows in effect, and what is looked up among them, so that nothing is found by a walk through all rows.
#[derive(Drop)]
pub struct Known {
    rows: ByKind,
    by_key: RowsByKey,
    names: AllNames,
    digests: Digests,
    groups_of: Partners,
    users_of: Partners,
    group_entries: GroupEntries,
    patterns: PatternsByKey,
    specials: usize,
}

impl Model for Known {
    ghost use Rattle.std.specs.Prelude.{List, ◌≡◌};
    ghost use Rattle.opc_check_notes.specs.declared.numbered.NumberedRow.{NumberedRow};
    ghost use Rattle.opc_check_notes.specs.declared.names.Given.TheVariants as given;
    ghost use Rattle.opc_check_notes.specs.declared.connects.Side.TheVariants as side;
    ghost use Rattle.opc_check_notes.specs.Connects.{HasPartners};
    ghost use Rattle.opc_check_notes.specs.Digests.{HasDigests};
    ghost use Rattle.opc_check_notes.specs.Effect.{AreInOrder};
    ghost use Rattle.opc_check_notes.specs.Entries.{HasPlaced};
    ghost use Rattle.opc_check_notes.specs.Levels.{HasLevels, HasRows};
    ghost use Rattle.opc_check_notes.specs.Named.{HasNames, count};
    ghost use Rattle.opc_check_notes.specs.Preceding.{HasPatterns};

    ghost Value = { List NumberedRow };

    ghost view = { λ k. k.rows };

    ghost invariant = { λ k. AreInOrder k.rows
        × HasNames k.rows given.User k.names.users
        × HasNames k.rows given.Revoked k.names.revoked
        × HasNames k.rows given.Special k.names.special
        × HasNames k.rows given.ConnectedUser k.names.connected
        × HasNames k.rows given.ConnectedGroup k.names.members
        × HasNames k.rows given.Holder k.names.holders
        × HasNames k.rows given.AutoConsole k.names.auto_consoles
        × HasNames k.rows given.Group k.names.groups
        × HasDigests k.rows k.digests
        × HasRows k.rows k.by_key
        × HasLevels k.rows k.by_key
        × HasPartners k.rows side.User k.groups_of
        × HasPartners k.rows side.Group k.users_of
        × HasPlaced k.rows k.group_entries
        × HasPatterns k.rows k.patterns
        × (k.specials ≡ count k.rows given.Special) };
}

impl Known {
    /// What those of these rows give that are in effect.
    pub fn of(alloc: Global, rows: &[Row]) -> Result<Self, AllocError>
        ensures { IfOk result (λ known. known ≡ in_effect 1 rows.now) }
    {
        let (all, by_key) = rows_in_effect(alloc, rows)?;
        let rows = ByKind::from(alloc, all)?;
        let names = AllNames::of(alloc, &rows)?;
        let digests = digests(alloc, &rows)?;
        let groups_of = connects(alloc, &rows, Side::User)?;
        let users_of = connects(alloc, &rows, Side::Group)?;
        let group_entries = group_entries(alloc, &rows, &names.members)?;
        let patterns = patterns_by_key(alloc, &rows)?;
        let specials = count(&rows, Given::Special);
        Ok(Known {
            rows,
            by_key,
            names,
            digests,
            groups_of,
            users_of,
            group_entries,
            patterns,
            specials,
        })
    }

    /// The rows.
    pub fn rows(&self) -> &ByKind
        ensures { result.now ≡ self.now }
    {
        &self.rows
    }

    /// Whether there is a user with a console's name.
    pub fn has_own_user(&self, console: &ConsoleName) -> bool
        ensures { result ≡ is_named self.now given.User console.now }
    {
        self.names.users.has(console.text())
    }

    /// Whether an entry is for a revoked user.
    pub fn is_revoked(&self, id: &EntryId) -> bool
        ensures { result ≡ is_named self.now given.Revoked id.now }
    {
        self.names.revoked.has(id.text())
    }

    /// Whether the user with a console's name has SPECIAL.
    pub fn has_special_user(&self, console: &ConsoleName) -> bool
        ensures { result ≡ is_named self.now given.Special console.now }
    {
        self.names.special.has(console.text())
    }

    /// Whether a user is in a group.
    pub fn is_connected(&self, user: &UserId) -> bool
        ensures { result ≡ is_named self.now given.ConnectedUser user.now }
    {
        self.names.connected.has(user.text())
    }

    /// Whether somebody is in a group.
    pub fn has_members(&self, group: &GroupName) -> bool
        ensures { result ≡ is_named self.now given.ConnectedGroup group.now }
    {
        self.names.members.has(group.text())
    }

    /// Whether an entry is for a user.
    pub fn is_holder(&self, user: &UserId) -> bool
        ensures { result ≡ is_named self.now given.Holder user.now }
    {
        self.names.holders.has(user.text())
    }

    /// Whether an unattended console acts for a user.
    pub fn has_console(&self, user: &UserId) -> bool
        ensures { result ≡ is_named self.now given.AutoConsole user.now }
    {
        self.names.auto_consoles.has(user.text())
    }

    /// Whether an entry is for a group.
    pub fn is_group(&self, id: &EntryId) -> bool
        ensures { result ≡ is_named self.now given.Group id.now }
    {
        self.names.groups.has(id.text())
    }

    /// The first user with a digest.
    pub fn first_with(&self, digest: &[u8; 32]) -> Option<UserId>
        ensures { result ≡ first_with self.now digest.now }
    {
        self.digests.get(digest).copied()
    }

    /// The level of an entry.
    pub fn level_of(&self, key: &RowKey) -> Option<Level>
        ensures { result ≡ level_at self.now key.now }
    {
        match self.by_key.get(key) {
            Some(kept) => kept.level,
            None => None,
        }
    }

    /// The number of the row that connects a user with a group.
    pub fn number_of(&self, user: &EntryId, group: &EntryId) -> Option<u64>
        ensures { result ≡ number_at self.now user.now group.now }
    {
        number(kept_of(&self.by_key, &connect_key(user, group)))
    }

    /// The groups of a user, in the order of the connects, each after the user's id.
    pub fn groups_of(&self, user: &EntryId) -> &[(Bytes<8>, EntryId)]
        ensures { map (λ p. p.1) result.now ≡ partners self.now side.User user.now }
    {
        self.groups_of.at(&copied(user.text()))
    }

    /// The users of a group, in the same order, each after the group's id.
    pub fn users_of(&self, group: &EntryId) -> &[(Bytes<8>, EntryId)]
        ensures { map (λ p. p.1) result.now ≡ partners self.now side.Group group.now }
    {
        self.users_of.at(&copied(group.text()))
    }

    /// The groups with somebody in them that have an entry at a place, each after this place.
    pub fn groups_at(&self, place: &EntryPlace) -> &[(EntryPlace, EntryId)]
        ensures groups { map (λ p. p.1) result.now ≡ groups_at self.now place.now }
        ensures order { AreInOrder self.now }
    {
        self.group_entries.at(place)
    }

    /// The patterns of OPERCMDS that come before one and can cover what it covers.
    pub fn preceding(&self, alloc: Global, pattern: &Pattern) -> Result<Vec<Pattern>, AllocError>
        ensures { IfOk result (λ found. ArePreceding self.now pattern.now found.items) }
    {
        preceding(alloc, &self.patterns, pattern)
    }

    /// How many users have SPECIAL who are not revoked.
    pub fn specials(&self) -> usize
        ensures { result ≡ count self.now given.Special }
    {
        self.specials
    }
}
